//! A duplicate of what is recovered.
ghost use Rattle.std.specs.Prelude.{◌≡◌, ◌≤◌, All, IfErr, IfOk, IsErrOf, length};
ghost use Rattle.rm_apply.specs.Recover.{FindsGap, IfGap, outside, until_of};
ghost use Rattle.rm_base.specs.Outside.{Rose};
ghost use Rattle.rm_catalog.specs.{Rules.{HasDatabase, IsCatalog}, Trees.{nodes}};
ghost use Rattle.rm_evidence.specs.Place.{FitsPlace};
ghost use Rattle.rm_history.specs.Tree.{IsThere};
ghost use Rattle.rm_piece.specs.Valid.{IsPiece};
ghost use Rattle.rm_dup.specs.Duplicate.{IsDuplicate};

use crate::copying::{copies, numbers};
use crate::database::Duplicate;
use crate::recording::records_of_copies;
use rm_apply::{RecoverFault, outside, recover_from};
use rm_base::{IncNo, Scn, Store};
use rm_catalog::Catalog;
use rm_evidence::InPlace;
use std::alloc::Global;
use std::thread::Threads;

/// A duplicate of the database as it was until SCN `s` of incarnation `i`, by all that is at hand: a new
/// database with the number `dbid`, at least 1, of the datafiles that exist there. It has incarnation 1 alone,
/// which begins where the source's began and ends at `s`, as many redo threads as the source began with, its
/// latest moment, and no other settings. `Until` where `s` lies outside the incarnation. `Gap` where a block is
/// not told: that of the least datafile and block. `StoreFault` where the store failed, and counted it. The
/// blocks are put together by so many channels, 1 to 16; each number gives the same.
pub fn duplicate<R: Threads + Sync, D: Store>(
    rt: &R,
    alloc: Global,
    catalog: &Catalog,
    store: &mut D,
    place: &InPlace,
    i: IncNo,
    s: Scn,
    dbid: u32,
    channels: u32,
) -> Result<Duplicate, RecoverFault>
    requires database { HasDatabase catalog.now }
    requires place { FitsPlace catalog.now place.now }
    requires there { IsThere (nodes catalog.now) i }
    requires dbid { 1 ≤ dbid }
    ensures until { until_of result ≡ outside (nodes catalog.now) i s }
    ensures duplicate { IfOk result (IsDuplicate (D.held store.old) catalog.now place.now i s dbid) }
    ensures pieces { IfOk result (λ d. All IsPiece d.pieces) }
    ensures records { IfOk result (λ d. IsCatalog d.records) }
    ensures few { IfOk result (λ d. length d.from ≤ 64) }
    ensures gap { IfErr result (λ x. IfGap x (FindsGap (D.held store.old) catalog.now place.now i s)) }
    ensures same { D.held store.new ≡ D.held store.old }
    ensures failed { IsErrOf result RecoverFault.StoreFault → Rose (D.faults store.old) (D.faults store.new) }
    ensures never_falls { D.faults store.old ≤ D.faults store.new }
{
    if let Some((low, high)) = outside(catalog.tree(), i, s) {
        return Err(RecoverFault::Until(low, high));
    }
    let copy = place.copied(alloc)?;
    duplicate_from(rt, alloc, catalog, store, copy, i, s, dbid, channels)
}

/// The duplicate that `duplicate` gives. What is in place is moved into what is at hand: no row of it is copied.
pub fn duplicate_from<R: Threads + Sync, D: Store>(
    rt: &R,
    alloc: Global,
    catalog: &Catalog,
    store: &mut D,
    place: InPlace,
    i: IncNo,
    s: Scn,
    dbid: u32,
    channels: u32,
) -> Result<Duplicate, RecoverFault>
    requires database { HasDatabase catalog.now }
    requires place { FitsPlace catalog.now place }
    requires there { IsThere (nodes catalog.now) i }
    requires dbid { 1 ≤ dbid }
    ensures until { until_of result ≡ outside (nodes catalog.now) i s }
    ensures duplicate { IfOk result (IsDuplicate (D.held store.old) catalog.now place i s dbid) }
    ensures pieces { IfOk result (λ d. All IsPiece d.pieces) }
    ensures records { IfOk result (λ d. IsCatalog d.records) }
    ensures few { IfOk result (λ d. length d.from ≤ 64) }
    ensures gap { IfErr result (λ x. IfGap x (FindsGap (D.held store.old) catalog.now place i s)) }
    ensures same { D.held store.new ≡ D.held store.old }
    ensures failed { IsErrOf result RecoverFault.StoreFault → Rose (D.faults store.old) (D.faults store.new) }
    ensures never_falls { D.faults store.old ≤ D.faults store.new }
{
    // They are valid.
    let _ = catalog.records();
    let recovered = match recover_from(rt, alloc, catalog, store, place, i, s, channels) {
        Ok(recovered) => recovered,
        Err(fault) => return Err(fault),
    };
    let files = recovered.files.as_slice();
    let pieces = copies(alloc, dbid, s, files)?;
    let records = records_of_copies(alloc, catalog, dbid, s, files, pieces.as_slice())?;
    let from = numbers(alloc, files)?;
    Ok(Duplicate {
        pieces,
        records,
        from,
        skipped: recovered.skipped,
    })
}
