//! Recovery, restore and preview of what is in place, which stays: an equal one is moved into what is at hand.
ghost use Rattle.std.specs.Prelude.{◌≡◌, ◌≤◌, IfErr, IfOk, IsErrOf, length};
ghost use Rattle.rm_base.specs.Outside.{Rose};
ghost use Rattle.rm_catalog.specs.{Rules.{HasDatabase}, Trees.{nodes}};
ghost use Rattle.rm_evidence.specs.Place.{FitsPlace};
ghost use Rattle.rm_history.specs.Tree.{IsThere};
ghost use Rattle.rm_apply.specs.{Preview.{Previews}, Recover.{FindsGap, IfGap, TellsAll, outside, until_of}, Restore.{Restores}};

use crate::fault::RecoverFault;
use crate::origin::Origin;
use crate::previewing::preview_from;
use crate::range::outside;
use crate::recovering::{Recovered, recover_from};
use crate::restoring::restore_from;
use rm_base::{Bad, FileNo, IncNo, Scn, Seq, Store};
use rm_catalog::Catalog;
use rm_evidence::InPlace;
use rm_plan::Gap;
use std::alloc::Global;
use std::thread::Threads;

/// The datafiles that exist at SCN `s` on the path of incarnation `i`, by all that is at hand: each holds
/// every change below `s` and none at or above it. `Until` where `s` lies outside the incarnation. `Gap`
/// where a block is not told: that of the least datafile and block, behind which nothing more could be
/// known. All memory is taken before the first part is applied. By so many channels, at least one, the objects
/// are digested and decoded, the bytes of so many held at a time, the datafiles are planned, and the parts are
/// applied; each number gives the same.
pub fn recover<R: Threads + Sync, D: Store>(
    rt: &R,
    alloc: Global,
    catalog: &Catalog,
    store: &mut D,
    place: &InPlace,
    i: IncNo,
    s: Scn,
    channels: u32,
) -> Result<Recovered, RecoverFault>
    requires database { HasDatabase catalog.now }
    requires place { FitsPlace catalog.now place.now }
    requires there { IsThere (nodes catalog.now) i }
    ensures until { until_of result ≡ outside (nodes catalog.now) i s }
    ensures files { IfOk result (TellsAll (D.held store.old) catalog.now place.now i s) }
    ensures few { IfOk result (λ recovered. length recovered.files ≤ 64) }
    ensures gap { IfErr result (λ x. IfGap x (FindsGap (D.held store.old) catalog.now place.now i s)) }
    ensures same { D.held store.new ≡ D.held store.old }
    ensures failed { IsErrOf result RecoverFault.StoreFault → Rose (D.faults store.old) (D.faults store.new) }
    ensures never_falls { D.faults store.old ≤ D.faults store.new }
{
    if let Some((low, high)) = outside(catalog.tree(), i, s) {
        return Err(RecoverFault::Until(low, high));
    }
    let copy = place.copied(alloc)?;
    recover_from(rt, alloc, catalog, store, copy, i, s, channels)
}

/// The datafiles that exist at SCN `s` on the path of incarnation `i`, or of these the one that is named, each
/// from its available backup on that path of the greatest checkpoint up to `s`, ties by the greatest id, or
/// else as it was created; and these origins, in the same order. What a set has of a datafile is a backup with
/// the set's id. `Until` where `s` lies outside the incarnation. The objects are digested and decoded by so many
/// channels, at least one, the bytes of so many held at a time; each number gives the same.
pub fn restore<R: Threads + Sync, D: Store>(
    rt: &R,
    alloc: Global,
    catalog: &Catalog,
    store: &mut D,
    place: &InPlace,
    i: IncNo,
    s: Scn,
    file: Option<FileNo>,
    channels: u32,
) -> Result<(Recovered, Seq<Origin>), RecoverFault>
    requires database { HasDatabase catalog.now }
    requires place { FitsPlace catalog.now place.now }
    requires there { IsThere (nodes catalog.now) i }
    ensures until { until_of result ≡ outside (nodes catalog.now) i s }
    ensures restored { IfOk result (λ x. Restores (D.held store.old) catalog.now place.now i s file x.0 x.1) }
    ensures no_gap { IfErr result (λ x. IfGap x (λ _. ⊥)) }
    ensures same { D.held store.new ≡ D.held store.old }
    ensures failed { IsErrOf result RecoverFault.StoreFault → Rose (D.faults store.old) (D.faults store.new) }
    ensures never_falls { D.faults store.old ≤ D.faults store.new }
{
    if let Some((low, high)) = outside(catalog.tree(), i, s) {
        return Err(RecoverFault::Until(low, high));
    }
    let copy = place.copied(alloc)?;
    restore_from(rt, alloc, catalog, store, copy, i, s, file, channels)
}

/// The origins from which the datafiles that exist at SCN `s` on the path of incarnation `i` would be
/// restored, ascending by number; the first gap of a recovery to there, or none where each block is told; and
/// the records that count as available but whose objects are missing or damaged. `Until` where `s` lies
/// outside the incarnation. The objects are digested and decoded by so many channels, at least one, the bytes of
/// so many held at a time; each number gives the same.
pub fn preview<R: Threads + Sync, D: Store>(
    rt: &R,
    alloc: Global,
    catalog: &Catalog,
    store: &mut D,
    place: &InPlace,
    i: IncNo,
    s: Scn,
    channels: u32,
) -> Result<(Seq<Origin>, Option<Gap>, Seq<(u32, Bad)>), RecoverFault>
    requires database { HasDatabase catalog.now }
    requires place { FitsPlace catalog.now place.now }
    requires there { IsThere (nodes catalog.now) i }
    ensures until { until_of result ≡ outside (nodes catalog.now) i s }
    ensures previews { IfOk result (λ x. Previews (D.held store.old) catalog.now place.now i s x.0 x.1 x.2) }
    ensures no_gap { IfErr result (λ x. IfGap x (λ _. ⊥)) }
    ensures same { D.held store.new ≡ D.held store.old }
    ensures failed { IsErrOf result RecoverFault.StoreFault → Rose (D.faults store.old) (D.faults store.new) }
    ensures never_falls { D.faults store.old ≤ D.faults store.new }
{
    if let Some((low, high)) = outside(catalog.tree(), i, s) {
        return Err(RecoverFault::Until(low, high));
    }
    let copy = place.copied(alloc)?;
    preview_from(rt, alloc, catalog, store, copy, i, s, channels)
}
