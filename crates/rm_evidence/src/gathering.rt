//! The evidence that a catalog, a store and what is in place give.
ghost use Rattle.std.specs.Prelude.{◌≡◌, ◌≤◌, IfOk, IsErrOf};
ghost use Rattle.rm_base.specs.Outside.{Rose};
ghost use Rattle.rm_catalog.specs.{Rules.{HasDatabase}, Trees.{nodes}};
ghost use Rattle.rm_evidence.specs.{Gathered.{IsGathered}, Known.{FitsTree}, Place.{FitsPlace}, Seen.{IsSeen}};

use crate::database::dbid_of;
use crate::evidence::{Evidence, InPlace};
use crate::naming::id_fits;
use crate::order::objects;
use crate::place::in_place;
use crate::taking::{put_told, take_record};
use crate::telling::tell_by;
use rm_base::{NoMemory, Store, StoreFail};
use rm_catalog::{Catalog, Record};
use std::alloc::Global;
use std::thread::Threads;

/// Why no evidence was gathered.
#[derive(Clone, Copy, PartialEq, Eq)]
pub enum EvidenceFault {
    /// The store failed, and counted it.
    StoreFault,
    NoMemory,
}

impl From<NoMemory> for EvidenceFault {
    ghost use Rattle.rm_evidence.specs.declared.gathering.EvidenceFault.TheVariants.{NoMemory as WithoutMemory};

    ghost from_gives = { λ _ e. e ≡ WithoutMemory };

    fn from(_: NoMemory) -> Self {
        EvidenceFault::NoMemory
    }
}

impl From<StoreFail> for EvidenceFault {
    ghost use Rattle.rm_evidence.specs.Faults.{fault_of};

    ghost from_gives = { λ fail e. e ≡ fault_of fail };

    fn from(fail: StoreFail) -> Self {
        match fail {
            StoreFail::Failed => EvidenceFault::StoreFault,
            StoreFail::NoMemory => EvidenceFault::NoMemory,
        }
    }
}

/// The artefacts that are at hand: what is in place, and what the store has of the records that count
/// as available. The pieces of a set stand under its id, ascending by datafile. The records whose objects are missing
/// or damaged are told as skipped. Where the store tells nothing of what it holds, they are those of some bytes under
/// each name.
pub fn gather<D: Store>(
    alloc: Global,
    catalog: &Catalog,
    store: &mut D,
    place: &InPlace,
) -> Result<Evidence, EvidenceFault>
    requires database { HasDatabase catalog.now }
    requires place { FitsPlace catalog.now place.now }
    ensures gathered { IfOk result (λ e. IsSeen (D.held store.old) (λ h. IsGathered h catalog.now place.now e)) }
    ensures fits { IfOk result (λ e. FitsTree (nodes catalog.now) e) }
    ensures same { D.held store.new ≡ D.held store.old }
    ensures failed { IsErrOf result EvidenceFault.StoreFault → Rose (D.faults store.old) (D.faults store.new) }
    ensures never_falls { D.faults store.old ≤ D.faults store.new }
{
    let copy = place.copied(alloc)?;
    let mut evidence = in_place(alloc, dbid_of(catalog), copy)?;
    let objects = objects(alloc, catalog.records())?;
    for object in objects.as_slice() {
        let row: &Record = object.1;
        id_fits(row);
        take_record(alloc, catalog, store, row, &mut evidence)?;
    }
    Ok(evidence)
}

/// The same by so many channels, at least one: so many objects are got, one after the other, and then digested and decoded
/// side by side; the bytes of so many are held at a time. Each number of channels gives the same. What is in place is moved
/// into the evidence, and not copied.
pub fn gather_by<R: Threads + Sync, D: Store>(
    rt: &R,
    alloc: Global,
    catalog: &Catalog,
    store: &mut D,
    place: InPlace,
    channels: u32,
) -> Result<Evidence, EvidenceFault>
    requires database { HasDatabase catalog.now }
    requires place { FitsPlace catalog.now place }
    ensures gathered { IfOk result (λ e. IsSeen (D.held store.old) (λ h. IsGathered h catalog.now place e)) }
    ensures fits { IfOk result (λ e. FitsTree (nodes catalog.now) e) }
    ensures same { D.held store.new ≡ D.held store.old }
    ensures failed { IsErrOf result EvidenceFault.StoreFault → Rose (D.faults store.old) (D.faults store.new) }
    ensures never_falls { D.faults store.old ≤ D.faults store.new }
{
    let mut evidence = in_place(alloc, dbid_of(catalog), place)?;
    let objects = objects(alloc, catalog.records())?;
    let rows = objects.as_slice();
    let all = tell_by(rt, alloc, catalog, store, rows, channels)?;
    let mut index = 0;
    for told in all.into_vec() {
        let row: &Record = rows[index].1;
        id_fits(row);
        put_told(&mut evidence, row, told)?;
        index += 1;
    }
    Ok(evidence)
}
