//! What RECOVER COPY rests on.
ghost use Rattle.std.specs.Prelude.{◌≡◌, ◌≤◌, All, IfOk, IfSome, IsErrOf};
ghost use Rattle.rm_base.specs.Outside.{Rose};
ghost use Rattle.rm_evidence.specs.Known.{AreRecorded, FitsTree, IsRecorded};
ghost use Rattle.rm_machine.specs.{Recovery.{IsAtHand, in_place}, Sound.{IsSound}, State.{tree}};
ghost use Rattle.rm_catalog_typed.specs.TypedCatalog.{records_of};

use rm_base::Store;
use rm_catalog::Catalog;
use rm_evidence::{Evidence, EvidenceFault, InPlace, gather_by};
use rm_machine::State;
use std::alloc::Global;
use std::thread::Threads;

/// What is at hand, read by so many channels. Whatever the store tells, each artefact is valid, and each backup has the fields of its record.
pub(crate) fn evidence_of<R: Threads + Sync, D: Store>(
    rt: &R,
    alloc: Global,
    channels: u32,
    state: &State,
    store: &mut D,
    records: &Catalog,
    place: InPlace,
) -> Result<Evidence, EvidenceFault>
    requires sound { IsSound state.now }
    requires records { records.now ≡ records_of state.now.catalog }
    requires place { place ≡ in_place state.now }
    ensures at_hand { IfOk result (λ e. IfSome (D.held store.old) (λ h. IsAtHand state.now h e)) }
    ensures fits { IfOk result (λ e. FitsTree (tree state.now) e) }
    ensures recorded { IfOk result (λ e. AreRecorded (records_of state.now.catalog) e) }
    ensures level1s { IfOk result (λ e. All (IsRecorded (records_of state.now.catalog)) e.level1s) }
    ensures same { D.held store.new ≡ D.held store.old }
    ensures failed { IsErrOf result EvidenceFault.StoreFault → Rose (D.faults store.old) (D.faults store.new) }
    ensures never_falls { D.faults store.old ≤ D.faults store.new }
{
    gather_by(rt, alloc, records, store, place, channels)
}
