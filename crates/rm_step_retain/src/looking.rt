//! What the policy goes by: the records, what is at hand of them, and where its window starts.
ghost use Rattle.std.specs.Prelude.{◌≡◌, ◌≤◌, IfOk, IfSome, IsErrOf};
ghost use Rattle.rm_base.specs.Outside.{Rose};
ghost use Rattle.rm_machine.specs.{Obsolete.{start_by}, Recovery.{IsAtHand}, Sound.{IsSound}};
ghost use Rattle.rm_catalog_typed.specs.TypedCatalog.{records_of};
ghost use Rattle.rm_retain.specs.{Catalogued.{copies_in}, Chosen.{Ascend}};

use rm_base::{Policy, Scn, Store};
use rm_catalog::Catalog as Records;
use rm_evidence::{Evidence, EvidenceFault, gather_by};
use rm_machine::State;
use rm_machine::hand::{AtHand, at_hand};
use rm_retain::window_start;
use std::alloc::Global;
use std::thread::Threads;

/// The records of a catalog, and the artefacts at hand.
#[derive(Drop)]
pub(crate) struct Looked {
    pub records: Records,
    pub evidence: Evidence,
}

/// The records, and what is at hand of those that count as available, read by so many channels: its copies ascend by id,
/// and those of one set by datafile, whatever the store tells. An error is a fault of the store, which is counted, or want
/// of memory.
pub(crate) fn look<R: Threads + Sync, D: Store>(
    rt: &R,
    alloc: Global,
    channels: u32,
    state: &State,
    store: &mut D,
) -> Result<Looked, EvidenceFault>
    requires sound { IsSound state.now }
    ensures records { IfOk result (λ x. x.records ≡ records_of state.now.catalog) }
    ensures at_hand { IfOk result (λ x. IfSome (D.held store.old) (λ held. IsAtHand state.now held x.evidence)) }
    ensures ascend { IfOk result (λ x. Ascend (copies_in x.evidence)) }
    ensures same { D.held store.new ≡ D.held store.old }
    ensures failed { IsErrOf result EvidenceFault.StoreFault → Rose (D.faults store.old) (D.faults store.new) }
    ensures never_falls { D.faults store.old ≤ D.faults store.new }
{
    let hand = at_hand(alloc, state)?;
    let AtHand { records, place } = hand;
    let evidence = gather_by(rt, alloc, &records, store, place, channels)?;
    Ok(Looked { records, evidence })
}

/// The SCN at which the window of the policy starts: 0 for a policy without one.
pub(crate) fn start_by(state: &State, policy: Policy) -> Scn
    requires sound { IsSound state.now }
    ensures { result ≡ start_by state.now policy }
{
    match policy {
        Policy::Window(days) => {
            let base = state.catalog.base();
            let (tree, marks) = (state.catalog.tree(), state.catalog.marks());
            window_start(tree, base.current, days, base.moment, marks).unwrap_or(0)
        }
        Policy::Redundancy(_) | Policy::Nothing => 0,
    }
}
