//! Which records the policy does not need, by what is at hand.
ghost use Rattle.std.specs.Prelude.{◌≡◌, ◌≤◌, ◌<◌, ◌^◌, All, IfOk, IfSome, IsErrOf, length};
ghost use Rattle.rm_base.specs.Outside.{Rose};
ghost use Rattle.rm_machine.specs.{Obsolete.{AreObsoleteIn}, Sound.{IsSound}};

use crate::looking::{look, start_by};
use rm_base::Store;
use rm_evidence::EvidenceFault;
use rm_machine::State;
use rm_retain::obsolete;
use std::alloc::Global;
use std::thread::Threads;

/// The ids of the obsolete records, ascending, by what is read by so many channels. An error is a fault of the store, which
/// is counted, or want of memory.
pub(crate) fn obsolete_ids<R: Threads + Sync, D: Store>(
    rt: &R,
    alloc: Global,
    channels: u32,
    state: &State,
    store: &mut D,
) -> Result<Vec<u32>, EvidenceFault>
    requires sound { IsSound state.now }
    ensures are { IfOk result (λ ids. IfSome (D.held store.old) (λ held. AreObsoleteIn state.now held ids.items)) }
    ensures some { IfOk result (λ ids. All (λ n. 1 ≤ n) ids.items) }
    ensures few { IfOk result (λ ids. length ids.items < 2 ^ 32) }
    ensures same { D.held store.new ≡ D.held store.old }
    ensures failed { IsErrOf result EvidenceFault.StoreFault → Rose (D.faults store.old) (D.faults store.new) }
    ensures never_falls { D.faults store.old ≤ D.faults store.new }
{
    let looked = look(rt, alloc, channels, state, store)?;
    let policy = state.catalog.base().policy;
    let start = start_by(state, policy);
    Ok(obsolete(alloc, &looked.records, &looked.evidence, policy, start)?)
}
