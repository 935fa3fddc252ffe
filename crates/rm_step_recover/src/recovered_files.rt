//! What is at hand brings each block back, or leaves a first gap.
ghost use Rattle.std.specs.Prelude.{◌≡◌, ◌≤◌, IfErr, IfOk, IsErrOf, None, length};
ghost use Rattle.rm_apply.specs.Recover.{TellsAll};
ghost use Rattle.rm_base.specs.Outside.{Rose};
ghost use Rattle.rm_history.specs.Tree.{IsThere};
ghost use Rattle.rm_machine.specs.{Recovery.{in_place, range_refusal}, Sound.{IsSound}, State.{tree}};
ghost use Rattle.rm_step_recover.specs.Gap.{NamesGap};
ghost use Rattle.rm_catalog_typed.specs.TypedCatalog.{records_of};

use rm_apply::{RecoverFault, Recovered};
use rm_base::{IncNo, Refusal, Scn, Store};
use rm_evidence::EvidenceFault;
use rm_machine::State;
use rm_machine::hand::{AtHand, at_hand};
use std::alloc::Global;
use std::thread::Threads;

/// The datafiles at (i, at), at most 64, by what is at hand, and the records that were skipped; or the refusal
/// that names the first gap. Each object that counts as available is read once, and the blocks are put in place
/// by so many channels.
pub fn recovered_at<R: Threads + Sync, D: Store>(
    rt: &R,
    alloc: Global,
    channels: u32,
    state: &State,
    store: &mut D,
    i: IncNo,
    at: Scn,
) -> Result<Result<Recovered, Refusal>, EvidenceFault>
    requires sound { IsSound state.now }
    requires there { IsThere (tree state.now) i }
    requires range { range_refusal (tree state.now) i at ≡ None }
    ensures tells { IfOk result (λ x. IfOk x (TellsAll (D.held store.old) (records_of state.now.catalog) (in_place state.now) i at)) }
    ensures few { IfOk result (λ x. IfOk x (λ back. length back.files ≤ 64)) }
    ensures gap { IfOk result (λ x. IfErr x (NamesGap (D.held store.old) state.now i at)) }
    ensures same { D.held store.new ≡ D.held store.old }
    ensures failed { IsErrOf result EvidenceFault.StoreFault → Rose (D.faults store.old) (D.faults store.new) }
    ensures never_falls { D.faults store.old ≤ D.faults store.new }
{
    let hand = at_hand(alloc, state)?;
    let AtHand { records, place } = hand;
    match rm_apply::recover_from(rt, alloc, &records, store, place, i, at, channels) {
        Ok(back) => Ok(Ok(back)),
        Err(RecoverFault::Gap(gap)) => Ok(Err(Refusal::Rm08 {
            file: gap.file,
            block: gap.block,
            scn: gap.scn,
            inc: gap.inc,
        })),
        Err(RecoverFault::StoreFault) => Err(EvidenceFault::StoreFault),
        Err(RecoverFault::NoMemory) => Err(EvidenceFault::NoMemory),
        // The target is in range.
        Err(RecoverFault::Until(..)) => unreachable!(),
    }
}
