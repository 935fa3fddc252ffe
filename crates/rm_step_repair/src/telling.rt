//! What is at hand tells of blocks.
ghost use Rattle.std.specs.Prelude.{◌≡◌, ◌≤◌, All, IfErr, IfOk, IsErrOf};
ghost use Rattle.rm_base.specs.{Outside.{Rose}, declared.refusal.Refusal.TheVariants.{Rm08}};
ghost use Rattle.rm_machine.specs.Sound.{IsSound};
ghost use Rattle.rm_report.specs.Reply.{HasDate};
ghost use Rattle.rm_step_repair.specs.Told.{IsTargetNow, IsTold, NamesGap};

use rm_base::{Bad, BlockId, Refusal, Seq, Store};
use rm_evidence::{EvidenceFault, gather_by};
use rm_machine::State;
use rm_machine::facts::now;
use rm_machine::hand::{AtHand, at_hand};
use rm_plan::{Gap, PlanFault};
use rm_repair::{MendJob, mend_jobs};
use std::alloc::Global;
use std::thread::Threads;

/// What is told of blocks.
#[derive(Drop)]
pub(crate) struct Told {
    /// The row of each.
    pub(crate) jobs: Vec<MendJob>,
    /// The records whose objects are missing or damaged.
    pub(crate) skipped: Seq<(u32, Bad)>,
}

// The refusal that names a gap.
fn gap_refusal(gap: Gap) -> Refusal
    ensures { result ≡ Rm08 gap.file gap.block gap.scn gap.inc }
{
    Refusal::Rm08 {
        file: gap.file,
        block: gap.block,
        scn: gap.scn,
        inc: gap.inc,
    }
}

/// What is at hand tells of blocks of datafiles that exist at `now`, as they are there; or the refusal that names the gap of the
/// first one that is not told (RM-08). Each object that counts as available is read once. An error is a fault of the store, which is
/// counted, or want of memory.
pub(crate) fn tell_blocks<R: Threads + Sync, D: Store>(
    rt: &R,
    alloc: Global,
    state: &State,
    store: &mut D,
    blocks: &[BlockId],
) -> Result<Result<Told, Refusal>, EvidenceFault>
    requires sound { IsSound state.now }
    requires there { All (IsTargetNow state.now) blocks.now }
    ensures told { IfOk result (λ x. IfOk x (IsTold (D.held store.old) state.now blocks.now)) }
    ensures gap { IfOk result (λ x. IfErr x (NamesGap (D.held store.old) state.now blocks.now)) }
    ensures date { IfOk result (λ x. IfErr x HasDate) }
    ensures same { D.held store.new ≡ D.held store.old }
    ensures failed { IsErrOf result EvidenceFault.StoreFault → Rose (D.faults store.old) (D.faults store.new) }
    ensures never_falls { D.faults store.old ≤ D.faults store.new }
{
    let hand = at_hand(alloc, state)?;
    let AtHand { records, place } = hand;
    let evidence = gather_by(rt, alloc, &records, store, place, 1)?;
    let inc = state.catalog.base().current;
    let scn = now(state);
    match mend_jobs(alloc, &evidence, &records, inc, scn, blocks) {
        Ok(jobs) => Ok(Ok(Told {
            jobs,
            skipped: evidence.skipped,
        })),
        Err(PlanFault::Gap(gap)) => Ok(Err(gap_refusal(gap))),
        Err(PlanFault::NoMemory) => Err(EvidenceFault::NoMemory),
    }
}
