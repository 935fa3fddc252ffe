//! RESTORE DATABASE [UNTIL ..] PREVIEW
ghost use Rattle.std.specs.Prelude.{◌≡◌, ◌≤◌, ◌++◌, ◌∷◌, [], All, IfOk, IsErrOf, None, map};
ghost use Rattle.rm_base.specs.Outside.{Rose};
ghost use Rattle.rm_machine.specs.{Hands.{Tells}, Recovery.{skipped_lines}, Restore.{gap_line, origin_lines, preview_refusal}};
ghost use Rattle.rm_machine.specs.Sound.{IsSound};
ghost use Rattle.rm_report.specs.Reply.{IsPlain};
ghost use Rattle.rm_lang_statement.specs.declared.command.Command.TheVariants.{Preview};

use crate::faults::fault_of;
use crate::lines::push_origins;
use rm_apply::{Origin, TargetFile, datafiles_at};
use rm_base::{Bad, FileNo, NoMemory, Refusal, Seq, Store};
use rm_evidence::EvidenceFault;
use rm_lang_statement::Until;
use rm_machine::State;
use rm_machine::hand::{AtHand, at_hand};
use rm_machine::replies::skipped_lines;
use rm_machine::until::{nowhere_refusal, range_refusal, recover_target, thread_refusal};
use rm_plan::Gap;
use rm_report::Line;
use std::alloc::Global;
use std::thread::Threads;

/// Why PREVIEW is refused by the state alone, if it is: the redo thread of its UNTIL is not there (RM-05), the target is out of
/// the range of the current incarnation (RM-06), or its UNTIL leads to no target (RM-12, RM-14).
pub fn preview_refusal(state: &State, until: &Option<Until>) -> Option<Refusal>
    requires sound { IsSound state.now }
    ensures value { result ≡ preview_refusal state.now until.now }
{
    if let Some(refusal) = thread_refusal(state, until) {
        return Some(refusal);
    }
    match recover_target(state, until) {
        Some(at) => range_refusal(state.catalog.tree(), state.catalog.base().current, at),
        None => nowhere_refusal(state, until),
    }
}

// Whether a recovery would come to the target, or else its first gap.
fn gap_line(gap: Option<Gap>) -> Line
    ensures { result ≡ gap_line gap }
{
    match gap {
        None => Line::Complete,
        Some(gap) => Line::GapIn {
            file: gap.file,
            block: gap.block,
            scn: gap.scn,
            inc: gap.inc,
        },
    }
}

// The numbers of the datafiles.
fn numbers_of(alloc: Global, targets: &[TargetFile]) -> Result<Vec<FileNo>, NoMemory>
    ensures { IfOk result (λ xs. xs.items ≡ map (λ x. x.number) targets.now) }
{
    Ok(targets.iter().map(|x| x.number).collect(alloc)?)
}

// The lines of the reply.
fn lines_of(
    alloc: Global,
    numbers: &[FileNo],
    origins: &[Origin],
    gap: Option<Gap>,
    skipped: &[(u32, Bad)],
) -> Result<Seq<Line>, NoMemory>
    ensures { IfOk result (λ lines. lines ≡ skipped_lines skipped.now ++ origin_lines numbers.now origins.now ++ gap_line gap ∷ []) }
{
    let mut lines = skipped_lines(alloc, skipped)?;
    push_origins(&mut lines, numbers, origins)?;
    lines.push(gap_line(gap))?;
    Ok(lines)
}

/// RESTORE DATABASE PREVIEW, which the state alone does not refuse: tells of each datafile that exists at the
/// target from where it would be restored, and whether a recovery would come there, or else its first gap.
/// Nothing changes. An error is a fault of the store, which is counted, or want of memory. The objects are read by so
/// many channels; each number gives the same.
pub fn preview<R: Threads + Sync, D: Store>(
    rt: &R,
    alloc: Global,
    channels: u32,
    state: &State,
    store: &mut D,
    until: &Option<Until>,
) -> Result<Seq<Line>, EvidenceFault>
    requires sound { IsSound state.now }
    requires accepted { preview_refusal state.now until.now ≡ None }
    ensures tells { IfOk result (λ lines. Tells (D.held store.old) state.now (Preview until.now) lines) }
    ensures dates { IfOk result (All IsPlain) }
    ensures same { D.held store.new ≡ D.held store.old }
    ensures store { IsErrOf result EvidenceFault.StoreFault → Rose (D.faults store.old) (D.faults store.new) }
    ensures never_falls { D.faults store.old ≤ D.faults store.new }
{
    let Some(at) = recover_target(state, until) else {
        unreachable!()
    };
    let hand = at_hand(alloc, state)?;
    let AtHand { records, place } = hand;
    let current = state.catalog.base().current;
    let (origins, gap, skipped) = match rm_apply::preview_from(
        rt, alloc, &records, store, place, current, at, channels,
    ) {
        Ok(told) => told,
        Err(fault) => return Err(fault_of(fault)),
    };
    let targets = datafiles_at(alloc, &records, current, at, None)?;
    let numbers = numbers_of(alloc, targets.as_slice())?;
    Ok(lines_of(alloc, &numbers, origins.as_slice(), gap, skipped.as_slice())?)
}
