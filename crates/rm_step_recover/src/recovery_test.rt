//! RECOVER DATABASE [UNTIL ..] [INCARNATION i] TEST
ghost use Rattle.std.specs.Prelude.{◌≡◌, ◌≤◌, All, IfErr, IfOk, IsErrOf, None};
ghost use Rattle.rm_base.specs.Outside.{Rose};
ghost use Rattle.rm_lang_statement.specs.declared.command.Command.TheVariants.{RecoverTest};
ghost use Rattle.rm_machine.specs.{Hands.{Refuses, Tells}, RecoverTest.{test_refusal, tested, tested_refusal}, Sound.{IsSound}};
ghost use Rattle.rm_report.specs.Reply.{HasDate, IsPlain};

use crate::lines::push_test;
use crate::recovered_files::recovered_at;
use rm_base::{IncNo, Refusal, Seq, Store};
use rm_evidence::EvidenceFault;
use rm_lang_statement::Until;
use rm_machine::State;
use rm_machine::replies::skipped_lines;
use rm_machine::until::{nowhere_refusal, range_refusal, target_of, thread_refusal};
use rm_report::Line;
use std::alloc::Global;
use std::thread::Threads;

// The incarnation that is looked at: the one that is named, or the current one.
fn tested(state: &State, inc: Option<u64>) -> u64
    ensures { result ≡ tested state.now inc }
{
    inc.unwrap_or(u64::from(state.catalog.base().current))
}

// Why the incarnation is refused, or its target.
fn tested_refusal(state: &State, until: &Option<Until>, i: u64) -> Option<Refusal>
    requires sound { IsSound state.now }
    ensures { result ≡ tested_refusal state.now until.now i }
{
    let tree = state.catalog.tree();
    if i == 0 || u64::from(tree.count()) < i {
        return Some(Refusal::Rm07 { inc: i });
    }
    let inc = i as IncNo;
    match target_of(state, inc, until) {
        Some(at) => range_refusal(tree, inc, at),
        None => nowhere_refusal(state, until),
    }
}

/// Why RECOVER DATABASE TEST is refused by the state alone, if it is: the redo thread of its UNTIL is not there (RM-05), the target
/// is out of the range of its incarnation (RM-06), or that is not there (RM-07), or its UNTIL leads to no target (RM-12, RM-14).
pub fn test_refusal(state: &State, until: &Option<Until>, inc: Option<u64>) -> Option<Refusal>
    requires sound { IsSound state.now }
    ensures value { result ≡ test_refusal state.now until.now inc }
{
    match thread_refusal(state, until) {
        Some(refusal) => Some(refusal),
        None => tested_refusal(state, until, tested(state, inc)),
    }
}

/// RECOVER DATABASE TEST, which the state alone does not refuse: tells of each datafile that exists at the target
/// each block that was written, as what is at hand tells it, or the first gap (RM-08). Nothing changes. An error
/// is a fault of the store, which is counted, or want of memory. It goes by so many channels; each number gives
/// the same.
pub fn recover_test<R: Threads + Sync, D: Store>(
    rt: &R,
    alloc: Global,
    channels: u32,
    state: &State,
    store: &mut D,
    until: &Option<Until>,
    inc: Option<u64>,
) -> Result<Result<Seq<Line>, Refusal>, EvidenceFault>
    requires sound { IsSound state.now }
    requires accepted { test_refusal state.now until.now inc ≡ None }
    ensures tells { IfOk result (λ x. IfOk x (λ lines. Tells (D.held store.old) state.now (RecoverTest until.now inc) lines)) }
    ensures refuses { IfOk result (λ x. IfErr x (λ refusal. Refuses (D.held store.old) state.now (RecoverTest until.now inc) refusal)) }
    ensures dates { IfOk result (λ x. IfOk x (All IsPlain)) }
    ensures date { IfOk result (λ x. IfErr x HasDate) }
    ensures same { D.held store.new ≡ D.held store.old }
    ensures store { IsErrOf result EvidenceFault.StoreFault → Rose (D.faults store.old) (D.faults store.new) }
    ensures never_falls { D.faults store.old ≤ D.faults store.new }
{
    let inc = tested(state, inc) as IncNo;
    let Some(at) = target_of(state, inc, until) else {
        unreachable!()
    };
    let back = match recovered_at(rt, alloc, channels, state, store, inc, at)? {
        Ok(back) => back,
        Err(refusal) => return Ok(Err(refusal)),
    };
    let mut lines = skipped_lines(alloc, back.skipped.as_slice())?;
    push_test(&mut lines, state, inc, at, back.files.as_slice())?;
    Ok(Ok(lines))
}
