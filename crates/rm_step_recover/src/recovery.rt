//! RECOVER DATABASE [UNTIL ..]
ghost use Rattle.std.specs.Prelude.{◌≡◌, ◌≤◌, ◌++◌, ◌∷◌, [], All, IfErr, IfOk, IsErrOf, None, OnOk, length};
ghost use Rattle.rm_base.specs.Outside.{Rose};
ghost use Rattle.rm_lang_statement.specs.declared.command.Command.TheVariants.{Recover};
ghost use Rattle.rm_machine.specs.{Hands.{Hands, Refuses}, Recover.{recover_refusal, target_refusal}, Recovery.{skipped_lines}};
ghost use Rattle.rm_machine.specs.Sound.{IsSound};
ghost use Rattle.rm_report.specs.{Reply.{HasDate, IsPlain}, declared.line.Line.TheVariants.{Recovered as recovered_line}};

use crate::placing::put_in_place;
use crate::recovered_files::recovered_at;
use rm_apply::Recovered;
use rm_base::{IncNo, NoMemory, Refusal, Scn, Seq, Store};
use rm_evidence::EvidenceFault;
use rm_lang_statement::Until;
use rm_machine::facts::first_lost;
use rm_machine::handed::of_lines;
use rm_machine::replies::skipped_lines;
use rm_machine::room::ids_refusal;
use rm_machine::until::{nowhere_refusal, range_refusal, recover_target, thread_refusal};
use rm_machine::{Handed, State};
use rm_report::Line;
use std::alloc::Global;
use std::thread::Threads;

// Why the target is refused, if it is.
fn target_refusal(state: &State, at: Scn) -> Option<Refusal>
    requires sound { IsSound state.now }
    ensures { result ≡ target_refusal state.now at }
{
    let current = state.catalog.base().current;
    if let Some(refusal) = range_refusal(state.catalog.tree(), current, at) {
        return Some(refusal);
    }
    match first_lost(state, current, at) {
        Some(file) => Some(Refusal::Rm09 { file }),
        None => ids_refusal(state),
    }
}

/// Why RECOVER DATABASE is refused by the state alone, if it is: the database is open (RM-04), the redo thread of its UNTIL is not
/// there (RM-05), the target is out of the range of the current incarnation (RM-06), a datafile of the target is lost (RM-09), too
/// few object ids are left (RM-11), or its UNTIL leads to no target (RM-12, RM-14).
pub fn recover_refusal(state: &State, until: &Option<Until>) -> Option<Refusal>
    requires sound { IsSound state.now }
    ensures value { result ≡ recover_refusal state.now until.now }
{
    if state.instance.is_open {
        return Some(Refusal::Rm04 { mounted: false });
    }
    if let Some(refusal) = thread_refusal(state, until) {
        return Some(refusal);
    }
    if let Some(at) = recover_target(state, until) {
        return target_refusal(state, at);
    }
    match ids_refusal(state) {
        Some(refusal) => Some(refusal),
        None => nowhere_refusal(state, until),
    }
}

// The lines of the reply.
fn lines_of(alloc: Global, current: IncNo, at: Scn, back: &Recovered) -> Result<Seq<Line>, NoMemory>
    requires { length back.now.files ≤ 64 }
    ensures { IfOk result (λ lines. lines ≡ skipped_lines back.now.skipped ++ recovered_line at current (length back.now.files) ∷ []) }
{
    let mut lines = skipped_lines(alloc, back.skipped.as_slice())?;
    lines.push(Line::Recovered {
        until: at,
        inc: current,
        files: back.files.len() as u32,
    })?;
    Ok(lines)
}

/// RECOVER DATABASE, which the state alone does not refuse: each datafile that exists at the target comes to stand
/// in place, each block as what is at hand tells it, and the target is the point. Where what is at hand leaves a
/// gap it is refused with the first one (RM-08), and nothing changed. The catalog stays. An error is a fault of
/// the store, which is counted, or want of memory; then nothing changed either. It goes by so many channels; each
/// number gives the same.
pub fn recover<R: Threads + Sync, D: Store>(
    rt: &R,
    alloc: Global,
    channels: u32,
    state: &mut State,
    store: &mut D,
    until: &Option<Until>,
) -> Result<Result<Handed, Refusal>, EvidenceFault>
    requires sound { IsSound state.old }
    requires accepted { recover_refusal state.old until.now ≡ None }
    ensures hands { IfOk result (λ x. IfOk x (λ handed. Hands (D.held store.old) state.old (Recover until.now) handed state.new)) }
    ensures refuses { IfOk result (λ x. IfErr x (λ refusal. Refuses (D.held store.old) state.old (Recover until.now) refusal)) }
    ensures sound { OnOk result (IsSound state.new) }
    ensures refused { IfOk result (λ x. IfErr x (λ _. state.new ≡ state.old)) }
    ensures failed { IfErr result (λ _. state.new ≡ state.old) }
    ensures catalog { state.new.catalog ≡ state.old.catalog }
    ensures dates { IfOk result (λ x. IfOk x (λ handed. All IsPlain handed.lines)) }
    ensures date { IfOk result (λ x. IfErr x HasDate) }
    ensures same { D.held store.new ≡ D.held store.old }
    ensures store { IsErrOf result EvidenceFault.StoreFault → Rose (D.faults store.old) (D.faults store.new) }
    ensures never_falls { D.faults store.old ≤ D.faults store.new }
{
    let Some(at) = recover_target(state, until) else {
        unreachable!()
    };
    let current = state.catalog.base().current;
    let back = match recovered_at(rt, alloc, channels, state, store, current, at)? {
        Ok(back) => back,
        Err(refusal) => return Ok(Err(refusal)),
    };
    let lines = lines_of(alloc, current, at, &back)?;
    put_in_place(alloc, state, back.files, Some(at));
    Ok(Ok(of_lines(alloc, lines)))
}
