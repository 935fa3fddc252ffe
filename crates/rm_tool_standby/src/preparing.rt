//! All that a task wants before anything changes.
ghost use Rattle.std.specs.Prelude.{ℕ, ◌≡◌, ◌≤◌, ◌⊎◌, All, IfErr, IfOk, IfSome, IsErrOf, IsSomeAnd, List, OnOk, Option, Some};
ghost use Rattle.std.specs.Option.{option_copied};
ghost use Rattle.rm_base.specs.{Outside.{Rose}, Store.{Held}};
ghost use Rattle.rm_catalog.specs.declared.record.Record.{Record};
ghost use Rattle.rm_lang_words.specs.declared.standby.StandbyTask.TheVariants.{Dump};
ghost use Rattle.rm_machine.specs.Sound.{IsSound};
ghost use Rattle.rm_piece.specs.Sets.{IsSet};
ghost use Rattle.rm_report.specs.Reply.{HasDate, LineHasDate};
ghost use Rattle.rm_tool_opening.specs.Opening.{IsSource};
ghost use Rattle.rm_tool_ends.specs.Ended.{NoneFalls, RoseFor};
ghost use Rattle.rm_tool_standby.specs.{Asked.{sides}, Ended.{Leaves}, Prepared.{IsFit, IsReady, IsWork, OfShown, ready_of as the_ready}};
ghost use Rattle.rm_tool_standby.specs.Refused.{RefusesBy, RefusesTask};

use crate::keeping::{Change, changes};
use crate::making::make;
use crate::rolling::{no_standby, roll_over};
use crate::telling::{dump_lines, text_of};
use crate::work::Work;
use rm_base::{NoMemory, Refusal, Seq, Sink, Store};
use rm_evidence::EvidenceFault;
use rm_lang_words::StandbyTask;
use rm_machine::State;
use rm_piece::Set;
use rm_standby_store::find_standby;
use rm_tool_ends::{Ended, write_refusal};
use rm_tool_opening::Site;
use std::alloc::Global;
use std::thread::Threads;

/// What is put and what goes, and the text that tells of it.
#[derive(Drop)]
pub(crate) struct Ready {
    pub change: Option<Change>,
    pub text: Seq<u8>,
}

// The lines of the standby that was found, or that there is none.
fn dump(
    alloc: Global,
    state: &State,
    found: &Option<(u32, Set)>,
) -> Result<Result<Work, Refusal>, NoMemory>
    requires valid { IfSome found.now (λ x. IsSet x.1) }
    ensures work { IfOk result (λ x. IfOk x (λ w. (from : Option Held) → IsWork from state.now found.now Dump w)) }
    ensures refused { IfOk result (λ x. IfErr x (λ r. (from : Option Held) → RefusesTask from state.now found.now Dump r)) }
    ensures date { IfOk result (λ x. IfErr x HasDate) }
{
    let Some(standby) = found else {
        return Ok(Err(no_standby(alloc)?));
    };
    let lines = dump_lines(alloc, &standby.1)?;
    Ok(Ok(Work { new: None, lines }))
}

// What the task comes to over the standby that was found, or why it is refused.
fn work_of<R: Threads + Sync, D: Store>(
    rt: &R,
    alloc: Global,
    task: StandbyTask,
    state: &State,
    found: &Option<(u32, Set)>,
    from: &mut D,
) -> Result<Result<Work, Refusal>, EvidenceFault>
    requires sound { IsSound state.now }
    requires valid { IfSome found.now (λ x. IsSet x.1) }
    ensures work { IfOk result (λ x. IfOk x (IsWork (D.held from.old) state.now found.now task)) }
    ensures refused { IfOk result (λ x. IfErr x (RefusesTask (D.held from.old) state.now found.now task)) }
    ensures date { IfOk result (λ x. IfErr x HasDate) }
    ensures same { D.held from.new ≡ D.held from.old }
    ensures failed { IsErrOf result EvidenceFault.StoreFault → Rose (D.faults from.old) (D.faults from.new) }
    ensures never_falls { D.faults from.old ≤ D.faults from.new }
{
    match task {
        StandbyTask::Make(until) => make(rt, alloc, state, until, found, from),
        StandbyTask::Roll(n) => roll_over(alloc, state, n, found, from),
        StandbyTask::Dump => Ok(dump(alloc, state, found)?),
    }
}

// All memory is taken before anything changes.
fn ready_of(alloc: Global, found: &Option<(u32, Set)>, work: Work) -> Result<Ready, NoMemory>
    requires fit { IsFit found.now work.new }
    requires dated { All LineHasDate work.lines }
    ensures { IfOk result (λ ready. ready ≡ the_ready found.now work.new work.lines) }
{
    Ok(Ready {
        change: changes(alloc, found, &work.new)?,
        text: text_of(alloc, work.lines)?,
    })
}

// What is ready of the task over a database, or why it is refused.
fn answer_over<R: Threads + Sync, D: Store, E: Store>(
    rt: &R,
    alloc: Global,
    task: StandbyTask,
    state: &State,
    from: &mut D,
    to: &mut E,
) -> Result<Result<Ready, Refusal>, EvidenceFault>
    requires sound { IsSound state.now }
    ensures ready { IfOk result (λ x. IfOk x (λ ready. OfShown (D.held from.old) (E.held to.old) state.now (λ a. IsReady a task ready))) }
    ensures refused { IfOk result (λ x. IfErr x (RefusesBy (D.held from.old) (E.held to.old) task (Some state.now))) }
    ensures date { IfOk result (λ x. IfErr x HasDate) }
    ensures from { D.held from.new ≡ D.held from.old }
    ensures to { E.held to.new ≡ E.held to.old }
    ensures failed { IsErrOf result EvidenceFault.StoreFault → Rose (D.faults from.old) (D.faults from.new) ⊎ Rose (E.faults to.old) (E.faults to.new) }
    ensures none_falls { (D.faults from.old ≤ D.faults from.new) × (E.faults to.old ≤ E.faults to.new) }
{
    let found = find_standby(alloc, to)?;
    match work_of(rt, alloc, task, state, &found, from)? {
        Ok(work) => Ok(Ok(ready_of(alloc, &found, work)?)),
        Err(refusal) => Ok(Err(refusal)),
    }
}

// What is ready of the task over what the site shows, or why it is refused: without a database each is (RM-02).
fn answer<R: Threads + Sync, D: Store, E: Store>(
    rt: &R,
    alloc: Global,
    task: StandbyTask,
    shown: Option<&State>,
    from: &mut D,
    to: &mut E,
) -> Result<Result<Ready, Refusal>, EvidenceFault>
    requires sound { IfSome (option_copied shown) IsSound }
    ensures ready { IfOk result (λ x. IfOk x (λ ready. IsSomeAnd (option_copied shown.entry) (λ s. OfShown (D.held from.old) (E.held to.old) s
        (λ a. IsReady a task ready)))) }
    ensures refused { IfOk result (λ x. IfErr x (RefusesBy (D.held from.old) (E.held to.old) task (option_copied shown.entry))) }
    ensures date { IfOk result (λ x. IfErr x HasDate) }
    ensures from { D.held from.new ≡ D.held from.old }
    ensures to { E.held to.new ≡ E.held to.old }
    ensures failed { IsErrOf result EvidenceFault.StoreFault → Rose (D.faults from.old) (D.faults from.new) ⊎ Rose (E.faults to.old) (E.faults to.new) }
    ensures none_falls { (D.faults from.old ≤ D.faults from.new) × (E.faults to.old ≤ E.faults to.new) }
{
    match shown {
        Some(state) => answer_over(rt, alloc, task, state, from, to),
        None => Ok(Err(Refusal::Rm02)),
    }
}

/// All memory is taken before anything changes. Where the task is refused, the line of that is written.
pub(crate) fn prepare<R: Threads + Sync, K: Sink, D: Store, E: Store>(
    rt: &R,
    alloc: Global,
    task: StandbyTask,
    site: &Site,
    sink: &mut K,
    from: &mut D,
    to: &mut E,
) -> Result<Ready, Ended>
    ensures ready { IfOk result (λ ready. (records : Option (List Record)) → IsSource (D.held from.old) records site.now
        → IsReady (sides (D.held from.old) records (E.held to.old)) task ready) }
    ensures silent { OnOk result (K.contents sink.new ≡ K.contents sink.old) }
    ensures ended { IfErr result (λ ended. (records : Option (List Record)) → IsSource (D.held from.old) records site.now
        → Leaves task (sides (D.held from.old) records (E.held to.old)) (sides (D.held from.new) records (E.held to.new)) (K.contents sink.old)
        (K.contents sink.new) ended) }
    ensures from { D.held from.new ≡ D.held from.old }
    ensures to { E.held to.new ≡ E.held to.old }
    ensures rose { IfErr result (λ ended. (n : ℕ) → RoseFor (record { sink = K.faults sink.old; from = D.faults from.old; to = E.faults to.old; records = n })
        (record { sink = K.faults sink.new; from = D.faults from.new; to = E.faults to.new; records = n }) ended) }
    ensures none_falls { (n : ℕ) → NoneFalls (record { sink = K.faults sink.old; from = D.faults from.old; to = E.faults to.old; records = n })
        (record { sink = K.faults sink.new; from = D.faults from.new; to = E.faults to.new; records = n }) }
{
    match answer(rt, alloc, task, site.state(), from, to) {
        Ok(Ok(ready)) => Ok(ready),
        Ok(Err(refusal)) => {
            write_refusal(alloc, sink, refusal)?;
            Err(Ended::Refused)
        }
        Err(EvidenceFault::StoreFault) => Err(Ended::Store),
        Err(EvidenceFault::NoMemory) => Err(Ended::NoMemory),
    }
}
