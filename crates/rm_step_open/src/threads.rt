//! ALTER DATABASE ENABLE THREAD n, and ALTER DATABASE DISABLE THREAD n
ghost use Rattle.std.specs.Prelude.{◌≡◌, ◌<◌, ◌≤◌, ◌&&◌, ◌==◌, not, IfOk, None, OnOk, Option, false, true};
ghost use Rattle.rm_base.specs.Store.{Held};
ghost use Rattle.rm_lang_statement.specs.declared.command.Command.TheVariants.{SwitchThread};
ghost use Rattle.rm_machine.specs.DisableThread.{disable_refusal, disabling_refusal, has_other, lacks_sequence, last_refusal, switch_off};
ghost use Rattle.rm_machine.specs.{EnableThread.{enable_refusal, enabling_refusal, is_outside, switch_on}, Hands.{Hands}};
ghost use Rattle.rm_machine.specs.{Marks.{lacks_bytes}, Sound.{IsSound}, SwitchLogfile.{is_due, log_bytes}};
ghost use Rattle.rm_redo.specs.Online.{IsThread, has_log};
ghost use Rattle.rm_catalog_typed.specs.Changes.{EditsFollow};

use crate::archives::archive_thread;
use crate::due::{count_of, has_log, is_due, lacks_sequence, log_bytes};
use rm_base::{Absent, LAST_SCN, Limit, NoMemory, Refusal, Seq, ThreadNo, ThreadState};
use rm_catalog::Edit;
use rm_catalog_typed::ThreadSwitch;
use rm_machine::facts::{MOST_THREADS, now};
use rm_machine::handed::of_line;
use rm_machine::marks::{go_further, mark_count};
use rm_machine::room::{lacks_bytes, lacks_ids, lacks_room};
use rm_machine::{Handed, State};
use rm_report::Line;
use std::alloc::Global;

// Whether no redo thread can have this number.
fn is_outside(thread: u64) -> bool
    ensures value { result ≡ is_outside thread }
    ensures number { result ≡ false → (0 < thread) × (thread ≤ 4) }
{
    thread == 0 || thread > u64::from(MOST_THREADS)
}

// Why ENABLE THREAD is refused in an open database, if it is.
fn enabling_refusal(state: &State, thread: u64) -> Option<Refusal>
    requires sound { IsSound state.now }
    ensures value { result ≡ enabling_refusal state.now thread }
{
    if is_outside(thread) {
        Some(Refusal::Rm05(Absent::Thread(thread)))
    } else if lacks_room(state, mark_count(state) + 1) {
        Some(Refusal::Rm11(Limit::Records))
    } else if lacks_ids(state, 0) {
        Some(Refusal::Rm11(Limit::ObjectIds))
    } else if now(state) >= LAST_SCN {
        Some(Refusal::Rm15)
    } else if has_log(&state.instance.logs, thread as ThreadNo) {
        Some(Refusal::Rm16 {
            thread: thread as ThreadNo,
            state: ThreadState::Enabled,
        })
    } else {
        None
    }
}

/// Why ENABLE THREAD is refused, if it is: the database is mounted (RM-04); there can be no such thread (RM-05); too
/// many records or too few object ids (RM-11, in this order); no SCN is left (RM-15); or the thread is enabled (RM-16).
pub fn enable_refusal(state: &State, thread: u64) -> Option<Refusal>
    requires sound { IsSound state.now }
    ensures value { result ≡ enable_refusal state.now thread }
{
    if !state.instance.is_open {
        return Some(Refusal::Rm04 { mounted: true });
    }
    enabling_refusal(state, thread)
}

// A thread from 1 to 4 is enabled at `now`, where its log begins with the next sequence number.
fn switch_on(state: &State, thread: ThreadNo) -> ThreadSwitch
    ensures { result ≡ switch_on state.now thread }
{
    ThreadSwitch {
        thread,
        inc: state.catalog.base().current,
        scn: now(state),
        on: true,
        sequence: state.catalog.next_sequence(thread),
    }
}

/// ENABLE THREAD: the thread is enabled at the SCN `now`, and its empty log begins there, with the sequence number that
/// follows those of its logs in the incarnation. An error is want of memory; then nothing is said of the state and the
/// edits.
pub fn enable_thread(
    alloc: Global,
    state: &mut State,
    edits: &mut Vec<Edit>,
    thread: u64,
) -> Result<Handed, NoMemory>
    requires sound { IsSound state.old }
    requires accepted { enable_refusal state.old thread ≡ None }
    ensures hands { IfOk result (λ x. (held : Option Held) → Hands held state.old (SwitchThread thread true) x state.new) }
    ensures edits { OnOk result (EditsFollow edits.old.items edits.new.items state.old.catalog state.new.catalog) }
{
    let thread = thread as ThreadNo;
    let switch = switch_on(state, thread);
    let (on, scn) = (true, switch.scn);
    let handed = of_line(alloc, Line::ThreadSwitched { thread, on, scn })?;
    go_further(state, edits)?;
    state.catalog.add_switch(edits, switch)?;
    state.instance.logs.enable(thread, scn, switch.sequence)?;
    Ok(handed)
}

// Whether this is another thread than that, and has an online log.
fn is_other(state: &State, other: ThreadNo, thread: ThreadNo) -> bool
    requires { 0 < other }
    ensures { result ≡ (not (other == thread) && has_log state.now.instance.logs other) }
{
    other != thread && has_log(&state.instance.logs, other)
}

// Whether another of the threads 1 to 4 is enabled.
fn has_other(state: &State, thread: ThreadNo) -> bool
    ensures { result ≡ has_other state.now thread }
{
    is_other(state, 1, thread)
        || is_other(state, 2, thread)
        || is_other(state, 3, thread)
        || is_other(state, 4, thread)
}

// Why the thread as it is can't be disabled, if it can't.
fn last_refusal(state: &State, thread: ThreadNo) -> Option<Refusal>
    requires { 0 < thread }
    ensures { result ≡ last_refusal state.now thread }
{
    if !has_log(&state.instance.logs, thread) {
        Some(Refusal::Rm16 {
            thread,
            state: ThreadState::Disabled,
        })
    } else if has_other(state, thread) {
        None
    } else {
        Some(Refusal::Rm16 {
            thread,
            state: ThreadState::Last,
        })
    }
}

// Whether the thread has something to archive, and its log's bytes would be too many.
fn lacks_log_bytes(state: &State, thread: ThreadNo) -> bool
    requires sound { IsSound state.now }
    requires number { 0 < thread }
    ensures { result ≡ (is_due state.now thread && lacks_bytes state.now (log_bytes state.now thread)) }
{
    is_due(state, thread) && lacks_bytes(state, log_bytes(state, thread))
}

// Why DISABLE THREAD is refused in an open database, if it is.
fn disabling_refusal(state: &State, thread: u64) -> Option<Refusal>
    requires sound { IsSound state.now }
    ensures value { result ≡ disabling_refusal state.now thread }
{
    if is_outside(thread) {
        return Some(Refusal::Rm05(Absent::Thread(thread)));
    }
    let thread = thread as ThreadNo;
    let due = count_of(state, thread);
    if lacks_room(state, mark_count(state) + 1 + due) {
        Some(Refusal::Rm11(Limit::Records))
    } else if lacks_log_bytes(state, thread) {
        Some(Refusal::Rm11(Limit::Bytes))
    } else if lacks_ids(state, due) {
        Some(Refusal::Rm11(Limit::ObjectIds))
    } else if lacks_sequence(state, thread) {
        Some(Refusal::Rm11(Limit::Sequences))
    } else if now(state) >= LAST_SCN {
        Some(Refusal::Rm15)
    } else {
        last_refusal(state, thread)
    }
}

/// Why DISABLE THREAD is refused, if it is: the database is mounted (RM-04); there can be no such thread (RM-05); too
/// many records, or too few bytes, object ids or sequence numbers are left for it and for its log, if that is archived
/// (RM-11, in this order); no SCN is left (RM-15); or the thread is disabled, or is the last one (RM-16).
pub fn disable_refusal(state: &State, thread: u64) -> Option<Refusal>
    requires sound { IsSound state.now }
    ensures value { result ≡ disable_refusal state.now thread }
{
    if !state.instance.is_open {
        return Some(Refusal::Rm04 { mounted: true });
    }
    disabling_refusal(state, thread)
}

// A thread is disabled at `now`. Its next log in the incarnation takes the number behind that of its log, where that is
// archived, or else that of its log, which is empty.
fn switch_off(state: &State, thread: ThreadNo) -> ThreadSwitch
    requires thread { IsThread state.now.instance.logs thread }
    requires sequence { lacks_sequence state.now thread ≡ false }
    ensures { result ≡ switch_off state.now thread }
{
    let archived = count_of(state, thread) as u32;
    ThreadSwitch {
        thread,
        inc: state.catalog.base().current,
        scn: now(state),
        on: false,
        sequence: state.instance.logs.sequence(thread) + archived,
    }
}

/// DISABLE THREAD: the log of the thread is archived up to the SCN `now`, if it is not empty; from there on the thread is
/// disabled, and has no log. An error is want of memory; then nothing is said of the state and the edits.
pub fn disable_thread(
    alloc: Global,
    state: &mut State,
    edits: &mut Vec<Edit>,
    thread: u64,
) -> Result<Handed, NoMemory>
    requires sound { IsSound state.old }
    requires accepted { disable_refusal state.old thread ≡ None }
    ensures hands { IfOk result (λ x. (held : Option Held) → Hands held state.old (SwitchThread thread false) x state.new) }
    ensures edits { OnOk result (EditsFollow edits.old.items edits.new.items state.old.catalog state.new.catalog) }
{
    let thread = thread as ThreadNo;
    let switch = switch_off(state, thread);
    let (on, scn) = (false, switch.scn);
    let mut lines = Seq::new(alloc);
    let mut objects = Seq::new(alloc);
    archive_thread(alloc, state, edits, &mut lines, &mut objects, thread, false)?;
    go_further(state, edits)?;
    state.catalog.add_switch(edits, switch)?;
    // Its log begins at this SCN by now, so nothing is left to archive.
    state.instance.logs.disable(thread, scn)?;
    lines.push(Line::ThreadSwitched { thread, on, scn })?;
    Ok(Handed {
        lines,
        objects,
        removes: Seq::new(alloc),
    })
}
