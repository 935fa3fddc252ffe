//! Where an UNTIL leads.
ghost use Rattle.std.specs.{Prelude.{◌≡◌, ◌&&◌, find, nat_le, reverse}, Option.{option_map}};
ghost use Rattle.rm_history.specs.Tree.{IsThere};
ghost use Rattle.rm_machine.specs.{Recover.{recover_target}, Recovery.{range_refusal}, Sound.{IsSound}, State.{ledger, tree}};
ghost use Rattle.rm_machine.specs.Until.{is_log, log_first, marks_on, moment_in, nowhere_refusal, online_first, scn_at, target_of, thread_refusal};
ghost use Rattle.rm_moments.specs.Marks.{first_from};
ghost use Rattle.rm_retain.specs.Window.{is_on_path};

use crate::facts::{end_of, is_thread};
use crate::state::State;
use rm_apply::outside;
use rm_base::{Absent, IncNo, Mark, Moment, Refusal, Scn, Text, ThreadNo, Unknown};
use rm_catalog::LogEntry;
use rm_history::Tree;
use rm_lang_statement::Until;

// Whether the record is that of log `sequence` of a thread of an incarnation.
fn is_log(entry: &LogEntry, i: IncNo, thread: u64, sequence: u64) -> bool
    ensures { result ≡ is_log i thread sequence entry.now }
{
    entry.inc == i && u64::from(entry.thread) == thread && u64::from(entry.sequence) == sequence
}

// The first SCN of the online log of a thread, where it is log `sequence` of the incarnation, and not lost.
fn online_first(state: &State, i: IncNo, thread: u64, sequence: u64) -> Option<Scn>
    requires sound { IsSound state.now }
    ensures { result ≡ online_first state.now i thread sequence }
{
    if !is_thread(state, thread) {
        return None;
    }
    let logs = &state.instance.logs;
    let thread = thread as ThreadNo;
    if logs.is_lost(thread) {
        return None;
    }
    if logs.inc() == i && u64::from(logs.sequence(thread)) == sequence {
        Some(logs.first(thread))
    } else {
        None
    }
}

// The first SCN of log `sequence` of a thread of an incarnation, where it is recorded, whatever its status.
fn recorded_first(state: &State, i: IncNo, thread: u64, sequence: u64) -> Option<Scn>
    ensures { result ≡ option_map (λ e. e.first) (find (is_log i thread sequence) (ledger state.now).logs) }
{
    let logs = state.catalog.logs();
    let entry = logs
        .iter()
        .find(|entry| is_log(entry, i, thread, sequence))?;
    Some(entry.first)
}

// The first SCN of the log: recorded, or online and not lost.
fn log_first(state: &State, i: IncNo, thread: u64, sequence: u64) -> Option<Scn>
    requires sound { IsSound state.now }
    ensures { result ≡ log_first state.now i thread sequence }
{
    match recorded_first(state, i, thread, sequence) {
        Some(first) => Some(first),
        None => online_first(state, i, thread, sequence),
    }
}

// Whether the mark is on the path of the incarnation.
fn is_on_path(tree: &Tree, i: IncNo, mark: &Mark) -> bool
    requires { IsThere tree.now i }
    ensures { result ≡ is_on_path tree.now i mark.now }
{
    tree.is_within(mark.inc, i, mark.scn)
}

// The SCN of the first mark on the path of the incarnation that is at or after the moment.
fn first_from(state: &State, i: IncNo, t: Moment) -> Option<Scn>
    requires there { IsThere (tree state.now) i }
    ensures { result ≡ first_from t (marks_on state.now i) }
{
    let tree = state.catalog.tree();
    let mark = state
        .catalog
        .marks()
        .iter()
        .filter(|mark| is_on_path(tree, i, mark))
        .find(|mark| t <= mark.moment)?;
    Some(mark.scn)
}

// Whether the mark is on the path of the incarnation, and at or before the moment.
fn is_until(tree: &Tree, i: IncNo, t: Moment, mark: &Mark) -> bool
    requires { IsThere tree.now i }
    ensures { result ≡ (is_on_path tree.now i mark.now && nat_le mark.now.moment t) }
{
    is_on_path(tree, i, mark) && mark.moment <= t
}

// The SCN of the last such mark.
fn last_until(state: &State, i: IncNo, t: Moment) -> Option<Scn>
    requires there { IsThere (tree state.now) i }
    ensures { result ≡ option_map (λ m. m.scn) (find (λ m. is_on_path (tree state.now) i m && nat_le m.moment t) (reverse (ledger state.now).marks)) }
{
    let tree = state.catalog.tree();
    let marks = state.catalog.marks();
    let mark = marks.iter().rev().find(|mark| is_until(tree, i, t, mark))?;
    Some(mark.scn)
}

// The SCN at the moment on the path of the incarnation: that of the first mark at or after it, or else the end. None where no mark
// is at or before it.
fn scn_at(state: &State, i: IncNo, t: Moment) -> Option<Scn>
    requires there { IsThere (tree state.now) i }
    ensures { result ≡ scn_at state.now i t }
{
    last_until(state, i, t)?;
    match first_from(state, i, t) {
        Some(scn) => Some(scn),
        None => Some(end_of(state, i)),
    }
}

// The moment that the text means at the moment of the statement; 0 for a text that means none.
fn moment_in(state: &State, text: &Text) -> Moment
    ensures { result ≡ moment_in state.now text.now }
{
    match rm_moments::parse(text.as_str(), state.catalog.base().moment) {
        Some(moment) => moment,
        None => 0,
    }
}

/// The SCN at which a recovery of an incarnation stops: where its UNTIL leads, or the end of the incarnation. None where the UNTIL
/// leads nowhere.
pub fn target_of(state: &State, i: IncNo, until: &Option<Until>) -> Option<Scn>
    requires sound { IsSound state.now }
    requires there { IsThere (tree state.now) i }
    ensures value { result ≡ target_of state.now i until.now }
{
    match until {
        None => Some(end_of(state, i)),
        Some(Until::Scn(at)) => Some(*at),
        Some(Until::Sequence { sequence, thread }) => log_first(state, i, *thread, *sequence),
        Some(Until::Time(text)) => scn_at(state, i, moment_in(state, text)),
    }
}

/// The same, of the current incarnation.
pub fn recover_target(state: &State, until: &Option<Until>) -> Option<Scn>
    requires sound { IsSound state.now }
    ensures value { result ≡ recover_target state.now until.now }
{
    target_of(state, state.catalog.base().current, until)
}

/// Why a target is refused, if it is: it is below the resetlogs SCN of its incarnation, or above its end (RM-06).
pub fn range_refusal(tree: &Tree, i: IncNo, at: Scn) -> Option<Refusal>
    requires there { IsThere tree.now i }
    ensures value { result ≡ range_refusal tree.now i at }
{
    outside(tree, i, at).map(|(low, high)| Refusal::Rm06 {
        until: at,
        low,
        high,
    })
}

/// Why an UNTIL is refused at once, if it is: its redo thread has no online log (RM-05).
pub fn thread_refusal(state: &State, until: &Option<Until>) -> Option<Refusal>
    ensures value { result ≡ thread_refusal state.now until.now }
{
    match until {
        Some(Until::Sequence { thread, .. }) if !is_thread(state, *thread) => Some(Refusal::Rm05(
            Absent::Thread(*thread),
        )),
        _ => None,
    }
}

/// Why an UNTIL leads nowhere: there is no such log (RM-12), or no mark at or before the moment (RM-14). None for another UNTIL.
pub fn nowhere_refusal(state: &State, until: &Option<Until>) -> Option<Refusal>
    ensures value { result ≡ nowhere_refusal state.now until.now }
{
    match until {
        Some(Until::Sequence { sequence, thread }) => Some(Refusal::Rm12(Unknown::Log {
            sequence: *sequence,
            thread: *thread,
        })),
        Some(Until::Time(text)) => Some(Refusal::Rm14 {
            moment: moment_in(state, text),
        }),
        _ => None,
    }
}
