//! What the threads of a database have to archive.
ghost use Rattle.std.specs.Prelude.{◌≡◌, ◌<◌, ◌≤◌, if◌then◌else◌, IsTrue};
ghost use Rattle.rm_machine.specs.{Archive.{bytes_from, due_from, is_last_sequence}, DisableThread.{lacks_sequence, logs_due}};
ghost use Rattle.rm_machine.specs.{State.{is_online}, SwitchLogfile.{is_due, log_bytes}};
ghost use Rattle.rm_redo.specs.Online.{IsThread, has_log};

use rm_base::ThreadNo;
use rm_machine::State;
use rm_machine::facts::{MOST_THREADS, redo_end};
use rm_redo::OnlineLogs;

/// Whether a thread, of a number from 1 on, has an online log, lost or not.
pub(crate) fn has_log(logs: &OnlineLogs, thread: ThreadNo) -> bool
    requires { 0 < thread }
    ensures value { result ≡ has_log logs.now thread }
    ensures there { IsTrue result → IsThread logs.now thread }
{
    logs.has(thread)
}

// Whether it has one that is not lost.
fn is_online(logs: &OnlineLogs, thread: ThreadNo) -> bool
    requires { 0 < thread }
    ensures value { result ≡ is_online logs.now thread }
    ensures there { IsTrue result → IsThread logs.now thread }
{
    has_log(logs, thread) && !logs.is_lost(thread)
}

/// Whether the thread has something to archive: it has an online log that is not lost, whose range is not empty.
pub(crate) fn is_due(state: &State, thread: ThreadNo) -> bool
    requires { 0 < thread }
    ensures value { result ≡ is_due state.now thread }
    ensures there { IsTrue result → IsThread state.now.instance.logs thread }
{
    let logs = &state.instance.logs;
    is_online(logs, thread) && logs.first(thread) < redo_end(state)
}

/// The bytes of the thread's log as a file: 70, and 80 for each record.
pub(crate) fn log_bytes(state: &State, thread: ThreadNo) -> u64
    requires { IsThread state.now.instance.logs thread }
    ensures value { result ≡ log_bytes state.now thread }
    ensures most { result ≤ 5242950 }
{
    70 + 80 * u64::from(state.instance.logs.count(thread))
}

/// 1 for a thread that has something to archive.
pub(crate) fn count_of(state: &State, thread: ThreadNo) -> u64
    requires { 0 < thread }
    ensures value { result ≡ logs_due state.now thread }
    ensures most { result ≤ 1 }
{
    if is_due(state, thread) { 1 } else { 0 }
}

// The bytes of the thread's log, where it has something to archive.
fn bytes_of(state: &State, thread: ThreadNo) -> u64
    requires { 0 < thread }
    ensures value { result ≡ if is_due state.now thread then log_bytes state.now thread else 0 }
    ensures most { result ≤ 5242950 }
{
    if is_due(state, thread) {
        log_bytes(state, thread)
    } else {
        0
    }
}

/// Whether the thread has something to archive, and no sequence number is left for the next log.
pub(crate) fn lacks_sequence(state: &State, thread: ThreadNo) -> bool
    requires { 0 < thread }
    ensures { result ≡ lacks_sequence state.now thread }
{
    is_due(state, thread) && state.instance.logs.sequence(thread) == u32::MAX
}

/// How many threads have something to archive.
pub(crate) fn logs_due(state: &State) -> u64
    ensures value { result ≡ due_from state.now 1 4 }
    ensures most { result ≤ 4 }
{
    let mut due = 0;
    for thread in 1..=MOST_THREADS {
        due += count_of(state, thread);
    }
    due
}

/// The bytes of their logs, as files.
pub(crate) fn bytes_due(state: &State) -> u64
    ensures { result ≡ bytes_from state.now 1 4 }
{
    let mut bytes = 0;
    for thread in 1..=MOST_THREADS {
        bytes += bytes_of(state, thread);
    }
    bytes
}

/// Whether one of them has no sequence number left.
pub(crate) fn is_last_sequence(state: &State) -> bool
    ensures { result ≡ is_last_sequence state.now 1 4 }
{
    for thread in 1..=MOST_THREADS {
        if lacks_sequence(state, thread) {
            return true;
        }
    }
    false
}
