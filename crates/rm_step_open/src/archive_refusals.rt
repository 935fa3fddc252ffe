//! Why logs can't be archived.
ghost use Rattle.std.specs.Prelude.{◌≡◌, ◌≤◌, if◌then◌else◌, Some, None};
ghost use Rattle.rm_base.specs.declared.refusal.{Limit.TheVariants.{Bytes, ObjectIds, Records, Sequences}, Refusal.TheVariants.{Rm11}};
ghost use Rattle.rm_machine.specs.{Archive.{archive_all_refusal, archiving_refusal}, Marks.{lacks_bytes, lacks_ids, lacks_room}};
ghost use Rattle.rm_machine.specs.{Sound.{IsSound}, SwitchLogfile.{archive_refusal, switch_refusal}};
ghost use Rattle.rm_redo.specs.Online.{IsThread};

use crate::due::{bytes_due, is_due, is_last_sequence, log_bytes, logs_due};
use rm_base::{Absent, Limit, Refusal, ThreadNo};
use rm_machine::State;
use rm_machine::facts::is_thread;
use rm_machine::room::{ids_refusal, lacks_bytes, lacks_ids, lacks_room};

// What logs that are archived take, and whether one of them has the last sequence number.
#[derive(Clone, Copy)]
struct Wanted {
    records: u64,
    bytes: u64,
    ids: u64,
    is_last: bool,
}

// Why logs that want so much can't be archived, if they can't.
fn limit_refusal(state: &State, wanted: &Wanted) -> Option<Refusal>
    requires { IsSound state.now }
    ensures { result ≡ (if lacks_room state.now wanted.now.records then Some (Rm11 Records) else if lacks_bytes state.now wanted.now.bytes then Some (Rm11 Bytes) else if lacks_ids state.now wanted.now.ids then Some (Rm11 ObjectIds) else if wanted.now.is_last then Some (Rm11 Sequences) else None) }
{
    if lacks_room(state, wanted.records) {
        Some(Refusal::Rm11(Limit::Records))
    } else if lacks_bytes(state, wanted.bytes) {
        Some(Refusal::Rm11(Limit::Bytes))
    } else if lacks_ids(state, wanted.ids) {
        Some(Refusal::Rm11(Limit::ObjectIds))
    } else if wanted.is_last {
        Some(Refusal::Rm11(Limit::Sequences))
    } else {
        None
    }
}

// Why the log of a thread can't be archived, if it can't.
fn archive_refusal(state: &State, thread: ThreadNo) -> Option<Refusal>
    requires sound { IsSound state.now }
    requires thread { IsThread state.now.instance.logs thread }
    ensures { result ≡ archive_refusal state.now thread }
{
    let wanted = Wanted {
        records: 1,
        bytes: log_bytes(state, thread),
        ids: 1,
        is_last: state.instance.logs.sequence(thread) == u32::MAX,
    };
    limit_refusal(state, &wanted)
}

/// Why the logs of all threads can't be archived where so many records come to the catalog besides, if they
/// can't: too few records, bytes, ids or sequence numbers are left. `more` is at most 65,536.
pub(crate) fn archiving_refusal(state: &State, more: u64) -> Option<Refusal>
    requires sound { IsSound state.now }
    requires few { more ≤ 65536 }
    ensures value { result ≡ archiving_refusal state.now more }
{
    let due = logs_due(state);
    let wanted = Wanted {
        records: due + more,
        bytes: bytes_due(state),
        ids: due,
        is_last: is_last_sequence(state),
    };
    limit_refusal(state, &wanted)
}

/// Why SWITCH LOGFILE is refused, if it is.
pub fn switch_refusal(state: &State, thread: u64) -> Option<Refusal>
    requires sound { IsSound state.now }
    ensures value { result ≡ switch_refusal state.now thread }
{
    if !state.instance.is_open {
        Some(Refusal::Rm04 { mounted: true })
    } else if !is_thread(state, thread) {
        Some(Refusal::Rm05(Absent::Thread(thread)))
    } else if is_due(state, thread as ThreadNo) {
        archive_refusal(state, thread as ThreadNo)
    } else {
        ids_refusal(state)
    }
}

/// Why ARCHIVE LOG CURRENT is refused, if it is.
pub fn archive_all_refusal(state: &State) -> Option<Refusal>
    requires sound { IsSound state.now }
    ensures value { result ≡ archive_all_refusal state.now }
{
    if state.instance.is_open {
        archiving_refusal(state, 0)
    } else {
        Some(Refusal::Rm04 { mounted: true })
    }
}
