//! Why the writes of a DURING are refused.
ghost use Rattle.std.specs.{Prelude.{◌≡◌, ◌<◌, ◌≤◌, ◌+◌, None, length, nat_lt}, Option.{option_map}};
ghost use Rattle.rm_base.specs.Numbers.{last_scn};
ghost use Rattle.rm_machine.specs.Asked.{FitsNumbers, by_thread};
ghost use Rattle.rm_machine.specs.BackupRefusal.{absent_in, absent_of, block_of, damaged_write, lacks_log, lacks_logs, lost_of, marks_for};
ghost use Rattle.rm_machine.specs.{Sound.{IsSound}, State.{now_of}};
ghost use Rattle.rm_redo.specs.Online.{thread_records};

use crate::damage::is_damaged;
use crate::facts::{MOST_THREADS, is_thread, now, on_path, placed};
use crate::marks::marks_before;
use crate::state::State;
use rm_base::{Absent, BlockId, BlockNo, FileNo, LAST_SCN, Seq, ThreadNo};
use rm_lang_statement::WriteForm;

// What a write names that is not there.
fn absent_in(state: &State, write: &WriteForm) -> Option<Absent>
    requires sound { IsSound state.now }
    ensures { result ≡ absent_in state.now write.now }
{
    if !is_thread(state, write.thread) {
        return Some(Absent::Thread(write.thread));
    }
    let Some(datafile) = on_path(state, write.file) else {
        return Some(Absent::File(write.file));
    };
    if write.block >= u64::from(datafile.blocks) {
        Some(Absent::Block {
            block: write.block,
            file: write.file,
        })
    } else {
        None
    }
}

/// What the first of the writes names that is not there: its thread, its datafile on the current path, or its block.
pub fn absent_of(state: &State, writes: &[WriteForm]) -> Option<Absent>
    requires sound { IsSound state.now }
    ensures { result ≡ absent_of state.now writes.now }
{
    for write in writes {
        if let Some(absent) = absent_in(state, write) {
            return Some(absent);
        }
    }
    None
}

// The datafile of the first of the writes whose datafile is lost.
fn first_lost(state: &State, writes: &[WriteForm]) -> Option<u64>
    requires sound { IsSound state.now }
    requires there { absent_of state.now writes.now ≡ None }
    ensures { result ≡ lost_of state.now writes.now }
{
    for write in writes {
        if placed(state, write.file).is_none() {
            return Some(write.file);
        }
    }
    None
}

/// The datafile of the first of the writes whose datafile is lost: 1 to 64.
pub fn lost_of(state: &State, writes: &[WriteForm]) -> Option<FileNo>
    requires sound { IsSound state.now }
    requires there { absent_of state.now writes.now ≡ None }
    ensures { result ≡ lost_of state.now writes.now }
{
    Some(first_lost(state, writes)? as FileNo)
}

/// How many marks a statement writes before the writes of its DURING: 1 or none.
pub fn marks_for(state: &State, during: &Option<Seq<WriteForm>>) -> u64
    requires sound { IsSound state.now }
    ensures value { result ≡ marks_for state.now during.now }
    ensures most { result ≤ 1 }
{
    u64::from(during.is_some() && marks_before(state).is_some())
}

// How many of the writes are by a thread.
fn count_by(thread: u64, writes: &[WriteForm]) -> u64
    ensures { result ≡ length (by_thread thread writes.now) }
{
    writes.iter().filter(|write| write.thread == thread).count() as u64
}

// How many records the log of a thread has: none where the thread has no log.
fn record_count(state: &State, thread: ThreadNo) -> u32
    requires sound { IsSound state.now }
    requires thread { (0 < thread) × (thread ≤ 4) }
    ensures value { result ≡ length (thread_records state.now.instance.logs thread) }
    ensures most { result ≤ 65536 }
{
    let logs = &state.instance.logs;
    if logs.has(thread) {
        logs.count(thread)
    } else {
        0
    }
}

// Whether the log of a thread has no room for the thread's writes.
fn lacks_log(state: &State, writes: &[WriteForm], thread: ThreadNo) -> bool
    requires sound { IsSound state.now }
    requires thread { (0 < thread) × (thread ≤ 4) }
    ensures { result ≡ lacks_log state.now writes.now thread }
{
    let more = count_by(u64::from(thread), writes);
    more > 65_536 - u64::from(record_count(state, thread))
}

/// Whether the log of one of the threads has no room for the thread's writes: it has 65,536 records at most.
pub fn lacks_logs(state: &State, writes: &[WriteForm]) -> bool
    requires sound { IsSound state.now }
    ensures { result ≡ lacks_logs state.now writes.now 1 4 }
{
    for index in 0..MOST_THREADS {
        if lacks_log(state, writes, index + 1) {
            return true;
        }
    }
    false
}

/// Whether too few SCNs are left for so many writes.
pub fn lacks_scns(state: &State, count: u64) -> bool
    requires sound { IsSound state.now }
    ensures { result ≡ nat_lt last_scn (now_of state.now + count) }
{
    count > LAST_SCN - now(state)
}

// The block that a write names, which is there.
fn block_of(write: &WriteForm) -> BlockId
    requires { FitsNumbers write.now }
    ensures { result ≡ block_of write.now }
{
    BlockId {
        file: write.file as FileNo,
        block: write.block as BlockNo,
    }
}

/// The damaged block that the first of the writes names that names one.
pub fn damaged_write(state: &State, writes: &[WriteForm]) -> Option<BlockId>
    requires sound { IsSound state.now }
    requires there { absent_of state.now writes.now ≡ None }
    ensures { result ≡ option_map block_of (damaged_write state.now writes.now) }
{
    for write in writes {
        if is_damaged(state, write.file, write.block) {
            return Some(block_of(write));
        }
    }
    None
}
