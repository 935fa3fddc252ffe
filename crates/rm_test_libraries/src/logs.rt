//! Online logs: each call once, and a log that becomes full.
ghost use Rattle.std.specs.Prelude.{◌≡◌};

use rm_base::{Block, Change, NoMemory, Scn, Seq, ThreadNo};
use rm_redo::{LogFault, LogFile, LogRecord, OnlineLogs, is_valid_log};
use rm_test_harness::Fault;
use std::alloc::Global;

// A change of block 3 of file 2.
fn change(thread: ThreadNo, scn: Scn, content: Block) -> Change
    ensures inc { result.inc ≡ 1 }
    ensures thread { result.thread ≡ thread }
    ensures scn { result.scn ≡ scn }
{
    Change {
        inc: 1,
        thread,
        scn,
        file: 2,
        block: 3,
        content,
    }
}

// Its record.
fn record(scn: Scn, content: Block) -> LogRecord {
    LogRecord {
        scn,
        file: 2,
        block: 3,
        content,
    }
}

/// A change is logged for its thread.
pub fn a_change(alloc: Global) -> Result<bool, Fault> {
    let mut logs = OnlineLogs::new(alloc, 7, 1, 2, 5)?;
    let content = Block::padded(b"AA");
    let Ok(()) = logs.append(change(2, 6, content)) else {
        return Ok(false);
    };
    let is_logged = logs.records(2) == [record(6, content)].as_slice();
    let counts = (logs.count(2), logs.count(1));
    let firsts = (logs.first(1), logs.first(2));
    Ok(is_logged && counts == (1, 0) && firsts == (5, 5))
}

/// A switch closes a log and begins the next, once.
pub fn a_switch(alloc: Global) -> Result<bool, Fault> {
    let mut logs = OnlineLogs::new(alloc, 7, 1, 2, 5)?;
    let content = Block::padded(b"AA");
    let Ok(()) = logs.append(change(2, 6, content)) else {
        return Ok(false);
    };
    let Some(log) = logs.switch(2, 9)? else {
        return Ok(false);
    };
    let is_closed = (log.dbid, log.inc, log.thread) == (7, 1, 2)
        && (log.sequence, log.first, log.next) == (1, 5, 9)
        && log.records.as_slice() == [record(6, content)].as_slice();
    let is_begun = (logs.sequence(2), logs.first(2), logs.count(2)) == (2, 9, 0);
    let is_alone = logs.sequence(1) == 1;
    let again = logs.switch(2, 9)?;
    Ok(is_closed && is_begun && is_alone && again.is_none() && logs.sequence(2) == 2)
}

/// A log that is lost stays so.
pub fn a_lost_log(alloc: Global) -> Result<bool, Fault> {
    let mut logs = OnlineLogs::new(alloc, 7, 3, 2, 5)?;
    let was_lost = logs.is_lost(1);
    logs.lose(1);
    Ok(!was_lost && logs.is_lost(1) && !logs.is_lost(2) && (logs.inc(), logs.threads()) == (3, 2))
}

/// A log is full at 65,536 records.
pub fn a_full_log(alloc: Global) -> Result<bool, Fault> {
    let mut logs = OnlineLogs::new(alloc, 7, 1, 1, 1)?;
    let content = Block::padded(b"");
    for scn in 2..65_538 {
        let Ok(()) = logs.append(change(1, scn, content)) else {
            return Ok(false);
        };
    }
    let was_full = logs.count(1) == 65_536;
    let Err(LogFault::Full) = logs.append(change(1, 65_538, content)) else {
        return Ok(false);
    };
    Ok(was_full && logs.count(1) == 65_536)
}

// Which of the threads 1 to 4 are there.
fn has(logs: &OnlineLogs) -> [bool; 4] {
    [logs.has(1), logs.has(2), logs.has(3), logs.has(4)]
}

/// Logs of some of the threads.
pub fn of_threads(alloc: Global) -> Result<bool, Fault> {
    let logs = OnlineLogs::with_threads(alloc, 7, 3, [true, false, true, false], 5)?;
    if !logs.has(3) {
        return Ok(false);
    }
    let is_third = (logs.first(3), logs.sequence(3), logs.count(3)) == (5, 1, 0);
    let of = (logs.inc(), logs.threads());
    Ok(is_third && of == (3, 3) && has(&logs) == [true, false, true, false])
}

/// A thread that is enabled begins a log.
pub fn enabled(alloc: Global) -> Result<bool, Fault> {
    let mut logs = OnlineLogs::new(alloc, 7, 1, 1, 5)?;
    if logs.has(3) {
        return Ok(false);
    }
    logs.enable(3, 9, 4)?;
    if !logs.has(3) {
        return Ok(false);
    }
    let is_begun = (logs.first(3), logs.sequence(3), logs.count(3)) == (9, 4, 0);
    let are_there = has(&logs) == [true, false, true, false];
    Ok(is_begun && are_there && !logs.is_lost(3) && logs.threads() == 3)
}

/// A thread that is disabled closes its log, where this is not empty, and goes.
pub fn disabled(alloc: Global) -> Result<bool, Fault> {
    let mut logs = OnlineLogs::new(alloc, 7, 1, 3, 5)?;
    let content = Block::padded(b"AA");
    let Ok(()) = logs.append(change(2, 6, content)) else {
        return Ok(false);
    };
    let Some(log) = logs.disable(2, 9)? else {
        return Ok(false);
    };
    let is_closed = (log.dbid, log.inc, log.thread) == (7, 1, 2)
        && (log.sequence, log.first, log.next) == (1, 5, 9)
        && log.records.as_slice() == [record(6, content)].as_slice();
    let is_gone = has(&logs) == [true, false, true, false];
    if !logs.has(3) {
        return Ok(false);
    }
    let empty = logs.disable(3, 5)?;
    let are_gone = has(&logs) == [true, false, false, false] && logs.threads() == 1;
    Ok(is_closed && is_gone && empty.is_none() && are_gone)
}

// A log of thread 1 with one record.
fn a_file(alloc: Global) -> Result<LogFile, NoMemory> {
    let mut records = Seq::new(alloc);
    records.push(record(6, Block::padded(b"AA")))?;
    Ok(LogFile {
        dbid: 7,
        inc: 3,
        thread: 1,
        sequence: 2,
        first: 5,
        next: 9,
        records,
    })
}

/// Logs as log files tell them: a thread without one is lost, and one that is not enabled is not there.
pub fn of_files(alloc: Global) -> Result<bool, Fault> {
    let file = a_file(alloc)?;
    if !is_valid_log(&file) {
        return Ok(false);
    }
    let files = Vec::from_array(alloc, [Some(file), None, None, None])?;
    let files = Seq::from_vec(files);
    let logs = OnlineLogs::from_logs(alloc, 7, 3, [true, false, true, false], files)?;
    if !logs.has(1) || !logs.has(3) {
        return Ok(false);
    }
    let are_lost = (logs.is_lost(1), logs.is_lost(3)) == (false, true);
    let first = (logs.first(1), logs.sequence(1), logs.count(1));
    let third = (logs.first(3), logs.sequence(3), logs.count(3));
    let are_there = has(&logs) == [true, false, true, false];
    Ok(are_lost && are_there && first == (5, 2, 1) && third == (1, 1, 0))
}
