//! The two histories behind the gap of row missing-thread-log, until 4: block 0 may be as thread 1 left
//! it at 2, or as thread 2 made it at 3.
ghost use Rattle.std.specs.Prelude.{◌≡◌, ◌<◌, All, IfOk, length};

use crate::made::log;
use rm_base::{Block, Change, NoMemory, Row, Scn, Seq, ThreadNo};
use rm_history::{Datafile, Tree, World};
use rm_redo::{LogFile, LogRecord};
use rm_test_harness::{Fault, rows};
use std::alloc::Global;

fn world(alloc: Global) -> Result<World, NoMemory>
    ensures { IfOk result (λ w. length w.tree ≡ 1) }
{
    let mut files = Seq::new(alloc);
    files.push(Datafile {
        inc: 1,
        creation: 1,
        blocks: 1,
    })?;
    Ok(World {
        tree: Tree::new(alloc, 1)?,
        threads: 2,
        switches: Seq::new(alloc),
        files,
    })
}

fn change(thread: ThreadNo, scn: Scn, value: &[u8; 1]) -> Change
    ensures { result.scn ≡ scn }
{
    Change {
        inc: 1,
        thread,
        scn,
        file: 1,
        block: 0,
        content: Block::padded(value),
    }
}

// Thread 2 changed nothing.
fn quiet() -> [Change; 2]
    ensures { All (λ c. 0 < c.scn) result }
{
    [change(1, 2, b"A"), change(1, 4, b"C")]
}

// Thread 2 changed the block at 3.
fn changed(value: &[u8; 1]) -> [Change; 3]
    ensures { All (λ c. 0 < c.scn) result }
{
    [change(1, 2, b"A"), change(1, 4, b"C"), change(2, 3, value)]
}

fn is_of(log: &LogFile, change: &Change) -> bool {
    change.inc == log.inc
        && change.thread == log.thread
        && log.first <= change.scn
        && change.scn < log.next
}

fn has_change(log: &LogFile, entry: &LogRecord, history: &[Change]) -> bool {
    history.iter().any(|change| {
        is_of(log, change) && change.scn == entry.scn && change.content == entry.content
    })
}

// Whether the log tells exactly of the history's changes of its incarnation, thread and range.
fn does_agree(log: &LogFile, history: &[Change]) -> bool {
    let records = log.records.as_slice();
    let told = history.iter().filter(|change| is_of(log, change)).count();
    told == records.len() && records.iter().all(|entry| has_change(log, entry, history))
}

fn row(version: Scn, value: &[u8; 1]) -> Row {
    Row {
        block: 0,
        version,
        content: Block::padded(value),
    }
}

/// Both histories agree with the log.
pub fn both(alloc: Global) -> Result<bool, Fault> {
    let rows = rows(alloc, "0 2 A, 0 4 C")?;
    let log = log(alloc, 1, 1, (1, 5), rows.as_slice())?;
    Ok(does_agree(&log, &quiet()) && does_agree(&log, &changed(b"X")))
}

/// The block has another state in each.
pub fn states(alloc: Global) -> Result<bool, Fault> {
    let world = world(alloc)?;
    let is_quiet = world.state(&quiet(), 1, 4, 1, 0) == row(2, b"A");
    let is_changed = world.state(&changed(b"X"), 1, 4, 1, 0) == row(3, b"X");
    Ok(is_quiet && is_changed && world.state(&changed(b"A"), 1, 4, 1, 0) == row(3, b"A"))
}
