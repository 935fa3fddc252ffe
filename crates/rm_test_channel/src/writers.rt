//! Copies of one block by many channels, beside four writers of it.
ghost use Rattle.std.specs.Prelude.{◌≡◌, ◌≤◌, All, IfOk, length};
ghost use Rattle.rm_channel.specs.Jobs.{lists};
ghost use Rattle.rm_test_channel.specs.Small.{AreWrites};

use crate::during::{copied, write};
use crate::gates::Wide;
use crate::small::whole_file;
use rm_base::{Block, NoMemory, Row, Scn};
use rm_channel::{Work, WriteJob};
use std::alloc::Global;
use std::sync::Wait;
use std::thread::Threads;

// Three writes, each of another text.
fn list(alloc: Global, first: &[u8], second: &[u8], third: &[u8]) -> Result<Vec<WriteJob>, NoMemory>
    requires first { length first.now ≤ 64 }
    requires second { length second.now ≤ 64 }
    requires third { length third.now ≤ 64 }
    ensures { IfOk result (λ v. AreWrites v.items) }
{
    let mut list = Vec::new(alloc);
    list.push(write(first))?;
    list.push(write(second))?;
    list.push(write(third))?;
    Ok(list)
}

// Four lists of them.
fn four_lists(alloc: Global) -> Result<Vec<Vec<WriteJob>>, NoMemory>
    ensures few { IfOk result (λ v. length v.items ≡ 4) }
    ensures writes { IfOk result (λ v. All AreWrites (lists v.items)) }
{
    let mut writers = Vec::new(alloc);
    writers.push(list(alloc, b"A1", b"A2", b"A3")?)?;
    writers.push(list(alloc, b"B1", b"B2", b"B3")?)?;
    writers.push(list(alloc, b"C1", b"C2", b"C3")?)?;
    writers.push(list(alloc, b"D1", b"D2", b"D3")?)?;
    Ok(writers)
}

// Whether one of the writes took the row's version and has its content.
fn is_of_list(row: &Row, list: &[WriteJob], scns: &[Scn]) -> bool {
    list.iter().zip(scns).any(|(write, scn)| *scn == row.version && write.content == row.content)
}

// Whether the row is as it was created, or as one of the writes left it.
fn is_explained(row: &Row, writers: &[Vec<WriteJob>], scns: &[Vec<Scn>]) -> bool {
    if row.version == 1 {
        return row.content == Block::padded(b"");
    }
    for (list, taken) in writers.iter().zip(scns) {
        if is_of_list(row, list.as_slice(), taken.as_slice()) {
            return true;
        }
    }
    false
}

// Whether each of four copies has the one row, and it is explained.
fn are_explained(rows: &[Vec<Row>], writers: &[Vec<WriteJob>], scns: &[Vec<Scn>]) -> bool {
    for copy in rows {
        let row = copy.first();
        if copy.len() != 1 || !row.is_some_and(|row| is_explained(row, writers, scns)) {
            return false;
        }
    }
    rows.len() == 4
}

// Whether the numbers ascend.
fn ascend(scns: &[Scn]) -> bool {
    let mut last = 0;
    for scn in scns {
        if *scn <= last {
            return false;
        }
        last = *scn;
    }
    true
}

// How often an SCN was taken.
fn times(scn: Scn, scns: &[Vec<Scn>]) -> usize {
    let mut times = 0usize;
    for list in scns {
        times = times.saturating_add(list.iter().filter(|s| **s == scn).count());
    }
    times
}

// Whether each list ascends, and the SCNs from 2 to 13 were taken, each once.
fn are_taken(scns: &[Vec<Scn>]) -> bool {
    for list in scns {
        if list.len() != 3 || !ascend(list.as_slice()) {
            return false;
        }
    }
    (2..14).all(|scn| times(scn, scns) == 1)
}

/// Each row that was found is explained, and the SCNs are those of twelve writes.
pub fn many<R: Threads + Wait + Sync>(rt: &R, alloc: Global) -> Result<bool, NoMemory> {
    let writers = four_lists(alloc)?;
    let jobs = [whole_file(1), whole_file(1), whole_file(1), whole_file(1)];
    let Work { rows, reads, scns } = copied(rt, alloc, 1, &jobs, writers.as_slice(), 16, &Wide)?;
    let is_read = reads.as_slice() == [1, 1, 1, 1].as_slice();
    let is_explained = are_explained(rows.as_slice(), writers.as_slice(), scns.as_slice());
    Ok(is_read && is_explained && are_taken(scns.as_slice()))
}
