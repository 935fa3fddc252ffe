//! Rows put in place beside lists of writes, and lists of writes alone.
ghost use Rattle.std.specs.Prelude.{◌≡◌, ◌≤◌, All, IfOk, length};
ghost use Rattle.rm_channel.specs.Jobs.{lists};
ghost use Rattle.rm_test_channel.specs.Small.{AreWrites, IsMend};

use crate::during::write;
use crate::small::open;
use rm_base::{Block, BlockNo, NoMemory, Row, Scn};
use rm_channel::{WriteJob, write_lists};
use rm_live::LiveFault;
use rm_repair::{MendJob, mend_during};
use std::alloc::Global;
use std::sync::Wait;
use std::thread::Threads;

// A text for a block of file 1, as if it had been there from the beginning.
fn job(block: BlockNo, text: &[u8]) -> MendJob
    requires block { block ≤ 3 }
    requires text { length text.now ≤ 64 }
    ensures { IsMend result }
{
    MendJob {
        file: 1,
        row: Row {
            block,
            version: 1,
            content: Block::padded(text),
        },
    }
}

// A list of two writes, and one of one.
fn two_lists(alloc: Global) -> Result<Vec<Vec<WriteJob>>, NoMemory>
    ensures few { IfOk result (λ v. length v.items ≡ 2) }
    ensures writes { IfOk result (λ v. All AreWrites (lists v.items)) }
{
    let mut first = Vec::new(alloc);
    first.push(write(b"A1"))?;
    first.push(write(b"A2"))?;
    let mut second = Vec::new(alloc);
    second.push(write(b"B1"))?;
    let mut writers = Vec::new(alloc);
    writers.push(first)?;
    writers.push(second)?;
    Ok(writers)
}

// The rows of blocks 0 and 3 behind these mends and writes, and the SCNs that each list took.
fn mended<R: Threads + Wait + Sync>(
    rt: &R,
    alloc: Global,
    jobs: &[MendJob],
    writers: &[Vec<WriteJob>],
) -> Result<(Option<Row>, Option<Row>, Vec<Vec<Scn>>), NoMemory>
    requires jobs { All IsMend jobs.now }
    requires few { length writers.now ≤ 4 }
    requires writers { All AreWrites (lists writers.now) }
{
    let (live, pass) = open(alloc, 4)?;
    let (mut pass, scns) = mend_during(rt, alloc, &live, pass, jobs, writers);
    let first = live.read(rt, &mut pass, 1, 0);
    let last = live.read(rt, &mut pass, 1, 3);
    Ok((first, last, scns?))
}

// Whether there is a row of this version and text.
fn is_row(row: Option<Row>, version: Scn, text: &[u8]) -> bool
    requires { length text.now ≤ 64 }
{
    row.is_some_and(|row| row.version == version && row.content == Block::padded(text))
}

/// Rows of blocks 2 and 3 are put in place, beside nobody.
pub fn alone<R: Threads + Wait + Sync>(rt: &R, alloc: Global) -> Result<bool, NoMemory> {
    let jobs = [job(2, b"X"), job(3, b"Y")];
    let (first, last, scns) = mended(rt, alloc, &jobs, &[])?;
    Ok(is_row(first, 1, b"") && is_row(last, 1, b"Y") && scns.is_empty())
}

// Whether one of the SCNs is the row's version.
fn has_taken(row: Option<Row>, scns: &[Vec<Scn>]) -> bool {
    for list in scns {
        if row.is_some_and(|row| list.iter().any(|scn| *scn == row.version)) {
            return true;
        }
    }
    false
}

// Whether there is a list of so many.
fn has_length(list: Option<&Vec<Scn>>, length: usize) -> bool {
    list.is_some_and(|list| list.len() == length)
}

/// They are put in place beside two lists of writes of block 0.
pub fn beside<R: Threads + Wait + Sync>(rt: &R, alloc: Global) -> Result<bool, NoMemory> {
    let jobs = [job(2, b"X"), job(3, b"Y")];
    let writers = two_lists(alloc)?;
    let (first, last, scns) = mended(rt, alloc, &jobs, writers.as_slice())?;
    let are_taken = has_length(scns.get(0), 2) && has_length(scns.get(1), 1);
    Ok(is_row(last, 1, b"Y") && are_taken && has_taken(first, scns.as_slice()))
}

// Whether each write of the list took an SCN.
fn are_made(answers: &[Result<Scn, LiveFault>]) -> bool {
    answers.iter().all(|answer| answer.is_ok())
}

/// Two lists of writes alone.
pub fn lists_alone<R: Threads + Wait + Sync>(rt: &R, alloc: Global) -> Result<bool, NoMemory> {
    let writers = two_lists(alloc)?;
    let (live, pass) = open(alloc, 4)?;
    let (_, answers) = write_lists(rt, alloc, &live, pass, writers.as_slice(), 3);
    let answers = answers?;
    let first = answers
        .get(0)
        .is_some_and(|list| list.len() == 2 && are_made(list.as_slice()));
    let second = answers
        .get(1)
        .is_some_and(|list| list.len() == 1 && are_made(list.as_slice()));
    Ok(first && second)
}
