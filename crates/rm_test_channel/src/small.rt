//! A small live database, and copies of its datafile.
ghost use Rattle.std.specs.Prelude.{◌≡◌, ◌≤◌, IfOk, length};
ghost use Rattle.rm_test_channel.specs.Small.{IsOfFile, opened};

use crate::gates::{Adding, Meeting, Wide};
use rm_base::{Block, BlockNo, NoMemory, Row, Scn};
use rm_blocks::DataFile;
use rm_channel::{CopyJob, Gate, Wanted, copy_file};
use rm_live::{Database, Live, Pass};
use rm_redo::OnlineLogs;
use rm_track::{Bits, Tracker};
use std::alloc::Global;
use std::sync::Wait;
use std::thread::Threads;

/// Opens a database of file 1, of so many blocks, and four threads, for twenty passes.
pub fn open(alloc: Global, blocks: u32) -> Result<(Live, Pass), NoMemory>
    requires { (1 ≤ blocks) × (blocks ≤ 100) }
    ensures { IfOk result (λ r. r.1 ≡ opened r.0 blocks) }
{
    let mut files = Vec::new(alloc);
    files.push(DataFile::empty(alloc, 1, 1, 1, blocks)?)?;
    let database = Database {
        inc: 1,
        now: 2,
        files,
        logs: OnlineLogs::new(alloc, 7, 1, 4, 1)?,
        tracker: Tracker::new(alloc),
    };
    Live::open(alloc, database, 20)
}

/// All of file 1.
pub fn whole_file(blocks: u32) -> CopyJob
    ensures { IsOfFile blocks result }
{
    CopyJob {
        file: 1,
        wanted: Wanted::All(blocks),
    }
}

// Blocks 1 and 3 of file 1.
fn marked_blocks(alloc: Global, blocks: u32) -> Result<CopyJob, NoMemory>
    ensures { IfOk result (IsOfFile blocks) }
{
    let mut bits = Bits::none(alloc, blocks)?;
    bits.add(1);
    bits.add(3);
    Ok(CopyJob {
        file: 1,
        wanted: Wanted::Blocks(bits),
    })
}

// A copy of file 1 by so many channels, after a write of block 1 and one of block 3.
fn copied<R: Threads + Wait + Sync, G: Gate>(
    rt: &R,
    alloc: Global,
    job: &CopyJob,
    blocks: u32,
    channels: u32,
    gate: &G,
) -> Result<Vec<Row>, NoMemory>
    requires job { IsOfFile blocks job.now }
    requires blocks { (1 ≤ blocks) × (blocks ≤ 100) }
    requires channels { (1 ≤ channels) × (channels ≤ 16) }
{
    let (live, mut pass) = open(alloc, blocks)?;
    let _ = live.write(rt, &mut pass, 1, 1, 1, Block::padded(b"A"));
    let _ = live.write(rt, &mut pass, 2, 1, 3, Block::padded(b"B"));
    let (_, rows) = copy_file(rt, alloc, &live, pass, job, channels, gate);
    rows
}

// Whether there is such a row.
fn is_row(row: Option<&Row>, block: BlockNo, version: Scn, text: &[u8]) -> bool
    requires { length text.now ≤ 64 }
{
    row.is_some_and(|row| row.block == block && row.version == version)
        && row.is_some_and(|row| row.content == Block::padded(text))
}

/// Each number of channels gives the same rows, which are those of the datafile.
pub fn same_rows<R: Threads + Wait + Sync>(rt: &R, alloc: Global) -> Result<bool, NoMemory> {
    let job = whole_file(4);
    let one = copied(rt, alloc, &job, 4, 1, &Wide)?;
    let two = copied(rt, alloc, &job, 4, 2, &Wide)?;
    let four = copied(rt, alloc, &job, 4, 4, &Wide)?;
    let many = copied(rt, alloc, &job, 4, 16, &Wide)?;
    let rows = one.as_slice();
    let are_same = rows == two.as_slice() && rows == four.as_slice() && rows == many.as_slice();
    let first = is_row(rows.get(0), 0, 1, b"") && is_row(rows.get(1), 1, 2, b"A");
    let last = is_row(rows.get(2), 2, 1, b"") && is_row(rows.get(3), 3, 3, b"B");
    Ok(are_same && rows.len() == 4 && first && last)
}

/// Of the marked blocks each number of channels gives the rows.
pub fn marked_rows<R: Threads + Wait + Sync>(rt: &R, alloc: Global) -> Result<bool, NoMemory> {
    let job = marked_blocks(alloc, 4)?;
    let one = copied(rt, alloc, &job, 4, 1, &Wide)?;
    let two = copied(rt, alloc, &job, 4, 2, &Wide)?;
    let many = copied(rt, alloc, &job, 4, 16, &Wide)?;
    let rows = one.as_slice();
    let are_same = rows == two.as_slice() && rows == many.as_slice();
    let are_marked = is_row(rows.get(0), 1, 2, b"A") && is_row(rows.get(1), 3, 3, b"B");
    Ok(are_same && rows.len() == 2 && are_marked)
}

// Whether so many channels come to the gate once each, for ten blocks, each for so many or one more.
fn adds_up<R: Threads + Wait + Sync>(
    rt: &R,
    alloc: Global,
    channels: u32,
    least: u32,
) -> Result<bool, NoMemory>
    requires { (1 ≤ channels) × (channels ≤ 16) }
{
    let gate = Adding::new(least);
    let rows = copied(rt, alloc, &whole_file(10), 10, channels, &gate)?;
    Ok(rows.len() == 10 && gate.counts() == (u64::from(channels), 10, 0))
}

/// The sections have all blocks, and differ by at most one.
pub fn lengths<R: Threads + Wait + Sync>(rt: &R, alloc: Global) -> Result<bool, NoMemory> {
    let few = adds_up(rt, alloc, 1, 10)? && adds_up(rt, alloc, 3, 3)?;
    let many = adds_up(rt, alloc, 4, 2)? && adds_up(rt, alloc, 16, 0)?;
    Ok(few && many)
}

/// Two channels are at the gate at once.
pub fn meeting<R: Threads + Wait + Sync>(rt: &R, alloc: Global) -> Result<bool, NoMemory> {
    let gate = Meeting::new();
    let rows = copied(rt, alloc, &whole_file(4), 4, 2, &gate)?;
    Ok(!gate.is_given_up() && rows.len() == 4)
}
