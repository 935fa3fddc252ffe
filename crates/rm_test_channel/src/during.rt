//! Copies beside a writer.
ghost use Rattle.std.specs.Prelude.{◌≡◌, ◌≤◌, All, IfOk, length};
ghost use Rattle.rm_channel.specs.Jobs.{lists};
ghost use Rattle.rm_test_channel.specs.Small.{AreWrites, IsOfFile};

use crate::gates::Holding;
use crate::small::{open, whole_file};
use rm_base::{Block, NoMemory, Scn};
use rm_channel::{CopyJob, Gate, Work, WriteJob, copy_during};
use std::alloc::Global;
use std::sync::Wait;
use std::thread::Threads;

/// Copies file 1, of so many blocks, beside these writes of its first one.
pub fn copied<R: Threads + Wait + Sync, G: Gate>(
    rt: &R,
    alloc: Global,
    blocks: u32,
    jobs: &[CopyJob],
    writers: &[Vec<WriteJob>],
    channels: u32,
    gate: &G,
) -> Result<Work, NoMemory>
    requires blocks { (1 ≤ blocks) × (blocks ≤ 100) }
    requires jobs { All (IsOfFile blocks) jobs.now }
    requires few { length writers.now ≤ 4 }
    requires writers { All AreWrites (lists writers.now) }
    requires channels { (1 ≤ channels) × (channels ≤ 16) }
{
    let (live, pass) = open(alloc, blocks)?;
    let (_, work) = copy_during(rt, alloc, &live, pass, jobs, writers, channels, gate);
    work
}

/// A write of a text to the first block of file 1.
pub fn write(text: &[u8]) -> WriteJob
    requires { length text.now ≤ 64 }
    ensures file { result.file ≡ 1 }
    ensures block { result.block ≡ 0 }
{
    WriteJob {
        file: 1,
        block: 0,
        content: Block::padded(text),
    }
}

// A list of one write.
fn one_write(alloc: Global) -> Result<Vec<Vec<WriteJob>>, NoMemory>
    ensures few { IfOk result (λ v. length v.items ≡ 1) }
    ensures writes { IfOk result (λ v. All AreWrites (lists v.items)) }
{
    let mut list = Vec::new(alloc);
    list.push(write(b"A"))?;
    let mut writers = Vec::new(alloc);
    writers.push(list)?;
    Ok(writers)
}

// Whether the only list has this SCN alone.
fn is_taken(scns: &[Vec<Scn>], scn: Scn) -> bool {
    scns.len() == 1 && scns.iter().all(|list| list.as_slice() == [scn].as_slice())
}

/// Section 0 waits at the gate until section 1 and the writer have been there.
pub fn holding<R: Threads + Wait + Sync>(rt: &R, alloc: Global) -> Result<bool, NoMemory> {
    let gate = Holding::new();
    let writers = one_write(alloc)?;
    let work = copied(rt, alloc, 4, &[whole_file(4)], writers.as_slice(), 2, &gate)?;
    let rows = work.rows.first().map_or(0, |rows| rows.len());
    let is_told = work.reads.as_slice() == [4].as_slice() && is_taken(work.scns.as_slice(), 2);
    Ok(!gate.is_given_up() && rows == 4 && is_told)
}
