//! Copies of a live datafile by so many channels, beside a plain loop over its rows.
ghost use Rattle.std.specs.Prelude.{◌≤◌};

use crate::format::Shortest;
use crate::live::open;
use rm_base::{NoMemory, Row};
use rm_blocks::DataFile;
use rm_channel::{CopyJob, Gate, Point, Wanted, copy_file};
use std::alloc::{AllocError, Global};
use std::io;
use std::sync::Wait;
use std::thread::Threads;
use std::time::{Clock, Instant};

// It holds nobody.
#[derive(Drop)]
struct Wide;

impl Gate for Wide {
    fn at(&self, _point: Point) {}
}

/// Tells whether 1, 2, 4 and 16 channels copy what a plain loop copies, and for `large` how long they take.
pub fn run<R: Threads + Wait + Clock + Print + Sync>(
    rt: &R,
    alloc: Global,
    large: bool,
) -> io::Result<()> {
    let blocks = if large { 65_536 } else { 100 };
    let plain = by_plain_loop(rt, alloc, blocks)?;
    let mut same = true;
    for channels in [1u32, 2, 4, 16] {
        let Shortest { made, micros } = by_channels(rt, alloc, blocks, channels)?;
        same = same && made == plain.made;
        if large {
            let percent = micros
                .saturating_mul(100)
                .checked_div(plain.micros)
                .unwrap_or(0);
            println!(rt;
                "copy, channels {channels}: {blocks} blocks {micros} us, plain loop {} us, channels / plain loop {percent} %",
                plain.micros
            )?;
        }
    }
    let answer = if same {
        "same answer"
    } else {
        "DIFFERENT ANSWERS"
    };
    println!(rt; "copy: {answer}")
}

// All rows of datafile 1, and how long so many channels take for them.
fn by_channels<R: Threads + Wait + Clock + Sync>(
    rt: &R,
    alloc: Global,
    blocks: u32,
    channels: u32,
) -> io::Result<Shortest<Vec<Row>>>
    requires blocks { (1 ≤ blocks) × (blocks ≤ 65536) }
    requires channels { (1 ≤ channels) × (channels ≤ 16) }
{
    let Ok((live, pass)) = open(alloc, blocks) else {
        return Err(AllocError.into());
    };
    let job = CopyJob {
        file: 1,
        wanted: Wanted::All(blocks),
    };
    let start = Instant::now(rt)?;
    let (_, rows) = copy_file(rt, alloc, &live, pass, &job, channels, &Wide);
    let micros = Instant::now(rt)?.duration_since(start).as_micros();
    let made = rows.map_err(|_| AllocError)?;
    Ok(Shortest { made, micros })
}

// The same by one loop over the rows.
fn by_plain_loop<R: Clock>(rt: &R, alloc: Global, blocks: u32) -> io::Result<Shortest<Vec<Row>>>
    requires { (1 ≤ blocks) × (blocks ≤ 65536) }
{
    let datafile = DataFile::empty(alloc, 1, 1, 1, blocks).map_err(|_| AllocError)?;
    let start = Instant::now(rt)?;
    let made = rows_of(alloc, &datafile).map_err(|_| AllocError)?;
    let micros = Instant::now(rt)?.duration_since(start).as_micros();
    Ok(Shortest { made, micros })
}

fn rows_of(alloc: Global, datafile: &DataFile) -> Result<Vec<Row>, NoMemory> {
    let mut rows = Vec::new(alloc);
    for row in datafile.rows() {
        rows.push(*row)?;
    }
    Ok(rows)
}
