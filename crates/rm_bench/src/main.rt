//! Runs each kernel beside a plain loop, makes and reads the bytes of a piece and of a log, plans made datafiles, takes
//! turns at a live database beside a plain lock, and copies it by channels beside a plain loop: with no word it tells
//! whether both gave the same, and with the word `large` it tells the times; with the word `copies` it tells those of the
//! copies alone. What the whole program takes is timed from outside, by the scripts under bench.
#![tactic(auto)]

mod copies;
mod format;
mod formats;
mod kernel;
mod kernels;
mod live;
mod made;
mod plain;
mod planning;

use format::Format;
use kernel::Kernel;
use kernels::{CountOnes, IsZero, NextSet, OrInto, Same};
use rm_piece::Piece;
use rm_redo::LogFile;
use std::time::Instant;
use std::{env, io};

fn main(rt: HostRuntime) -> io::Result<()> {
    let mut large = false;
    let mut copies = false;
    for word in env::args(&rt)?.skip(1) {
        large = word.as_str() == "large";
        copies = word.as_str() == "copies";
    }
    if copies {
        return copies::run(&rt, rt.alloc(), true);
    }
    run::<OrInto>(&rt, "or_into", large)?;
    run::<CountOnes>(&rt, "count_ones", large)?;
    run::<NextSet>(&rt, "next_set", large)?;
    run::<IsZero>(&rt, "is_zero", large)?;
    run::<Same>(&rt, "same", large)?;
    run_format::<Piece>(&rt, "piece", large)?;
    run_format::<LogFile>(&rt, "log", large)?;
    planning::run(&rt, large)?;
    live::run(&rt, rt.alloc(), large)?;
    copies::run(&rt, rt.alloc(), large)
}

fn run<K: Kernel>(rt: &HostRuntime, name: &str, large: bool) -> io::Result<()> {
    if large {
        tell_times::<K>(rt, name)
    } else {
        tell_answers::<K>(rt, name)
    }
}

fn run_format<F: Format>(rt: &HostRuntime, name: &str, large: bool) -> io::Result<()> {
    if large {
        formats::tell_speed::<F>(rt, name, 32768)?;
        formats::tell_speed::<F>(rt, name, 65536)
    } else {
        let same = formats::comes_back::<F>(rt, 100)?;
        tell(rt, name, same)
    }
}

// Whether lanes and plain loop give the same at each size up to 100.
fn tell_answers<K: Kernel>(rt: &HostRuntime, name: &str) -> io::Result<()> {
    let mut same = true;
    for size in 0..101usize {
        let mut lanes = K::new(rt.alloc(), size)?;
        let mut plain = K::new(rt.alloc(), size)?;
        lanes.by_lanes();
        plain.by_plain_loop();
        same = same && lanes.gave_the_same(&plain);
    }
    tell(rt, name, same)
}

// The times of lanes and plain loop over 65536 bytes or blocks, 1000 times over, and their ratio.
fn tell_times<K: Kernel>(rt: &HostRuntime, name: &str) -> io::Result<()> {
    let mut lanes = K::new(rt.alloc(), 65536)?;
    let mut plain = K::new(rt.alloc(), 65536)?;
    let start = Instant::now(rt)?;
    for _ in 0..1000u32 {
        lanes.by_lanes();
    }
    let middle = Instant::now(rt)?;
    for _ in 0..1000u32 {
        plain.by_plain_loop();
    }
    let end = Instant::now(rt)?;
    let lanes_micros = middle.duration_since(start).as_micros();
    let plain_micros = end.duration_since(middle).as_micros();
    let percent = lanes_micros
        .saturating_mul(100)
        .checked_div(plain_micros)
        .unwrap_or(0);
    println!(rt;
        "{name}: lanes {lanes_micros} us, plain loop {plain_micros} us, lanes / plain {percent} %"
    )?;
    tell(rt, name, lanes.gave_the_same(&plain))
}

fn tell(rt: &HostRuntime, name: &str, same: bool) -> io::Result<()> {
    let answer = if same {
        "same answer"
    } else {
        "DIFFERENT ANSWERS"
    };
    println!(rt; "{name}: {answer}")
}
