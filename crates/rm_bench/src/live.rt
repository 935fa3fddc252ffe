//! Turns of a live database, on so many threads at once, beside a plain lock round the same datafile.
ghost use Rattle.std.specs.Prelude.{◌≡◌, ◌≤◌, ◌∷◌, [], IfOk, length};
ghost use Rattle.rm_blocks.specs.File.{created};
ghost use Rattle.rm_live.specs.{Parts.{IsNumbered, IsSound, parts_of}, Ruled.{upto}};

use crate::format::Shortest;
use rm_base::{BlockNo, NoMemory, Row};
use rm_blocks::DataFile;
use rm_live::{Database, Live, Pass};
use rm_redo::OnlineLogs;
use rm_track::Tracker;
use std::alloc::{AllocError, Global};
use std::io;
use std::sync::{Mutex, Wait};
use std::thread::{Threads, join};
use std::time::{Clock, Instant};

/// Tells whether each turn finds its row on 1, 2 and 4 threads, and for `large` how long the turns take.
pub fn run<R: Threads + Wait + Clock + Print + Sync>(
    rt: &R,
    alloc: Global,
    large: bool,
) -> io::Result<()> {
    let count = if large { 200_000 } else { 100 };
    let mut same = true;
    for threads in [1u32, 2, 4] {
        let Shortest { made, micros } = by_passes(rt, alloc, threads, count)?;
        let plain = by_plain_lock(rt, alloc, threads, count)?;
        let all = threads.saturating_mul(count);
        same = same && made == all && plain.made == all;
        if large {
            tell_turns(rt, threads, all, micros, plain.micros)?;
        }
    }
    let answer = if same {
        "same answer"
    } else {
        "DIFFERENT ANSWERS"
    };
    println!(rt; "live: {answer}")
}

fn tell_turns<R: Print>(
    rt: &R,
    threads: u32,
    turns: u32,
    live: u128,
    plain: u128,
) -> io::Result<()> {
    let turns = u128::from(turns);
    let of_live = turns
        .saturating_mul(1_000_000)
        .checked_div(live)
        .unwrap_or(0);
    let of_plain = turns
        .saturating_mul(1_000_000)
        .checked_div(plain)
        .unwrap_or(0);
    let percent = live.saturating_mul(100).checked_div(plain).unwrap_or(0);
    println!(rt;
        "live, threads {threads}: {turns} turns {live} us, {of_live} a second, plain lock {plain} us, {of_plain} a second, live / plain lock {percent} %"
    )
}

/// A live database of datafile 1, of so many blocks, for 16 passes, and the first of them.
pub fn open(alloc: Global, blocks: u32) -> Result<(Live, Pass), NoMemory>
    requires { (1 ≤ blocks) × (blocks ≤ 65536) }
    ensures home { IfOk result (λ r. r.1.home ≡ r.0) }
    ensures numbers { IfOk result (λ r. r.1.numbers ≡ upto 0 16) }
    ensures files { IfOk result (λ r. r.1.opening.files ≡ created 1 1 1 blocks ∷ []) }
{
    let database = database(alloc, blocks)?;
    Live::open(alloc, database, 16)
}

// Datafile 1 of so many blocks, which was created at 1, and one redo thread.
fn database(alloc: Global, blocks: u32) -> Result<Database, NoMemory>
    requires { (1 ≤ blocks) × (blocks ≤ 65536) }
    ensures numbered { IfOk result (λ d. IsNumbered (parts_of d).files) }
    ensures sound { IfOk result (λ d. IsSound (parts_of d)) }
    ensures files { IfOk result (λ d. (parts_of d).files ≡ created 1 1 1 blocks ∷ []) }
{
    let mut files = Vec::new(alloc);
    files.push(DataFile::empty(alloc, 1, 1, 1, blocks)?)?;
    Ok(Database {
        inc: 1,
        now: 2,
        files,
        logs: OnlineLogs::new(alloc, 7, 1, 1, 1)?,
        tracker: Tracker::new(alloc),
    })
}

// How many of the turns find their row, and how long they take, each pass on a thread of its own.
fn by_passes<R: Threads + Wait + Clock + Sync>(
    rt: &R,
    alloc: Global,
    threads: u32,
    count: u32,
) -> io::Result<Shortest<u32>> {
    let (live, pass) = open(alloc, 2).map_err(|_| AllocError)?;
    let start = Instant::now(rt)?;
    let made = match threads {
        1 => turns(rt, &live, pass, count),
        2 => two_passes(rt, &live, pass, count),
        _ => four_passes(rt, &live, pass, count),
    };
    let micros = Instant::now(rt)?.duration_since(start).as_micros();
    Ok(Shortest { made, micros })
}

// Reads of two blocks by turns: how many find the row as it was created.
fn turns<R: Wait>(rt: &R, live: &Live, mut pass: Pass, count: u32) -> u32
    requires { pass.home ≡ live.now }
{
    let mut found = 0u32;
    for k in 0..count {
        if is_as_created(live.read(rt, &mut pass, 1, k % 2)) {
            found = found.saturating_add(1);
        }
    }
    found
}

fn two_passes<R: Threads + Wait + Sync>(rt: &R, live: &Live, mut pass: Pass, count: u32) -> u32
    requires home { pass.home ≡ live.now }
    requires room { 2 ≤ length pass.numbers }
{
    let other = live.split(&mut pass);
    let (one, two) = join(
        rt,
        move || -> u32
            requires { pass.home ≡ live.now }
        { turns(rt, live, pass, count) },
        move || -> u32
            requires { other.home ≡ live.now }
        { turns(rt, live, other, count) },
    );
    one.saturating_add(two)
}

fn four_passes<R: Threads + Wait + Sync>(rt: &R, live: &Live, mut pass: Pass, count: u32) -> u32
    requires home { pass.home ≡ live.now }
    requires numbers { pass.numbers ≡ upto 0 16 }
{
    let other = live.split(&mut pass);
    let (one, two) = join(
        rt,
        move || -> u32
            requires { (pass.home ≡ live.now) × (2 ≤ length pass.numbers) }
        { two_passes(rt, live, pass, count) },
        move || -> u32
            requires { (other.home ≡ live.now) × (2 ≤ length other.numbers) }
        { two_passes(rt, live, other, count) },
    );
    one.saturating_add(two)
}

// The same by threads that share the datafiles under a plain lock.
fn by_plain_lock<R: Threads + Wait + Clock + Sync>(
    rt: &R,
    alloc: Global,
    threads: u32,
    count: u32,
) -> io::Result<Shortest<u32>> {
    let mut files = Vec::new(alloc);
    let datafile = DataFile::empty(alloc, 1, 1, 1, 2).map_err(|_| AllocError)?;
    files.push(datafile)?;
    let files = Mutex::new(files);
    let start = Instant::now(rt)?;
    let made = match threads {
        1 => locked_turns(rt, &files, count),
        2 => two_threads(rt, &files, count),
        _ => four_threads(rt, &files, count),
    };
    let micros = Instant::now(rt)?.duration_since(start).as_micros();
    Ok(Shortest { made, micros })
}

fn locked_turns<R: Wait>(rt: &R, files: &Mutex<Vec<DataFile>>, count: u32) -> u32 {
    let mut found = 0u32;
    for k in 0..count {
        if is_as_created(locked_read(rt, files, k % 2)) {
            found = found.saturating_add(1);
        }
    }
    found
}

fn locked_read<R: Wait>(rt: &R, files: &Mutex<Vec<DataFile>>, block: BlockNo) -> Option<Row> {
    let files = files.lock(rt);
    files.iter().find(|f| f.file() == 1)?.read(block)
}

fn two_threads<R: Threads + Wait + Sync>(rt: &R, files: &Mutex<Vec<DataFile>>, count: u32) -> u32 {
    let (one, two) = join(
        rt,
        move || locked_turns(rt, files, count),
        move || locked_turns(rt, files, count),
    );
    one.saturating_add(two)
}

fn four_threads<R: Threads + Wait + Sync>(rt: &R, files: &Mutex<Vec<DataFile>>, count: u32) -> u32 {
    let (one, two) = join(
        rt,
        move || two_threads(rt, files, count),
        move || two_threads(rt, files, count),
    );
    one.saturating_add(two)
}

fn is_as_created(row: Option<Row>) -> bool {
    row.is_some_and(|row| row.version == 1)
}
