//! Passes of a live database on one thread and on two, and each refusal of a write.
ghost use Rattle.std.specs.Prelude.{◌≡◌, ◌≤◌, IfOk, length};
ghost use Rattle.rm_base.specs.Numbers.{last_scn};
ghost use Rattle.rm_redo.specs.Online.{IsThread, IsLost, fresh_logs};
ghost use Rattle.rm_live.specs.{Parts.{IsNumbered, IsSound, parts_of}, Ruled.{upto}, Passes.{IsLater}};

use rm_base::{Block, BlockNo, NoMemory, Row, Scn, ThreadNo};
use rm_blocks::DataFile;
use rm_live::{Database, Live, LiveFault, Pass};
use rm_redo::OnlineLogs;
use rm_track::Tracker;
use std::alloc::Global;
use std::sync::Wait;
use std::thread::{Threads, join};

// File 1 of two blocks, which was created at 1, and these threads.
fn small(alloc: Global, threads: u8, now: Scn) -> Result<Database, NoMemory>
    requires threads { (1 ≤ threads) × (threads ≤ 4) }
    requires now { (2 ≤ now) × (now ≤ last_scn) }
    ensures now { IfOk result (λ d. d.now ≡ now) }
    ensures logs { IfOk result (λ d. d.logs ≡ fresh_logs 7 1 threads 1) }
    ensures numbered { IfOk result (λ d. IsNumbered (parts_of d).files) }
    ensures sound { IfOk result (λ d. IsSound (parts_of d)) }
{
    let mut files = Vec::new(alloc);
    files.push(DataFile::empty(alloc, 1, 1, 1, 2)?)?;
    Ok(Database {
        inc: 1,
        now,
        files,
        logs: OnlineLogs::new(alloc, 7, 1, threads, 1)?,
        tracker: Tracker::new(alloc),
    })
}

// The same as a live database.
fn open(alloc: Global, threads: u8, now: Scn, passes: usize) -> Result<(Live, Pass), NoMemory>
    requires threads { (1 ≤ threads) × (threads ≤ 4) }
    requires now { (2 ≤ now) × (now ≤ last_scn) }
    requires passes { 1 ≤ passes }
    ensures home { IfOk result (λ r. r.1.home ≡ r.0) }
    ensures now { IfOk result (λ r. r.1.opening.now ≡ now) }
    ensures logs { IfOk result (λ r. r.1.opening.logs ≡ fresh_logs 7 1 threads 1) }
    ensures passes { IfOk result (λ r. r.1.passes ≡ passes) }
    ensures numbers { IfOk result (λ r. r.1.numbers ≡ upto 0 passes) }
{
    let database = small(alloc, threads, now)?;
    Live::open(alloc, database, passes)
}

// A write of a text to a block of file 1.
fn write<R: Wait>(
    rt: &R,
    live: &Live,
    pass: &mut Pass,
    thread: ThreadNo,
    block: BlockNo,
    text: &[u8],
) -> Result<Scn, LiveFault>
    requires home { pass.old.home ≡ live.now }
    requires thread { IsThread pass.old.opening.logs thread }
    requires there { ¬ IsLost pass.old.opening.logs thread }
    requires text { length text.now ≤ 64 }
    ensures { IsLater pass.old pass.new }
{
    live.write(rt, pass, thread, 1, block, Block::padded(text))
}

// Whether the row has this version and this text.
fn is_row(row: Option<Row>, version: Scn, text: &[u8]) -> bool
    requires { length text.now ≤ 64 }
{
    row.is_some_and(|row| row.version == version) && has_text(row, text)
}

// Whether the row has this text.
fn has_text(row: Option<Row>, text: &[u8]) -> bool
    requires { length text.now ≤ 64 }
{
    row.is_some_and(|row| row.content == Block::padded(text))
}

/// Two passes on one thread, each of which reads what the other wrote.
pub fn on_one_thread<R: Wait>(rt: &R, alloc: Global) -> Result<bool, NoMemory> {
    let (live, mut p) = open(alloc, 1, 2, 2)?;
    let first = write(rt, &live, &mut p, 1, 0, b"A");
    let here = live.read(rt, &mut p, 1, 0);
    let mut q = live.split(&mut p);
    let second = write(rt, &live, &mut q, 1, 1, b"B");
    live.join(&mut p, q);
    let there = live.read(rt, &mut p, 1, 1);
    let nothing = live.read(rt, &mut p, 2, 0);
    let refused = write(rt, &live, &mut p, 1, 2, b"C");
    let database = live.close(p);
    let are_made = [first, second, refused] == [Ok(2), Ok(3), Err(LiveFault::NoBlock)];
    let are_read = is_row(here, 2, b"A") && is_row(there, 3, b"B") && nothing.is_none();
    Ok(are_made && are_read && database.now == 4 && has_records(&database, 1, 2))
}

// So many writes of one block by one thread, and whether each was made, at ascending SCNs.
fn writes<R: Wait>(
    rt: &R,
    live: &Live,
    mut pass: Pass,
    thread: ThreadNo,
    block: BlockNo,
    count: u32,
) -> (Pass, bool)
    requires home { pass.home ≡ live.now }
    requires thread { IsThread pass.opening.logs thread }
    requires there { ¬ IsLost pass.opening.logs thread }
    ensures { IsLater pass result.0 }
{
    let mut last = 0;
    let mut ascend = true;
    for _ in 0..count {
        match write(rt, live, &mut pass, thread, block, b"A") {
            Ok(scn) => {
                ascend = ascend && last < scn;
                last = scn;
            }
            Err(_) => ascend = false,
        }
    }
    (pass, ascend)
}

// Whether thread t of the database is there, and has so many records.
fn has_records(database: &Database, thread: ThreadNo, count: usize) -> bool {
    database.logs.has(thread) && database.logs.records(thread).len() == count
}

/// Two passes on two threads, each with a thousand writes.
pub fn on_two_threads<R: Threads + Wait + Sync>(rt: &R, alloc: Global) -> Result<bool, NoMemory> {
    let (live, mut p) = open(alloc, 2, 2, 2)?;
    let q = live.split(&mut p);
    let shared = &live;
    let (first, second) = join(
        rt,
        move || -> (Pass, bool)
            requires { (p.home ≡ shared.now) × IsThread p.opening.logs 1 × (¬ IsLost p.opening.logs 1) }
            ensures { IsLater p result.0 }
        { writes(rt, shared, p, 1, 0, 1000) },
        move || -> (Pass, bool)
            requires { (q.home ≡ shared.now) × IsThread q.opening.logs 2 × (¬ IsLost q.opening.logs 2) }
            ensures { IsLater q result.0 }
        { writes(rt, shared, q, 2, 1, 1000) },
    );
    let (mut p, ascend) = first;
    let (q, also) = second;
    live.join(&mut p, q);
    let database = live.close(p);
    let are_there = has_records(&database, 1, 1000) && has_records(&database, 2, 1000);
    Ok(ascend && also && database.now == 2002 && are_there && database.logs.threads() == 2)
}

/// A log becomes full at 65,536 records.
pub fn a_full_log<R: Wait>(rt: &R, alloc: Global) -> Result<bool, NoMemory> {
    let (live, p) = open(alloc, 2, 2, 1)?;
    let (mut p, room) = writes(rt, &live, p, 1, 0, 65_536);
    let full = write(rt, &live, &mut p, 1, 0, b"B");
    let absent = write(rt, &live, &mut p, 1, 2, b"B");
    let other = write(rt, &live, &mut p, 2, 0, b"B");
    let database = live.close(p);
    let wanted = [Err(LiveFault::Full), Err(LiveFault::NoBlock), Ok(65_538)];
    Ok(room && [full, absent, other] == wanted && database.now == 65_539)
}

/// A row that is put back is what it was, and takes no SCN.
pub fn a_mend<R: Wait>(rt: &R, alloc: Global) -> Result<bool, NoMemory> {
    let (live, mut p) = open(alloc, 1, 2, 1)?;
    let row = Row {
        block: 0,
        version: 1,
        content: Block::padded(b"Z"),
    };
    let first = write(rt, &live, &mut p, 1, 0, b"A");
    let there = live.mend(rt, &mut p, 1, row);
    let beyond = live.mend(rt, &mut p, 1, Row { block: 2, ..row });
    let back = live.read(rt, &mut p, 1, 0);
    let second = write(rt, &live, &mut p, 1, 1, b"B");
    let database = live.close(p);
    let are_told = [first, second] == [Ok(2), Ok(3)] && there && !beyond;
    Ok(are_told && is_row(back, 1, b"Z") && database.now == 4)
}

/// No write takes the last SCN.
pub fn the_last_scn<R: Wait>(rt: &R, alloc: Global) -> Result<bool, NoMemory> {
    let (live, mut p) = open(alloc, 1, 281_474_976_710_654, 1)?;
    let last = write(rt, &live, &mut p, 1, 0, b"A");
    let past = write(rt, &live, &mut p, 1, 0, b"B");
    let row = live.read(rt, &mut p, 1, 0);
    let database = live.close(p);
    let are_told = [last, past] == [Ok(281_474_976_710_654), Err(LiveFault::LastScn)];
    Ok(are_told && has_text(row, b"A") && database.now == 281_474_976_710_655)
}
