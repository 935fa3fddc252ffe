//! What one worker does.
ghost use Rattle.std.specs.{Prelude.{ℕ, ◌≡◌, ◌+◌, ◌-◌, ◌≤◌, ◌<◌, List, [], ◌∷◌, length, replicate, All, IfOk, IsSome}, Option.{option_map}};
ghost use Rattle.std.specs.Result.{result_ok};
ghost use Rattle.rm_redo.specs.Online.{IsThread, IsLost};
ghost use Rattle.rm_live.specs.{Parts.{row_at}, Passes.{IsLater}};
ghost use Rattle.rm_channel.specs.Jobs.{AreAsLong, AreRows, IsWanted, blocks_in, found, found_of, lists, reads, reads_of, wanted_blocks, writes, wrote, wrote_of};
ghost use Rattle.rm_channel.specs.{Made.{Worked}, Room.{AreThreads, IsThere}, Runs.{HasRun}, Sections.{between, sections}};

use crate::cutting::cut_at;
use crate::jobs::{CopyJob, Gate, Point, Wanted, WriteJob};
use crate::pacing::{RUN_OF_READS, RUN_OF_WRITES, read_run, write_run};
use rm_base::{BlockNo, FileNo, NoMemory, Row, Scn, ThreadNo};
use rm_live::{Live, LiveFault, Pass};
use std::alloc::Global;
use std::sync::{Mutex, Wait};

/// What some of the workers did: of each job the rows of their sections, and of each of their lists the
/// answers.
#[derive(Drop)]
pub(crate) struct Done {
    pub rows: Vec<Vec<Row>>,
    pub answers: Vec<Vec<Result<Scn, LiveFault>>>,
}

/// Some of the workers: the sections from one on and up to another, of so many channels, and lists of
/// writes, of which the first is that of a thread.
#[derive(Clone, Copy)]
pub(crate) struct Share {
    pub channels: u32,
    pub from: u32,
    pub to: u32,
    pub thread: ThreadNo,
}

// Reads these blocks of a datafile, run after run.
fn read_list<R: Wait>(
    rt: &R,
    alloc: Global,
    live: &Live,
    pace: &Mutex<()>,
    pass: &mut Pass,
    file: FileNo,
    blocks: &[BlockNo],
) -> Result<Vec<Row>, NoMemory>
    requires home { pass.old.home ≡ live.now }
    requires some { 0 < length pass.old.numbers }
    requires there { All (λ b. IsSome (row_at pass.old.opening.files file b)) blocks.now }
    ensures stays { IsLater pass.old pass.new }
    ensures worked { Worked pass.old pass.new.seen (reads file blocks.now) (option_map (λ v. found file blocks.now v.items) (result_ok result)) }
    ensures rows { IfOk result (λ v. length v.items ≡ length blocks.now) }
{
    let mut rows = Vec::with_capacity(alloc, blocks.len())?;
    let mut left = blocks;
    'runs: while !left.is_empty() {
        let (run, rest) = left.split_at(RUN_OF_READS.min(left.len()));
        read_run(rt, live, pace, pass, file, run, &mut rows);
        left = rest;
    }
    Ok(rows)
}

// Reads the wanted blocks of a datafile from place `from` on and up to place `to`.
fn read_blocks<R: Wait>(
    rt: &R,
    alloc: Global,
    live: &Live,
    pace: &Mutex<()>,
    pass: &mut Pass,
    file: FileNo,
    wanted: &Wanted,
    from: u32,
    to: u32,
) -> Result<Vec<Row>, NoMemory>
    requires home { pass.old.home ≡ live.now }
    requires some { 0 < length pass.old.numbers }
    requires wanted { IsWanted wanted.now }
    requires order { from ≤ to }
    requires within { to ≤ blocks_in wanted.now }
    requires there { All (λ b. IsSome (row_at pass.old.opening.files file b)) (wanted_blocks wanted.now) }
    ensures stays { IsLater pass.old pass.new }
    ensures worked { let bs : List ℕ = between from to (wanted_blocks wanted.now) in Worked pass.old pass.new.seen (reads file bs) (option_map (λ v. found file bs v.items) (result_ok result)) }
    ensures rows { IfOk result (λ v. length v.items ≡ length (between from to (wanted_blocks wanted.now))) }
{
    let blocks = wanted.part(alloc, from, to)?;
    read_list(rt, alloc, live, pace, pass, file, blocks.as_slice())
}

// Reads one section of each job, job after job, and calls the gate before each.
fn read_sections<G: Gate, R: Wait>(
    rt: &R,
    alloc: Global,
    live: &Live,
    pace: &Mutex<()>,
    pass: &mut Pass,
    gate: &G,
    jobs: &[CopyJob],
    channels: u32,
    section: u32,
) -> Result<Vec<Vec<Row>>, NoMemory>
    requires home { pass.old.home ≡ live.now }
    requires some { 0 < length pass.old.numbers }
    requires channels { (section < channels) × (channels ≤ 16) }
    requires there { All (IsThere pass.old.opening.files) jobs.now }
    ensures stays { IsLater pass.old pass.new }
    ensures worked { Worked pass.old pass.new.seen (reads_of (sections channels section (section + 1) jobs.now)) (option_map (λ v. found_of (sections channels section (section + 1) jobs.now) (lists v.items)) (result_ok result)) }
    ensures rows { IfOk result (λ v. AreRows (lists v.items) (sections channels section (section + 1) jobs.now)) }
{
    let mut all = Vec::with_capacity(alloc, jobs.len())?;
    for job in jobs {
        let blocks = job.wanted.count();
        let from = cut_at(blocks, section, channels);
        let to = cut_at(blocks, section + 1, channels);
        gate.at(Point {
            file: job.file,
            section,
            blocks: to - from,
        });
        all.push_reserved(read_blocks(
            rt,
            alloc,
            live,
            pace,
            pass,
            job.file,
            &job.wanted,
            from,
            to,
        )?);
    }
    Ok(all)
}

// Makes the writes of a list by one thread, in order, run after run, and keeps the answers as they come.
fn make_writes<R: Wait>(
    rt: &R,
    alloc: Global,
    live: &Live,
    pace: &Mutex<()>,
    pass: &mut Pass,
    list: &[WriteJob],
    thread: ThreadNo,
) -> Result<Vec<Result<Scn, LiveFault>>, NoMemory>
    requires home { pass.old.home ≡ live.now }
    requires some { 0 < length pass.old.numbers }
    requires thread { 0 < length list.now → IsThread pass.old.opening.logs thread × (¬ IsLost pass.old.opening.logs thread) }
    ensures stays { IsLater pass.old pass.new }
    ensures worked { Worked pass.old pass.new.seen (writes thread list.now) (option_map (λ v. wrote thread list.now v.items) (result_ok result)) }
    ensures answers { IfOk result (λ v. length v.items ≡ length list.now) }
{
    let mut answers = Vec::with_capacity(alloc, list.len())?;
    let mut left = list;
    'runs: while !left.is_empty() {
        let (run, rest) = left.split_at(RUN_OF_WRITES.min(left.len()));
        write_run(rt, live, pace, pass, run, thread, &mut answers);
        left = rest;
    }
    Ok(answers)
}

// The worker of the first section.
fn copy_section<G: Gate, R: Wait>(
    rt: &R,
    alloc: Global,
    live: &Live,
    pace: &Mutex<()>,
    pass: &mut Pass,
    gate: &G,
    jobs: &[CopyJob],
    share: Share,
) -> Result<Done, NoMemory>
    requires home { pass.old.home ≡ live.now }
    requires some { 0 < length pass.old.numbers }
    requires channels { (share.from < share.channels) × (share.channels ≤ 16) }
    requires there { All (IsThere pass.old.opening.files) jobs.now }
    ensures stays { IsLater pass.old pass.new }
    ensures run { HasRun pass.old pass.new.seen (sections share.channels share.from (share.from + 1) jobs.now) share.thread [] result }
{
    let rows = read_sections(
        rt,
        alloc,
        live,
        pace,
        pass,
        gate,
        jobs,
        share.channels,
        share.from,
    )?;
    Ok(Done {
        rows,
        answers: Vec::new(alloc),
    })
}

// For each of so many jobs no row.
fn no_rows(alloc: Global, jobs: usize) -> Result<Vec<Vec<Row>>, NoMemory>
    ensures { IfOk result (λ v. lists v.items ≡ replicate jobs []) }
{
    let mut rows = Vec::new(alloc);
    'jobs: while rows.len() < jobs {
        rows.push(Vec::new(alloc))?;
    }
    Ok(rows)
}

// The worker of a list of writes. The sections of its share have ended.
fn write_list<G: Gate, R: Wait>(
    rt: &R,
    alloc: Global,
    live: &Live,
    pace: &Mutex<()>,
    pass: &mut Pass,
    gate: &G,
    jobs: usize,
    list: &[WriteJob],
    thread: ThreadNo,
) -> Result<Done, NoMemory>
    requires home { pass.old.home ≡ live.now }
    requires some { 0 < length pass.old.numbers }
    requires first { 1 ≤ thread }
    requires thread { 0 < length list.now → IsThread pass.old.opening.logs thread × (¬ IsLost pass.old.opening.logs thread) }
    ensures stays { IsLater pass.old pass.new }
    ensures worked { Worked pass.old pass.new.seen (writes thread list.now) (option_map (λ d. wrote_of thread (list.now ∷ []) (lists d.answers.items)) (result_ok result)) }
    ensures rows { IfOk result (λ d. lists d.rows.items ≡ replicate jobs []) }
    ensures answers { IfOk result (λ d. AreAsLong (lists d.answers.items) (list.now ∷ [])) }
{
    gate.at(Point {
        file: 0,
        section: u32::from(thread) - 1,
        blocks: list.len().min(u32::MAX as usize) as u32,
    });
    let rows = no_rows(alloc, jobs)?;
    let mut answers = Vec::with_capacity(alloc, 1)?;
    answers.push_reserved(make_writes(rt, alloc, live, pace, pass, list, thread)?);
    Ok(Done { rows, answers })
}

/// What one worker does, that of a section or that of a list of writes.
pub(crate) fn work<G: Gate, R: Wait>(
    rt: &R,
    alloc: Global,
    live: &Live,
    pace: &Mutex<()>,
    mut pass: Pass,
    gate: &G,
    jobs: &[CopyJob],
    writers: &[Vec<WriteJob>],
    share: Share,
) -> (Pass, Result<Done, NoMemory>)
    requires home { pass.home ≡ live.now }
    requires some { 0 < length pass.numbers }
    requires one { share.to - share.from + length writers.now ≡ 1 }
    requires share { (share.from ≤ share.to) × (share.to ≤ share.channels) × (share.channels ≤ 16) × (1 ≤ share.thread) }
    requires there { All (IsThere pass.opening.files) jobs.now }
    requires threads { AreThreads pass.opening.logs share.thread (lists writers.now) }
    ensures stays { IsLater pass result.0 }
    ensures run { HasRun pass result.0.seen (sections share.channels share.from share.to jobs.now) share.thread (lists writers.now) result.1 }
{
    let done = if share.from < share.to {
        copy_section(rt, alloc, live, pace, &mut pass, gate, jobs, share)
    } else {
        let list = writers[0].as_slice();
        write_list(
            rt,
            alloc,
            live,
            pace,
            &mut pass,
            gate,
            jobs.len(),
            list,
            share.thread,
        )
    };
    (pass, done)
}
