//! Copies of datafiles by several threads, beside writes by others.
ghost use Rattle.std.specs.Prelude.{◌≡◌, ◌+◌, ◌-◌, ◌<◌, ◌≤◌, Ok, [], ◌∷◌, length, map, All, IfOk};
ghost use Rattle.rm_live.specs.{History.{fold_of}, Passes.{IsLater, IsOnly}};
ghost use Rattle.rm_channel.specs.{Jobs.{IsWanted, blocks_in, lists}, Room.{AreThreads, CanWrite, IsThere}};
ghost use Rattle.rm_channel.specs.{Runs.{CanRun, HasCopied, HasRead, HasRun, IsGathered, IsWork, side_by_side}, Sections.{sections}};

use crate::jobs::{CopyJob, Gate, Work, WriteJob};
use crate::working::{Done, Share, work};
use rm_base::{NoMemory, Row, Scn};
use rm_live::{Live, LiveFault, Pass};
use std::alloc::Global;
use std::slice;
use std::sync::{Mutex, Wait};
use std::thread::{Threads, join};

// Adds to each job's rows those that stand beside them.
fn append_rows(rows: &mut Vec<Vec<Row>>, more: &[Vec<Row>]) -> Result<(), NoMemory>
    requires { length rows.old.items ≡ length more.now }
    ensures { IfOk result (λ _. lists rows.new.items ≡ side_by_side (lists rows.old.items) (lists more.now)) }
{
    for (k, section) in more.iter().enumerate() {
        let mine = &mut rows[k];
        mine.extend_from_slice(section.as_slice())?;
    }
    Ok(())
}

// What two halves of the workers did.
fn gathered(front: Result<Done, NoMemory>, back: Result<Done, NoMemory>) -> Result<Done, NoMemory>
    requires { IfOk front (λ x. IfOk back (λ y. length x.rows.items ≡ length y.rows.items)) }
    ensures { IsGathered front back result }
{
    let mut front = front?;
    let mut back = back?;
    append_rows(&mut front.rows, back.rows.as_slice())?;
    front.answers.append(&mut back.answers)?;
    Ok(front)
}

impl Share {
    // How many sections it has.
    fn sections(&self) -> usize
        requires { self.now.from ≤ self.now.to }
        ensures { result ≡ self.now.to - self.now.from }
    {
        (self.to - self.from) as usize
    }

    // Its first sections, so many.
    fn front(&self, sections: usize) -> Share
        requires { self.now.from + sections ≤ self.now.to }
        ensures { result ≡ record self.now { to = self.now.from + sections } }
    {
        Share {
            to: self.from + sections as u32,
            ..*self
        }
    }

    // Its other sections, behind these and so many lists.
    fn back(&self, sections: usize, lists: usize) -> Share
        requires sections { self.now.from + sections ≤ self.now.to }
        requires lists { self.now.thread + lists ≤ 5 }
        ensures { result ≡ record self.now { from = self.now.from + sections; thread = self.now.thread + lists } }
    {
        Share {
            from: self.from + sections as u32,
            thread: self.thread + lists as u8,
            ..*self
        }
    }
}

// The workers of a share, each in a thread of its own: half of them beside the others, and so on.
pub(crate) fn run<G: Gate, R: Threads + Wait + Sync>(
    rt: &R,
    alloc: Global,
    live: &Live,
    pace: &Mutex<()>,
    mut pass: Pass,
    gate: &G,
    jobs: &[CopyJob],
    writers: &[Vec<WriteJob>],
    share: Share,
) -> (Pass, Result<Done, NoMemory>)
    requires { CanRun pass live.now jobs.now (lists writers.now) share }
    ensures stays { IsLater pass result.0 }
    ensures run { HasRun pass result.0.seen (sections share.channels share.from share.to jobs.now) share.thread (lists writers.now) result.1 }
{
    let workers = share.sections() + writers.len();
    if workers == 1 {
        return work(rt, alloc, live, pace, pass, gate, jobs, writers, share);
    }
    let half = workers - workers / 2;
    let cut = half.min(share.sections());
    let (front, back) = writers.split_at(half - cut);
    let left = share.front(cut);
    let right = share.back(cut, front.len());
    let other = live.split(&mut pass);
    let ((mut all, first), (second, last)) = join(
        rt,
        move || -> (Pass, Result<Done, NoMemory>)
            requires { CanRun pass live.now jobs.now (lists front.now) left }
            ensures { IsLater pass result.0 × HasRun pass result.0.seen (sections left.channels left.from left.to jobs.entry.now) left.thread (lists front.entry.now) result.1 }
        { run(rt, alloc, live, pace, pass, gate, jobs, front, left) },
        move || -> (Pass, Result<Done, NoMemory>)
            requires { CanRun other live.now jobs.now (lists back.now) right }
            ensures { IsLater other result.0 × HasRun other result.0.seen (sections right.channels right.from right.to jobs.entry.now) right.thread (lists back.entry.now) result.1 }
        { run(rt, alloc, live, pace, other, gate, jobs, back, right) },
    );
    live.join(&mut all, second);
    (all, gathered(first, last))
}

/// Copies a datafile by so many channels, 1 to 16: each of its wanted blocks is read once. Channel k reads
/// section k of them, and calls the gate once before. The pass has at least as many numbers as
/// there are channels, and gets them back, also where memory is wanting.
pub fn copy_file<G: Gate, R: Threads + Wait + Sync>(
    rt: &R,
    alloc: Global,
    live: &Live,
    pass: Pass,
    job: &CopyJob,
    channels: u32,
    gate: &G,
) -> (Pass, Result<Vec<Row>, NoMemory>)
    requires home { pass.home ≡ live.now }
    requires channels { (1 ≤ channels) × (channels ≤ 16) }
    requires room { channels ≤ length pass.numbers }
    requires there { IsThere pass.opening.files job.now }
    ensures stays { IsLater pass result.0 }
    ensures read { HasRead pass result.0.seen job.now result.1 }
{
    let share = Share {
        channels,
        from: 0,
        to: channels,
        thread: 1,
    };
    let pace = Mutex::new(());
    let (pass, done) = run(
        rt,
        alloc,
        live,
        &pace,
        pass,
        gate,
        slice::from_ref(job),
        &[],
        share,
    );
    (pass, rows_of(done))
}

// The rows of the only job.
fn rows_of(done: Result<Done, NoMemory>) -> Result<Vec<Row>, NoMemory>
    requires { IfOk done (λ d. length d.rows.items ≡ 1) }
    ensures { IfOk result (λ v. (d : Done) × (done ≡ Ok d) × (lists d.rows.items ≡ v.items ∷ [])) }
{
    let mut done = done?;
    Ok(done.rows.swap_remove(0))
}

/// Copies datafiles by so many channels, 1 to 16, while others write: past what the pass has seen stand
/// exactly one read of each wanted block of each job, and one write of each of `writers`, those of list k by
/// thread k + 1 in their order. Channel k reads section k of each job, and calls the gate once before
/// each; each list has a worker of its own, which calls it once before its writes. The pass is the only
/// one and has a number for each of them; there are at most four lists, and room for all writes. It
/// comes back also where memory is wanting: then some of these events stand there, none twice.
pub fn copy_during<G: Gate, R: Threads + Wait + Sync>(
    rt: &R,
    alloc: Global,
    live: &Live,
    pass: Pass,
    jobs: &[CopyJob],
    writers: &[Vec<WriteJob>],
    channels: u32,
    gate: &G,
) -> (Pass, Result<Work, NoMemory>)
    requires home { pass.home ≡ live.now }
    requires only { IsOnly pass }
    requires channels { (1 ≤ channels) × (channels ≤ 16) }
    requires lists { length writers.now ≤ 4 }
    requires numbers { channels + length writers.now ≤ length pass.numbers }
    requires there { All (IsThere pass.opening.files) jobs.now }
    requires threads { AreThreads pass.opening.logs 1 (lists writers.now) }
    requires room { CanWrite (fold_of pass.opening pass.seen) (lists writers.now) }
    ensures stays { IsLater pass result.0 }
    ensures copied { HasCopied pass result.0.seen jobs.now (lists writers.now) result.1 }
{
    let share = Share {
        channels,
        from: 0,
        to: channels,
        thread: 1,
    };
    let pace = Mutex::new(());
    let (pass, done) = run(rt, alloc, live, &pace, pass, gate, jobs, writers, share);
    (pass, work_of(alloc, jobs, done))
}

// What a whole copy gives.
fn work_of(alloc: Global, jobs: &[CopyJob], done: Result<Done, NoMemory>) -> Result<Work, NoMemory>
    requires { All (λ j. IsWanted j.wanted) jobs.now }
    ensures { IsWork jobs.now done result }
{
    let Done { rows, answers } = done?;
    let scns = scns_of(alloc, answers.as_slice())?;
    let reads = reads_of(alloc, jobs)?;
    Ok(Work { rows, reads, scns })
}

// Of each job how many blocks were read.
fn reads_of(alloc: Global, jobs: &[CopyJob]) -> Result<Vec<u64>, NoMemory>
    requires { All (λ j. IsWanted j.wanted) jobs.now }
    ensures { IfOk result (λ v. v.items ≡ map (λ j. blocks_in j.wanted) jobs.now) }
{
    let mut reads = Vec::with_capacity(alloc, jobs.len())?;
    for job in jobs {
        reads.push_reserved(u64::from(job.wanted.count()));
    }
    Ok(reads)
}

/// Of each list of answers the SCNs that its writes took. `NoMemory` where a write took none, which no write
/// does that has room, save for want of memory.
pub fn scns_of(
    alloc: Global,
    answers: &[Vec<Result<Scn, LiveFault>>],
) -> Result<Vec<Vec<Scn>>, NoMemory>
    ensures { IfOk result (λ v. lists answers.now ≡ map (map Ok) (lists v.items)) }
{
    let mut all = Vec::with_capacity(alloc, answers.len())?;
    for list in answers {
        all.push_reserved(scns_of_list(alloc, list.as_slice())?);
    }
    Ok(all)
}

// The same of one list.
fn scns_of_list(alloc: Global, answers: &[Result<Scn, LiveFault>]) -> Result<Vec<Scn>, NoMemory>
    ensures { IfOk result (λ v. answers.now ≡ map Ok v.items) }
{
    let mut scns = Vec::with_capacity(alloc, answers.len())?;
    for answer in answers {
        match answer {
            Ok(scn) => scns.push_reserved(*scn),
            Err(_) => return Err(NoMemory),
        }
    }
    Ok(scns)
}
