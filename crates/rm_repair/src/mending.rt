//! Mends of blocks by one thread, beside writes by others.
ghost use Rattle.std.specs.Prelude.{◌≡◌, ◌+◌, ◌<◌, ◌≤◌, ◌++◌, Ok, All, IfOk, length, map};
ghost use Rattle.rm_live.specs.{History.{fold_of}, Passes.{IsLater, IsOnly}};
ghost use Rattle.rm_channel.specs.{Jobs.{lists}, Made.{Did}, Room.{AreThreads, CanWrite}, Runs.{HasWritten}};
ghost use Rattle.rm_repair.specs.Mended.{CanGo, HasBlock, HasMended, HasMendedBeside, IsOlder, mended};

use crate::jobs::MendJob;
use rm_base::{NoMemory, Scn, ThreadNo};
use rm_channel::{WriteJob, scns_of, write_lists};
use rm_live::{Live, LiveFault, Pass};
use std::alloc::Global;
use std::sync::Wait;
use std::thread::{Threads, join};

// Puts each job's row in place, in order.
fn mend_all<R: Wait>(rt: &R, live: &Live, pass: &mut Pass, jobs: &[MendJob])
    requires home { pass.old.home ≡ live.now }
    requires some { 0 < length pass.old.numbers }
    requires there { All (HasBlock pass.old.opening.files) jobs.now }
    requires older { All (IsOlder pass.old.opening.now) jobs.now }
    ensures stays { IsLater pass.old pass.new }
    ensures did { Did pass.old pass.new.seen (mended jobs.now) }
{
    for job in jobs {
        live.mend(rt, pass, job.file, job.row);
    }
}

// The answers of both.
fn gathered(
    front: Result<Vec<Vec<Result<Scn, LiveFault>>>, NoMemory>,
    back: Result<Vec<Vec<Result<Scn, LiveFault>>>, NoMemory>,
) -> Result<Vec<Vec<Result<Scn, LiveFault>>>, NoMemory>
    ensures { IfOk result (λ v. (x : _) × (y : _) × (front ≡ Ok x) × (back ≡ Ok y) × (v.items ≡ x.items ++ y.items)) }
{
    let mut front = front?;
    let mut back = back?;
    front.append(&mut back)?;
    Ok(front)
}

// Mends and makes lists of writes, of which the first is that of a thread. The mends are one worker's, beside half of the lists, and so
// on; the other lists have a worker each.
fn mend_beside<R: Threads + Wait + Sync>(
    rt: &R,
    alloc: Global,
    live: &Live,
    mut pass: Pass,
    jobs: &[MendJob],
    writers: &[Vec<WriteJob>],
    thread: ThreadNo,
) -> (Pass, Result<Vec<Vec<Result<Scn, LiveFault>>>, NoMemory>)
    requires can { CanGo pass live.now 1 thread (lists writers.now) }
    requires there { All (HasBlock pass.opening.files) jobs.now }
    requires older { All (IsOlder pass.opening.now) jobs.now }
    ensures stays { IsLater pass result.0 }
    ensures mended { HasMendedBeside pass result.0.seen jobs.now thread (lists writers.now) result.1 }
{
    if writers.is_empty() {
        mend_all(rt, live, &mut pass, jobs);
        return (pass, Ok(Vec::new(alloc)));
    }
    let (front, back) = writers.split_at(writers.len() / 2);
    let next = thread + front.len() as u8;
    let other = live.split(&mut pass);
    let ((mut all, first), (second, last)) = join(
        rt,
        move || -> (Pass, Result<Vec<Vec<Result<Scn, LiveFault>>>, NoMemory>)
            requires { CanGo pass live.now 1 thread (lists front.now) × All (HasBlock pass.opening.files) jobs.now × All (IsOlder pass.opening.now) jobs.now }
            ensures { IsLater pass result.0 × HasMendedBeside pass result.0.seen jobs.entry.now thread (lists front.entry.now) result.1 }
        { mend_beside(rt, alloc, live, pass, jobs, front, thread) },
        move || -> (Pass, Result<Vec<Vec<Result<Scn, LiveFault>>>, NoMemory>)
            requires { CanGo other live.now 0 next (lists back.now) × (1 ≤ length back.now) }
            ensures { IsLater other result.0 × HasWritten other result.0.seen next (lists back.entry.now) result.1 }
        { write_lists(rt, alloc, live, other, back, next) },
    );
    live.join(&mut all, second);
    (all, gathered(first, last))
}

/// Puts each job's row in place, while others write: past what the pass has seen stand exactly one mend by
/// each job and one write of each of `writers`, those of list k by thread k + 1 in their order. The mends
/// and each list have a thread of their own. The pass is the only one and has a number for each of them;
/// there are at most four lists, and room for all writes. It gives the SCNs that the writes took, list by
/// list. The pass comes back also where memory is wanting: then some of these events stand there, none
/// twice. At each turn, so behind each front of these events, a block that was mended and that no write
/// names has its job's row, and a block that was neither mended nor written the row that it had. Where
/// a block has two jobs, it is the row of the one that came last.
pub fn mend_during<R: Threads + Wait + Sync>(
    rt: &R,
    alloc: Global,
    live: &Live,
    pass: Pass,
    jobs: &[MendJob],
    writers: &[Vec<WriteJob>],
) -> (Pass, Result<Vec<Vec<Scn>>, NoMemory>)
    requires home { pass.home ≡ live.now }
    requires only { IsOnly pass }
    requires lists { length writers.now ≤ 4 }
    requires numbers { 1 + length writers.now ≤ length pass.numbers }
    requires there { All (HasBlock pass.opening.files) jobs.now }
    requires older { All (IsOlder pass.opening.now) jobs.now }
    requires threads { AreThreads pass.opening.logs 1 (lists writers.now) }
    requires room { CanWrite (fold_of pass.opening pass.seen) (lists writers.now) }
    ensures stays { IsLater pass result.0 }
    ensures mended { HasMended pass result.0.seen jobs.now (lists writers.now) result.1 }
{
    let (pass, answers) = mend_beside(rt, alloc, live, pass, jobs, writers, 1);
    (pass, scns_taken(alloc, answers))
}

// The SCNs of all writes.
fn scns_taken(
    alloc: Global,
    answers: Result<Vec<Vec<Result<Scn, LiveFault>>>, NoMemory>,
) -> Result<Vec<Vec<Scn>>, NoMemory>
    ensures { IfOk result (λ v. (x : _) × (answers ≡ Ok x) × (lists x.items ≡ map (map Ok) (lists v.items))) }
{
    let answers = answers?;
    scns_of(alloc, answers.as_slice())
}
