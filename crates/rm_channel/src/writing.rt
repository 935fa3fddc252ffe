//! Lists of writes by several threads.
ghost use Rattle.std.specs.Prelude.{◌≡◌, ◌+◌, ◌≤◌, Ok, length, IfOk};
ghost use Rattle.rm_live.specs.Passes.{IsLater};
ghost use Rattle.rm_channel.specs.{Jobs.{lists}, Room.{AreThreads}, Runs.{HasWritten}};

use crate::copying::run;
use crate::jobs::{Gate, Point, WriteJob};
use crate::working::{Done, Share};
use rm_base::{NoMemory, Scn, ThreadNo};
use rm_live::{Live, LiveFault, Pass};
use std::alloc::Global;
use std::sync::{Mutex, Wait};
use std::thread::Threads;

// A gate that holds nobody.
struct Free;

impl Gate for Free {
    fn at(&self, _point: Point) {}
}

/// Makes lists of writes, 1 to 4 of them, side by side, each in a thread of its own: the first by redo thread
/// `thread`, the next one by `thread + 1`, and so on, up to 4. Past what the pass has seen stand, of its numbers,
/// the writes of the lists, those of a list in their order, and each is answered as it came. The pass has at
/// least as many numbers as there are lists, and gets them back, also where memory is wanting: then some
/// of these writes stand there, none twice.
pub fn write_lists<R: Threads + Wait + Sync>(
    rt: &R,
    alloc: Global,
    live: &Live,
    pass: Pass,
    writers: &[Vec<WriteJob>],
    thread: ThreadNo,
) -> (Pass, Result<Vec<Vec<Result<Scn, LiveFault>>>, NoMemory>)
    requires home { pass.home ≡ live.now }
    requires some { 1 ≤ length writers.now }
    requires lists { (1 ≤ thread) × (thread + length writers.now ≤ 5) }
    requires numbers { length writers.now ≤ length pass.numbers }
    requires threads { AreThreads pass.opening.logs thread (lists writers.now) }
    ensures stays { IsLater pass result.0 }
    ensures written { HasWritten pass result.0.seen thread (lists writers.now) result.1 }
{
    let share = Share {
        channels: 1,
        from: 0,
        to: 0,
        thread,
    };
    let pace = Mutex::new(());
    let (pass, done) = run(rt, alloc, live, &pace, pass, &Free, &[], writers, share);
    (pass, answers_of(done))
}

// The answers of the lists.
fn answers_of(done: Result<Done, NoMemory>) -> Result<Vec<Vec<Result<Scn, LiveFault>>>, NoMemory>
    ensures { IfOk result (λ v. (d : Done) × (done ≡ Ok d) × (d.answers.items ≡ v.items)) }
{
    let Done { answers, .. } = done?;
    Ok(answers)
}
