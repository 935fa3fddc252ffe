//! Turns of one worker in runs.
//!
//! Turns go from thread to thread in the order of their tickets, and beside busy processes a thread whose turn it is may
//! have to wait for a processor. So the workers of a copy share a plain lock, and one of them holds it for a run of its
//! turns, while the others draw no ticket: each turn is still one event. Under the lock nothing is called but the
//! live database, and no other lock is taken.
ghost use Rattle.std.specs.{Prelude.{◌≡◌, ◌+◌, ◌≤◌, ◌<◌, [], ◌∷◌, length, All, IsSome, Some}, Vec.{vec_capacity, vec_len}};
ghost use Rattle.rm_redo.specs.Online.{IsThread, IsLost};
ghost use Rattle.rm_live.specs.{Parts.{row_at}, Passes.{IsLater}, declared.history.{Answer.TheVariants.{Found}, Call.TheVariants.{Read}}};
ghost use Rattle.rm_channel.specs.{Jobs.{found, wrote}, Made.{Did, DidMore}};

use crate::jobs::WriteJob;
use rm_base::{BlockNo, FileNo, Row, Scn, ThreadNo};
use rm_live::{Live, LiveFault, Pass};
use std::sync::{Mutex, Wait};

// The reads of a run: some millionths of a second, which is long beside taking the lock, and short for who waits for it.
pub(crate) const RUN_OF_READS: usize = 256;

// The writes of a run: fewer, so that threads with short lists still write in turn.
pub(crate) const RUN_OF_WRITES: usize = 16;

// Reads a block that is there.
fn read_block<R: Wait>(rt: &R, live: &Live, pass: &mut Pass, file: FileNo, block: BlockNo) -> Row
    requires home { pass.old.home ≡ live.now }
    requires some { 0 < length pass.old.numbers }
    requires there { IsSome (row_at pass.old.opening.files file block) }
    ensures stays { IsLater pass.old pass.new }
    ensures did { Did pass.old pass.new.seen ((Read file block, Found (Some result)) ∷ []) }
{
    match live.read(rt, pass, file, block) {
        Some(row) => row,
        None => unreachable!(),
    }
}

// Reads these blocks of a datafile, in order, while no other worker takes a turn. Their rows come behind those that have
// room for them.
pub(crate) fn read_run<R: Wait>(
    rt: &R,
    live: &Live,
    pace: &Mutex<()>,
    pass: &mut Pass,
    file: FileNo,
    blocks: &[BlockNo],
    rows: &mut Vec<Row>,
)
    requires home { pass.old.home ≡ live.now }
    requires some { 0 < length pass.old.numbers }
    requires there { All (λ b. IsSome (row_at pass.old.opening.files file b)) blocks.now }
    requires room { vec_len rows.old + length blocks.now ≤ vec_capacity rows.old }
    ensures stays { IsLater pass.old pass.new }
    ensures capacity { vec_capacity rows.new ≡ vec_capacity rows.old }
    ensures did { DidMore pass.old pass.new.seen (found file blocks.now) (length blocks.now) rows.old.items rows.new.items }
{
    let _run = pace.lock(rt);
    for block in blocks {
        rows.push_reserved(read_block(rt, live, pass, file, *block));
    }
}

// Makes writes by one thread, in order, while no other worker takes a turn. Their answers come behind those that have
// room for them.
pub(crate) fn write_run<R: Wait>(
    rt: &R,
    live: &Live,
    pace: &Mutex<()>,
    pass: &mut Pass,
    list: &[WriteJob],
    thread: ThreadNo,
    answers: &mut Vec<Result<Scn, LiveFault>>,
)
    requires home { pass.old.home ≡ live.now }
    requires some { 0 < length pass.old.numbers }
    requires thread { 0 < length list.now → IsThread pass.old.opening.logs thread × (¬ IsLost pass.old.opening.logs thread) }
    requires room { vec_len answers.old + length list.now ≤ vec_capacity answers.old }
    ensures stays { IsLater pass.old pass.new }
    ensures capacity { vec_capacity answers.new ≡ vec_capacity answers.old }
    ensures did { DidMore pass.old pass.new.seen (wrote thread list.now) (length list.now) answers.old.items answers.new.items }
{
    let _run = pace.lock(rt);
    for write in list {
        answers.push_reserved(live.write(rt, pass, thread, write.file, write.block, write.content));
    }
}
