//! Which blocks a level 1 reads where changes are tracked: the worked rows, by the tracker alone, for a datafile of 8 blocks.
ghost use Rattle.std.specs.Prelude.{◌+◌, ◌≤◌, IfOk, IfSome, OnOk};
ghost use Rattle.rm_track.specs.Bitmaps.{tracked_at};

use rm_base::{NoMemory, Scn};
use rm_test_harness::Fault;
use rm_track::{Bits, Tracker};
use std::alloc::Global;

// The datafile is tracked from SCN 2 on.
fn tracked(alloc: Global) -> Result<Tracker, NoMemory>
    ensures { IfOk result (λ ts. IfSome (tracked_at ts 1) (λ t. t.start ≤ 2)) }
{
    let mut tracker = Tracker::new(alloc);
    tracker.add_file(alloc, 1, 8, 2)?;
    Ok(tracker)
}

// How many blocks a level 1 from `from` reads behind a write of this block, which has SCN 2 + block.
fn reads(alloc: Global, tracker: &mut Tracker, block: u32, from: Scn) -> Result<u64, NoMemory>
    requires { IfSome (tracked_at tracker.old 1) (λ t. t.start ≤ 2 + block) }
    ensures { OnOk result (IfSome (tracked_at tracker.new 1) (λ t. t.start ≤ 3 + block)) }
{
    tracker.mark(1, block);
    tracker.switch(alloc, 1, 3 + Scn::from(block))?;
    match tracker.candidates(alloc, 1, from)? {
        Some(bits) => Ok(bits.count()),
        None => Ok(8),
    }
}

// Whether six level 1s, each behind a write, read one block each.
fn six_read_one_each(alloc: Global, tracker: &mut Tracker) -> Result<bool, NoMemory>
    requires { IfSome (tracked_at tracker.old 1) (λ t. t.start ≤ 2) }
    ensures { OnOk result (IfSome (tracked_at tracker.new 1) (λ t. t.start ≤ 8)) }
{
    let first = reads(alloc, tracker, 0, 2)?;
    let second = reads(alloc, tracker, 1, 3)?;
    let third = reads(alloc, tracker, 2, 4)?;
    let fourth = reads(alloc, tracker, 3, 5)?;
    let fifth = reads(alloc, tracker, 4, 6)?;
    let sixth = reads(alloc, tracker, 5, 7)?;
    Ok([first, second, third, fourth, fifth, sixth] == [1; 6])
}

/// Behind six level 1s a cumulative one reads the blocks that changed.
pub fn behind_six(alloc: Global) -> Result<bool, Fault> {
    let mut tracker = tracked(alloc)?;
    let each = six_read_one_each(alloc, &mut tracker)?;
    Ok(each && reads(alloc, &mut tracker, 6, 2)? == 7)
}

/// Behind seven it reads all: eight bitmaps are kept.
pub fn behind_seven(alloc: Global) -> Result<bool, Fault> {
    let mut tracker = tracked(alloc)?;
    let each = six_read_one_each(alloc, &mut tracker)?;
    let seventh = reads(alloc, &mut tracker, 6, 8)?;
    Ok(each && seventh == 1 && reads(alloc, &mut tracker, 7, 2)? == 8)
}

/// Blocks are added, joined, counted and walked; one that is not there is not marked.
pub fn blocks(alloc: Global) -> Result<bool, Fault> {
    let mut some = Bits::none(alloc, 20)?;
    some.add(3);
    some.add(20);
    let mut others = Bits::none(alloc, 20)?;
    others.add(19);
    some.join(&others);
    let walked = [some.next(0), some.next(4), some.next(20)];
    Ok(some.count() == 2 && walked == [Some(3), Some(19), None])
}
