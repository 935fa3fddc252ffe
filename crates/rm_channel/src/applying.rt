//! Parts put into rows by several threads, with the answer of one.
ghost use Rattle.std.specs.{Prelude.{ℕ, true, ◌≡◌, ◌+◌, ◌<◌, ◌≤◌, ◌^◌, List, [], ◌∷◌, length}, Thread.{IsSync}};
ghost use Rattle.rm_base.specs.declared.block.Row.{Row};
ghost use Rattle.rm_channel.specs.Applied.{Ascend, with_parts};

use rm_base::{Part, Row};
use std::thread::{Threads, join_mut};

// Puts one part into rows, which are those of the blocks from `first` on.
fn put(rows: &mut [Row], part: Part, first: usize)
    ensures { rows.new ≡ with_parts (part ∷ []) first rows.old }
{
    let block = part.block as usize;
    if first <= block && block - first < rows.len() {
        rows[block - first] = Row {
            block: part.block,
            version: part.version,
            content: part.content,
        };
    }
}

// The same for parts, one after the other.
fn put_all(rows: &mut [Row], parts: &[Part], first: usize)
    ensures { rows.new ≡ with_parts parts.now first rows.old }
{
    for part in parts {
        put(rows, *part, first);
    }
}

// The parts for rows of blocks below `middle`, and those for the others: all of them each time, where they may
// stand in no order.
fn shares(parts: &[Part], middle: usize, in_order: bool) -> (&[Part], &[Part])
    requires { in_order ≡ true → Ascend parts.now }
    ensures order { in_order ≡ true → Ascend result.0.now × Ascend result.1.now }
    ensures front { (b : ℕ) (rows : List Row) → b + length rows ≤ middle
        → with_parts result.0.now b rows ≡ with_parts parts.now b rows }
    ensures back { (b : ℕ) (rows : List Row) → middle ≤ b
        → with_parts result.1.now b rows ≡ with_parts parts.now b rows }
{
    if !in_order {
        return (parts, parts);
    }
    let count = parts.partition_point(|part| (part.block as usize) < middle);
    parts.split_at(count)
}

// The same by so many threads, each with its share of the rows, and of parts that ascend.
fn put_apart<R: Threads + Sync>(
    rt: &R,
    rows: &mut [Row],
    parts: &[Part],
    first: usize,
    threads: u32,
    in_order: bool,
)
    requires room { first + length rows.old < 2 ^ 63 }
    requires order { in_order ≡ true → Ascend parts.now }
    ensures { rows.new ≡ with_parts parts.now first rows.old }
{
    if threads < 2 || rows.len() < 2 {
        put_all(rows, parts, first);
        return;
    }
    let half = rows.len() / 2;
    let (front, back) = rows.split_at_mut(half);
    let middle = first + half;
    let (low, high) = shares(parts, middle, in_order);
    join_mut(
        rt,
        &mut ||
            requires { IsSync R.row × (first + length front.now < 2 ^ 63) × (in_order ≡ true → Ascend low.now) }
            ensures { front.exit.now ≡ with_parts low.entry.now first front.entry.now }
        { put_apart(rt, front, low, first, threads / 2, in_order) },
        &mut ||
            requires { IsSync R.row × (middle + length back.now < 2 ^ 63) × (in_order ≡ true → Ascend high.now) }
            ensures { back.exit.now ≡ with_parts high.entry.now middle back.entry.now }
        { put_apart(rt, back, high, middle, threads - threads / 2, in_order) },
    );
}

/// Puts parts into rows by so many threads: row b becomes the part of block b where there is one, of
/// several the last, and stays otherwise. So each number of channels has the answer of one thread. A
/// part of a block beyond the rows changes nothing. It takes no memory.
pub fn apply_rows<R: Threads + Sync>(rt: &R, rows: &mut [Row], parts: &[Part], channels: u32)
    requires { length rows.old < 2 ^ 63 }
    ensures { rows.new ≡ with_parts parts.now 0 rows.old }
{
    put_apart(rt, rows, parts, 0, channels, false);
}

/// The same for parts that ascend by block, of which several may be of one: each thread looks at the parts of its
/// own rows alone, the last one also at those beyond the rows.
pub fn apply_in_order<R: Threads + Sync>(rt: &R, rows: &mut [Row], parts: &[Part], channels: u32)
    requires room { length rows.old < 2 ^ 63 }
    requires order { Ascend parts.now }
    ensures { rows.new ≡ with_parts parts.now 0 rows.old }
{
    put_apart(rt, rows, parts, 0, channels, true);
}
