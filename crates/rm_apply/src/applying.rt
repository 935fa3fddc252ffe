//! Datafiles as their plans put them in place. That takes no memory: their rows and room were made before.
ghost use Rattle.std.specs.{Prelude.{◌≡◌, ◌<◌, ◌≤◌, ◌+◌, ◌∷◌, ◌++◌, [], All, IfOk, length, map}, Vec.{vec_capacity, vec_len}};
ghost use Rattle.rm_apply.specs.Applying.{IsReady, applied};

use crate::plans::Plan;
use rm_base::{Block, IncNo, NoMemory, Row, Scn, Seq};
use rm_blocks::DataFile;
use rm_channel::apply_in_order;
use std::alloc::Global;
use std::thread::Threads;

/// An empty list with room for so many items.
pub(crate) fn room<T: Drop>(alloc: Global, count: usize) -> Result<Vec<T>, NoMemory>
    ensures items { IfOk result (λ xs. xs.items ≡ []) }
    ensures len { IfOk result (λ xs. vec_len xs ≡ 0) }
    ensures capacity { IfOk result (λ xs. count ≤ vec_capacity xs) }
{
    Ok(Vec::with_capacity(alloc, count)?)
}

// Adds an item, for which there is room.
fn push<T: Drop>(xs: &mut Vec<T>, x: T)
    requires { vec_len xs.old < vec_capacity xs.old }
    ensures items { xs.new.items ≡ xs.old.items ++ x ∷ [] }
    ensures len { vec_len xs.new ≡ vec_len xs.old + 1 }
    ensures capacity { vec_capacity xs.old ≤ vec_capacity xs.new }
{
    if xs.push(x).is_err() {
        unreachable!()
    }
}

/// So many rows of zero bytes, into which parts are to be put.
pub(crate) fn blank_rows(alloc: Global, count: usize) -> Result<Vec<Row>, NoMemory>
    ensures { IfOk result (λ rows. length rows.items ≡ count) }
{
    let blank = Row {
        block: 0,
        version: 0,
        content: Block::padded(b""),
    };
    Ok(vec![in alloc; blank; count]?)
}

// The datafile at (i, s): its parts are put into its rows by so many channels.
fn apply<R: Threads + Sync>(rt: &R, plan: Plan, i: IncNo, s: Scn, channels: u32) -> DataFile
    requires { IsReady plan }
    ensures { result ≡ applied i s plan }
{
    let Plan {
        number,
        parts,
        mut rows,
    } = plan;
    apply_in_order(rt, rows.as_mut_slice(), parts.as_slice(), channels);
    DataFile::from_rows(number, i, s, Seq::from_vec(rows))
}

/// The datafiles at (i, s), in the order of their plans, by so many channels. They come into `files`, where
/// there is room.
pub(crate) fn apply_all<R: Threads + Sync>(
    rt: &R,
    plans: Vec<Plan>,
    files: Vec<DataFile>,
    i: IncNo,
    s: Scn,
    channels: u32,
) -> Vec<DataFile>
    requires ready { All IsReady plans.items }
    requires empty { files.items ≡ [] }
    requires room { vec_len files + length plans.items ≤ vec_capacity files }
    ensures { result.items ≡ map (applied i s) plans.items }
{
    let mut files = files;
    for plan in plans {
        push(&mut files, apply(rt, plan, i, s, channels));
    }
    files
}
