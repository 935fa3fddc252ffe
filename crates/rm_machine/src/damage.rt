//! The blocks in place that are damaged, and what they take away.
ghost use Rattle.std.specs.Prelude.{◌≡◌, ◌==◌, ◌&&◌, ◌≤◌, false, IfOk, insert, length};
ghost use Rattle.rm_machine.specs.Damage.{has_block, has_file, is_before, undamaged, with_block, without_damaged};

use crate::state::State;
use rm_base::{BlockId, NoMemory, Seq};
use rm_blocks::DataFile;
use std::alloc::Global;
use std::mem;

// Whether it is this block of this datafile.
fn is_block(id: &BlockId, file: u64, block: u64) -> bool
    ensures { result ≡ ((id.now.file == file) && (id.now.block == block)) }
{
    u64::from(id.file) == file && u64::from(id.block) == block
}

/// Whether the block of the datafile is damaged. A block that is not there is not.
pub fn is_damaged(state: &State, file: u64, block: u64) -> bool
    ensures { result ≡ has_block state.now.instance.damaged file block }
{
    let damaged = state.instance.damaged.as_slice();
    damaged.iter().any(|id| is_block(id, file, block))
}

/// Whether a block of the datafile of this number is one of these.
pub(crate) fn has_file(damaged: &[BlockId], file: u64) -> bool
    ensures { result ≡ has_file damaged.now file }
{
    damaged.iter().any(|id| u64::from(id.file) == file)
}

/// Whether a block of the datafile of this number is damaged.
pub fn has_damaged(state: &State, file: u64) -> bool
    ensures { result ≡ has_file state.now.instance.damaged file }
{
    has_file(state.instance.damaged.as_slice(), file)
}

// Whether one stands before the other: by datafile, and then by number.
fn is_before(x: &BlockId, y: &BlockId) -> bool
    ensures { result ≡ is_before x.now y.now }
{
    x.file < y.file || x.file == y.file && x.block < y.block
}

// The place of a block that is not on the list.
fn place_of(list: &[BlockId], block: BlockId) -> usize
    requires absent { has_block list.now block.file block.block ≡ false }
    ensures place { insert list.now result block ≡ with_block block list.now }
    ensures inside { result ≤ length list.now }
{
    for (index, id) in list.iter().enumerate() {
        if is_before(&block, id) {
            return index;
        }
    }
    list.len()
}

/// The list with a block more that is not on it, at its place. An error is want of memory.
pub fn with_block(alloc: Global, list: &[BlockId], block: BlockId) -> Result<Seq<BlockId>, NoMemory>
    requires absent { has_block list.now block.file block.block ≡ false }
    ensures { IfOk result (λ all. all ≡ with_block block list.now) }
{
    let mut all = Vec::from_slice(alloc, list)?;
    all.insert(place_of(list, block), block)?;
    Ok(Seq::from_vec(all))
}

// Each of these datafiles, 1, 2, 3 and so on, of which a block is damaged goes out of place.
fn lose_files(damaged: &[BlockId], place: &mut Vec<Option<DataFile>>)
    ensures { place.new.items ≡ undamaged damaged.now 1 place.old.items }
{
    for index in 0..place.len() {
        if has_file(damaged, index as u64 + 1) {
            place[index] = None;
        }
    }
}

/// Each datafile of which a block is damaged is lost, and no block is damaged any longer. It takes no memory.
pub fn lose_damaged(alloc: Global, state: &mut State)
    ensures { state.new ≡ without_damaged state.old }
{
    let damaged = mem::replace(&mut state.instance.damaged, Seq::new(alloc)).into_vec();
    let mut place = mem::replace(&mut state.instance.place, Seq::new(alloc)).into_vec();
    lose_files(&damaged, &mut place);
    state.instance.place = Seq::from_vec(place);
}
