//! The damaged blocks that are mended.
ghost use Rattle.std.specs.Prelude.{◌≡◌, IfOk};
ghost use Rattle.rm_machine.specs.BlockRecover.{asks_for, blocks_mended, without_mended};

use rm_base::{BlockId, NoMemory, Seq};
use rm_lang_statement::RepairForm;
use rm_machine::State;
use std::alloc::Global;
use std::mem;

// Whether the block is mended, where it is damaged.
fn asks_for(form: &RepairForm, block: &BlockId) -> bool
    ensures { result ≡ asks_for form.now block.now }
{
    match &form.blocks {
        Some(named) => {
            named.file == u64::from(block.file)
                && named.blocks.as_slice().contains(&u64::from(block.block))
        }
        None => true,
    }
}

/// The blocks that are mended, ascending. An error is want of memory.
pub(crate) fn blocks_mended(
    alloc: Global,
    state: &State,
    form: &RepairForm,
) -> Result<Vec<BlockId>, NoMemory>
    ensures { IfOk result (λ blocks. blocks.items ≡ blocks_mended state.now form.now) }
{
    let mut blocks = Vec::new(alloc);
    for block in state.instance.damaged.as_slice() {
        if asks_for(form, block) {
            blocks.push(*block)?;
        }
    }
    Ok(blocks)
}

/// The mended blocks are on the list of damaged ones no longer. It takes no memory.
pub(crate) fn take_off(alloc: Global, state: &mut State, form: &RepairForm)
    ensures { state.new ≡ without_mended state.old form.now }
{
    let mut damaged = mem::replace(&mut state.instance.damaged, Seq::new(alloc)).into_vec();
    damaged.retain(|block| !asks_for(form, block));
    state.instance.damaged = Seq::from_vec(damaged);
}
