//! Whether blocks are zero or the same.
ghost use Rattle.std.specs.Prelude.{◌≡◌, ◌↔◌, IsTrue};
ghost use Rattle.rm_base.specs.Content.{zero_block};

use rm_base::Block;
use std::simd::prelude::*;

/// Whether each of the block's 64 bytes is zero.
pub fn is_zero(block: &Block) -> bool
    ensures { IsTrue result ↔ (block.now ≡ zero_block) }
{
    same(block, &Block([0; 64]))
}

/// Whether the blocks have the same bytes.
pub fn same(a: &Block, b: &Block) -> bool
    ensures { IsTrue result ↔ (a.now ≡ b.now) }
{
    u8x64::from_array(a.0) == u8x64::from_array(b.0)
}
