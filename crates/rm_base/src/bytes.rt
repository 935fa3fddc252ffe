//! One byte, and the content of a block, as the front of other bytes.
ghost use Rattle.std.specs.Prelude.{◌≡◌, ◌∷◌, ◌++◌, ◌+◌, ◌≤◌, length};

use crate::block::Block;

/// The first byte, and what follows.
pub fn take_u8(bytes: &[u8]) -> (u8, &[u8])
    requires { 1 ≤ length bytes.now }
    ensures parts { bytes.now ≡ result.0 ∷ result.1.now }
    ensures len { length bytes.now ≡ 1 + length result.1.now }
{
    (bytes[0], &bytes[1..])
}

/// The content in the first 64 bytes, and what follows.
pub fn take_block(bytes: &[u8]) -> (Block, &[u8])
    requires { 64 ≤ length bytes.now }
    ensures parts { bytes.now ≡ result.0.0 ++ result.1.now }
    ensures len { length bytes.now ≡ 64 + length result.1.now }
    ensures size { length result.0.0 ≡ 64 }
{
    let (front, rest) = bytes.split_at(64);
    let mut content = [0u8; 64];
    content.copy_from_slice(front);
    (Block(content), rest)
}
