//! A block's content, and what is written of a block.
ghost use Rattle.std.specs.Prelude.{◌≡◌, ◌≤◌, length, take};
ghost use Rattle.rm_base.specs.Content.{padded, trimmed};

use crate::numbers::{BlockNo, FileNo, IncNo, Moment, Scn, ThreadNo};

/// What a block contains: 64 bytes.
#[derive(Clone, Copy, PartialEq, Eq)]
pub struct Block(pub [u8; 64]);

impl Block {
    /// These bytes, and zero bytes up to 64.
    pub fn padded(text: &[u8]) -> Block
        requires { length text.now ≤ 64 }
        ensures { result ≡ padded text.now }
    {
        let mut bytes = [0u8; 64];
        bytes[..text.len()].copy_from_slice(text);
        Block(bytes)
    }

    /// The bytes without the zero bytes at their end.
    pub fn trimmed(&self) -> &[u8]
        ensures { result.now ≡ trimmed self.now.0 }
    {
        &self.0[..trimmed_len(&self.0)]
    }
}

// How many bytes there are without the zero bytes at the end.
fn trimmed_len(bytes: &[u8]) -> usize
    ensures within { result ≤ length bytes.now }
    ensures value { take result bytes.now ≡ trimmed bytes.now }
{
    let mut len = 0;
    for (i, byte) in bytes.iter().enumerate() {
        if *byte != 0 {
            len = i + 1;
        }
    }
    len
}

/// A block with its version, the SCN of its last change.
#[derive(Clone, Copy, PartialEq, Eq)]
pub struct Row {
    pub block: BlockNo,
    pub version: Scn,
    pub content: Block,
}

/// A block of a datafile, by their numbers.
#[derive(Clone, Copy, PartialEq, Eq)]
pub struct BlockId {
    pub file: FileNo,
    pub block: BlockNo,
}

/// A new content of one block, at one SCN of one incarnation, by one redo thread.
#[derive(Clone, Copy, PartialEq, Eq)]
pub struct Change {
    pub inc: IncNo,
    pub thread: ThreadNo,
    pub scn: Scn,
    pub file: FileNo,
    pub block: BlockNo,
    pub content: Block,
}

/// A moment at which an SCN of an incarnation was written down.
#[derive(Clone, Copy, PartialEq, Eq)]
pub struct Mark {
    pub moment: Moment,
    pub inc: IncNo,
    pub scn: Scn,
}

/// A block's new version and content, to put in the place of its row.
#[derive(Clone, Copy, PartialEq, Eq)]
pub struct Part {
    pub block: BlockNo,
    pub version: Scn,
    pub content: Block,
}
