//! Blocks, sealed bytes, numbers as bytes, lists and texts.
use rm_base::number::{push_u32, push_u64, take_u32, take_u64};
use rm_base::sealed::{digest_of, seal_with_digest, unseal};
use rm_base::{Block, Seq, Text};
use rm_test_harness::Fault;
use std::alloc::Global;

/// A block is padded and trimmed.
pub fn a_block() -> bool {
    let block = Block::padded(b"A\0B");
    let is_padded = block.0.starts_with(&[65, 0, 66, 0]);
    let is_trimmed = block.trimmed() == b"A\0B".as_slice();
    let is_empty = Block([0; 64]).trimmed().is_empty();
    is_padded && is_trimmed && is_empty && Block([9; 64]).trimmed().len() == 64
}

// How many bytes are sealed.
fn sealed_len(bytes: &[u8]) -> Option<usize> {
    unseal(bytes).map(|body| body.len())
}

/// Bytes are sealed by their digest: that of "abc" is the one of FIPS 180-4.
pub fn sealed(alloc: Global) -> Result<bool, Fault> {
    let is_known = digest_of(b"abc").starts_with(&[0xba, 0x78, 0x16, 0xbf]);
    let mut bytes = Vec::from_slice(alloc, b"abc")?;
    let whole = seal_with_digest(&mut bytes)?;
    let is_whole = bytes.len() == 35 && whole.as_slice() == digest_of(&bytes).as_slice();
    let len = sealed_len(&bytes);
    bytes.truncate(34);
    let lens = [len, sealed_len(&bytes), sealed_len(b"short")];
    Ok(is_known && is_whole && lens == [Some(3), None, None])
}

/// Numbers are big-endian.
pub fn numbers(alloc: Global) -> Result<bool, Fault> {
    let mut out = Vec::new(alloc);
    push_u32(&mut out, 0x0102_0304)?;
    push_u64(&mut out, 5)?;
    if out.as_slice() != [1, 2, 3, 4, 0, 0, 0, 0, 0, 0, 0, 5].as_slice() {
        return Ok(false);
    }
    let (first, rest) = take_u32(&out);
    let (second, rest) = take_u64(rest);
    Ok(first == 0x0102_0304 && second == 5 && rest.is_empty())
}

/// A list is given back.
pub fn a_list(alloc: Global) -> Result<bool, Fault> {
    let mut list = Seq::new(alloc);
    let was_empty = list.is_empty();
    list.push(7u8)?;
    let len = list.len();
    let again = Seq::from_vec(list.into_vec());
    Ok(was_empty && len == 1 && again.as_slice() == [7].as_slice())
}

/// A text is given back.
pub fn a_text(alloc: Global) -> Result<bool, Fault> {
    let text = Text::from_ascii(alloc, b"inc")?;
    let is_told = text.as_str() == "inc" && text.as_bytes() == b"inc".as_slice();
    let again = Text::from_string(text.into_string());
    Ok(is_told && again.as_bytes().len() == 3 && Text::new(alloc).as_str() == "")
}
