//! Pieces as bytes: a copy of two blocks, its bytes changed and cut, and each number at its limits.
use crate::formats::{self, Format, count_read, digits, is_changed_read, word};
use rm_base::sealed::seal;
use rm_base::{Block, FormatFault, Kind, NoMemory, Row, Seq};
use rm_piece::{Piece, decode_piece, encode_piece, high_of, is_valid, pick};
use rm_test_harness::{Fault, Told, differs, numbers};
use std::alloc::Global;

// A row of this text.
fn row(block: u32, version: u64, text: &[u8; 2]) -> Row {
    Row {
        block,
        version,
        content: Block::padded(text),
    }
}

// The full piece of a datafile of so many blocks.
fn full(dbid: u32, blocks: u32, rows: Vec<Row>) -> Piece {
    Piece {
        kind: Kind::Full,
        dbid,
        inc: 1,
        file: 1,
        blocks,
        from: 0,
        checkpoint: 5,
        high: 5,
        rows: Seq::from_vec(rows),
    }
}

// The bytes of a valid piece.
fn bytes_of(alloc: Global, piece: &Piece) -> Result<Vec<u8>, Fault> {
    if is_valid(piece) {
        Ok(encode_piece(alloc, piece)?.into_vec())
    } else {
        differs(alloc, "the piece is not valid")
    }
}

// The copy of two blocks, as bytes.
fn copy(alloc: Global) -> Result<Vec<u8>, Fault> {
    let rows = Vec::from_array(alloc, [row(0, 2, b"AA"), row(1, 3, b"BB")])?;
    bytes_of(alloc, &full(1, 2, rows))
}

/// Its bytes are those of the file, of which another program made the digest, and are read.
pub fn two_blocks(alloc: Global, hex: &str) -> Result<bool, Fault> {
    let bytes = copy(alloc)?;
    let digits = digits(alloc, &bytes)?;
    let Ok(read) = decode_piece(alloc, &bytes) else {
        return Ok(false);
    };
    let is_spelled = digits.as_str() == hex.trim_end() && bytes.len() == 234;
    let has_rows = read.rows.as_slice() == [row(0, 2, b"AA"), row(1, 3, b"BB")].as_slice();
    Ok(is_spelled && has_rows && read.kind == Kind::Full && read.high == 5)
}

/// No front of it is read, and nothing longer.
pub fn no_front(alloc: Global) -> Result<bool, Fault> {
    formats::no_front::<Pieces>(alloc, &copy(alloc)?)
}

/// No byte can be changed. With a new digest another program counted what is read.
pub fn each_byte(alloc: Global) -> Result<bool, Fault> {
    let bytes = copy(alloc)?;
    for by in [1u8, 255] {
        let is_read = is_changed_read::<Pieces>(alloc, &bytes, by)?;
        if is_read || count_read::<Pieces>(alloc, &bytes, by)? != 136 {
            return Ok(false);
        }
    }
    Ok(true)
}

// How many bytes each number of a piece with two rows has, behind "RMPC" and the format.
const WIDTHS: [usize; 13] = [1, 4, 4, 4, 4, 8, 8, 8, 4, 4, 8, 4, 8];

// Appends these numbers. Each row ends with its content, of 64 bytes.
fn push_numbers(out: &mut Vec<u8>, numbers: &[u64]) -> Result<(), NoMemory> {
    for (place, (number, width)) in numbers.iter().zip(WIDTHS).enumerate() {
        let bytes = number.to_be_bytes();
        out.extend_from_slice(bytes.get(8usize.saturating_sub(width)..).unwrap_or(&[]))?;
        if place == 10 || place == 12 {
            out.extend_from_slice(&[7; 64])?;
        }
    }
    Ok(())
}

// The bytes of these numbers.
fn spelled(alloc: Global, numbers: &[u64]) -> Result<Vec<u8>, NoMemory> {
    let mut out = Vec::from_slice(alloc, b"RMPC\x01")?;
    push_numbers(&mut out, numbers)?;
    seal(&mut out)?;
    Ok(out)
}

/// Pieces of two rows, each by its numbers.
#[derive(Drop)]
pub struct Pieces;

impl Told for Pieces {
    fn told(&mut self, alloc: Global, asked: &str) -> Result<String, Fault> {
        let bytes = spelled(alloc, &numbers::<u64>(alloc, asked)?)?;
        word::<Pieces>(alloc, &bytes)
    }
}

impl Format for Pieces {
    fn again(alloc: Global, bytes: &[u8]) -> Result<Option<Vec<u8>>, Fault> {
        match decode_piece(alloc, bytes) {
            Ok(piece) => Ok(Some(bytes_of(alloc, &piece)?)),
            Err(FormatFault::Bad) => Ok(None),
            Err(FormatFault::NoMemory) => Err(Fault::NoMemory),
        }
    }
}

/// Rows from an SCN on, and the high of none.
pub fn rows_from(alloc: Global) -> Result<bool, Fault> {
    let rows = [row(0, 6, b"AA"), row(1, 4, b"BB"), row(2, 5, b"CC")];
    let picked = pick(alloc, &rows, 5)?;
    Ok(picked.as_slice() == [rows[0], rows[2]].as_slice() && high_of(9, &[]) == 9)
}
