//! Sets as bytes: one of two datafiles, its bytes changed and cut, sets of none and of the most, and each number at its limits.
use crate::formats::{self, Format, count_read, digits, is_changed_read, word};
use rm_base::sealed::seal;
use rm_base::{FileNo, FormatFault, Kind, Scn, Seq};
use rm_piece::{
    Piece, Set, SetFile, count_written, decode_set, encode_set, is_valid_set, risen_rows,
};
use rm_test_harness::{Fault, Told, differs, numbers, rows, rows_text};
use std::alloc::Global;

// A level 0 of a datafile of so many blocks, as a set of database 1 with the checkpoint 5 has it.
fn member(
    alloc: Global,
    file: FileNo,
    creation: Scn,
    blocks: u32,
    told: &str,
) -> Result<SetFile, Fault> {
    let piece = Piece {
        kind: Kind::Level0,
        dbid: 1,
        inc: 1,
        file,
        blocks,
        from: 0,
        checkpoint: 5,
        high: 5,
        rows: rows(alloc, told)?,
    };
    Ok(SetFile { creation, piece })
}

/// The set of these members in this database.
pub fn set_of(dbid: u32, members: Vec<SetFile>) -> Set {
    Set {
        dbid,
        inc: 1,
        checkpoint: 5,
        members: Seq::from_vec(members),
    }
}

/// Two datafiles of four blocks, of which the first has two that were written.
pub fn two(alloc: Global) -> Result<Vec<SetFile>, Fault> {
    let mut members = Vec::new(alloc);
    members.push(member(alloc, 1, 1, 4, "0 3 A, 1 4 -, 2 1 -, 3 1 -")?)?;
    members.push(member(alloc, 2, 2, 4, "0 2 -, 1 2 -, 2 2 -, 3 2 -")?)?;
    Ok(members)
}

/// The bytes of a valid set.
pub fn bytes_of(alloc: Global, set: &Set) -> Result<Vec<u8>, Fault> {
    if is_valid_set(set) {
        Ok(encode_set(alloc, set)?.into_vec())
    } else {
        differs(alloc, "the set is not valid")
    }
}

// The set of the two, as bytes.
fn bytes_of_two(alloc: Global) -> Result<Vec<u8>, Fault> {
    bytes_of(alloc, &set_of(1, two(alloc)?))
}

fn has_rows(alloc: Global, member: &SetFile, wanted: &str) -> Result<bool, Fault> {
    Ok(rows_text(alloc, member.piece.rows.as_slice())?.as_str() == wanted)
}

/// Its bytes are those of the file, of which another program made the digest. What is read has all rows.
pub fn two_files(alloc: Global, hex: &str) -> Result<bool, Fault> {
    let bytes = bytes_of_two(alloc)?;
    let digits = digits(alloc, &bytes)?;
    let Ok(read) = decode_set(alloc, &bytes) else {
        return Ok(false);
    };
    let [first, second] = read.members.as_slice() else {
        return Ok(false);
    };
    let are_rows = has_rows(alloc, first, "0 3 A, 1 4 -, 2 1 -, 3 1 -")?
        && has_rows(alloc, second, "0 2 -, 1 2 -, 2 2 -, 3 2 -")?;
    Ok(digits.as_str() == hex.trim_end() && bytes.len() == 283 && are_rows)
}

/// No front of it is read, and nothing longer.
pub fn no_front(alloc: Global) -> Result<bool, Fault> {
    formats::no_front::<Sets>(alloc, &bytes_of_two(alloc)?)
}

/// No byte can be changed. With a new digest another program counted what is read.
pub fn each_byte(alloc: Global) -> Result<bool, Fault> {
    let bytes = bytes_of_two(alloc)?;
    Ok(
        !is_changed_read::<Sets>(alloc, &bytes, 1)?
            && count_read::<Sets>(alloc, &bytes, 1)? == 141
            && count_read::<Sets>(alloc, &bytes, 255)? == 140,
    )
}

/// A set of no datafile is read, whatever database it names.
pub fn none(alloc: Global) -> Result<bool, Fault> {
    let bytes = bytes_of(alloc, &set_of(0, Vec::new(alloc)))?;
    match decode_set(alloc, &bytes) {
        Ok(read) => Ok(bytes.len() == 57 && read.dbid == 0 && read.members.is_empty()),
        Err(_) => Ok(false),
    }
}

// The set of so many datafiles of one block each.
fn many(alloc: Global, count: FileNo) -> Result<Set, Fault> {
    let mut members = Vec::new(alloc);
    for n in 0..count {
        members.push(member(alloc, n.saturating_add(1), 2, 1, "0 2 -")?)?;
    }
    Ok(set_of(1, members))
}

/// A set has at most 64 datafiles.
pub fn most(alloc: Global) -> Result<bool, Fault> {
    let bytes = bytes_of(alloc, &many(alloc, 64)?)?;
    let Ok(read) = decode_set(alloc, &bytes) else {
        return Ok(false);
    };
    Ok(bytes.len() == 2425 && read.members.len() == 64 && !is_valid_set(&many(alloc, 65)?))
}

/// A row that is not above the creation counts as that of a block that was never written.
pub fn risen(alloc: Global) -> Result<bool, Fault> {
    let rows = rows(alloc, "0 1 A, 1 2 B, 2 3 C, 3 4 -")?;
    let risen = risen_rows(alloc, rows.as_slice(), 2)?;
    let text = rows_text(alloc, risen.as_slice())?;
    let written = count_written(risen.as_slice(), 2);
    Ok(text.as_str() == "0 2 -, 1 2 -, 2 3 C, 3 4 -" && written == 2)
}

// How many bytes each of these numbers has: those of a set's head, of a member's, and of a row.
fn widths(alloc: Global, numbers: &[u64]) -> Result<&'static [usize], Fault> {
    match numbers.len() {
        4 => Ok(&[4, 4, 8, 4]),
        7 => Ok(&[1, 4, 8, 4, 8, 8, 4]),
        2 => Ok(&[4, 8]),
        _ => differs(alloc, "no head and no row"),
    }
}

// Appends these numbers. A row ends with its content, of 64 zeros.
fn push_numbers(alloc: Global, out: &mut Vec<u8>, numbers: &[u64]) -> Result<(), Fault> {
    for (number, width) in numbers.iter().zip(widths(alloc, numbers)?) {
        let bytes = number.to_be_bytes();
        let from = 8usize.saturating_sub(*width);
        out.extend_from_slice(bytes.get(from..).unwrap_or(&[]))?;
    }
    if numbers.len() == 2 {
        out.extend_from_slice(&[0; 64])?;
    }
    Ok(())
}

/// Sets, each by its numbers.
#[derive(Drop)]
pub struct Sets;

impl Told for Sets {
    fn told(&mut self, alloc: Global, asked: &str) -> Result<String, Fault> {
        let mut out = Vec::from_slice(alloc, b"RMST\x02")?;
        for part in asked.split("; ") {
            push_numbers(alloc, &mut out, &numbers::<u64>(alloc, part)?)?;
        }
        seal(&mut out)?;
        word::<Sets>(alloc, &out)
    }
}

impl Format for Sets {
    fn again(alloc: Global, bytes: &[u8]) -> Result<Option<Vec<u8>>, Fault> {
        match decode_set(alloc, bytes) {
            Ok(set) => Ok(Some(bytes_of(alloc, &set)?)),
            Err(FormatFault::Bad) => Ok(None),
            Err(FormatFault::NoMemory) => Err(Fault::NoMemory),
        }
    }
}
