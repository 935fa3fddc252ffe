//! Logs as bytes: each number at its limits, a log of two records, its bytes changed and cut, and the longest.
use crate::formats::{self, Format, count_read, digits, is_changed_read, is_read, word};
use rm_base::number::{push_u32, push_u64};
use rm_base::sealed::seal;
use rm_base::{Block, FormatFault, NoMemory, Seq};
use rm_redo::{LogFile, LogRecord, decode_log, encode_log, is_valid_log};
use rm_test_harness::{Fault, Told, cases, differs};
use std::alloc::Global;

// How many bytes each number of a log with two records has, behind "RMLG" and the format.
const WIDTHS: [usize; 13] = [4, 4, 1, 4, 8, 8, 4, 8, 4, 4, 8, 4, 4];

// The bytes of these numbers. Each record ends with its content, of 64 bytes.
fn spelled(alloc: Global, numbers: &str) -> Result<Vec<u8>, Fault> {
    let mut out = Vec::new(alloc);
    out.extend_from_slice(b"RMLG\x01")?;
    for (place, (word, width)) in numbers.split_whitespace().zip(WIDTHS).enumerate() {
        let Ok(number) = word.parse::<u64>() else {
            return differs(alloc, word);
        };
        for byte in number
            .to_be_bytes()
            .iter()
            .skip(8usize.saturating_sub(width))
        {
            out.push(*byte)?;
        }
        if place == 9 || place == 12 {
            out.extend_from_slice(&[7; 64])?;
        }
    }
    seal(&mut out)?;
    Ok(out)
}

// Logs of two records, each by its numbers.
#[derive(Drop)]
struct Logs;

impl Told for Logs {
    fn told(&mut self, alloc: Global, asked: &str) -> Result<String, Fault> {
        word::<Logs>(alloc, &spelled(alloc, asked)?)
    }
}

impl Format for Logs {
    fn again(alloc: Global, bytes: &[u8]) -> Result<Option<Vec<u8>>, Fault> {
        match decode_log(alloc, bytes) {
            Ok(log) => Ok(Some(bytes_of(alloc, &log)?)),
            Err(FormatFault::Bad) => Ok(None),
            Err(FormatFault::NoMemory) => Err(Fault::NoMemory),
        }
    }
}

/// How many cases of the table are as it says.
pub fn numbers(alloc: Global, text: &str) -> Result<u64, Fault> {
    cases(alloc, text, &mut Logs)
}

fn record(scn: u64, text: &[u8; 2]) -> LogRecord {
    LogRecord {
        scn,
        file: 1,
        block: 0,
        content: Block::padded(text),
    }
}

// The bytes of a valid log; of another none.
fn bytes_of(alloc: Global, log: &LogFile) -> Result<Vec<u8>, Fault> {
    if is_valid_log(log) {
        Ok(encode_log(alloc, log)?.into_vec())
    } else {
        differs(alloc, "the log is not valid")
    }
}

// The log of two records, as bytes.
fn log_of_two(alloc: Global) -> Result<Vec<u8>, Fault> {
    let records = Vec::from_array(alloc, [record(2, b"AA"), record(3, b"BB")])?;
    let log = LogFile {
        dbid: 1,
        inc: 1,
        thread: 1,
        sequence: 1,
        first: 1,
        next: 4,
        records: Seq::from_vec(records),
    };
    bytes_of(alloc, &log)
}

/// Its bytes are those of the file, of which another program made the digest, and are read.
pub fn two_records(alloc: Global, hex: &str) -> Result<bool, Fault> {
    let bytes = log_of_two(alloc)?;
    let Ok(read) = decode_log(alloc, &bytes) else {
        return Ok(false);
    };
    Ok(
        digits(alloc, &bytes)?.as_str() == hex.trim_end()
            && bytes.len() == 230
            && read.next == 4
            && read.records.as_slice() == [record(2, b"AA"), record(3, b"BB")].as_slice(),
    )
}

/// No front of it is read, and nothing longer.
pub fn no_front(alloc: Global) -> Result<bool, Fault> {
    formats::no_front::<Logs>(alloc, &log_of_two(alloc)?)
}

/// No byte can be changed. With a new digest another program counted what is read.
pub fn each_byte(alloc: Global) -> Result<bool, Fault> {
    let bytes = log_of_two(alloc)?;
    Ok(
        !is_changed_read::<Logs>(alloc, &bytes, 1)?
            && count_read::<Logs>(alloc, &bytes, 1)? == 147
            && count_read::<Logs>(alloc, &bytes, 255)? == 150,
    )
}

// Appends the record of this number, at SCN 2.
fn push_record(out: &mut Vec<u8>, number: u32) -> Result<(), NoMemory> {
    push_u64(out, 2)?;
    push_u32(out, number / 65_536 + 1)?;
    push_u32(out, number % 65_536)?;
    out.extend_from_slice(&[7; 64])?;
    Ok(())
}

// Appends what stands before so many records.
fn push_head(out: &mut Vec<u8>, count: u32) -> Result<(), NoMemory> {
    out.extend_from_slice(b"RMLG\x01\0\0\0\x01\0\0\0\x01\x01\0\0\0\x01\0\0\0\0\0\0\0\x01")?;
    push_u64(out, 4)?;
    push_u32(out, count)
}

// The bytes of a log with so many records, all at SCN 2.
fn long_log(alloc: Global, count: u32) -> Result<Vec<u8>, NoMemory> {
    let mut out = Vec::new(alloc);
    push_head(&mut out, count)?;
    for number in 0..count {
        push_record(&mut out, number)?;
    }
    seal(&mut out)?;
    Ok(out)
}

/// A log has at most 65,536 records.
pub fn longest(alloc: Global) -> Result<bool, Fault> {
    let is_most_read = is_read::<Logs>(alloc, &long_log(alloc, 65_536)?)?;
    Ok(is_most_read && !is_read::<Logs>(alloc, &long_log(alloc, 65_537)?)?)
}
