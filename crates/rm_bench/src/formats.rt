//! A piece and a log with their bytes, and how fast these are made and read.
use crate::format::{Format, Shortest};
use rm_base::sealed::digest_of;
use rm_base::{Block, Kind, Row, Seq};
use rm_piece::{Piece, decode_piece, encode_piece, is_valid};
use rm_redo::{LogFile, LogRecord, decode_log, encode_log, is_valid_log};
use std::alloc::{AllocError, Global};
use std::io;
use std::time::Instant;

const TIMES: u32 = 20;

/// A content that differs from number to number.
pub fn content_of(number: u64) -> Block {
    Block([(number % 251) as u8; 64])
}

impl Format for Piece {
    fn new(alloc: Global, rows: u32) -> Result<Self, AllocError> {
        let mut list = Vec::new(alloc);
        for block in 0..rows {
            list.push(Row {
                block,
                version: 7,
                content: content_of(u64::from(block)),
            })?;
        }
        Ok(Piece {
            kind: Kind::Level0,
            dbid: 1,
            inc: 1,
            file: 1,
            blocks: rows,
            from: 0,
            checkpoint: 9,
            high: 9,
            rows: Seq::from_vec(list),
        })
    }

    fn encode(&self, rt: &HostRuntime, times: u32) -> io::Result<Shortest<Option<Seq<u8>>>> {
        let mut made = None;
        let mut micros = u128::MAX;
        if is_valid(self) {
            for _ in 0..times {
                let start = Instant::now(rt)?;
                let bytes = encode_piece(rt.alloc(), self).ok();
                micros = micros.min(micros_since(rt, start)?);
                made = bytes;
            }
        }
        Ok(Shortest { made, micros })
    }

    fn decode(rt: &HostRuntime, bytes: &[u8], times: u32) -> io::Result<Shortest<Option<Self>>> {
        let mut made = None;
        let mut micros = u128::MAX;
        for _ in 0..times {
            let start = Instant::now(rt)?;
            let piece = decode_piece(rt.alloc(), bytes).ok();
            micros = micros.min(micros_since(rt, start)?);
            made = piece;
        }
        Ok(Shortest { made, micros })
    }
}

impl Format for LogFile {
    fn new(alloc: Global, rows: u32) -> Result<Self, AllocError> {
        let mut list = Vec::new(alloc);
        for block in 0..rows {
            list.push(LogRecord {
                scn: 7,
                file: 1,
                block,
                content: content_of(u64::from(block)),
            })?;
        }
        Ok(LogFile {
            dbid: 1,
            inc: 1,
            thread: 1,
            sequence: 1,
            first: 1,
            next: 9,
            records: Seq::from_vec(list),
        })
    }

    fn encode(&self, rt: &HostRuntime, times: u32) -> io::Result<Shortest<Option<Seq<u8>>>> {
        let mut made = None;
        let mut micros = u128::MAX;
        if is_valid_log(self) {
            for _ in 0..times {
                let start = Instant::now(rt)?;
                let bytes = encode_log(rt.alloc(), self).ok();
                micros = micros.min(micros_since(rt, start)?);
                made = bytes;
            }
        }
        Ok(Shortest { made, micros })
    }

    fn decode(rt: &HostRuntime, bytes: &[u8], times: u32) -> io::Result<Shortest<Option<Self>>> {
        let mut made = None;
        let mut micros = u128::MAX;
        for _ in 0..times {
            let start = Instant::now(rt)?;
            let log = decode_log(rt.alloc(), bytes).ok();
            micros = micros.min(micros_since(rt, start)?);
            made = log;
        }
        Ok(Shortest { made, micros })
    }
}

/// How many microseconds went by.
pub fn micros_since(rt: &HostRuntime, start: Instant) -> io::Result<u128> {
    Ok(Instant::now(rt)?.duration_since(start).as_micros())
}

/// Whether the value of so many rows, read from its bytes, has these bytes again.
pub fn comes_back<F: Format>(rt: &HostRuntime, rows: u32) -> io::Result<bool> {
    let value = F::new(rt.alloc(), rows)?;
    let Some(bytes) = value.encode(rt, 1)?.made else {
        return Ok(false);
    };
    let Some(read) = F::decode(rt, bytes.as_slice(), 1)?.made else {
        return Ok(false);
    };
    let Some(again) = read.encode(rt, 1)?.made else {
        return Ok(false);
    };
    Ok(again.as_slice() == bytes.as_slice())
}

/// Tells how fast the bytes of so many rows are made and read, and how much of it is SHA-256: the
/// shortest of 20 runs of each.
pub fn tell_speed<F: Format>(rt: &HostRuntime, name: &str, rows: u32) -> io::Result<()> {
    let value = F::new(rt.alloc(), rows)?;
    let Shortest {
        made,
        micros: encode,
    } = value.encode(rt, TIMES)?;
    let Some(bytes) = made else {
        return println!(rt; "{name}: no bytes");
    };
    let Shortest {
        made: value,
        micros: decode,
    } = F::decode(rt, bytes.as_slice(), TIMES)?;
    let Shortest {
        made: first,
        micros: alone,
    } = digest(rt, bytes.as_slice())?;

    let len = bytes.len();
    tell_bytes(rt, name, rows, len, value.is_some(), first)?;
    tell_share(rt, "encode", len, encode, alone)?;
    tell_share(rt, "decode", len, decode, alone)?;
    tell_share(rt, "SHA-256 alone", len, alone, alone)
}

fn tell_bytes(
    rt: &HostRuntime,
    name: &str,
    rows: u32,
    len: usize,
    read: bool,
    first: u8,
) -> io::Result<()> {
    println!(rt; "{name} of {rows}: {len} bytes, read: {read}, digest begins with {first}")
}

// The first byte of the digest.
fn digest(rt: &HostRuntime, bytes: &[u8]) -> io::Result<Shortest<u8>> {
    let mut made = 0;
    let mut micros = u128::MAX;
    for _ in 0..TIMES {
        let start = Instant::now(rt)?;
        let [first, ..] = digest_of(bytes);
        micros = micros.min(micros_since(rt, start)?);
        made = first;
    }
    Ok(Shortest { made, micros })
}

fn tell_share(
    rt: &HostRuntime,
    name: &str,
    len: usize,
    micros: u128,
    digest: u128,
) -> io::Result<()> {
    let speed = (len as u128).checked_div(micros).unwrap_or(0);
    let share = digest.saturating_mul(100).checked_div(micros).unwrap_or(0);
    println!(rt; "  {name}: {micros} us, {speed} MB/s, SHA-256 is {share} % of it")
}
