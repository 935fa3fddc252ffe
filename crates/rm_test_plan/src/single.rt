//! Names, and a log and a piece as objects of one record.
use crate::gathering::{log_bytes, log_entry, piece_bytes, piece_entry};
use rm_base::{Kind, NoMemory, Status, Text};
use rm_catalog::LogEntry;
use rm_evidence::{log_name, log_object, piece_name, piece_object, set_name, site_name};
use rm_test_harness::Fault;
use std::alloc::Global;

fn is_so(name: Result<Text, NoMemory>, wanted: &str) -> bool {
    name.is_ok_and(|name| name.as_str() == wanted)
}

/// Names have the id.
pub fn names(alloc: Global) -> bool {
    is_so(log_name(alloc, 7), "log_7")
        && is_so(piece_name(alloc, false, 12), "piece_12")
        && is_so(piece_name(alloc, true, 12), "copy_12")
        && is_so(set_name(alloc, 9), "set_9")
        && is_so(site_name(alloc, 4294967295), "site_4294967295")
}

// The record of a log of this sequence.
fn entry(bytes: &[u8], sequence: u32) -> LogEntry {
    let entry = log_entry(1, bytes, Status::Available);
    LogEntry { sequence, ..entry }
}

// The sequence number of the log that an object of a record is.
fn sequence_of(alloc: Global, entry: &LogEntry, bytes: &[u8]) -> Result<Option<u32>, Fault> {
    Ok(log_object(alloc, entry, bytes)?.map(|log| log.sequence))
}

/// A log is the object of its record alone.
pub fn a_log(alloc: Global) -> Result<bool, Fault> {
    let bytes = log_bytes(alloc, 3)?;
    let bytes = bytes.as_slice();
    let is_found = sequence_of(alloc, &entry(bytes, 3), bytes)? == Some(3);
    for (entry, bytes) in [
        (entry(bytes, 4), bytes),
        (entry(b"RMLG", 3), b"RMLG"),
        (entry(bytes, 3), b"RMLG"),
    ] {
        if sequence_of(alloc, &entry, bytes)?.is_some() {
            return Ok(false);
        }
    }
    Ok(is_found)
}

/// A piece is the object of its record alone.
pub fn a_piece(alloc: Global) -> Result<bool, Fault> {
    let bytes = piece_bytes(alloc, Kind::Full, 0)?;
    let bytes = bytes.as_slice();
    let mut entry = piece_entry(alloc, 2, Kind::Full, 0, bytes)?;
    let found = piece_object(alloc, &entry, bytes)?;
    let no_object = piece_object(alloc, &entry, b"RMPC")?;
    entry.file = 2;
    let other = piece_object(alloc, &entry, bytes)?;
    let is_found = found.is_some_and(|piece| piece.rows.len() == 1);
    Ok(is_found && other.is_none() && no_object.is_none())
}
