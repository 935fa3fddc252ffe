//! The rules of a valid log.
ghost use Rattle.std.specs.{Prelude.{◌↔◌, ◌≤◌, IsTrue, All}, List.{AllPairs}};
ghost use Rattle.rm_base.specs.Numbers.{last_scn};
ghost use Rattle.rm_redo.specs.{Logs.{IsBefore}, LogFormat.{IsLogFile, IsLogRecord}};

use crate::log_file::LogFile;
use crate::online::{LogRecord, MOST_RECORDS};
use rm_base::ranges::{is_positive, is_up_to};
use rm_base::{LAST_SCN, Scn};

// The SCNs from `first` up to, and without, `next`. There may be none.
fn is_range(first: Scn, next: Scn) -> bool
    ensures { IsTrue result ↔ ((1 ≤ first) × (first ≤ next) × (next ≤ last_scn)) }
{
    is_up_to(first, next) && next <= LAST_SCN
}

// A record of the SCNs from `first` up to, and without, `next`.
fn is_record(entry: LogRecord, first: Scn, next: Scn) -> bool
    ensures { IsTrue result ↔ IsLogRecord first next entry }
{
    first <= entry.scn
        && entry.scn < next
        && is_up_to(entry.file as u64, 64)
        && entry.block <= 65535
}

fn are_records(records: &[LogRecord], first: Scn, next: Scn) -> bool
    ensures { IsTrue result ↔ All (IsLogRecord first next) records.now }
{
    records.iter().all(|entry| is_record(*entry, first, next))
}

fn is_before(a: &LogRecord, b: &LogRecord) -> bool
    ensures { IsTrue result ↔ IsBefore a.now b.now }
{
    a.scn < b.scn
        || (a.scn == b.scn && (a.file < b.file || (a.file == b.file && a.block < b.block)))
}

fn ascend(records: &[LogRecord]) -> bool
    ensures { IsTrue result ↔ AllPairs IsBefore records.now }
{
    for i in 1..records.len() {
        if !is_before(&records[i - 1], &records[i]) {
            return false;
        }
    }
    true
}

/// Whether the log is valid, so that its spelling is read as this log.
pub fn is_valid_log(log: &LogFile) -> bool
    ensures { IsTrue result ↔ IsLogFile log.now }
{
    let records = log.records.as_slice();
    is_positive(log.dbid)
        && is_positive(log.inc)
        && is_up_to(log.thread as u64, 4)
        && is_positive(log.sequence)
        && is_range(log.first, log.next)
        && records.len() <= MOST_RECORDS
        && ascend(records)
        && are_records(records, log.first, log.next)
}
