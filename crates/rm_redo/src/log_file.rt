//! A log that was archived.
ghost use Rattle.std.specs.Prelude.{ℕ, ◌≡◌, ◌≢◌, ◌++◌, List, [], All, filter};
ghost use Rattle.rm_base.specs.declared.block.Change.{Change};
ghost use Rattle.rm_redo.specs.{Logs.{Logs}, LogFile.{changes_of, is_of_thread, log_file_of}};
ghost use Rattle.rm_redo.specs.Online.{IsThread, first_of, switched, thread_records, with_changes};

use crate::online::LogRecord;
use rm_base::{IncNo, Scn, Seq, ThreadNo};

/// What one redo thread changed in one incarnation from `first` up to, and without, `next`. Its
/// records ascend by SCN, datafile and block.
#[derive(Drop)]
pub struct LogFile {
    pub dbid: u32,
    pub inc: IncNo,
    pub thread: ThreadNo,
    pub sequence: u32,
    pub first: Scn,
    pub next: Scn,
    pub records: Seq<LogRecord>,
}

/// A log tells exactly of what it told before and of the changes that were appended. So of these alone where its
/// thread had no record, and of those since its thread began anew.
pub fn a_log_holds_what_was_appended()
    ensures more { (logs : Logs) (t next : ℕ) (h : List Change) → IsThread logs t → All (λ c. IsThread logs c.thread × (c.inc ≡ logs.inc)) h → changes_of (log_file_of (with_changes logs h) t next) ≡ changes_of (log_file_of logs t next) ++ filter (is_of_thread t) h }
    ensures empty { (logs : Logs) (t next : ℕ) (h : List Change) → IsThread logs t → thread_records logs t ≡ [] → All (λ c. IsThread logs c.thread × (c.inc ≡ logs.inc)) h → changes_of (log_file_of (with_changes logs h) t next) ≡ filter (is_of_thread t) h }
    ensures anew { (logs : Logs) (t now next : ℕ) (h : List Change) → IsThread logs t → first_of logs t ≢ now → All (λ c. IsThread logs c.thread × (c.inc ≡ logs.inc)) h → changes_of (log_file_of (with_changes (switched logs t now) h) t next) ≡ filter (is_of_thread t) h }
{}
