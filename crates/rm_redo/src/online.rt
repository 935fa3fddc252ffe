//! The online logs, one for each redo thread.
ghost use Rattle.std.specs.Prelude.{ℕ, ◌≡◌, ◌<◌, ◌≤◌, ◌||◌, ◌↔◌, All, OnOk, OnErr, IfOk, IfSome, IsTrue, IsErrOf, length, map, not};
ghost use Rattle.rm_base.specs.Numbers.{last_scn};
ghost use Rattle.rm_redo.specs.{Logs.{IsLog, IsLogs}, LogFile.{log_file_of}, LogFormat.{IsLogFile}};
ghost use Rattle.rm_redo.specs.Online.{IsThread, IsLost, are_lost, begun_logs, counted_as, empty_log, fresh_log, fresh_logs, log_where, logs_of, lost_log, no_log, thread_log, thread_logs, with_change, with_disabled, with_enabled, with_log, with_loss, switched, thread_records, first_of, sequence_of};

use crate::log_file::LogFile;
use rm_base::{Block, BlockNo, Change, FileNo, IncNo, NoMemory, Scn, Seq, ThreadNo};
use std::alloc::Global;
use std::marker::Model;
use std::mem;

/// One change, as a log keeps it.
#[derive(Clone, Copy, PartialEq, Eq)]
pub struct LogRecord {
    pub scn: Scn,
    pub file: FileNo,
    pub block: BlockNo,
    pub content: Block,
}

/// The online log of one thread: its sequence number, the SCN from which on it tells, and its records
/// by ascending SCN, datafile and block.
#[derive(Drop)]
pub struct ThreadLog {
    /// Whether the thread has a log, lost or not.
    pub is_there: bool,
    pub sequence: u32,
    pub first: Scn,
    pub is_lost: bool,
    pub records: Seq<LogRecord>,
}

// An empty log from `first` on, with this sequence number.
fn empty_log(alloc: Global, first: Scn, sequence: u32) -> ThreadLog
    ensures { result ≡ empty_log first sequence }
{
    ThreadLog {
        is_there: true,
        sequence,
        first,
        is_lost: false,
        records: Seq::new(alloc),
    }
}

// A log that is lost.
fn lost_log(alloc: Global) -> ThreadLog
    ensures { result ≡ lost_log }
{
    ThreadLog {
        is_lost: true,
        ..empty_log(alloc, 1, 1)
    }
}

// What stands where a thread is not there.
fn no_log(alloc: Global) -> ThreadLog
    ensures { result ≡ no_log }
{
    ThreadLog {
        is_there: false,
        ..empty_log(alloc, 1, 1)
    }
}

// An empty log of a thread that is enabled, from `first` on.
fn begun_log(alloc: Global, first: Scn, on: bool) -> ThreadLog
    ensures { result ≡ log_where (fresh_log first) on }
{
    if on {
        empty_log(alloc, first, 1)
    } else {
        no_log(alloc)
    }
}

// Empty logs of the threads that are enabled, from `first` on.
fn begun_logs(alloc: Global, enabled: [bool; 4], first: Scn) -> Result<Vec<ThreadLog>, NoMemory>
    ensures { IfOk result (λ threads. threads.items ≡ map (log_where (fresh_log first)) enabled) }
{
    Ok(
        enabled
            .iter()
            .map(|on| begun_log(alloc, first, *on))
            .collect(alloc)?,
    )
}

// A lost log of a thread that is enabled.
fn gone_log(alloc: Global, on: bool) -> ThreadLog
    ensures { result ≡ log_where lost_log on }
{
    if on { lost_log(alloc) } else { no_log(alloc) }
}

/// Why a change was not logged.
#[derive(Clone, Copy, PartialEq, Eq)]
pub enum LogFault {
    /// The thread's log has 65,536 records.
    Full,
    NoMemory,
}

impl From<NoMemory> for LogFault {
    ghost use Rattle.rm_redo.specs.declared.online.LogFault.TheVariants.{NoMemory as WithoutMemory};

    ghost from_gives = { λ _ e. e ≡ WithoutMemory };

    fn from(_: NoMemory) -> Self {
        LogFault::NoMemory
    }
}

/// The most records of one thread's online log.
pub const MOST_RECORDS: usize = 65_536;

// Whether the log is lost, or its thread is not there.
fn is_gone(log: &ThreadLog) -> bool
    ensures { result ≡ (not log.now.is_there || log.now.is_lost) }
{
    !log.is_there || log.is_lost
}

// Whether all logs that are there are lost.
fn are_lost(threads: &[ThreadLog]) -> bool
    ensures { result ≡ are_lost threads.now }
{
    threads.iter().all(is_gone)
}

// The online log of a thread, as a log file tells it; of one that is enabled and has none it is lost.
fn thread_log(alloc: Global, on: bool, log: Option<LogFile>) -> ThreadLog
    ensures { result ≡ thread_log on log }
{
    if !on {
        return no_log(alloc);
    }
    match log {
        None => lost_log(alloc),
        Some(log) => ThreadLog {
            is_there: true,
            sequence: log.sequence,
            first: log.first,
            is_lost: false,
            records: log.records,
        },
    }
}

// The online logs of the threads 1 to 4, as log files tell them.
fn thread_logs(
    alloc: Global,
    enabled: [bool; 4],
    logs: Seq<Option<LogFile>>,
) -> Result<Vec<ThreadLog>, NoMemory>
    ensures { IfOk result (λ threads. threads.items ≡ thread_logs enabled logs) }
{
    let logs = logs.into_vec();
    let threads = enabled.iter().zip(logs);
    Ok(
        threads
            .map(|(on, log)| thread_log(alloc, *on, log))
            .collect(alloc)?,
    )
}

// Each log becomes a lost one, or that of a thread that is not there.
fn forget(alloc: Global, threads: &mut Vec<ThreadLog>, enabled: [bool; 4])
    requires { length threads.old.items ≡ 4 }
    ensures { threads.new.items ≡ map (log_where lost_log) enabled }
{
    for index in 0..4usize {
        threads[index] = gone_log(alloc, enabled[index]);
    }
}

/// The online logs of those of the threads 1 to 4 that are there, all of one incarnation.
#[derive(Drop)]
pub struct OnlineLogs {
    dbid: u32,
    inc: IncNo,
    threads: Vec<ThreadLog>,
}

impl Model for OnlineLogs {
    ghost use Rattle.rm_redo.specs.Logs.{Logs, IsLogs};

    ghost Value = { Logs };

    ghost view = { λ l. record { dbid = l.dbid; inc = l.inc; threads = l.threads.items } };

    ghost invariant = { λ l. IsLogs (record { dbid = l.dbid; inc = l.inc; threads = l.threads.items }) };
}

impl OnlineLogs {
    /// Empty logs of the threads 1, 2, 3 and so on from `first` on, each with sequence 1.
    pub fn new(
        alloc: Global,
        dbid: u32,
        inc: IncNo,
        threads: u8,
        first: Scn,
    ) -> Result<OnlineLogs, NoMemory>
        requires dbid { 1 ≤ dbid }
        requires inc { 1 ≤ inc }
        requires threads { (1 ≤ threads) × (threads ≤ 4) }
        requires first { (1 ≤ first) × (first ≤ last_scn) }
        ensures { IfOk result (λ logs. logs ≡ fresh_logs dbid inc threads first) }
    {
        let enabled = [1 <= threads, 2 <= threads, 3 <= threads, 4 <= threads];
        OnlineLogs::with_threads(alloc, dbid, inc, enabled, first)
    }

    /// Empty logs of those of the threads 1 to 4 that are enabled, from `first` on, each with sequence 1. The
    /// others are not there.
    pub fn with_threads(
        alloc: Global,
        dbid: u32,
        inc: IncNo,
        enabled: [bool; 4],
        first: Scn,
    ) -> Result<OnlineLogs, NoMemory>
        requires dbid { 1 ≤ dbid }
        requires inc { 1 ≤ inc }
        requires first { (1 ≤ first) × (first ≤ last_scn) }
        ensures { IfOk result (λ logs. logs ≡ begun_logs dbid inc enabled first) }
    {
        let threads = begun_logs(alloc, enabled, first)?;
        Ok(OnlineLogs { dbid, inc, threads })
    }

    /// The logs of the threads 1 to 4, as log files tell them. A thread that is enabled and has none is lost, with
    /// sequence 1, first SCN 1 and no record. One that is not enabled is not there. An error is want of memory.
    pub fn from_logs(
        alloc: Global,
        dbid: u32,
        inc: IncNo,
        enabled: [bool; 4],
        logs: Seq<Option<LogFile>>,
    ) -> Result<OnlineLogs, NoMemory>
        requires dbid { 1 ≤ dbid }
        requires inc { 1 ≤ inc }
        requires threads { length logs ≡ 4 }
        requires valid { All (λ log. IfSome log IsLogFile) logs }
        ensures { IfOk result (λ online. online ≡ logs_of dbid inc enabled logs) }
    {
        let threads = thread_logs(alloc, enabled, logs)?;
        Ok(OnlineLogs { dbid, inc, threads })
    }

    // Closes the log of a thread at `next`, and puts another one in its place.
    fn close(&mut self, thread: ThreadNo, next: Scn, new: ThreadLog) -> LogFile
        requires thread { IsThread self.old thread }
        requires new { IsLog new }
        ensures log { result ≡ log_file_of self.old thread next }
        ensures begun { All (λ r. 0 < r.scn) result.records }
        ensures after { self.new ≡ with_log (λ l. new) self.old thread }
    {
        let old = mem::replace(&mut self.threads[thread as usize - 1], new);
        LogFile {
            dbid: self.dbid,
            inc: self.inc,
            thread,
            sequence: old.sequence,
            first: old.first,
            next,
            records: old.records,
        }
    }

    /// Begins an empty log of a thread that is not there, from `now` on and with this sequence number. Without
    /// memory nothing changes.
    pub fn enable(&mut self, thread: ThreadNo, now: Scn, sequence: u32) -> Result<(), NoMemory>
        requires number { (1 ≤ thread) × (thread ≤ 4) }
        requires thread { ¬ IsThread self.old thread }
        requires now { (1 ≤ now) × (now ≤ last_scn) }
        requires sequence { 1 ≤ sequence }
        ensures ok { OnOk result (self.new ≡ with_enabled self.old thread now sequence) }
        ensures err { OnErr result (self.new ≡ self.old) }
    {
        let alloc = *self.threads.allocator();
        self.threads[thread as usize - 1] = empty_log(alloc, now, sequence);
        Ok(())
    }

    /// Closes the log of a thread, which then is no longer there. None where the log begins at `now`. Without
    /// memory nothing changes.
    pub fn disable(&mut self, thread: ThreadNo, now: Scn) -> Result<Option<LogFile>, NoMemory>
        requires thread { IsThread self.old thread }
        requires there { ¬ IsLost self.old thread }
        requires first { first_of self.old thread ≤ now }
        requires last { now ≤ last_scn }
        requires above { All (λ r. r.scn < now) (thread_records self.old thread) }
        requires sequence { first_of self.old thread < now → sequence_of self.old thread < 4294967295 }
        ensures none { IfOk result (λ log. (log ≡ None) ↔ (first_of self.old thread ≡ now)) }
        ensures log { IfOk result (λ log. IfSome log (λ l. l ≡ log_file_of self.old thread now)) }
        ensures begun { IfOk result (λ log. IfSome log (λ l. All (λ r. 0 < r.scn) l.records)) }
        ensures after { OnOk result (self.new ≡ with_disabled self.old thread) }
        ensures err { OnErr result (self.new ≡ self.old) }
    {
        let alloc = *self.threads.allocator();
        let log = self.close(thread, now, no_log(alloc));
        if log.first == now {
            return Ok(None);
        }
        Ok(Some(log))
    }

    /// Adds a change to the log of its thread. A refusal changes nothing.
    pub fn append(&mut self, change: Change) -> Result<(), LogFault>
        requires thread { IsThread self.old change.thread }
        requires there { ¬ IsLost self.old change.thread }
        requires inc { change.inc ≡ self.old.inc }
        requires first { first_of self.old change.thread ≤ change.scn }
        requires last { change.scn < last_scn }
        requires above { All (λ r. r.scn < change.scn) (thread_records self.old change.thread) }
        ensures ok { OnOk result (self.new ≡ with_change self.old change) }
        ensures full { IsErrOf result LogFault.Full ↔ (length (thread_records self.old change.thread) ≡ 65536) }
        ensures err { OnErr result (self.new ≡ self.old) }
    {
        let log = &mut self.threads[change.thread as usize - 1];
        if log.records.len() == MOST_RECORDS {
            return Err(LogFault::Full);
        }
        let record = LogRecord {
            scn: change.scn,
            file: change.file,
            block: change.block,
            content: change.content,
        };
        log.records.push(record)?;
        Ok(())
    }

    /// Closes the log of a thread, which then begins anew at `now` with the next sequence number and no
    /// record. None, and nothing changes, where it begins at `now` already. Without memory nothing
    /// changes either.
    pub fn switch(&mut self, thread: ThreadNo, now: Scn) -> Result<Option<LogFile>, NoMemory>
        requires thread { IsThread self.old thread }
        requires there { ¬ IsLost self.old thread }
        requires first { first_of self.old thread ≤ now }
        requires last { now ≤ last_scn }
        requires above { All (λ r. r.scn < now) (thread_records self.old thread) }
        requires sequence { sequence_of self.old thread < 4294967295 }
        ensures none { IfOk result (λ log. (log ≡ None) ↔ (first_of self.old thread ≡ now)) }
        ensures log { IfOk result (λ log. IfSome log (λ l. l ≡ log_file_of self.old thread now)) }
        ensures begun { IfOk result (λ log. IfSome log (λ l. All (λ r. 0 < r.scn) l.records)) }
        ensures after { OnOk result (self.new ≡ switched self.old thread now) }
        ensures err { OnErr result (self.new ≡ self.old) }
    {
        if self.first(thread) == now {
            return Ok(None);
        }
        let alloc = *self.threads.allocator();
        let next = empty_log(alloc, now, self.sequence(thread) + 1);
        Ok(Some(self.close(thread, now, next)))
    }

    /// Marks the log of a thread as lost.
    pub fn lose(&mut self, thread: ThreadNo)
        requires { IsThread self.old thread }
        ensures { self.new ≡ with_loss self.old thread }
    {
        self.threads[thread as usize - 1].is_lost = true;
    }

    /// Where all logs are lost, they count as logs of this incarnation, of the threads that are enabled at its
    /// end. Else nothing changes.
    pub fn count_as(&mut self, inc: IncNo, enabled: [bool; 4])
        requires { 1 ≤ inc }
        ensures { self.new ≡ counted_as self.old inc enabled }
    {
        if are_lost(&self.threads) {
            let alloc = *self.threads.allocator();
            self.inc = inc;
            forget(alloc, &mut self.threads, enabled);
        }
    }

    /// Whether a thread is there: it has a log, lost or not.
    pub fn has(&self, thread: ThreadNo) -> bool
        ensures { IsTrue result ↔ IsThread self.now thread }
    {
        1 <= thread && thread <= 4 && self.threads[thread as usize - 1].is_there
    }

    /// Whether the log of a thread is lost.
    pub fn is_lost(&self, thread: ThreadNo) -> bool
        requires { IsThread self.now thread }
        ensures { IsTrue result ↔ IsLost self.now thread }
    {
        let log = &self.threads[thread as usize - 1];
        log.is_lost
    }

    /// The records of a thread, by ascending SCN, datafile and block.
    pub fn records(&self, thread: ThreadNo) -> &[LogRecord]
        requires { IsThread self.now thread }
        ensures { result.now ≡ thread_records self.now thread }
    {
        self.threads[thread as usize - 1].records.as_slice()
    }

    /// How many records a thread has.
    pub fn count(&self, thread: ThreadNo) -> u32
        requires { IsThread self.now thread }
        ensures value { result ≡ length (thread_records self.now thread) }
        ensures most { result ≤ 65536 }
    {
        self.threads[thread as usize - 1].records.len() as u32
    }

    /// The SCN from which on a thread's log tells.
    pub fn first(&self, thread: ThreadNo) -> Scn
        requires { IsThread self.now thread }
        ensures { result ≡ first_of self.now thread }
    {
        self.threads[thread as usize - 1].first
    }

    /// The sequence number of a thread's log: 1 at first, and one more after each switch.
    pub fn sequence(&self, thread: ThreadNo) -> u32
        requires { IsThread self.now thread }
        ensures value { result ≡ sequence_of self.now thread }
        ensures least { 1 ≤ result }
    {
        self.threads[thread as usize - 1].sequence
    }

    /// The incarnation of which the logs are.
    pub fn inc(&self) -> IncNo
        ensures { result ≡ self.now.inc }
    {
        self.inc
    }

    /// The greatest thread that is there; 0 where none is.
    pub fn threads(&self) -> u8
        ensures most { (t : ℕ) → IsThread self.now t → t ≤ result }
        ensures there { 0 < result → IsThread self.now result }
        ensures few { result ≤ 4 }
        ensures sound { IsLogs self.now }
    {
        let _ = &self.dbid;
        let mut greatest = 0;
        for index in 0..4u8 {
            if self.has(index + 1) {
                greatest = index + 1;
            }
        }
        greatest
    }
}
