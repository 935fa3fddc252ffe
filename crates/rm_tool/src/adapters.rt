//! A reader as a source, a writer as a sink, and the machine's clock. Contracts see nothing of their bytes
//! or of its answers.
ghost use Rattle.std.specs.Prelude.{◌≡◌, ◌+◌, ◌<◌, ◌≤◌, false};

use rm_base::{Clock, Count, Failed, Sink, Source};
use std::io::{Error, ErrorKind, Read, Write};
use std::time::{SystemTime, UNIX_EPOCH};

/// A reader as a source. Each error of the reader is a fault, an interrupted call too.
#[derive(Drop)]
pub struct ReadSource<R> {
    reader: R,
    pub taken: u64,
    pub at_end: bool,
    pub faults: Count,
    /// The error that was counted last.
    pub last: Option<Error>,
}

impl<R> ReadSource<R> {
    /// A source of which nothing was taken.
    pub fn new(reader: R) -> Self
        ensures taken { result.taken ≡ 0 }
        ensures at_end { result.at_end ≡ false }
        ensures faults { result.faults.times ≡ 0 }
    {
        ReadSource {
            reader,
            taken: 0,
            at_end: false,
            faults: Count::none(),
            last: None,
        }
    }
}

impl<R: Read + Drop> Source for ReadSource<R> {
    ghost use Rattle.std.specs.Prelude.{ℕ, List, Option, None, IfOk, OnOk, OnErr, length, take};
    ghost use Rattle.rm_base.specs.Outside.{HasTaken, Counts, EndsAt, Rose};

    ghost left = { λ _. None };

    ghost taken = { λ s. s.taken };

    ghost at_end = { λ s. s.at_end };

    ghost faults = { λ s. s.faults.times };

    fn read(&mut self, buf: &mut [u8]) -> Result<usize, Failed>
        ensures bound { IfOk result (λ n. n ≤ length buf.old) }
        ensures front { IfOk result (λ n. HasTaken None None (take n buf.new)) }
        ensures count { IfOk result (λ n. Counts self.old.taken self.new.taken n) }
        ensures end { IfOk result (λ n. 0 < length buf.old → EndsAt n None self.new.at_end) }
        ensures empty { IfOk result (λ _. length buf.old ≡ 0 → self.new.at_end ≡ self.old.at_end) }

        ensures failed { OnErr result (Rose self.old.faults.times self.new.faults.times) }
        ensures failed_left { OnErr result (◌≡◌ {A = Option (List ℕ)} None None) }
        ensures failed_count { OnErr result (self.new.taken ≡ self.old.taken) }
        ensures failed_end { OnErr result (self.new.at_end ≡ self.old.at_end) }
        ensures never_falls { self.old.faults.times ≤ self.new.faults.times }

        // A fault is counted only where the call answers one.
        ensures counted { OnOk result (self.new.faults.times ≡ self.old.faults.times) }
    {
        let n = match self.reader.read(buf) {
            Ok(n) => n,
            Err(error) => {
                self.faults.rise();
                self.last = Some(error);
                return Err(Failed);
            }
        };
        self.taken = self.taken.saturating_add(n as u64);
        if !buf.is_empty() {
            self.at_end = n == 0;
        }
        Ok(n)
    }
}

/// A writer as a sink. Each error of the writer is a fault, and so is a write that takes none of
/// the bytes.
#[derive(Drop)]
pub struct WriteSink<W> {
    writer: W,
    pub faults: Count,
    /// The error that was counted last.
    pub last: Option<Error>,
}

impl<W> WriteSink<W> {
    /// A sink that has not failed.
    pub fn new(writer: W) -> Self
        ensures { result.faults.times ≡ 0 }
    {
        WriteSink {
            writer,
            faults: Count::none(),
            last: None,
        }
    }
}

impl<W: Write + Drop> Sink for WriteSink<W> {
    ghost use Rattle.std.specs.Prelude.{ℕ, List, Option, None, IfOk, OnOk, OnErr, length, take};
    ghost use Rattle.rm_base.specs.Outside.{Appends, Rose};

    ghost contents = { λ _. None };

    ghost faults = { λ s. s.faults.times };

    fn write(&mut self, bytes: &[u8]) -> Result<usize, Failed>
        ensures bound { IfOk result (λ n. n ≤ length bytes.now) }
        ensures grows { IfOk result (λ n. Appends None None (take n bytes.now)) }
        ensures zero { IfOk result (λ n. n ≡ 0 → 0 < length bytes.now → Rose self.old.faults.times self.new.faults.times) }

        ensures failed { OnErr result (Rose self.old.faults.times self.new.faults.times) }
        ensures failed_contents { OnErr result (◌≡◌ {A = Option (List ℕ)} None None) }
        ensures never_falls { self.old.faults.times ≤ self.new.faults.times }

        // A fault is counted only where the call answers one.
        ensures counted { OnOk result (self.new.faults.times ≡ self.old.faults.times) }
    {
        let error = match self.writer.write(bytes) {
            Ok(n) if n > 0 || bytes.is_empty() => return Ok(n),
            Ok(_) => Error::from(ErrorKind::WriteZero),
            Err(error) => error,
        };
        self.faults.rise();
        self.last = Some(error);
        Err(Failed)
    }
}

/// The machine's clock, in whole seconds since 1970-01-01 UTC. Where it can't be read it repeats its
/// last answer, which is 0 at first.
#[derive(Drop)]
pub struct SystemClock<'a> {
    rt: &'a HostRuntime,
    last: u64,
    asked: Count,
}

impl<'a> SystemClock<'a> {
    /// A clock that was not asked.
    pub fn new(rt: &'a HostRuntime) -> Self {
        SystemClock {
            rt,
            last: 0,
            asked: Count::none(),
        }
    }
}

impl Clock for SystemClock<'_> {
    ghost use Rattle.std.specs.Prelude.{None};

    ghost answers = { λ _. None };

    ghost asked = { λ c. c.asked.times };

    fn now(&mut self) -> u64 {
        self.asked.rise();
        if let Ok(now) = SystemTime::now(self.rt) {
            if let Ok(since) = now.duration_since(UNIX_EPOCH) {
                self.last = since.as_secs();
            }
        }
        self.last
    }
}
