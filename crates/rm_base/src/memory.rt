//! A source and a sink in memory, whose calls fail as their maker says.
ghost use Rattle.std.specs.{Prelude.{◌≡◌, ◌↔◌, ◌<◌, ◌≤◌, [], length, IsTrue}, Vec.{vec_capacity}};

use crate::count::Count;
use crate::faults::{Failed, NoMemory};
use crate::outside::{Sink, Source};
use std::alloc::Global;

/// The calls that are to fail, by their numbers, and how many were made and have failed. The first
/// call has number 1; past 2^64 - 1 each call has this number.
#[derive(Drop)]
pub struct Failing {
    numbers: Vec<u64>,
    calls: u64,
    faults: Count,
}

impl Failing {
    ghost use Rattle.rm_base.specs.Failing.{numbers_of, calls_of, faults_of, FailsNext, with_fault, after_call};

    /// The calls that are to fail, by their numbers.
    pub fn new(numbers: Vec<u64>) -> Self
        ensures numbers { numbers_of result ≡ numbers.items }
        ensures calls { calls_of result ≡ 0 }
        ensures faults { faults_of result ≡ 0 }
    {
        Failing {
            numbers,
            calls: 0,
            faults: Count::none(),
        }
    }

    /// Counts a call, and says whether it is to fail.
    pub fn fails(&mut self) -> bool
        ensures failed { IsTrue result ↔ FailsNext self.old }
        ensures after { self.new ≡ after_call self.old result }
        ensures never_falls { faults_of self.old ≤ faults_of self.new }
    {
        self.calls = self.calls.saturating_add(1);
        let fails = self.numbers.contains(&self.calls);
        if fails {
            self.count();
        }
        fails
    }

    // Counts a fault.
    fn count(&mut self)
        ensures after { self.new ≡ with_fault self.old }
        ensures never_falls { faults_of self.old ≤ faults_of self.new }
    {
        self.faults.rise();
    }
}

/// Bytes in memory, of which one call takes at most so many.
#[derive(Drop)]
pub struct MemSource {
    bytes: Vec<u8>,
    at: usize,
    most: usize,
    ended: bool,
    failing: Failing,
    ghost within: { at ≤ length bytes.items },
    ghost moves: { 0 < most },
}

impl MemSource {
    ghost use Rattle.rm_base.specs.MemSource.{left_of, most_of, failing_of};

    /// A source of these bytes. One call takes at most `most` of them.
    pub fn new(bytes: Vec<u8>, most: usize, failing: Failing) -> Self
        requires { 0 < most }
        ensures left { left_of result ≡ bytes.items }
        ensures most { most_of result ≡ most }
        ensures failing { failing_of result ≡ failing }
    {
        MemSource {
            bytes,
            at: 0,
            most,
            ended: false,
            failing,
        }
    }
}

impl Source for MemSource {
    ghost use Rattle.std.specs.Prelude.{Some, IfOk, OnOk, OnErr, IsErr, is_err, take, true, false};
    ghost use Rattle.rm_base.specs.{Outside.{HasTaken, Counts, EndsAt, Rose}, MemSource.{left_of, most_of, failing_of, takes}};
    ghost use Rattle.rm_base.specs.Failing.{faults_of, FailsNext, after_call};

    ghost left = { λ m. Some (left_of m) };

    ghost taken = { λ m. m.at };

    ghost at_end = { λ m. m.ended };

    ghost faults = { λ m. faults_of (failing_of m) };

    fn read(&mut self, buf: &mut [u8]) -> Result<usize, Failed>
        ensures bound { IfOk result (λ n. n ≤ length buf.old) }
        ensures front { IfOk result (λ n. HasTaken (Some (left_of self.old)) (Some (left_of self.new)) (take n buf.new)) }
        ensures count { IfOk result (λ n. Counts self.old.at self.new.at n) }
        ensures end { IfOk result (λ n. 0 < length buf.old → EndsAt n (Some (left_of self.old)) self.new.ended) }
        ensures empty { IfOk result (λ _. length buf.old ≡ 0 → self.new.ended ≡ self.old.ended) }

        ensures failed { OnErr result (Rose (faults_of (failing_of self.old)) (faults_of (failing_of self.new))) }
        ensures failed_left { OnErr result (Some (left_of self.new) ≡ Some (left_of self.old)) }
        ensures failed_count { OnErr result (self.new.at ≡ self.old.at) }
        ensures failed_end { OnErr result (self.new.ended ≡ self.old.ended) }
        ensures never_falls { faults_of (failing_of self.old) ≤ faults_of (failing_of self.new) }

        // Which call fails, and how many bytes each other one takes.
        ensures fails { IsErr result ↔ FailsNext (failing_of self.old) }
        ensures takes { IfOk result (λ n. n ≡ takes self.old buf.old) }
        ensures calls { failing_of self.new ≡ after_call (failing_of self.old) (is_err result) }
        ensures most { most_of self.new ≡ most_of self.old }
    {
        if self.failing.fails() {
            return Err(Failed);
        }
        let left = self.bytes.len() - self.at;
        let n = left.min(buf.len()).min(self.most);
        buf[..n].copy_from_slice(&self.bytes[self.at..self.at + n]);
        self.at += n;
        if !buf.is_empty() {
            self.ended = n == 0;
        }
        Ok(n)
    }
}

/// Bytes in memory, to which one call adds at most so many. Its room is made with it; a write past
/// the room is a fault.
#[derive(Drop)]
pub struct MemSink {
    bytes: Vec<u8>,
    room: usize,
    most: usize,
    failing: Failing,
    ghost within: { length bytes.items ≤ room },
    ghost reserved: { room ≤ vec_capacity bytes },
    ghost moves: { 0 < most },
}

impl MemSink {
    ghost use Rattle.std.specs.Prelude.{IfOk};
    ghost use Rattle.rm_base.specs.MemSink.{written_to, room_of, most_of, failing_of};

    /// A sink with room for so many bytes. One call adds at most `most` of them.
    pub fn new(alloc: Global, room: usize, most: usize, failing: Failing) -> Result<Self, NoMemory>
        requires { 0 < most }
        ensures written { IfOk result (λ sink. written_to sink ≡ []) }
        ensures room { IfOk result (λ sink. room_of sink ≡ room) }
        ensures most { IfOk result (λ sink. most_of sink ≡ most) }
        ensures failing { IfOk result (λ sink. failing_of sink ≡ failing) }
    {
        Ok(MemSink {
            bytes: Vec::with_capacity(alloc, room)?,
            room,
            most,
            failing,
        })
    }

    /// What was written.
    pub fn bytes(&self) -> &[u8]
        ensures { result.now ≡ written_to self.now }
    {
        &self.bytes
    }
}

impl Sink for MemSink {
    ghost use Rattle.std.specs.Prelude.{Some, IfOk, OnErr, IsErr, take};
    ghost use Rattle.rm_base.specs.{Outside.{Appends, Rose}, MemSink.{written_to, room_of, most_of, failing_of, Fails, adds}};
    ghost use Rattle.rm_base.specs.Failing.{faults_of, numbers_of, calls_of, next};

    ghost contents = { λ m. Some (written_to m) };

    ghost faults = { λ m. faults_of (failing_of m) };

    fn write(&mut self, bytes: &[u8]) -> Result<usize, Failed>
        ensures bound { IfOk result (λ n. n ≤ length bytes.now) }
        ensures grows { IfOk result (λ n. Appends (Some (written_to self.old)) (Some (written_to self.new)) (take n bytes.now)) }
        ensures zero { IfOk result (λ n. n ≡ 0 → 0 < length bytes.now → Rose (faults_of (failing_of self.old)) (faults_of (failing_of self.new))) }

        ensures failed { OnErr result (Rose (faults_of (failing_of self.old)) (faults_of (failing_of self.new))) }
        ensures failed_contents { OnErr result (Some (written_to self.new) ≡ Some (written_to self.old)) }
        ensures never_falls { faults_of (failing_of self.old) ≤ faults_of (failing_of self.new) }

        // Which call fails, and how many bytes each other one adds.
        ensures fails { IsErr result ↔ Fails self.old bytes.now }
        ensures adds { IfOk result (λ n. n ≡ adds self.old bytes.now) }
        ensures calls { calls_of (failing_of self.new) ≡ next (calls_of (failing_of self.old)) }
        ensures numbers { numbers_of (failing_of self.new) ≡ numbers_of (failing_of self.old) }
        ensures faults { IfOk result (λ _. faults_of (failing_of self.new) ≡ faults_of (failing_of self.old)) }
        ensures room { room_of self.new ≡ room_of self.old }
        ensures most { most_of self.new ≡ most_of self.old }
    {
        if self.failing.fails() {
            return Err(Failed);
        }
        let room = self.room - self.bytes.len();
        let n = bytes.len().min(self.most).min(room);
        if n == 0 && !bytes.is_empty() {
            self.failing.count();
            return Err(Failed);
        }
        if self.bytes.extend_from_slice(&bytes[..n]).is_err() {
            unreachable!()
        }
        Ok(n)
    }
}
