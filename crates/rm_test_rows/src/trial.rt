//! One run of the program, and whether it gives what a row says.
use crate::calls::{Call, Calls};
use rm_base::{MemClock, MemSink, MemSource, MemStore, Store, Text};
use rm_shelf::{Desk, MemShelf};
use rm_test_harness::Fault;
use rm_tool::OpenGate;
use rm_tool::run::run;
use rm_tool_duplicate::run_duplicate;
use rm_tool_standby::run_standby;
use std::alloc::Global;
use std::sync::Wait;
use std::thread::Threads;

/// The room of a sink, where a row names no other.
pub const ROOM: usize = 65_536;

/// The most bytes that one call of a sink takes, where a row names no other number.
pub const MOST: usize = 16;

/// What a run is given, beside its stores and its records.
#[derive(Drop)]
pub struct Trial<'a> {
    pub alloc: Global,
    pub words: &'a [Text],
    pub script: &'a [u8],
    pub clock: &'a [u64],
    pub failing: &'a Calls,
    pub room: usize,
    pub most: usize,
}

impl Trial<'_> {
    // The sink of the run.
    fn sink(&self) -> Result<MemSink, Fault> {
        let failing = self.failing.of(Call::Write)?;
        Ok(MemSink::new(self.alloc, self.room, self.most.max(1), failing)?)
    }

    /// A run over this store and the records of this number gives this status and writes the first `len` bytes of the text.
    /// The shelf is handed back.
    pub fn gives<R: Threads + Wait + Sync>(
        &self,
        rt: &R,
        store: &mut MemStore,
        shelf: MemShelf,
        number: u32,
        wanted: &Wanted<'_>,
    ) -> Result<MemShelf, Fault> {
        let alloc = self.alloc;
        let script = Vec::from_slice(alloc, self.script)?;
        let mut source = MemSource::new(script, 64, self.failing.of(Call::Read)?);
        let mut sink = self.sink()?;
        let mut clock = MemClock::new(Vec::from_slice(alloc, self.clock)?);
        let mut desk: Desk<MemShelf> = Desk::new(shelf, number);
        let answer = run(
            rt,
            alloc,
            &OpenGate,
            self.words,
            &mut source,
            &mut sink,
            store,
            &mut desk,
            &mut clock,
        );
        wanted.met(alloc, answer, sink.bytes())?;
        Ok(desk.close())
    }

    /// A duplicate from this store into the other one gives this status and writes the first `len` bytes of the text. The
    /// shelf is handed back.
    pub fn duplicates<R: Threads + Wait + Sync>(
        &self,
        rt: &R,
        from: &mut MemStore,
        to: &mut MemStore,
        shelf: MemShelf,
        wanted: &Wanted<'_>,
    ) -> Result<MemShelf, Fault> {
        let mut sink = self.sink()?;
        let (answer, shelf) = run_duplicate(rt, self.alloc, self.words, &mut sink, from, to, shelf);
        wanted.met(self.alloc, answer, sink.bytes())?;
        Ok(shelf)
    }

    /// A run of a standby of the database of this number and this store, in the other store, gives this status and writes the
    /// first `len` bytes of the text. The shelf is handed back.
    pub fn stands<R: Threads + Wait + Sync>(
        &self,
        rt: &R,
        from: &mut MemStore,
        to: &mut MemStore,
        shelf: MemShelf,
        number: u32,
        wanted: &Wanted<'_>,
    ) -> Result<MemShelf, Fault> {
        let mut sink = self.sink()?;
        let mut desk: Desk<MemShelf> = Desk::new(shelf, number);
        let answer = run_standby(rt, self.alloc, self.words, &mut sink, from, to, &mut desk);
        wanted.met(self.alloc, answer, sink.bytes())?;
        Ok(desk.close())
    }
}

/// The status of a run, and the first `len` bytes of what it writes.
#[derive(Clone, Copy)]
pub struct Wanted<'a> {
    pub status: u64,
    pub text: &'a str,
    pub len: usize,
}

impl Wanted<'_> {
    // The run answered this and wrote this.
    fn met(&self, alloc: Global, answer: u8, written: &[u8]) -> Result<(), Fault> {
        if u64::from(answer) != self.status {
            return Err(Fault::Differs(format!(in alloc; "status {answer}")?));
        }
        compare(alloc, written, self.text, self.len)
    }
}

// Whether the byte is the one that is wanted. A `?` wants any digit.
fn is_wanted(byte: u8, wanted: u8) -> bool {
    byte == wanted || (wanted == b'?' && byte.is_ascii_digit())
}

// Whether the bytes are these.
fn are_wanted(bytes: &[u8], wanted: &[u8]) -> bool {
    let mut pairs = bytes.iter().zip(wanted);
    bytes.len() == wanted.len() && pairs.all(|(byte, wanted)| is_wanted(*byte, *wanted))
}

// The bytes are the first `len` of the text. Else they are told, from the first line that differs.
fn compare(alloc: Global, bytes: &[u8], text: &str, len: usize) -> Result<(), Fault> {
    let text = text.as_bytes();
    if are_wanted(bytes, text.get(..len).unwrap_or(text)) {
        return Ok(());
    }
    let mut start = 0usize;
    for (at, (byte, wanted)) in bytes.iter().zip(text).enumerate() {
        if !is_wanted(*byte, *wanted) {
            break;
        }
        if *byte == b'\n' {
            start = at.saturating_add(1);
        }
    }
    let other = String::from_utf8_lossy(alloc, bytes.get(start..).unwrap_or(&[]))?;
    let written = bytes.len();
    Err(Fault::Differs(format!(in alloc; "wrote {written} bytes, and here {other}")?))
}

/// The store has an object of this name of `len` bytes, which begin with these digits.
pub fn object(
    alloc: Global,
    store: &mut MemStore,
    name: &str,
    len: usize,
    head: &str,
) -> Result<(), Fault> {
    let mut digits = String::new(alloc);
    let mut bytes_there = 0;
    if let Ok(Some(bytes)) = store.get(name) {
        bytes_there = bytes.len();
        for byte in bytes.as_slice() {
            write!(digits, "{byte:02x}")?;
        }
    }
    if bytes_there == len && digits.as_str().starts_with(head) {
        return Ok(());
    }
    Err(Fault::Differs(format!(in alloc; "{bytes_there} bytes {digits}")?))
}
