//! A source, a sink and a clock in memory, and calls that fail by their numbers.
use rm_base::{Clock, Failing, MemClock, MemSink, MemSource, NoMemory, Sink, Source};
use rm_test_harness::Fault;
use std::alloc::Global;

/// The calls of these numbers fail.
pub fn failing(alloc: Global, numbers: &[u64]) -> Result<Failing, NoMemory> {
    Ok(Failing::new(Vec::from_slice(alloc, numbers)?))
}

// Reads six times, and tells each answer: 99 for a failure.
fn answers<S: Source>(alloc: Global, source: &mut S) -> Result<Vec<usize>, Fault> {
    let mut answers = Vec::new(alloc);
    let mut buf = [0u8; 4];
    for _ in 0..6 {
        answers.push(source.read(&mut buf).unwrap_or(99))?;
    }
    Ok(answers)
}

/// A source fails in mid-stream, and at its end leaves the buffer as it was.
pub fn a_source_fails(alloc: Global) -> Result<bool, Fault> {
    let bytes = Vec::from_slice(alloc, b"0123456789")?;
    let mut source = MemSource::new(bytes, 3, failing(alloc, &[2, 4])?);
    let answers = answers(alloc, &mut source)?;
    let mut buf = [7u8; 4];
    let is_at_end = source.read(&mut buf) == Ok(0) && buf == [7; 4];
    Ok(is_at_end && answers.as_slice() == [3, 99, 3, 99, 3, 1].as_slice())
}

/// A source gives the front of what is left.
pub fn a_source(alloc: Global) -> Result<bool, Fault> {
    let bytes = Vec::from_slice(alloc, b"abcdef")?;
    let mut source = MemSource::new(bytes, 100, failing(alloc, &[])?);
    let mut buf = [0u8; 4];
    let is_none = source.read(&mut []) == Ok(0);
    let is_first = source.read(&mut buf) == Ok(4) && buf == *b"abcd";
    let is_second = source.read(&mut buf) == Ok(2) && buf == *b"efcd";
    Ok(is_none && is_first && is_second)
}

// Writes the bytes five times, and tells each answer: 99 for a failure.
fn writes<K: Sink>(alloc: Global, sink: &mut K, bytes: &[u8]) -> Result<Vec<usize>, Fault> {
    let mut answers = Vec::new(alloc);
    for _ in 0..5 {
        answers.push(sink.write(bytes).unwrap_or(99))?;
    }
    Ok(answers)
}

/// A sink fails in mid-stream, and past its room.
pub fn a_sink_fails(alloc: Global) -> Result<bool, Fault> {
    let mut sink = MemSink::new(alloc, 8, 3, failing(alloc, &[2])?)?;
    let answers = writes(alloc, &mut sink, b"abcd")?;
    let is_told = answers.as_slice() == [3, 99, 3, 2, 99].as_slice();
    let is_written = sink.bytes() == b"abcabcab".as_slice();
    Ok(is_told && is_written && sink.write(b"") == Ok(0))
}

// Three answers of the clock.
fn three_of<C: Clock>(clock: &mut C) -> [u64; 3] {
    let first = clock.now();
    let second = clock.now();
    [first, second, clock.now()]
}

/// A clock repeats its last answer.
pub fn a_clock(alloc: Global) -> Result<bool, Fault> {
    let mut clock = MemClock::new(Vec::from_slice(alloc, &[7u64, 5])?);
    let mut silent = MemClock::new(Vec::new(alloc));
    Ok(three_of(&mut clock) == [7, 5, 5] && three_of(&mut silent) == [0, 0, 0])
}
