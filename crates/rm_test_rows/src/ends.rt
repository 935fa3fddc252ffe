//! Sources and sinks to their end, at the limit of a script, and failing in mid-stream.
use crate::broken::Broken;
use rm_base::{Failed, Failing, MemSink, MemSource, NoMemory, Sink, Source};
use rm_tool::ends::{MOST_SCRIPT_BYTES, ReadFault, read_all};
use rm_tool::{ReadSource, WriteSink};
use rm_tool_ends::write_all;
use std::alloc::Global;
use std::io::Cursor;

const SCRIPT: &[u8] = b"CREATE DATABASE;";

// Whether the source is read as the script.
fn is_read<S: Source>(alloc: Global, source: &mut S) -> bool {
    match read_all(alloc, source) {
        Ok(script) => script.as_slice() == SCRIPT,
        Err(_) => false,
    }
}

// The script in pieces of three bytes, of whose reads that of this number fails.
fn source(alloc: Global, failing: u64) -> Result<MemSource, NoMemory> {
    let failing = Failing::new(vec![in alloc; failing]?);
    Ok(MemSource::new(Vec::from_slice(alloc, SCRIPT)?, 3, failing))
}

/// A source is read in pieces.
pub fn a_source(alloc: Global) -> Result<bool, NoMemory> {
    Ok(is_read(alloc, &mut source(alloc, 0)?))
}

/// A source fails in mid-stream.
pub fn a_source_fails(alloc: Global) -> Result<bool, NoMemory> {
    let fault = read_all(alloc, &mut source(alloc, 3)?).err();
    Ok(fault == Some(ReadFault::Failed))
}

// How many bytes are read of a script of so many blanks.
fn read_len(alloc: Global, len: usize) -> Result<Result<usize, ReadFault>, NoMemory> {
    let blanks = Vec::from_elem(alloc, b' ', len)?;
    let mut source = MemSource::new(blanks, 4096, Failing::new(Vec::new(alloc)));
    Ok(read_all(alloc, &mut source).map(|script| script.len()))
}

/// The longest script is read, and nothing longer.
pub fn longest(alloc: Global) -> Result<bool, NoMemory> {
    let is_read = read_len(alloc, MOST_SCRIPT_BYTES)? == Ok(MOST_SCRIPT_BYTES);
    Ok(is_read && read_len(alloc, MOST_SCRIPT_BYTES + 1)? == Err(ReadFault::TooLong))
}

/// A sink takes all, and fails past its room.
pub fn a_sink(alloc: Global) -> Result<bool, NoMemory> {
    let mut sink = MemSink::new(alloc, 10, 4, Failing::new(Vec::new(alloc)))?;
    let first = write_all(&mut sink, b"scn 2\n");
    let second = write_all(&mut sink, b"scn 3\n");
    let is_written = sink.bytes() == b"scn 2\nscn ".as_slice();
    Ok(first == Ok(()) && second == Err(Failed) && is_written)
}

/// A reader is a source, and one that fails leaves the buffer as it was.
pub fn a_reader(alloc: Global) -> Result<bool, NoMemory> {
    let is_whole = is_read(alloc, &mut ReadSource::new(Cursor::new("CREATE DATABASE;")));
    let mut broken = ReadSource::new(Broken { calls: 0 });
    let fault = read_all(alloc, &mut broken).err();
    let mut buf = [7u8; 4];
    let is_at_end = broken.read(&mut buf) == Ok(0) && buf == [7; 4];
    Ok(is_whole && fault == Some(ReadFault::Failed) && is_at_end)
}

/// A writer is a sink.
pub fn a_writer(alloc: Global) -> Result<bool, NoMemory> {
    let mut written = Vec::new(alloc);
    let mut sink = WriteSink::new(&mut written);
    let is_taken = write_all(&mut sink, b"scn 2\n") == Ok(()) && sink.write(b"") == Ok(0);
    let is_written = written.as_slice() == b"scn 2\n".as_slice();
    let mut broken = WriteSink::new(Broken { calls: 0 });
    let first = broken.write(b"scn 2\n");
    let others = [broken.write(b" 2\n"), broken.write(b" 2\n")];
    Ok(is_taken && is_written && first == Ok(3) && others == [Err(Failed), Err(Failed)])
}
