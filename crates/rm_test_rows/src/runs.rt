//! Whole runs over objects in memory.
use crate::calls::Calls;
use rm_base::{Failing, MemClock, MemSink, MemSource, NoMemory, Text};
use rm_channel::Gate;
use rm_shelf::{Desk, MemShelf};
use rm_tool::OpenGate;
use rm_tool::run::run;
use std::alloc::Global;
use std::sync::Wait;
use std::thread::Threads;

fn never(alloc: Global) -> Failing {
    Failing::new(Vec::new(alloc))
}

// The words that a run needs, and more.
fn words(alloc: Global, more: &[&str]) -> Result<Vec<Text>, NoMemory> {
    let mut words = Vec::new(alloc);
    for word in ["--store", "DIR", "--catalog", "FILE"] {
        words.push(Text::from_string(String::from_str(alloc, word)?))?;
    }
    for word in more {
        words.push(Text::from_string(String::from_str(alloc, word)?))?;
    }
    Ok(words)
}

/// Runs a script over an empty site, whose channels call this gate, and gives the status.
pub fn run_script<R: Threads + Wait + Sync, G: Gate>(
    rt: &R,
    alloc: Global,
    gate: &G,
    more: &[&str],
    script: Vec<u8>,
    sink: &mut MemSink,
) -> Result<u8, NoMemory> {
    let mut source = MemSource::new(script, 64, never(alloc));
    let calls = Calls::new(alloc);
    let mut store = calls.store()?;
    let mut keeper: Desk<MemShelf> = Desk::new(calls.shelf()?, 0);
    Ok(run(
        rt,
        alloc,
        gate,
        &words(alloc, more)?,
        &mut source,
        sink,
        &mut store,
        &mut keeper,
        &mut MemClock::new(Vec::new(alloc)),
    ))
}

/// A script that is too long gives the status 8, and a line says why.
pub fn too_long<R: Threads + Wait + Sync>(rt: &R, alloc: Global) -> Result<bool, NoMemory> {
    let script = Vec::from_elem(alloc, b' ', 4_194_305)?;
    let mut sink = MemSink::new(alloc, 64, 16, never(alloc))?;
    let status = run_script(rt, alloc, &OpenGate, &[], script, &mut sink)?;
    Ok(status == 8 && sink.bytes() == b"rman: script over 4194304 bytes\n".as_slice())
}
