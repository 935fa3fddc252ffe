//! A log that becomes full, by WRITEs of a script.
use crate::runs::run_script;
use rm_base::{Failing, MemSink, NoMemory};
use rm_tool::OpenGate;
use std::alloc::Global;
use std::sync::Wait;
use std::thread::Threads;

const WRITE: &[u8] = b"WRITE DATAFILE 1 BLOCK 0 VALUE 'A';";

// A database, so many WRITEs, a switch, and one WRITE more.
fn script_of(alloc: Global, writes: u32) -> Result<Vec<u8>, NoMemory> {
    let mut script = Vec::from_slice(alloc, b"CREATE DATABASE; CREATE DATAFILE BLOCKS 1;")?;
    for _ in 0..writes {
        script.extend_from_slice(WRITE)?;
    }
    script.extend_from_slice(b"ALTER SYSTEM SWITCH LOGFILE;")?;
    script.extend_from_slice(WRITE)?;
    Ok(script)
}

/// A log takes 65,536 changes and no more, and after a switch there is room again.
pub fn full<R: Threads + Wait + Sync>(rt: &R, alloc: Global) -> Result<bool, NoMemory> {
    let script = script_of(alloc, 65_537)?;
    let mut sink = MemSink::new(alloc, 1_048_576, 4096, Failing::new(Vec::new(alloc)))?;
    let status = run_script(rt, alloc, &OpenGate, &[], script, &mut sink)?;
    let last =
        b"scn 65537\nRM-11: limit log records 65536\nlog 1 thread 1 sequence 1 first 1 next 65538\nscn 65538\n";
    Ok(status == 1 && sink.bytes().ends_with(last.as_slice()))
}
