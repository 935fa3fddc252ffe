//! Runs the worked rows of `data/` through the program's `run`, over objects in memory, and prints a line
//! for each: its name and `ok`, or the first thing that differs. Behind them it tries the sources and the sinks of rm_tool,
//! and runs that no row can show, each with a line.
//!
//! A row is a file `NAME.row`, read from above:
//!
//! | Line | Says |
//! |---|---|
//! | `> TEXT` | a line of the script |
//! | `# TEXT`, or nothing | a word for the reader |
//! | `-- status N` | what stands above is run: the status is N, and all lines below are written |
//! | any other | a line that is written, below the statement that it answers; a `?` is any digit |
//!
//! `-- status N lines M` and `-- status N bytes M` say that only so much of the lines is written. Each run
//! begins with empty stores and without records. Other lines with `--`:
//!
//! | Line | Says |
//! |---|---|
//! | `-- fail CALL N ..` | in the next run these calls fail, counted from 1: `read`, `write`, `get`, `put`, `remove`, `names`, `load` or `apply` |
//! | `-- room N` | in the next run the sink has room for N bytes |
//! | `-- most N` | in the next run one call of the sink takes at most N bytes |
//! | `-- clock N ..` | the clock's answers, of which the last is repeated |
//! | `-- words WORD ..` | the program's words, which else are `--store DIR --catalog FILE` |
//! | `-- channels N` | the words `--channels N` follow the others |
//! | `-- session` | another script begins, over the stores and the records that the last run left, whose calls go on to count |
//! | `-- store NAME` | from here on runs go over the store of this name, which at first is `a`, and so do the lines below of objects |
//! | `-- database N` | and over the records of this number, which at first is 0 |
//! | `-- duplicate NAME WORD ..` | the next run is RMAN DUPLICATE with these words, from the store at hand into the store NAME |
//! | `-- standby NAME WORD ..` | the next run is one of a standby with these words, of the store at hand in the store NAME |
//! | `-- record KIND ID HEX ..` | the number at hand has this record, of these fields |
//! | `-- drop KIND ID` | it has no record of this key |
//! | `-- put NAME HEX ..` | the store that the last run left has an object of this name and of these bytes |
//! | `-- object NAME N HEX` | the last run left an object of this name of N bytes, which begin so |
#![tactic(auto)]

mod broken;
mod calls;
mod channels;
mod digits;
mod ends;
mod full_log;
mod over_sqlite;
mod resyncs;
mod row;
mod runs;
mod site;
mod trial;

use rm_test_harness::{Fault, tell};
use row::Row;
use std::alloc::Global;
use std::path::Path;
use std::process::ExitCode;
use std::sync::Wait;
use std::thread::Threads;
use std::{fs, io};

// The names of the files of rows, ascending.
fn names(rt: &HostRuntime) -> io::Result<Vec<String>> {
    let mut names = Vec::new(rt.alloc());
    for entry in Path::new(".").read_dir(rt)? {
        let entry = entry?;
        if let Some(name) = entry.file_name().strip_suffix(".row") {
            names.push(String::from_str(rt.alloc(), name)?)?;
        }
    }
    names.sort()?;
    Ok(names)
}

// What the row of this text comes to, in words.
fn outcome<R: Threads + Wait + Sync>(rt: &R, alloc: Global, text: &str) -> Result<String, Fault> {
    let mut row = Row::new(alloc)?;
    let mut number = 0u64;
    for line in text.lines() {
        number = number.saturating_add(1);
        match row.read(rt, line) {
            Ok(()) => {}
            Err(Fault::Differs(what)) => return Ok(format!(in alloc; "line {number}: {what}")?),
            Err(Fault::NoMemory) => return Err(Fault::NoMemory),
        }
    }
    Ok(String::from_str(alloc, "ok")?)
}

// Runs each row, with threads by the second handle, and tells whether memory was there for all.
fn tell_rows<R: Threads + Wait + Sync>(rt: &HostRuntime, threads: &R) -> io::Result<bool> {
    for name in &names(rt)? {
        let file = format!(in rt.alloc(); "{name}.row")?;
        let text = fs::read_to_string(rt, file.as_str())?;
        let Ok(outcome) = outcome(threads, rt.alloc(), text.as_str()) else {
            return Ok(false);
        };
        println!(rt; "{name} {outcome}")?;
    }
    Ok(true)
}

fn tell_ends(rt: &HostRuntime) -> io::Result<()> {
    let alloc = rt.alloc();
    tell(rt, "a source in pieces", ends::a_source(alloc))?;
    tell(rt, "a source fails", ends::a_source_fails(alloc))?;
    tell(rt, "the longest script", ends::longest(alloc))?;
    tell(rt, "a sink past its room", ends::a_sink(alloc))?;
    tell(rt, "a reader is a source", ends::a_reader(alloc))?;
    tell(rt, "a writer is a sink", ends::a_writer(alloc))
}

fn tell_runs<R: Threads + Wait + Sync>(rt: &HostRuntime, threads: &R) -> io::Result<()> {
    let alloc = rt.alloc();
    tell(rt, "gate-holds-section", channels::held(threads, alloc))?;
    tell(rt, "how many channels", channels::counted(threads, alloc))?;
    tell(rt, "how many blocks", channels::tracked(threads, alloc))?;
    tell(rt, "a script too long", runs::too_long(threads, alloc))?;
    tell(rt, "a full log", full_log::full(threads, alloc))?;
    tell(
        rt,
        "two-sessions over sqlite",
        over_sqlite::two_sessions(threads, alloc),
    )
}

fn tell_resyncs(rt: &HostRuntime) -> io::Result<()> {
    let alloc = rt.alloc();
    tell(rt, "a resync", resyncs::done(alloc))?;
    tell(rt, "a resync of equal records", resyncs::equal(alloc))?;
    tell(rt, "a resync with bad words", resyncs::bad_words(alloc))?;
    tell(rt, "a resync that is not told", resyncs::untold(alloc))?;
    tell(rt, "a resync of keepers that fail", resyncs::failed(alloc))
}

fn main(rt: HostRuntime) -> io::Result<ExitCode> {
    if !tell_rows(&rt, &rt)? {
        return Ok(ExitCode::from(7));
    }
    tell_ends(&rt)?;
    tell_runs(&rt, &rt)?;
    tell_resyncs(&rt)?;
    Ok(ExitCode::SUCCESS)
}
