//! Two sessions over a catalog in a table of sqlite, in memory, which tells what it accepted.
use rm_base::{Failing, MemClock, MemSink, MemSource, MemStore, NoMemory, StoreFailing, Text};
use rm_catalog::Keeper;
use rm_keeper_sql::ToldKeeper;
use rm_tool::OpenGate;
use rm_tool::run::run;
use std::alloc::Global;
use std::sync::Wait;
use std::thread::Threads;

const FIRST: &[u8] =
    b"CREATE DATABASE; CREATE DATAFILE BLOCKS 4; WRITE DATAFILE 1 BLOCK 0 VALUE 'AA'; WRITE DATAFILE 1 BLOCK 0 VALUE 'BB';";

const SECOND: &[u8] = b"RECOVER DATABASE UNTIL SCN 4 TEST;";

const ANSWER: &[u8] =
    b"until 4 of incarnation 1: files 1\ndatafile 1: 4 blocks, 1 written\nblock 0 version 3 value 4242\n";

fn never(alloc: Global) -> Failing {
    Failing::new(Vec::new(alloc))
}

fn store(alloc: Global) -> MemStore {
    let failing = StoreFailing {
        gets: never(alloc),
        puts: never(alloc),
        removes: never(alloc),
        names: never(alloc),
    };
    MemStore::new(alloc, failing)
}

// The words of a session.
fn words(alloc: Global) -> Result<Vec<Text>, NoMemory> {
    let mut words = Vec::new(alloc);
    for word in ["--store", "DIR", "--catalog", "FILE"] {
        words.push(Text::from_string(String::from_str(alloc, word)?))?;
    }
    Ok(words)
}

// A sink for what a session writes.
fn sink(alloc: Global) -> Result<MemSink, NoMemory> {
    MemSink::new(alloc, 4096, 16, never(alloc))
}

// The status of a session of this script.
fn session<R: Threads + Wait + Sync, C: Keeper>(
    rt: &R,
    alloc: Global,
    script: &[u8],
    sink: &mut MemSink,
    store: &mut MemStore,
    keeper: &mut C,
) -> Result<u8, NoMemory> {
    let mut source = MemSource::new(Vec::from_slice(alloc, script)?, 64, never(alloc));
    let words = words(alloc)?;
    let mut clock = MemClock::new(Vec::new(alloc));
    Ok(run(
        rt,
        alloc,
        &OpenGate,
        &words,
        &mut source,
        sink,
        store,
        keeper,
        &mut clock,
    ))
}

// It stands over any keeper, so that its proof does not look into a connection.
fn sessions<R: Threads + Wait + Sync, C: Keeper>(
    rt: &R,
    alloc: Global,
    keeper: &mut C,
) -> Result<bool, NoMemory> {
    let mut store = store(alloc);
    let first = session(rt, alloc, FIRST, &mut sink(alloc)?, &mut store, keeper)?;
    let mut sink = sink(alloc)?;
    let second = session(rt, alloc, SECOND, &mut sink, &mut store, keeper)?;
    Ok(first == 0 && second == 0 && sink.bytes() == ANSWER)
}

/// The second session finds in the table what the first saved, and answers the same.
pub fn two_sessions<R: Threads + Wait + Sync>(rt: &R, alloc: Global) -> Result<bool, NoMemory> {
    sessions(rt, alloc, &mut ToldKeeper::in_memory(alloc)?)
}
