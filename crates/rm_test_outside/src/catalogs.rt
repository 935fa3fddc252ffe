//! Records that go into a catalog and come back, and files that are no catalog.
use crate::files::{Catalogs, Fails};
use crate::made;
use crate::steps::{beside, words};
use rm_base::{NoMemory, Policy};
use rm_catalog::{Edit, Keeper, KeeperFail, Key, Record};
use rm_catalog_bytes::encode_record;
use std::io;

/// What came of a call.
pub fn word_of<T: Drop>(done: Result<T, KeeperFail>) -> &'static str {
    match done {
        Ok(_) => "done",
        Err(KeeperFail::Failed) => "failed",
        Err(KeeperFail::NoMemory) => "no memory",
    }
}

// Whether there was a fault, in words.
fn fault_of(has_failed: bool) -> &'static str {
    if has_failed { "a fault" } else { "no fault" }
}

/// Applies the edits.
pub fn apply<K: Keeper>(
    keeper: &mut K,
    edits: Result<Vec<Edit>, NoMemory>,
) -> Result<(), KeeperFail> {
    match edits {
        Ok(edits) => keeper.apply(&edits),
        Err(_) => Err(KeeperFail::NoMemory),
    }
}

/// Ends a line with the bytes.
pub fn tell_bytes(rt: &HostRuntime, bytes: &[u8]) -> io::Result<()> {
    for byte in bytes {
        rt.print(format_args!("{byte:02x}"))?;
    }
    rt.println("")
}

// A line of the kind, the id, and the bytes.
fn tell_record(rt: &HostRuntime, row: &Record) -> io::Result<()> {
    let Ok(bytes) = encode_record(rt.alloc(), row) else {
        return rt.println("no memory");
    };
    let key = row.key();
    rt.print(format_args!("{} {} ", key.kind, key.id))?;
    tell_bytes(rt, bytes.as_slice())
}

fn tell_all<K: Keeper>(rt: &HostRuntime, keeper: &mut K) -> io::Result<()> {
    let Ok(records) = keeper.load() else {
        return rt.println("no records");
    };
    for row in records.as_slice() {
        tell_record(rt, row)?;
    }
    Ok(())
}

// Drops a piece.
fn drop_piece<K: Keeper>(rt: &HostRuntime, keeper: &mut K, id: &str) -> io::Result<()> {
    let key = Key {
        kind: 5,
        id: id.parse::<u32>().unwrap_or(0),
    };
    let word = word_of(keeper.apply(&[Edit::Drop(key)]));
    rt.println(format_args!("drop {id} {word}"))
}

/// Whether a keeper has failed.
pub fn tell_fault<K: Fails>(rt: &HostRuntime, keeper: &K) -> io::Result<()> {
    rt.println(fault_of(keeper.has_failed()))
}

// A keeper that is opened while another one has the file open.
fn second<M: Catalogs>(rt: &HostRuntime, machine: &M, path: &str) -> io::Result<()> {
    let mut other = machine.open_catalog(path);
    rt.println(format_args!("beside it {}", word_of(other.load())))?;
    tell_fault(rt, &other)?;
    rt.println(word_of(machine.close_catalog(other)))
}

fn step<M: Catalogs>(
    rt: &HostRuntime,
    machine: &M,
    keeper: &mut M::Catalog,
    line: &str,
) -> io::Result<()> {
    let (verb, name) = words(line);
    match verb {
        "apply" => rt.println(word_of(apply(keeper, made::edits(rt.alloc(), name)))),
        "read" => rt.println(word_of(keeper.load())),
        "load" => tell_all(rt, keeper),
        "drop" => drop_piece(rt, keeper, name),
        "fault" => tell_fault(rt, keeper),
        "beside" => second(rt, machine, name),
        _ => beside(rt, verb, name),
    }
}

fn steps<M: Catalogs>(
    rt: &HostRuntime,
    machine: &M,
    keeper: &mut M::Catalog,
    lines: &str,
) -> io::Result<()> {
    for line in lines.lines() {
        step(rt, machine, keeper, line)?;
    }
    Ok(())
}

/// Steps over a catalog, which is closed behind them.
pub fn closed<M: Catalogs>(
    rt: &HostRuntime,
    machine: &M,
    path: &str,
    lines: &str,
) -> io::Result<()> {
    let mut keeper = machine.open_catalog(path);
    steps(rt, machine, &mut keeper, lines)?;
    rt.println(word_of(machine.close_catalog(keeper)))
}

/// Steps over a catalog, which is not closed.
pub fn unclosed<M: Catalogs>(
    rt: &HostRuntime,
    machine: &M,
    path: &str,
    lines: &str,
) -> io::Result<()> {
    steps(rt, machine, &mut machine.open_catalog(path), lines)
}

// Loads and applies, and tells what came of each call.
fn tell<M: Catalogs>(rt: &HostRuntime, machine: &M, what: &str, path: &str) -> io::Result<()> {
    let mut keeper = machine.open_catalog(path);
    let loaded = word_of(keeper.load());
    let edits = made::one(rt.alloc(), made::base(1, Policy::Nothing));
    let applied = word_of(apply(&mut keeper, edits));
    let fault = fault_of(keeper.has_failed());
    let closed = word_of(machine.close_catalog(keeper));
    rt.println(format_args!("{what}: load {loaded}, apply {applied}, {fault}, close {closed}"))
}

/// Tries each catalog: what it is called, and its path.
pub fn tables<M: Catalogs>(rt: &HostRuntime, machine: &M, lines: &str) -> io::Result<()> {
    for line in lines.lines() {
        let (what, path) = line.split_once(": ").unwrap_or((line, ""));
        tell(rt, machine, what, path)?;
    }
    Ok(())
}
