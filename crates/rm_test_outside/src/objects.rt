//! A directory with objects, and with files that are none.
use crate::catalogs::tell_bytes;
use crate::files::{Catalogs, Folders, Owned};
use crate::steps::{beside, run, words};
use rm_base::{Store, StoreFail};
use rm_store_dir::Last;
use std::io;

/// What came of a call.
pub fn word_of<T: Drop>(done: Result<T, StoreFail>) -> &'static str {
    match done {
        Ok(_) => "done",
        Err(StoreFail::Failed) => "failed",
        Err(StoreFail::NoMemory) => "no memory",
    }
}

fn get<D: Store>(rt: &HostRuntime, store: &mut D, name: &str) -> io::Result<()> {
    match store.get(name) {
        Ok(Some(bytes)) => {
            rt.print(format_args!("get {name} "))?;
            tell_bytes(rt, bytes.as_slice())
        }
        Ok(None) => rt.println(format_args!("get {name} nothing")),
        Err(_) => rt.println(format_args!("get {name} failed")),
    }
}

fn names<D: Store>(rt: &HostRuntime, store: &mut D) -> io::Result<()> {
    let Ok(names) = store.names() else {
        return rt.println("names failed");
    };
    for name in names.as_slice() {
        rt.println(format_args!("named {}", name.as_str()))?;
    }
    Ok(())
}

// A call of the store that only answers whether it is done.
fn call<D: Store>(rt: &HostRuntime, store: &mut D, verb: &str, name: &str) -> io::Result<()> {
    let word = match verb {
        "put" => word_of(store.put(name, name.as_bytes())),
        "bytes" => word_of(store.put(name, b"\x00\xff\r\n\x80")),
        "none" => word_of(store.put(name, b"")),
        _ => word_of(store.remove(name)),
    };
    rt.println(format_args!("{verb} {name} {word}"))
}

/// Where and why the store failed last.
pub fn tell_fault<D: Owned>(rt: &HostRuntime, store: &D) -> io::Result<()> {
    match store.fault() {
        Some(failure) => rt.println(format_args!(
            "the last fault {}: {}",
            failure.name.as_str(),
            failure.error
        )),
        None => rt.println("no fault"),
    }
}

fn tell_last(rt: &HostRuntime, last: Last) -> io::Result<()> {
    match last {
        Last::Nobody => rt.println("of nobody"),
        Last::This => rt.println("of this"),
        Last::Number(last) => rt.println(format_args!("of number {last}")),
        Last::Other(_) => rt.println("of another"),
    }
}

// Whose the directory was last, and that it is the database's of a number in a catalog from now on.
fn claim<D: Owned>(rt: &HostRuntime, store: &D, asked: &str) -> io::Result<()> {
    let (catalog, number) = words(asked);
    let number = number.parse::<u32>().unwrap_or(0);
    rt.print(format_args!("{catalog} {number}: "))?;
    tell_last(rt, store.last_used(catalog, number))?;
    store.claim(catalog, number)
}

fn step<D: Store + Owned>(rt: &HostRuntime, store: &mut D, line: &str) -> io::Result<()> {
    let (verb, name) = words(line);
    match verb {
        "get" => get(rt, store, name),
        "names" => names(rt, store),
        "put" | "bytes" | "none" | "remove" => call(rt, store, verb, name),
        "fault" => tell_fault(rt, store),
        "claim" => claim(rt, store, name),
        _ => beside(rt, verb, name),
    }
}

/// Steps over the store of a folder.
pub fn steps<M: Folders>(
    rt: &HostRuntime,
    machine: &M,
    path: &str,
    may_make: bool,
    lines: &str,
) -> io::Result<()> {
    let mut store = machine.open_folder(path, may_make)?;
    for line in lines.lines() {
        step(rt, &mut store, line)?;
    }
    Ok(())
}

/// The steps of a file while a first store has the directory, which goes on behind them.
pub fn held<M: Catalogs + Folders>(rt: &HostRuntime, machine: &M, file: &str) -> io::Result<()> {
    let mut first = machine.open_folder("objects", false)?;
    run(rt, machine, file)?;
    get(rt, &mut first, "Z")?;
    tell_fault(rt, &first)
}
