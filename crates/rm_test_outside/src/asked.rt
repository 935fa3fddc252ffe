//! One thing that is asked, for the scripts.
use crate::catalogs::{self, apply, word_of};
use crate::files::{Catalogs, Folders};
use crate::{made, objects};
use rm_base::{NoMemory, Policy, Status, Store};
use rm_catalog::{Edit, Keeper, KeeperFail};
use std::alloc::Global;
use std::io;
use std::time::Instant;

// Tells what came of it and how long it took.
fn tell(rt: &HostRuntime, word: &str, start: Instant) -> io::Result<()> {
    let micros = Instant::now(rt)?.duration_since(start).as_micros();
    rt.println(format_args!("{word} in {micros} us"))
}

// Three edits: the base facts, a log, and a mark.
fn three(alloc: Global, i: u32) -> Result<Vec<Edit>, NoMemory> {
    let edits = [
        Edit::Put(made::base(i, Policy::Redundancy(2))),
        Edit::Put(made::log(i, true, Status::Available)),
        Edit::Put(made::mark(i)),
    ];
    Ok(Vec::from_array(alloc, edits)?)
}

// Each apply is told once it is done.
fn applies<K: Keeper>(rt: &HostRuntime, keeper: &mut K, times: u32) -> Result<(), KeeperFail> {
    for i in 0..times {
        apply(keeper, three(rt.alloc(), i))?;
        let _ = rt.println(format_args!("applied {i}"));
    }
    Ok(())
}

fn logs(alloc: Global, times: u32) -> Result<Vec<Edit>, NoMemory> {
    let mut edits = Vec::new(alloc);
    for i in 0..times {
        edits.push(Edit::Put(made::log(i, true, Status::Available)))?;
    }
    Ok(edits)
}

// A call of a catalog, and how long it took.
fn keep<K: Keeper>(rt: &HostRuntime, keeper: &mut K, what: &str, times: u32) -> io::Result<()> {
    let start = Instant::now(rt)?;
    let word = match what {
        "applies" => word_of(applies(rt, keeper, times)),
        "logs" => word_of(apply(keeper, logs(rt.alloc(), times))),
        _ => word_of(keeper.load()),
    };
    tell(rt, word, start)
}

fn catalog<M: Catalogs>(
    rt: &HostRuntime,
    machine: &M,
    what: &str,
    path: &str,
    times: u32,
) -> io::Result<()> {
    let mut keeper = machine.open_catalog(path);
    keep(rt, &mut keeper, what, times)?;
    catalogs::tell_fault(rt, &keeper)?;
    rt.println(word_of(machine.close_catalog(keeper)))
}

// A call of a store, and how long it took.
fn store<D: Store>(
    rt: &HostRuntime,
    store: &mut D,
    what: &str,
    name: &str,
    bytes: &[u8],
) -> io::Result<()> {
    let start = Instant::now(rt)?;
    let word = match what {
        "put" => objects::word_of(store.put(name, bytes)),
        "names" => objects::word_of(store.names()),
        _ => objects::word_of(store.get(name)),
    };
    tell(rt, word, start)
}

fn folder<M: Folders>(
    rt: &HostRuntime,
    machine: &M,
    what: &str,
    path: &str,
    times: u32,
    name: &str,
) -> io::Result<()> {
    let bytes = vec![in rt.alloc(); 165; times as usize]?;
    let mut opened = machine.open_folder(path, true)?;
    store(rt, &mut opened, what, name, &bytes)?;
    objects::tell_fault(rt, &opened)
}

/// Does what is asked, and tells what came of it: `applies` of three edits each, one apply of as many `logs`, a
/// `load`; a `put` of so many bytes, a `get`, `names`.
pub fn run<M: Catalogs + Folders>(
    rt: &HostRuntime,
    machine: &M,
    what: &str,
    path: &str,
    times: &str,
    name: &str,
) -> io::Result<()> {
    let times = times.parse::<u32>().unwrap_or(0);
    match what {
        "put" | "get" | "names" => folder(rt, machine, what, path, times, name),
        _ => catalog(rt, machine, what, path, times),
    }
}
