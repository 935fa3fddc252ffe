//! A store in memory of which some calls fail.
use crate::devices::failing;
use rm_base::{MemStore, NoMemory, Store, StoreFail, StoreFailing};
use rm_test_harness::{Fault, Told, differs, shown, unquoted};
use std::alloc::Global;

/// The store of the case.
#[derive(Drop)]
pub struct Stores {
    pub store: Option<MemStore>,
}

// A store whose second get and put, and first remove and names, are to fail.
fn store(alloc: Global) -> Result<MemStore, NoMemory> {
    let failing = StoreFailing {
        gets: failing(alloc, &[2])?,
        puts: failing(alloc, &[2])?,
        removes: failing(alloc, &[1])?,
        names: failing(alloc, &[1])?,
    };
    Ok(MemStore::new(alloc, failing))
}

// Whether these bytes stand under the name.
fn stands<S: Store>(store: &mut S, name: &str, bytes: &[u8]) -> Result<bool, StoreFail> {
    match store.get(name)? {
        Some(found) => Ok(found.as_slice() == bytes),
        None => Ok(false),
    }
}

// The names, each with a blank behind it, or `failed`.
fn listed<S: Store>(alloc: Global, store: &mut S) -> Result<String, Fault> {
    let mut out = String::new(alloc);
    match store.names() {
        Ok(names) => {
            for name in names.as_slice() {
                write!(out, "{} ", name.as_str())?;
            }
        }
        Err(_) => out.push_str("failed")?,
    }
    Ok(out)
}

impl Told for Stores {
    fn told(&mut self, alloc: Global, given: &str) -> Result<String, Fault> {
        let words: Vec<&str> = given.split(' ').collect(alloc)?;
        match (words.as_slice(), &mut self.store) {
            (["new"], at) => {
                *at = Some(store(alloc)?);
                shown(alloc, "")
            }
            (["put", name, bytes], Some(store)) => {
                shown(alloc, store.put(name, unquoted(bytes).as_bytes()))
            }
            (["stands", name, bytes], Some(store)) => {
                shown(alloc, stands(store, name, unquoted(bytes).as_bytes()))
            }
            (["remove", name], Some(store)) => shown(alloc, store.remove(name)),
            (["names"], Some(store)) => shown(alloc, listed(alloc, store)?),
            _ => differs(alloc, given),
        }
    }
}
