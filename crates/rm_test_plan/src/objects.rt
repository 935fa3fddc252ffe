//! The table of what may stand under the name of one record.
use crate::gathering::{catalog, evidence, log_bytes, log_entry, no_place, piece_bytes, store};
use rm_base::{Kind, MemStore, Seq, Status, Store};
use rm_catalog::Record;
use rm_evidence::Evidence;
use rm_test_harness::{Fault, Told, differs, head, status_of};
use std::alloc::Global;

/// Objects, each of which is found, skipped or passed over.
#[derive(Drop)]
pub struct Objects;

// The bytes that this word says, which stand under the name of the log of these ones.
fn object_of(alloc: Global, word: &str, bytes: &[u8]) -> Result<Vec<u8>, Fault> {
    let mut object = Vec::from_slice(alloc, bytes)?;
    match word {
        "whole" => {}
        "cut" => object.truncate(bytes.len().saturating_sub(1)),
        "empty" => object.clear(),
        "longer" => object.push(0)?,
        "other" => object = log_bytes(alloc, 4)?.into_vec(),
        "piece" => object = piece_bytes(alloc, Kind::Full, 0)?.into_vec(),
        _ => return differs(alloc, word),
    }
    Ok(object)
}

// A store in which that stands, or nothing.
fn stocked(alloc: Global, word: &str, bytes: &[u8]) -> Result<MemStore, Fault> {
    let mut store = store(alloc, &[])?;
    if word == "none" {
        return Ok(store);
    }
    let object = object_of(alloc, word, bytes)?;
    if store.put("log_4", &object).is_err() {
        return differs(alloc, "no object");
    }
    Ok(store)
}

// What is found of one record of the log of sequence 3, where this word says what stands under its name.
fn found(alloc: Global, status: Status, word: &str) -> Result<Evidence, Fault> {
    let bytes = log_bytes(alloc, 3)?;
    let mut records = Seq::new(alloc);
    records.push(Record::Log(log_entry(4, bytes.as_slice(), status)))?;
    let catalog = catalog(alloc, records)?;
    let mut store = stocked(alloc, word, bytes.as_slice())?;
    match evidence(alloc, &catalog, &mut store, &no_place(alloc))? {
        Some(found) => Ok(found),
        None => differs(alloc, "the store fails"),
    }
}

impl Told for Objects {
    fn told(&mut self, alloc: Global, asked: &str) -> Result<String, Fault> {
        let (status, word) = head(asked);
        let found = found(alloc, status_of(alloc, status)?, word)?;
        let mut out = format!(in alloc; "{}", found.logs.len())?;
        if let Some((id, bad)) = found.skipped.as_slice().first() {
            write!(out, ", {id} {bad:?}")?;
        }
        Ok(out)
    }
}
