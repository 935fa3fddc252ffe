//! The table of what may stand under the name of a backup set.
use crate::made::{catalog_of, database, datafile};
use crate::pieces::pairs_text;
use crate::renewing::{empty, found};
use crate::set_bytes::{bytes_of, set_of, two};
use rm_base::sealed::digest_of;
use rm_base::{FileNo, Kind, MemStore, NoMemory, Seq, Status, Store, Text};
use rm_catalog::{Catalog, Record, SetEntry, SetPart};
use rm_evidence::{Evidence, has_database};
use rm_piece::Piece;
use rm_test_harness::{Fault, Told, differs, head, status_of};
use std::alloc::Global;

// What the record says of one of the two datafiles.
fn part(file: FileNo, rows: u32) -> SetPart {
    SetPart {
        file,
        kind: Kind::Level0,
        from: 0,
        high: 5,
        rows,
    }
}

// The record 4 of a set of the two, where its object has these bytes.
fn entry(alloc: Global, status: Status, bytes: &[u8]) -> Result<SetEntry, NoMemory> {
    Ok(SetEntry {
        id: 4,
        inc: 1,
        checkpoint: 5,
        parts: Seq::from_vec(Vec::from_array(alloc, [part(1, 2), part(2, 0)])?),
        size: bytes.len() as u64,
        sha: digest_of(bytes),
        status,
        keep: false,
        tag: Text::from_string(String::from_str(alloc, "T")?),
        moment: 0,
    })
}

// The catalog of that record, of database 1 and two datafiles of four blocks. By these words the second datafile
// was created elsewhere, or has a block more.
fn catalog(alloc: Global, word: &str, entry: SetEntry) -> Result<Catalog, Fault> {
    let mut records = database(alloc, None)?;
    records.push(datafile(1, 1, 1, 4))?;
    records.push(match word {
        "creation" => datafile(2, 1, 3, 4),
        "blocks" => datafile(2, 1, 2, 5),
        _ => datafile(2, 1, 2, 4),
    })?;
    records.push(Record::Set(entry))?;
    catalog_of(alloc, records)
}

// The bytes for which the record was made: by these words those of a set of another database, or of one datafile alone.
fn recorded(alloc: Global, word: &str) -> Result<Vec<u8>, Fault> {
    let mut members = two(alloc)?;
    if word == "one" {
        members.truncate(1);
    }
    let dbid = if word == "dbid" { 2 } else { 1 };
    for member in &mut members {
        member.piece.dbid = dbid;
    }
    bytes_of(alloc, &set_of(dbid, members))
}

// The object that stands under the name of the set, by these words not as it was recorded.
fn object_of(alloc: Global, word: &str, bytes: &[u8]) -> Result<Vec<u8>, Fault> {
    let mut object = Vec::from_slice(alloc, bytes)?;
    match word {
        "cut" => object.truncate(bytes.len().saturating_sub(1)),
        "empty" => object.clear(),
        "longer" => object.push(0)?,
        "other" => object = bytes_of(alloc, &set_of(1, Vec::new(alloc)))?,
        "damaged" => {
            if let Some(byte) = object.get_mut(60) {
                *byte ^= 1;
            }
        }
        _ => {}
    }
    Ok(object)
}

// A store in which that stands, or nothing.
fn stocked(alloc: Global, word: &str, bytes: &[u8]) -> Result<MemStore, Fault> {
    let mut store = empty(alloc);
    if word == "none" {
        return Ok(store);
    }
    let object = object_of(alloc, word, bytes)?;
    if store.put("set_4", &object).is_err() {
        return differs(alloc, "no object");
    }
    Ok(store)
}

// What is at hand of a record with this status.
fn at_hand(alloc: Global, status: Status, word: &str) -> Result<Evidence, Fault> {
    let bytes = recorded(alloc, word)?;
    let catalog = catalog(alloc, word, entry(alloc, status, &bytes)?)?;
    let mut store = stocked(alloc, word, &bytes)?;
    if !has_database(&catalog) {
        return differs(alloc, "no database");
    }
    found(alloc, &catalog, &mut store)
}

// The ids and datafiles of the bases.
fn bases_text(alloc: Global, bases: &[(u32, Piece)]) -> Result<String, Fault> {
    let mut pairs = Vec::new(alloc);
    for (id, piece) in bases {
        pairs.push((*id, u64::from(piece.file)))?;
    }
    pairs_text(alloc, &pairs)
}

/// Objects, each of which is found, skipped or passed over.
#[derive(Drop)]
pub struct SetObjects;

impl Told for SetObjects {
    fn told(&mut self, alloc: Global, asked: &str) -> Result<String, Fault> {
        let (status, word) = head(asked);
        let found = at_hand(alloc, status_of(alloc, status)?, word)?;
        let mut out = bases_text(alloc, found.bases.as_slice())?;
        if let Some((id, bad)) = found.skipped.as_slice().first() {
            write!(out, "; {id} {bad:?}")?;
        }
        Ok(out)
    }
}
