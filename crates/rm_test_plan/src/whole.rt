//! Logs, pieces and what is in place together.
use crate::gathering::{
    catalog, evidence, log, log_bytes, log_entry, no_place, piece_bytes, piece_entry, store,
};
use rm_base::{Kind, MemStore, NoMemory, Seq, Status, Store};
use rm_blocks::DataFile;
use rm_catalog::{Catalog, Record};
use rm_evidence::{InPlace, fits_place, has_database};
use rm_test_harness::{Fault, differs};
use std::alloc::Global;

// A catalog and its store.
#[derive(Drop)]
struct Site {
    catalog: Catalog,
    store: MemStore,
}

// The bytes of a log, of a full piece and of a level 1.
#[derive(Drop)]
struct Bytes {
    log: Seq<u8>,
    full: Seq<u8>,
    level1: Seq<u8>,
}

fn made_bytes(alloc: Global) -> Result<Bytes, Fault> {
    Ok(Bytes {
        log: log_bytes(alloc, 3)?,
        full: piece_bytes(alloc, Kind::Full, 0)?,
        level1: piece_bytes(alloc, Kind::Level1, 1)?,
    })
}

// A store that has a log and two pieces, and whose gets of these numbers are to fail.
fn filled(alloc: Global, gets: &[u64], bytes: &Bytes) -> Result<MemStore, Fault> {
    let mut store = store(alloc, gets)?;
    let puts = [
        store.put("log_1", bytes.log.as_slice()),
        store.put("piece_2", bytes.full.as_slice()),
        store.put("piece_3", bytes.level1.as_slice()),
    ];
    if puts == [Ok(()), Ok(()), Ok(())] {
        Ok(store)
    } else {
        differs(alloc, "no store of three objects")
    }
}

// The pieces: their id, kind and from.
const PIECES: [(u32, Kind, u64); 3] = [
    (2, Kind::Full, 0),
    (3, Kind::Level1, 1),
    (5, Kind::Full, 0),
];

// The records of the logs 1 and 6, and of the pieces.
fn records(alloc: Global, bytes: &Bytes) -> Result<Seq<Record>, NoMemory> {
    let mut records = Seq::new(alloc);
    for id in [1, 6] {
        let log = log_entry(id, bytes.log.as_slice(), Status::Available);
        records.push(Record::Log(log))?;
    }
    for (id, kind, from) in PIECES {
        let bytes = if from == 0 {
            &bytes.full
        } else {
            &bytes.level1
        };
        let piece = piece_entry(alloc, id, kind, from, bytes.as_slice())?;
        records.push(Record::Piece(piece))?;
    }
    Ok(records)
}

// A catalog of them, and a store that has the first three.
fn make_site(alloc: Global, gets: &[u64]) -> Result<Site, Fault> {
    let bytes = made_bytes(alloc)?;
    Ok(Site {
        catalog: catalog(alloc, records(alloc, &bytes)?)?,
        store: filled(alloc, gets, &bytes)?,
    })
}

// A datafile and a log.
fn some_place(alloc: Global) -> Result<InPlace, NoMemory> {
    let mut place = no_place(alloc);
    place.files.push(DataFile::empty(alloc, 1, 1, 1, 1)?)?;
    place.logs.push(log(alloc, 5))?;
    Ok(place)
}

// Whether the list has these ids.
fn has_ids<T>(items: &[(u32, T)], ids: &[u32]) -> bool {
    items.len() == ids.len() && items.iter().zip(ids).all(|(item, id)| item.0 == *id)
}

/// Each artefact stands among those of its kind.
pub fn by_kind(alloc: Global) -> Result<bool, Fault> {
    let Site { catalog, mut store } = make_site(alloc, &[])?;
    let place = some_place(alloc)?;
    let Some(found) = evidence(alloc, &catalog, &mut store, &place)? else {
        return Ok(false);
    };
    let bases = found.bases.as_slice();
    let are_pieces = has_ids(bases, &[0, 2]) && has_ids(found.level1s.as_slice(), &[3]);
    let is_in_place = bases.first().is_some_and(|base| base.1.kind == Kind::Place);
    let are_logs = has_ids(found.logs.as_slice(), &[0, 1]);
    Ok(are_pieces && is_in_place && are_logs && has_ids(found.skipped.as_slice(), &[5, 6]))
}

/// What does not fit is told: a log of sequence 0.
pub fn unfit(alloc: Global) -> Result<bool, Fault> {
    let Site { catalog, .. } = make_site(alloc, &[])?;
    let mut place = some_place(alloc)?;
    if !has_database(&catalog) || !fits_place(&catalog, &place) {
        return Ok(false);
    }
    place.logs.push(log(alloc, 0))?;
    Ok(!fits_place(&catalog, &place))
}

// Whether the store fails where its get of this number is to fail.
fn fails_at(alloc: Global, get: u64) -> Result<bool, Fault> {
    let Site { catalog, mut store } = make_site(alloc, &[get])?;
    Ok(evidence(alloc, &catalog, &mut store, &no_place(alloc))?.is_none())
}

/// A fault of each of five gets is told, and there is no sixth.
pub fn each_get(alloc: Global) -> Result<bool, Fault> {
    for get in 1..6u64 {
        if !fails_at(alloc, get)? {
            return Ok(false);
        }
    }
    Ok(!fails_at(alloc, 6)?)
}
