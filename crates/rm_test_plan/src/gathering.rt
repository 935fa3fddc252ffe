//! A catalog with logs and pieces, and objects that are there, missing or damaged.
use crate::made::catalog_of;
use rm_base::sealed::digest_of;
use rm_base::{
    Block, Failing, Kind, MemStore, NoMemory, Policy, Row, Seq, Status, Store, StoreFailing, Text,
};
use rm_catalog::{
    BaseEntry, Catalog, DatafileEntry, IncarnationEntry, LogEntry, MarkEntry, PieceEntry, Record,
};
use rm_evidence::{Evidence, EvidenceFault, InPlace, fits_place, gather, has_database};
use rm_piece::{Piece, encode_piece, is_valid};
use rm_redo::{LogFile, encode_log, is_valid_log};
use rm_test_harness::{Fault, differs};
use std::alloc::Global;

/// The base facts.
pub const BASE: BaseEntry = BaseEntry {
    dbid: 7,
    threads: 2,
    current: 1,
    next_id: 10,
    moment: 100,
    policy: Policy::Nothing,
    parallelism: 1,
    tracking: false,
};

const FIRST: IncarnationEntry = IncarnationEntry {
    inc: 1,
    parent: 0,
    reset: 1,
    end: 20,
};

const FILE_1: DatafileEntry = DatafileEntry {
    file: 1,
    inc: 1,
    creation: 1,
    blocks: 1,
};

const MARK: MarkEntry = MarkEntry {
    id: 1,
    moment: 10,
    inc: 1,
    scn: 1,
};

/// A catalog of one datafile and of these records.
pub fn catalog(alloc: Global, rows: Seq<Record>) -> Result<Catalog, Fault> {
    let mut records = rows;
    records.push(Record::Base(BASE))?;
    records.push(Record::Incarnation(FIRST))?;
    records.push(Record::Datafile(FILE_1))?;
    records.push(Record::Mark(MARK))?;
    catalog_of(alloc, records)
}

/// A log without records.
pub fn log(alloc: Global, sequence: u32) -> LogFile {
    LogFile {
        dbid: 7,
        inc: 1,
        thread: 1,
        sequence,
        first: 1,
        next: 4,
        records: Seq::new(alloc),
    }
}

/// Its bytes.
pub fn log_bytes(alloc: Global, sequence: u32) -> Result<Seq<u8>, Fault> {
    let log = log(alloc, sequence);
    if is_valid_log(&log) {
        Ok(encode_log(alloc, &log)?)
    } else {
        differs(alloc, "not valid")
    }
}

/// The record of an archived log of these bytes, of sequence 3.
pub fn log_entry(id: u32, bytes: &[u8], status: Status) -> LogEntry {
    LogEntry {
        id,
        archived: true,
        inc: 1,
        thread: 1,
        sequence: 3,
        first: 1,
        next: 4,
        size: bytes.len() as u64,
        sha: digest_of(bytes),
        status,
        keep: false,
    }
}

// A piece of one row.
fn piece(alloc: Global, kind: Kind, from: u64) -> Result<Piece, NoMemory> {
    let row = Row {
        block: 0,
        version: 2,
        content: Block::padded(b"AA"),
    };
    Ok(Piece {
        kind,
        dbid: 7,
        inc: 1,
        file: 1,
        blocks: 1,
        from,
        checkpoint: 5,
        high: 5,
        rows: Seq::from_vec(Vec::from_array(alloc, [row])?),
    })
}

/// Its bytes.
pub fn piece_bytes(alloc: Global, kind: Kind, from: u64) -> Result<Seq<u8>, Fault> {
    let piece = piece(alloc, kind, from)?;
    if is_valid(&piece) {
        Ok(encode_piece(alloc, &piece)?)
    } else {
        differs(alloc, "not valid")
    }
}

/// The record of a piece of these bytes.
pub fn piece_entry(
    alloc: Global,
    id: u32,
    kind: Kind,
    from: u64,
    bytes: &[u8],
) -> Result<PieceEntry, NoMemory> {
    Ok(PieceEntry {
        id,
        copy: false,
        kind,
        inc: 1,
        file: 1,
        from,
        checkpoint: 5,
        high: 5,
        rows: 1,
        size: bytes.len() as u64,
        sha: digest_of(bytes),
        status: Status::Available,
        keep: false,
        tag: Text::from_string(String::from_str(alloc, "T1")?),
        moment: 50,
    })
}

/// A store whose gets of these numbers are to fail.
pub fn store(alloc: Global, gets: &[u64]) -> Result<MemStore, NoMemory> {
    let failing = StoreFailing {
        gets: Failing::new(Vec::from_slice(alloc, gets)?),
        puts: Failing::new(Vec::new(alloc)),
        removes: Failing::new(Vec::new(alloc)),
        names: Failing::new(Vec::new(alloc)),
    };
    Ok(MemStore::new(alloc, failing))
}

/// Nothing is in place.
pub fn no_place(alloc: Global) -> InPlace {
    InPlace {
        files: Seq::new(alloc),
        logs: Seq::new(alloc),
    }
}

/// The evidence of a catalog that has a database and that what is in place fits. None where the store fails.
pub fn evidence<D: Store>(
    alloc: Global,
    catalog: &Catalog,
    store: &mut D,
    place: &InPlace,
) -> Result<Option<Evidence>, Fault> {
    if !has_database(catalog) || !fits_place(catalog, place) {
        return differs(alloc, "what is in place does not fit");
    }
    match gather(alloc, catalog, store, place) {
        Ok(found) => Ok(Some(found)),
        Err(EvidenceFault::StoreFault) => Ok(None),
        Err(EvidenceFault::NoMemory) => Err(Fault::NoMemory),
    }
}
