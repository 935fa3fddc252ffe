//! Catalogs and artefacts of datafile 1, as the worked rows make them.
use rm_base::{IncNo, Kind, NoMemory, Policy, Row, Scn, Seq, ThreadNo};
use rm_catalog::{
    BaseEntry, Catalog, DatafileEntry, IncarnationEntry, MarkEntry, Record, SwitchEntry,
};
use rm_evidence::Evidence;
use rm_history::Switch;
use rm_piece::Piece;
use rm_redo::{LogFile, LogRecord};
use rm_test_harness::{Fault, differs};
use std::alloc::Global;

/// A catalog of these records.
pub fn catalog_of(alloc: Global, records: Seq<Record>) -> Result<Catalog, Fault> {
    match Catalog::from_records(records) {
        Ok(catalog) => Ok(catalog),
        Err(_) => differs(alloc, "no catalog"),
    }
}

/// The base facts of a database of so many threads.
pub fn base_entry(threads: ThreadNo, next_id: u32) -> Record {
    Record::Base(BaseEntry {
        dbid: 1,
        threads,
        current: 1,
        next_id,
        moment: 0,
        policy: Policy::Nothing,
        parallelism: 1,
        tracking: false,
    })
}

/// Datafile 1 or 2, which was created at 1.
pub fn datafile(file: u32, blocks: u32) -> Record {
    Record::Datafile(DatafileEntry {
        file,
        inc: 1,
        creation: 1,
        blocks,
    })
}

/// Adds an incarnation, and the mark at which it began.
pub fn push_incarnation(
    records: &mut Seq<Record>,
    entry: IncarnationEntry,
) -> Result<(), NoMemory> {
    records.push(Record::Incarnation(entry))?;
    records.push(Record::Mark(MarkEntry {
        id: entry.inc,
        moment: 0,
        inc: entry.inc,
        scn: entry.reset,
    }))
}

/// The switch of this number.
pub fn switch_entry(id: u32, switch: Switch) -> Record {
    Record::Switch(SwitchEntry {
        id,
        thread: switch.thread,
        inc: switch.inc,
        scn: switch.scn,
        on: switch.on,
        sequence: 1,
    })
}

// An incarnation that ends at 9.
fn short(inc: IncNo, parent: IncNo, reset: Scn) -> IncarnationEntry {
    IncarnationEntry {
        inc,
        parent,
        reset,
        end: 9,
    }
}

/// Incarnation 1 from 1 to 9, incarnation 2 where one branches off, and datafile 1 that was created at 1.
pub fn catalog(
    alloc: Global,
    threads: ThreadNo,
    blocks: u32,
    branch: Option<Scn>,
) -> Result<Catalog, Fault> {
    let mut records = Seq::new(alloc);
    records.push(base_entry(threads, 10))?;
    push_incarnation(&mut records, short(1, 0, 1))?;
    if let Some(reset) = branch {
        push_incarnation(&mut records, short(2, 1, reset))?;
    }
    records.push(datafile(1, blocks))?;
    catalog_of(alloc, records)
}

/// Nothing is at hand.
pub fn nothing(alloc: Global) -> Evidence {
    Evidence {
        bases: Seq::new(alloc),
        level1s: Seq::new(alloc),
        logs: Seq::new(alloc),
        skipped: Seq::new(alloc),
    }
}

/// A piece of two blocks, whose versions lie below its checkpoint.
pub fn piece(kind: Kind, inc: IncNo, from: Scn, checkpoint: Scn, rows: Seq<Row>) -> Piece {
    Piece {
        kind,
        dbid: 1,
        inc,
        file: 1,
        blocks: 2,
        from,
        checkpoint,
        high: checkpoint,
        rows,
    }
}

/// The log of a thread of an incarnation from the first SCN of the range up to, and without, the second one, whose records
/// are these rows.
pub fn log(
    alloc: Global,
    thread: ThreadNo,
    inc: IncNo,
    range: (Scn, Scn),
    rows: &[Row],
) -> Result<LogFile, NoMemory> {
    let mut records = Seq::new(alloc);
    for row in rows {
        records.push(LogRecord {
            scn: row.version,
            file: 1,
            block: row.block,
            content: row.content,
        })?;
    }
    Ok(LogFile {
        dbid: 1,
        inc,
        thread,
        sequence: 1,
        first: range.0,
        next: range.1,
        records,
    })
}
