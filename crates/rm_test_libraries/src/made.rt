//! Records, pieces and catalogs, as the worked rows make them.
use rm_base::{FileNo, IncNo, Kind, NoMemory, Policy, Scn, Seq, Status, Text};
use rm_catalog::{
    BaseEntry, Catalog, DatafileEntry, IncarnationEntry, LogEntry, MarkEntry, PieceEntry, Record,
};
use rm_piece::Piece;
use rm_test_harness::{Fault, differs};
use std::alloc::Global;

/// What a word before a record says of it besides.
#[derive(Clone, Copy)]
pub struct Besides {
    pub keep: bool,
    pub status: Status,
}

fn push_base(records: &mut Seq<Record>, current: IncNo) -> Result<(), NoMemory> {
    records.push(Record::Base(BaseEntry {
        dbid: 1,
        threads: 1,
        current,
        next_id: 20,
        moment: 0,
        policy: Policy::Nothing,
        parallelism: 1,
        tracking: false,
    }))
}

// An incarnation, and the mark at which it began.
fn push_incarnation(
    records: &mut Seq<Record>,
    inc: IncNo,
    parent: IncNo,
    reset: Scn,
    end: Scn,
) -> Result<(), NoMemory> {
    records.push(Record::Incarnation(IncarnationEntry {
        inc,
        parent,
        reset,
        end,
    }))?;
    records.push(Record::Mark(MarkEntry {
        id: inc,
        moment: 0,
        inc,
        scn: reset,
    }))
}

/// The base facts, incarnation 1 from 1 on, 2 from 5 on and 3 from 8 on, both branched off from 1, and a
/// datafile of two blocks.
pub fn three_branches(alloc: Global, current: IncNo) -> Result<Seq<Record>, NoMemory> {
    let mut records = Seq::new(alloc);
    push_base(&mut records, current)?;
    push_incarnation(&mut records, 1, 0, 1, 20)?;
    push_incarnation(&mut records, 2, 1, 5, 20)?;
    push_incarnation(&mut records, 3, 1, 8, 20)?;
    records.push(datafile(1, 1, 1, 2))?;
    Ok(records)
}

/// The base facts and the incarnations, which end at 9. Where there is a branch, incarnation 2 is the current one.
pub fn database(alloc: Global, branch: Option<Scn>) -> Result<Seq<Record>, NoMemory> {
    let mut records = Seq::new(alloc);
    push_base(&mut records, if branch.is_some() { 2 } else { 1 })?;
    push_incarnation(&mut records, 1, 0, 1, 9)?;
    if let Some(reset) = branch {
        push_incarnation(&mut records, 2, 1, reset, 9)?;
    }
    Ok(records)
}

/// A datafile.
pub fn datafile(file: FileNo, inc: IncNo, creation: Scn, blocks: u32) -> Record {
    Record::Datafile(DatafileEntry {
        file,
        inc,
        creation,
        blocks,
    })
}

/// A log of thread 1.
pub fn log(id: u32, inc: IncNo, first: Scn, next: Scn, besides: Besides) -> Record {
    Record::Log(LogEntry {
        id,
        archived: true,
        inc,
        thread: 1,
        sequence: 1,
        first,
        next,
        size: 0,
        sha: [0; 32],
        status: besides.status,
        keep: besides.keep,
    })
}

/// A full piece of a datafile of one block.
pub fn piece(alloc: Global, inc: IncNo, file: FileNo, checkpoint: Scn, high: Scn) -> Piece {
    Piece {
        kind: Kind::Full,
        dbid: 1,
        inc,
        file,
        blocks: 1,
        from: 0,
        checkpoint,
        high,
        rows: Seq::new(alloc),
    }
}

/// Its record.
pub fn recorded(
    alloc: Global,
    id: u32,
    piece: &Piece,
    besides: Besides,
) -> Result<Record, NoMemory> {
    Ok(Record::Piece(PieceEntry {
        id,
        copy: false,
        kind: Kind::Full,
        inc: piece.inc,
        file: piece.file,
        from: 0,
        checkpoint: piece.checkpoint,
        high: piece.high,
        rows: 1,
        size: 0,
        sha: [0; 32],
        status: besides.status,
        keep: besides.keep,
        tag: Text::from_string(String::from_str(alloc, "T")?),
        moment: 0,
    }))
}

/// The catalog of these records.
pub fn catalog_of(alloc: Global, records: Seq<Record>) -> Result<Catalog, Fault> {
    match Catalog::from_records(records) {
        Ok(catalog) => Ok(catalog),
        Err(_) => differs(alloc, "no catalog"),
    }
}
