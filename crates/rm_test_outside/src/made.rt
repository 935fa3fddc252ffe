//! Records of each kind.
use rm_base::{Kind, NoMemory, Policy, Seq, Status, Text};
use rm_catalog::{
    BaseEntry, DatafileEntry, Edit, HeadEntry, IncarnationEntry, Key, LogEntry, MarkEntry,
    PartEntry, PieceEntry, Record, SetEntry, SetPart, SwitchEntry,
};
use std::alloc::Global;

// The pieces: their id, kind, from, checkpoint, and how many letters the tag has.
const PIECES: [(u32, Kind, u64, u64, u32); 6] = [
    (1, Kind::Level0, 0, 3, 0),
    (2, Kind::Level1, 3, 4, 1),
    (3, Kind::Level0, 0, 4, 30),
    (4, Kind::Level1, 4, 5, 20),
    (8, Kind::Full, 0, 5, 2),
    (9, Kind::Place, 0, 5, 2),
];

// The logs: their id, whether they are archived, and their status.
const LOGS: [(u32, bool, Status); 3] = [
    (5, true, Status::Available),
    (6, false, Status::Unavailable),
    (7, true, Status::Expired),
];

// The sets: their id, their status, and how many parts they have.
const SETS: [(u32, Status, u32); 2] = [(10, Status::Available, 1), (11, Status::Expired, 3)];

// The switches: their id, thread and SCN, whether they enable it, and the sequence number.
const SWITCHES: [(u32, u8, u64, bool, u32); 2] = [
    (1, 2, 4, false, 2),
    (2, 4, 281_474_976_710_654, true, 4_294_967_295),
];

/// The base facts.
pub fn base(next_id: u32, policy: Policy) -> Record {
    Record::Base(BaseEntry {
        dbid: 1,
        threads: 1,
        current: 1,
        next_id,
        moment: 253_402_300_799,
        policy,
        parallelism: 16,
        tracking: true,
    })
}

/// A log.
pub fn log(id: u32, archived: bool, status: Status) -> Record {
    Record::Log(LogEntry {
        id,
        archived,
        inc: 1,
        thread: 1,
        sequence: 1,
        first: 1,
        next: 5,
        size: 310,
        sha: [171; 32],
        status,
        keep: !archived,
    })
}

// A tag of so many letters.
fn tag(alloc: Global, letters: u32) -> Result<Text, NoMemory> {
    let mut tag = String::new(alloc);
    for _ in 0..letters {
        tag.push('T')?;
    }
    Ok(Text::from_string(tag))
}

fn piece(id: u32, kind: Kind, from: u64, checkpoint: u64, tag: Text) -> Record {
    Record::Piece(PieceEntry {
        id,
        copy: kind == Kind::Place,
        kind,
        inc: 1,
        file: 1,
        from,
        checkpoint,
        high: checkpoint,
        rows: 2,
        size: 268_435_456,
        sha: [255; 32],
        status: Status::Available,
        keep: false,
        tag,
        moment: 50,
    })
}

/// A mark.
pub fn mark(id: u32) -> Record {
    Record::Mark(MarkEntry {
        id,
        moment: 6,
        inc: 256,
        scn: 281_474_976_710_655,
    })
}

fn incarnation() -> Record {
    Record::Incarnation(IncarnationEntry {
        inc: 1,
        parent: 0,
        reset: 1,
        end: 5,
    })
}

fn datafile() -> Record {
    Record::Datafile(DatafileEntry {
        file: 1,
        inc: 1,
        creation: 1,
        blocks: 4,
    })
}

fn part(id: u32, file: u32, thread: u8) -> Record {
    Record::Part(PartEntry {
        id,
        file,
        thread,
        size: 200,
        sha: [1; 32],
    })
}

// A part of a set: a level 1 of an odd datafile, and else a full one.
fn set_part(file: u32) -> SetPart {
    let is_level1 = file % 2 == 1;
    SetPart {
        file,
        kind: if is_level1 { Kind::Level1 } else { Kind::Full },
        from: if is_level1 { 3 } else { 0 },
        high: 281_474_976_710_655,
        rows: file,
    }
}

// A set of so many datafiles.
fn set(alloc: Global, id: u32, status: Status, files: u32) -> Result<Record, NoMemory> {
    let mut parts = Seq::new(alloc);
    for file in 1..=files {
        parts.push(set_part(file))?;
    }
    Ok(Record::Set(SetEntry {
        id,
        inc: 1,
        checkpoint: 5,
        parts,
        size: 268_435_456,
        sha: [205; 32],
        status,
        keep: id == 11,
        tag: tag(alloc, id)?,
        moment: 50,
    }))
}

// A switch of a thread.
fn switch(id: u32, thread: u8, scn: u64, on: bool, sequence: u32) -> Record {
    Record::Switch(SwitchEntry {
        id,
        thread,
        inc: 1,
        scn,
        on,
        sequence,
    })
}

// Where the database stood.
fn head() -> Record {
    Record::Head(HeadEntry {
        opened: true,
        inc: 0,
        scn: 0,
    })
}

/// A put of one record.
pub fn one(alloc: Global, record: Record) -> Result<Vec<Edit>, NoMemory> {
    let mut edits = Vec::new(alloc);
    edits.push(Edit::Put(record))?;
    Ok(edits)
}

fn put_pieces(alloc: Global, edits: &mut Vec<Edit>) -> Result<(), NoMemory> {
    for (id, kind, from, checkpoint, letters) in PIECES {
        let tag = tag(alloc, letters)?;
        edits.push(Edit::Put(piece(id, kind, from, checkpoint, tag)))?;
    }
    Ok(())
}

fn put_logs(edits: &mut Vec<Edit>) -> Result<(), NoMemory> {
    for (id, archived, status) in LOGS {
        edits.push(Edit::Put(log(id, archived, status)))?;
    }
    Ok(())
}

fn put_sets(alloc: Global, edits: &mut Vec<Edit>) -> Result<(), NoMemory> {
    for (id, status, files) in SETS {
        edits.push(Edit::Put(set(alloc, id, status, files)?))?;
    }
    Ok(())
}

fn put_switches(edits: &mut Vec<Edit>) -> Result<(), NoMemory> {
    for (id, thread, scn, on, sequence) in SWITCHES {
        edits.push(Edit::Put(switch(id, thread, scn, on, sequence)))?;
    }
    Ok(())
}

// Puts of records of each kind: each kind of piece, each status, tags of 0 to 30 letters, sets of one
// datafile and of three, and switches both ways.
fn all(alloc: Global) -> Result<Vec<Edit>, NoMemory> {
    let mut edits = one(alloc, base(14, Policy::Redundancy(1)))?;
    edits.push(Edit::Put(incarnation()))?;
    edits.push(Edit::Put(datafile()))?;
    put_pieces(alloc, &mut edits)?;
    put_logs(&mut edits)?;
    edits.push(Edit::Put(mark(1)))?;
    edits.push(Edit::Put(part(12, 1, 0)))?;
    edits.push(Edit::Put(part(13, 0, 1)))?;
    edits.push(Edit::Put(head()))?;
    put_sets(alloc, &mut edits)?;
    put_switches(&mut edits)?;
    Ok(edits)
}

// A put and a drop of one mark, in either order.
fn mixed(alloc: Global) -> Result<Vec<Edit>, NoMemory> {
    let edits = [
        Edit::Put(mark(2)),
        Edit::Drop(Key { kind: 6, id: 2 }),
        Edit::Drop(Key { kind: 6, id: 3 }),
        Edit::Put(mark(3)),
    ];
    Ok(Vec::from_array(alloc, edits)?)
}

// A set and a switch.
fn newer(alloc: Global) -> Result<Vec<Edit>, NoMemory> {
    let mut edits = one(alloc, set(alloc, 12, Status::Available, 2)?)?;
    edits.push(Edit::Put(switch(1, 2, 3, false, 2)))?;
    Ok(edits)
}

/// The edits of this name, and none where there is no such name.
pub fn edits(alloc: Global, name: &str) -> Result<Vec<Edit>, NoMemory> {
    match name {
        "all" => all(alloc),
        "mixed" => mixed(alloc),
        "newer" => newer(alloc),
        "window" => one(alloc, base(14, Policy::Window(36_500))),
        "redundancy" => one(alloc, base(14, Policy::Redundancy(2))),
        "no policy" => one(alloc, base(14, Policy::Nothing)),
        _ => Ok(Vec::new(alloc)),
    }
}
