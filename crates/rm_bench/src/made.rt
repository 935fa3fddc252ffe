//! A made datafile: copies, level 1s and logs of it in a store, with their records.
use crate::formats::content_of;
use rm_base::sealed::digest_of;
use rm_base::{
    Block, Failing, Kind, MemStore, NoMemory, Policy, Row, Scn, Seq, Status, Store, StoreFailing,
    Text, ThreadNo,
};
use rm_catalog::{
    BaseEntry, DatafileEntry, IncarnationEntry, LogEntry, MarkEntry, PieceEntry, Record,
};
use rm_evidence::{log_name, piece_name};
use rm_piece::{Piece, encode_piece, is_valid, pick};
use rm_redo::{LogFile, LogRecord, encode_log, is_valid_log};
use std::alloc::Global;

/// A datafile of so many blocks, and its rounds of so many changes each, the first of them at SCN 2. A
/// copy stands before each eighth round. Each round leaves a level 1 and a log of each of two threads;
/// each fifth lacks that of the second thread.
#[derive(Clone, Copy)]
pub struct Shape {
    pub blocks: u32,
    pub rounds: u32,
    pub changes: u32,
    /// Whether each level 1 looks for changes from the first round on, or else from its own.
    pub is_cumulative: bool,
    /// The SCN below which the datafile is to be planned.
    pub until: Scn,
}

/// What is made of it.
#[derive(Drop)]
pub struct Made {
    pub store: MemStore,
    /// The names of the objects.
    pub names: Vec<Text>,
    /// Their records, and those of the database.
    pub records: Seq<Record>,
    /// The SCN of each block's last change; 1 without a change.
    pub versions: Vec<Scn>,
    /// The same, of its last change below the target.
    pub wanted: Vec<Scn>,
    next_id: u32,
    now: Scn,
    number: u64,
}

impl Made {
    fn new(alloc: Global, blocks: u32) -> Result<Self, NoMemory> {
        let never = StoreFailing {
            gets: Failing::new(Vec::new(alloc)),
            puts: Failing::new(Vec::new(alloc)),
            removes: Failing::new(Vec::new(alloc)),
            names: Failing::new(Vec::new(alloc)),
        };
        Ok(Made {
            store: MemStore::new(alloc, never),
            names: Vec::new(alloc),
            records: Seq::new(alloc),
            versions: vec![in alloc; 1; blocks as usize]?,
            wanted: vec![in alloc; 1; blocks as usize]?,
            next_id: 1,
            now: 2,
            number: 7,
        })
    }

    fn keep(&mut self, name: Text, bytes: &[u8]) -> Result<(), NoMemory> {
        if self.store.put(name.as_str(), bytes).is_err() {
            return Err(NoMemory);
        }
        self.names.push(name)?;
        self.next_id = self.next_id.saturating_add(1);
        Ok(())
    }

    fn add_log(&mut self, alloc: Global, log: &LogFile) -> Result<(), NoMemory> {
        if !is_valid_log(log) {
            return Ok(());
        }
        let bytes = encode_log(alloc, log)?;
        let id = self.next_id;
        self.records.push(Record::Log(LogEntry {
            id,
            archived: true,
            inc: 1,
            thread: log.thread,
            sequence: log.sequence,
            first: log.first,
            next: log.next,
            size: bytes.len() as u64,
            sha: digest_of(bytes.as_slice()),
            status: Status::Available,
            keep: false,
        }))?;
        self.keep(log_name(alloc, id)?, bytes.as_slice())
    }

    // A copy of the datafile as it is, or a level 1 that looks from `from` on.
    fn piece(&self, alloc: Global, kind: Kind, from: Scn) -> Result<Piece, NoMemory> {
        let mut rows = Seq::new(alloc);
        let mut block = 0u32;
        for version in &self.versions {
            rows.push(Row {
                block,
                version: *version,
                content: content_at(*version),
            })?;
            block = block.saturating_add(1);
        }
        Ok(Piece {
            kind,
            dbid: 1,
            inc: 1,
            file: 1,
            blocks: block,
            from,
            checkpoint: self.now,
            high: self.now,
            rows: pick(alloc, rows.as_slice(), from)?,
        })
    }

    fn add_piece(&mut self, alloc: Global, kind: Kind, from: Scn) -> Result<(), NoMemory> {
        let piece = self.piece(alloc, kind, from)?;
        if !is_valid(&piece) {
            return Ok(());
        }
        let bytes = encode_piece(alloc, &piece)?;
        let id = self.next_id;
        self.records.push(Record::Piece(PieceEntry {
            id,
            copy: false,
            kind,
            inc: 1,
            file: 1,
            from,
            checkpoint: piece.checkpoint,
            high: piece.high,
            rows: u32::try_from(piece.rows.len()).unwrap_or(0),
            size: bytes.len() as u64,
            sha: digest_of(bytes.as_slice()),
            status: Status::Available,
            keep: false,
            tag: Text::from_string(String::from_str(alloc, "TAG20261127T000000")?),
            moment: 1,
        }))?;
        self.keep(piece_name(alloc, false, id)?, bytes.as_slice())
    }

    // A change of some block at the next SCN.
    fn change(&mut self, until: Scn) -> LogRecord {
        self.number = self
            .number
            .wrapping_mul(6_364_136_223_846_793_005)
            .wrapping_add(1_442_695_040_888_963_407);
        let place = (self.number >> 33) as usize;
        let place = place.checked_rem(self.versions.len()).unwrap_or(0);
        let scn = self.now;
        if let Some(version) = self.versions.get_mut(place) {
            *version = scn;
        }
        if let Some(version) = self.wanted.get_mut(place).filter(|_| scn < until) {
            *version = scn;
        }
        self.now = scn.saturating_add(1);
        LogRecord {
            scn,
            file: 1,
            block: u32::try_from(place).unwrap_or(0),
            content: content_at(scn),
        }
    }

    fn add_round(&mut self, alloc: Global, shape: Shape, round: u32) -> Result<(), NoMemory> {
        if round % 8 == 0 {
            self.add_piece(alloc, Kind::Full, 0)?;
        }
        let first = self.now;
        let (mut odd, mut even) = (Seq::new(alloc), Seq::new(alloc));
        for _ in 0..shape.changes {
            let record = self.change(shape.until);
            if record.scn % 2 == 0 {
                even.push(record)?;
            } else {
                odd.push(record)?;
            }
        }
        let next = self.now;
        self.add_log(alloc, &log(1, round, first, next, odd))?;
        if round % 5 != 2 {
            self.add_log(alloc, &log(2, round, first, next, even))?;
        }
        let from = if shape.is_cumulative { 2 } else { first };
        self.add_piece(alloc, Kind::Level1, from)
    }

    fn add_database(&mut self) -> Result<(), NoMemory> {
        self.records.push(Record::Base(BaseEntry {
            dbid: 1,
            threads: 2,
            current: 1,
            next_id: self.next_id,
            moment: 1,
            policy: Policy::Nothing,
            parallelism: 1,
            tracking: false,
        }))?;
        self.records.push(Record::Incarnation(IncarnationEntry {
            inc: 1,
            parent: 0,
            reset: 1,
            end: self.now,
        }))?;
        self.records.push(Record::Mark(MarkEntry {
            id: 1,
            moment: 1,
            inc: 1,
            scn: 1,
        }))?;
        self.records.push(Record::Datafile(DatafileEntry {
            file: 1,
            inc: 1,
            creation: 1,
            blocks: u32::try_from(self.versions.len()).unwrap_or(0),
        }))
    }
}

/// The content of a block since its change at this SCN; zero since its creation at 1.
pub fn content_at(scn: Scn) -> Block {
    content_of(scn.saturating_sub(1))
}

fn log(thread: ThreadNo, round: u32, first: Scn, next: Scn, records: Seq<LogRecord>) -> LogFile {
    LogFile {
        dbid: 1,
        inc: 1,
        thread,
        sequence: round.saturating_add(1),
        first,
        next,
        records,
    }
}

/// Makes a datafile of this shape.
pub fn made_of(alloc: Global, shape: Shape) -> Result<Made, NoMemory> {
    let mut made = Made::new(alloc, shape.blocks)?;
    for round in 0..shape.rounds {
        made.add_round(alloc, shape, round)?;
    }
    made.add_database()?;
    Ok(made)
}
