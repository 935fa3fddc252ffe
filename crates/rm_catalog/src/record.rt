//! What a record says, and the key that it stands under.
ghost use Rattle.std.specs.Prelude.{◌≡◌, ◌<◌, ◌^◌, IfOk};
ghost use Rattle.rm_catalog.specs.Keys.{key_of, place_of_key, place_of};

use rm_base::{FileNo, IncNo, Kind, Moment, NoMemory, Policy, Scn, Seq, Status, Text, ThreadNo};
use std::alloc::Global;

/// The kind of a record, 1 to 10, and its id. Each record has a key of its own.
#[derive(Clone, Copy, PartialEq, Eq)]
pub struct Key {
    pub kind: u8,
    pub id: u32,
}

/// Kind 1, id 0: the base facts of a database.
#[derive(Clone, Copy, PartialEq, Eq)]
pub struct BaseEntry {
    /// At least 1.
    pub dbid: u32,
    /// How many redo threads there are: 1 to 4.
    pub threads: ThreadNo,
    /// The current incarnation.
    pub current: IncNo,
    /// Above the id of each object.
    pub next_id: u32,
    /// The latest moment that was seen.
    pub moment: Moment,
    pub policy: Policy,
    /// How many channels there are: 1 to 16.
    pub parallelism: u32,
    /// Whether changed blocks are tracked.
    pub tracking: bool,
}

/// Kind 2: an incarnation, whose number is the id.
#[derive(Clone, Copy, PartialEq, Eq)]
pub struct IncarnationEntry {
    pub inc: IncNo,
    /// The one from which it branched off; 0 for the first.
    pub parent: IncNo,
    /// Its resetlogs SCN.
    pub reset: Scn,
    /// The SCN up to which it is known.
    pub end: Scn,
}

/// Kind 3: a datafile, whose number is the id.
#[derive(Clone, Copy, PartialEq, Eq)]
pub struct DatafileEntry {
    pub file: FileNo,
    /// The incarnation that it was created on.
    pub inc: IncNo,
    /// The SCN at which it was created.
    pub creation: Scn,
    /// How many blocks it has: 1 to 65,536.
    pub blocks: u32,
}

/// Kind 4: an archived log, or a backup of one.
#[derive(Clone, Copy, PartialEq, Eq)]
pub struct LogEntry {
    pub id: u32,
    /// False for a backup.
    pub archived: bool,
    pub inc: IncNo,
    pub thread: ThreadNo,
    /// At least 1.
    pub sequence: u32,
    /// It holds its thread's changes from this SCN on.
    pub first: Scn,
    /// It holds none at or above this SCN.
    pub next: Scn,
    /// How many bytes it has: at most 268,435,456.
    pub size: u64,
    /// The SHA-256 of its bytes.
    pub sha: [u8; 32],
    pub status: Status,
    /// Whether it is kept whatever the policy.
    pub keep: bool,
}

/// Kind 5: a backup piece, or an image copy.
#[derive(PartialEq, Eq, Drop)]
pub struct PieceEntry {
    pub id: u32,
    /// Whether it is an image copy.
    pub copy: bool,
    /// Full, level 0 or level 1.
    pub kind: Kind,
    pub inc: IncNo,
    pub file: FileNo,
    /// The SCN from which on a level 1 has the changed blocks; 0 for each other kind.
    pub from: Scn,
    pub checkpoint: Scn,
    /// The greatest SCN that it speaks of.
    pub high: Scn,
    /// How many blocks it has.
    pub rows: u32,
    /// How many bytes it has: at most 268,435,456.
    pub size: u64,
    /// The SHA-256 of its bytes.
    pub sha: [u8; 32],
    pub status: Status,
    /// Whether it is kept whatever the policy.
    pub keep: bool,
    /// 1 to 30 letters, digits and `_`.
    pub tag: Text,
    /// When it was made.
    pub moment: Moment,
}

/// Kind 6: a moment, and the SCN that was reached then.
#[derive(Clone, Copy, PartialEq, Eq)]
pub struct MarkEntry {
    /// 1, 2, 3 and so on.
    pub id: u32,
    pub moment: Moment,
    pub inc: IncNo,
    pub scn: Scn,
}

/// Kind 7: the saved part of a datafile or of a redo thread. One of both numbers is 0.
#[derive(Clone, Copy, PartialEq, Eq)]
pub struct PartEntry {
    pub id: u32,
    pub file: FileNo,
    pub thread: ThreadNo,
    /// How many bytes it has: at most 268,435,456.
    pub size: u64,
    /// The SHA-256 of its bytes.
    pub sha: [u8; 32],
}

/// Kind 8, id 0: the head of a saved site.
#[derive(Clone, Copy, PartialEq, Eq)]
pub struct HeadEntry {
    /// Whether the database was open.
    pub opened: bool,
    /// The incarnation of the point; 0 for no point.
    pub inc: IncNo,
    /// The SCN of the point; 0 for no point.
    pub scn: Scn,
}

/// What a backup set has of one datafile.
#[derive(Clone, Copy, PartialEq, Eq)]
pub struct SetPart {
    pub file: FileNo,
    /// Full, level 0 or level 1.
    pub kind: Kind,
    /// The SCN from which on a level 1 has the changed blocks; 0 for each other kind.
    pub from: Scn,
    /// The greatest SCN that it speaks of.
    pub high: Scn,
    /// How many blocks stand in the bytes. Those that were never written do not.
    pub rows: u32,
}

/// Kind 9: a backup set, one object with several datafiles.
#[derive(PartialEq, Eq, Drop)]
pub struct SetEntry {
    pub id: u32,
    pub inc: IncNo,
    pub checkpoint: Scn,
    /// 1 to 64, by ascending datafile.
    pub parts: Seq<SetPart>,
    /// How many bytes it has: at most 268,435,456.
    pub size: u64,
    /// The SHA-256 of its bytes.
    pub sha: [u8; 32],
    pub status: Status,
    /// Whether it is kept whatever the policy.
    pub keep: bool,
    /// 1 to 30 letters, digits and `_`.
    pub tag: Text,
    /// When it was made.
    pub moment: Moment,
}

/// Kind 10: from its SCN on a redo thread is enabled, or it is not.
#[derive(Clone, Copy, PartialEq, Eq)]
pub struct SwitchEntry {
    /// 1, 2, 3 and so on.
    pub id: u32,
    pub thread: ThreadNo,
    pub inc: IncNo,
    pub scn: Scn,
    /// Whether the thread is enabled from there on.
    pub on: bool,
    /// The sequence number that the thread's next log takes in that incarnation: at least 1.
    pub sequence: u32,
}

/// A record of the catalog.
#[derive(PartialEq, Eq, Drop)]
pub enum Record {
    Base(BaseEntry),
    Incarnation(IncarnationEntry),
    Datafile(DatafileEntry),
    Log(LogEntry),
    Piece(PieceEntry),
    Mark(MarkEntry),
    Part(PartEntry),
    Head(HeadEntry),
    Set(SetEntry),
    Switch(SwitchEntry),
}

/// A change of the records.
#[derive(Drop)]
pub enum Edit {
    /// Replaces the record of the same key, or adds the record.
    Put(Record),
    /// Takes away the record of this key, if it is there.
    Drop(Key),
}

impl Key {
    // The key as one number, by kind and then by id.
    pub(crate) fn place(&self) -> u64
        ensures is { result ≡ place_of_key self.now }
        ensures small { result < 2 ^ 63 }
    {
        u64::from(self.kind) * 4294967296 + u64::from(self.id)
    }
}

impl PieceEntry {
    /// An equal piece.
    pub fn copy(&self, alloc: Global) -> Result<PieceEntry, NoMemory>
        ensures { IfOk result (λ p. p ≡ self.now) }
    {
        Ok(PieceEntry {
            tag: Text::from_string(String::from_str(alloc, self.tag.as_str())?),
            id: self.id,
            copy: self.copy,
            kind: self.kind,
            inc: self.inc,
            file: self.file,
            from: self.from,
            checkpoint: self.checkpoint,
            high: self.high,
            rows: self.rows,
            size: self.size,
            sha: self.sha,
            status: self.status,
            keep: self.keep,
            moment: self.moment,
        })
    }
}

impl SetEntry {
    /// An equal set.
    pub fn copy(&self, alloc: Global) -> Result<SetEntry, NoMemory>
        ensures { IfOk result (λ s. s ≡ self.now) }
    {
        Ok(SetEntry {
            parts: Seq::from_vec(Vec::from_slice(alloc, self.parts.as_slice())?),
            tag: Text::from_string(String::from_str(alloc, self.tag.as_str())?),
            id: self.id,
            inc: self.inc,
            checkpoint: self.checkpoint,
            size: self.size,
            sha: self.sha,
            status: self.status,
            keep: self.keep,
            moment: self.moment,
        })
    }
}

impl Record {
    /// The record's key.
    pub fn key(&self) -> Key
        ensures { result ≡ key_of self.now }
    {
        let (kind, id) = match self {
            Record::Base(_) => (1, 0),
            Record::Incarnation(r) => (2, r.inc),
            Record::Datafile(r) => (3, r.file),
            Record::Log(r) => (4, r.id),
            Record::Piece(r) => (5, r.id),
            Record::Mark(r) => (6, r.id),
            Record::Part(r) => (7, r.id),
            Record::Head(_) => (8, 0),
            Record::Set(r) => (9, r.id),
            Record::Switch(r) => (10, r.id),
        };
        Key { kind, id }
    }

    /// The record's key as one number, by kind and then by id.
    pub fn place(&self) -> u64
        ensures is { result ≡ place_of self.now }
        ensures small { result < 2 ^ 63 }
    {
        self.key().place()
    }

    /// An equal record.
    pub fn copy(&self, alloc: Global) -> Result<Record, NoMemory>
        ensures { IfOk result (λ r. r ≡ self.now) }
    {
        Ok(match self {
            Record::Base(r) => Record::Base(*r),
            Record::Incarnation(r) => Record::Incarnation(*r),
            Record::Datafile(r) => Record::Datafile(*r),
            Record::Log(r) => Record::Log(*r),
            Record::Piece(r) => Record::Piece(r.copy(alloc)?),
            Record::Mark(r) => Record::Mark(*r),
            Record::Part(r) => Record::Part(*r),
            Record::Head(r) => Record::Head(*r),
            Record::Set(r) => Record::Set(r.copy(alloc)?),
            Record::Switch(r) => Record::Switch(*r),
        })
    }
}

impl Edit {
    ghost use Rattle.rm_catalog.specs.Edits.{place_of_edit};

    // The place of the key that the edit is of.
    pub(crate) fn place(&self) -> u64
        ensures is { result ≡ place_of_edit self.now }
        ensures small { result < 2 ^ 63 }
    {
        match self {
            Edit::Put(record) => record.place(),
            Edit::Drop(key) => key.place(),
        }
    }

    /// An equal edit.
    pub fn copy(&self, alloc: Global) -> Result<Edit, NoMemory>
        ensures { IfOk result (λ e. e ≡ self.now) }
    {
        Ok(match self {
            Edit::Put(record) => Edit::Put(record.copy(alloc)?),
            Edit::Drop(key) => Edit::Drop(*key),
        })
    }
}
