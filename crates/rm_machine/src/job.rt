//! What a BACKUP makes of a datafile, and tells of it.
use rm_base::{FileNo, Scn};
use rm_report::{Packing, Shape};

/// A datafile that is backed up.
#[derive(Clone, Copy, PartialEq, Eq)]
pub struct Job {
    pub file: FileNo,
    /// The checkpoint of its parent, from which on a level 1 has the changes. None where all blocks are backed up.
    pub from: Option<Scn>,
}

/// What the line of a datafile that is backed up tells beside the id of its object.
#[derive(Clone, Copy)]
pub struct FileBackup {
    pub packing: Packing,
    pub file: FileNo,
    pub shape: Shape,
    pub checkpoint: Scn,
    /// How many rows stand in the bytes of the object.
    pub rows: u32,
    /// How many blocks were read.
    pub reads: u64,
}
