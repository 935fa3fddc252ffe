//! What a copy is asked for, and what it gives.
use rm_base::{Block, BlockNo, FileNo, Row, Scn};
use rm_track::Bits;

/// Which blocks of a datafile are wanted.
#[derive(Drop)]
pub enum Wanted {
    /// Each of its blocks, of which there are so many.
    All(u32),
    /// Those of its blocks that are in these bits, which are of as many blocks as it has.
    Blocks(Bits),
}

/// A datafile to be copied.
#[derive(Drop)]
pub struct CopyJob {
    pub file: FileNo,
    pub wanted: Wanted,
}

/// A write to be made.
#[derive(Clone, Copy, PartialEq, Eq)]
pub struct WriteJob {
    pub file: FileNo,
    pub block: BlockNo,
    pub content: Block,
}

/// What came of it: of each job its rows and how many blocks were read, and of each list of writes the
/// SCNs that they took.
#[derive(Drop)]
pub struct Work {
    pub rows: Vec<Vec<Row>>,
    pub reads: Vec<u64>,
    pub scns: Vec<Vec<Scn>>,
}

/// Where a worker stands: before so many reads of a section of a datafile, or, with file 0, before so
/// many writes of a list.
#[derive(Clone, Copy, PartialEq, Eq)]
pub struct Point {
    pub file: FileNo,
    pub section: u32,
    pub blocks: u32,
}

/// It is called once by each worker before the reads of each section, or before its writes, and may hold
/// it.
pub trait Gate: Sync {
    fn at(&self, point: Point);
}
