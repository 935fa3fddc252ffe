//! A duplicate, as a whole.
use rm_base::{Bad, FileNo, Seq};
use rm_catalog::Record;
use rm_piece::Piece;

/// A new database of what was recovered until an SCN.
#[derive(Drop)]
pub struct Duplicate {
    /// A level 0 image copy of each datafile, which are numbered from 1 on, of incarnation 1 at that SCN.
    pub pieces: Seq<Piece>,
    /// The records, ascending by kind and then id. The copy of datafile k is `copy_k`.
    pub records: Seq<Record>,
    /// The number that each datafile had in the source.
    pub from: Seq<FileNo>,
    /// The records of the source that count as available, but whose objects are missing or damaged.
    pub skipped: Seq<(u32, Bad)>,
}
