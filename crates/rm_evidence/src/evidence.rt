//! What recovery may take into account.
use rm_base::{Bad, Seq};
use rm_blocks::DataFile;
use rm_piece::Piece;
use rm_redo::LogFile;

/// What is in place: the datafiles and the online logs that are not lost.
#[derive(Drop)]
pub struct InPlace {
    pub files: Seq<DataFile>,
    pub logs: Seq<LogFile>,
}

/// The artefacts that are at hand, each with the id of its object, or 0 where it is in place, ascending
/// by id. The pieces of a set stand under its id, ascending by datafile.
#[derive(Drop)]
pub struct Evidence {
    /// Full and level 0 backups, image copies, and datafiles in place.
    pub bases: Seq<(u32, Piece)>,
    pub level1s: Seq<(u32, Piece)>,
    /// Archived logs, backups of logs, and online logs.
    pub logs: Seq<(u32, LogFile)>,
    /// The records that count as available, but whose objects are missing or damaged.
    pub skipped: Seq<(u32, Bad)>,
}
