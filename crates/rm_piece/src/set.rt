//! A set of pieces, which is what a backup took of several datafiles.
use crate::piece::Piece;
use rm_base::{IncNo, Scn, Seq};

/// What a set holds of one datafile.
#[derive(Drop)]
pub struct SetFile {
    /// The SCN at which the datafile was created, at least 1 and below the checkpoint. A block that was never
    /// written has this version, and zero bytes.
    pub creation: Scn,
    /// A backup of any kind but of a datafile in place.
    pub piece: Piece,
}

/// Pieces of different datafiles, all of one database, incarnation and checkpoint. Where there is none, the
/// three may be any numbers.
#[derive(Drop)]
pub struct Set {
    /// The database, at least 1.
    pub dbid: u32,
    /// The incarnation in which it was taken, at least 1.
    pub inc: IncNo,
    /// The SCN below which the rows of each member tell its datafile.
    pub checkpoint: Scn,
    /// At most 64, by ascending datafile, with at most 131,072 blocks together.
    pub members: Seq<SetFile>,
}
