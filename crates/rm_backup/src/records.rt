//! The records of a datafile's backups.
ghost use Rattle.std.specs.{Prelude.{◌≡◌, ◌↔◌, IsTrue}, Option.{option_copied}};
ghost use Rattle.rm_catalog.specs.Rules.{HasDatabase};
ghost use Rattle.rm_backup.specs.{Looking.{IsFirstOf}, Records.{IsOnPath, piece as piece_of}};

use rm_base::{FileNo, Scn, Status, comes_first};
use rm_catalog::{Catalog, Key, PieceEntry, Record};
use rm_evidence::current_of;

/// Whether the record is one of the datafile, counts as available, and holds on the current path.
pub fn is_on_path(catalog: &Catalog, file: FileNo, piece: &PieceEntry) -> bool
    requires database { HasDatabase catalog.now }
    ensures { IsTrue result ↔ IsOnPath catalog.now file piece.now }
{
    piece.file == file
        && piece.status == Status::Available
        && catalog
            .tree()
            .is_within(piece.inc, current_of(catalog), piece.high)
}

/// The backup of this id. None where it is not there.
pub fn piece(catalog: &Catalog, id: u32) -> Option<&PieceEntry>
    ensures { option_copied result ≡ piece_of id catalog.now }
{
    match catalog.find(Key { kind: 5, id }) {
        Some(Record::Piece(entry)) => Some(entry),
        _ => None,
    }
}

/// The first of what is told of two lists of backups, by id and checkpoint.
pub fn first_of(best: Option<(u32, Scn)>, new: Option<(u32, Scn)>) -> Option<(u32, Scn)>
    ensures { IsFirstOf best new result }
{
    match new {
        Some(y) => match best {
            Some(x) => { if comes_first(x, y) { Some(x) } else { Some(y) } }
            None => Some(y),
        },
        None => best,
    }
}
