//! The classes of records, and what a record says of its object.
ghost use Rattle.std.specs.Prelude.{◌≡◌, IfOk};
ghost use Rattle.rm_verify.specs.Classes.{is_of, object_in};

use rm_base::{Class, NoMemory, Status, Text};
use rm_catalog::Record;
use rm_evidence::{log_name, piece_name, set_name};
use std::alloc::Global;

/// What a record of a log, a piece or a set says of its object.
#[derive(Drop)]
pub struct Expected {
    pub id: u32,
    pub status: Status,
    /// The name under which it is to stand.
    pub name: Text,
}

/// Whether the record is of the class. A backup is a piece that is no image copy, a set, or a backup of a log, which is no
/// archived one.
pub fn is_of(class: Class, row: &Record) -> bool
    ensures { result ≡ is_of class row.now }
{
    match row {
        Record::Log(log) => match class {
            Class::Backup => !log.archived,
            Class::Copy => false,
            Class::Archived => log.archived,
        },
        Record::Piece(piece) => match class {
            Class::Backup => !piece.copy,
            Class::Copy => piece.copy,
            Class::Archived => false,
        },
        Record::Set(_) => match class {
            Class::Backup => true,
            Class::Copy | Class::Archived => false,
        },
        _ => false,
    }
}

// What the record says of its object. None where it is of no log, piece or set.
pub(crate) fn object_in(alloc: Global, row: &Record) -> Result<Option<Expected>, NoMemory>
    ensures { IfOk result (λ object. object ≡ object_in row.now) }
{
    match row {
        Record::Log(log) => Ok(Some(Expected {
            name: log_name(alloc, log.id)?,
            id: log.id,
            status: log.status,
        })),
        Record::Piece(piece) => Ok(Some(Expected {
            name: piece_name(alloc, piece.copy, piece.id)?,
            id: piece.id,
            status: piece.status,
        })),
        Record::Set(set) => Ok(Some(Expected {
            name: set_name(alloc, set.id)?,
            id: set.id,
            status: set.status,
        })),
        _ => Ok(None),
    }
}
