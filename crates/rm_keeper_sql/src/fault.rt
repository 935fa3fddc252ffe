//! Why a call fails, and how that is told.
ghost use Rattle.std.specs.Prelude.{◌≡◌, ◌↔◌};
ghost use Rattle.rm_catalog.specs.declared.keeper.KeeperFail.TheVariants.{NoMemory as WantOfMemory};
ghost use Rattle.rm_keeper_sql.specs.Faults.{WantsMemory};

use rm_base::NoMemory;
use rm_catalog::KeeperFail;
use sqlite::{Error, ErrorCode};
use std::alloc::Global;
use std::{fmt, io};

/// Why a call fails.
#[derive(Clone, Copy)]
pub(crate) enum Fault {
    NoMemory,
    /// The file can't be made.
    System(io::Error),
    Sqlite(Error),
    /// The file has something in it, and not the table.
    NotOurs,
    /// A row of the table spells no record.
    NoRecord,
}

impl From<NoMemory> for Fault {
    fn from(_: NoMemory) -> Fault {
        Fault::NoMemory
    }
}

impl From<Error> for Fault {
    fn from(error: Error) -> Fault {
        Fault::Sqlite(error)
    }
}

impl fmt::Display for Fault {
    fn fmt<W: fmt::Write>(&self, f: &mut fmt::Formatter<W>) -> fmt::Result {
        match self {
            Fault::NoMemory => f.write_str("out of memory"),
            Fault::System(error) => write!(f, "{error}"),
            Fault::Sqlite(error) => write!(f, "{error}"),
            Fault::NotOurs => f.write_str("the tables in it are not those of a catalog"),
            Fault::NoRecord => f.write_str("a row of its table is no record"),
        }
    }
}

/// Want of memory is no failure, and nothing else is want of memory.
pub(crate) fn fail_of(fault: Fault) -> KeeperFail
    ensures memory { result ≡ WantOfMemory ↔ WantsMemory fault }
{
    match fault {
        Fault::NoMemory => KeeperFail::NoMemory,
        Fault::System(error) if error.kind() == io::ErrorKind::OutOfMemory => KeeperFail::NoMemory,
        Fault::Sqlite(Error::SqliteFailure(ErrorCode::OutOfMemory)) => KeeperFail::NoMemory,
        _ => KeeperFail::Failed,
    }
}

/// The fault in words, where memory is left for them.
pub(crate) fn words_of(alloc: Global, fault: Fault) -> Option<String> {
    match format!(in alloc; "{fault}") {
        Ok(words) => Some(words),
        Err(_) => None,
    }
}
