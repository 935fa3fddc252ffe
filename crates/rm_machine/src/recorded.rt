//! The records of a state, as a list, and the record of a log that is made.
ghost use Rattle.std.specs.Prelude.{◌≡◌, IfOk};
ghost use Rattle.rm_catalog.specs.Rules.{HasDatabase};
ghost use Rattle.rm_machine.specs.{Sound.{IsSound}, SwitchLogfile.{log_entry}};
ghost use Rattle.rm_catalog_typed.specs.TypedCatalog.{records_of};
ghost use Rattle.rm_redo.specs.LogFormat.{spelling};
ghost use Rattle.sha2.specs.Sha256.{sha256};

use crate::state::State;
use rm_base::sealed::Encoded;
use rm_base::{NoMemory, Status};
use rm_catalog::{Catalog, LogEntry};
use rm_redo::LogFile;
use std::alloc::Global;

/// The records of a database and of its saved site, as a list that ascends by kind and then id. An error is want of
/// memory.
pub fn records_of(alloc: Global, state: &State) -> Result<Catalog, NoMemory>
    requires sound { IsSound state.now }
    ensures records { IfOk result (λ records. records ≡ records_of state.now.catalog) }
    ensures database { IfOk result (λ records. HasDatabase records) }
{
    Catalog::from_valid(state.catalog.records(alloc)?)
}

/// The record of a log under this id, an archived one or a backup of one, whose object has these bytes and this digest.
pub fn log_entry(id: u32, archived: bool, log: &LogFile, encoded: &Encoded) -> LogEntry
    requires bytes { encoded.now.bytes ≡ spelling log.now }
    requires digest { encoded.now.digest ≡ sha256 (spelling log.now) }
    ensures { result ≡ record (log_entry id log.now) { archived = archived } }
{
    LogEntry {
        id,
        archived,
        inc: log.inc,
        thread: log.thread,
        sequence: log.sequence,
        first: log.first,
        next: log.next,
        size: encoded.bytes.len() as u64,
        sha: encoded.digest,
        status: Status::Available,
        keep: false,
    }
}
