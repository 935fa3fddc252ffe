//! What the store has of a record that counts as available.
ghost use Rattle.std.specs.Prelude.{◌≡◌, ◌≤◌, IfOk, IsErrOf};
ghost use Rattle.rm_base.specs.Outside.{Rose};
ghost use Rattle.rm_evidence.specs.{Database.{database_in}, Names.{log_name}, Objects.{IsLogObject, IsPieceObject, IsSetObject}};
ghost use Rattle.rm_evidence.specs.{Seen.{IsSeen}, Taking.{IsTold}};

use crate::gathering::EvidenceFault;
use crate::{log_name, log_object, piece_object, set_object};
use rm_base::{Bad, NoMemory, Seq, Store};
use rm_catalog::{Catalog, LogEntry, PieceEntry, SetEntry};
use rm_piece::{Piece, Set};
use rm_redo::LogFile;
use std::alloc::Global;

// The log of the record by what stands under its name, or why it can't be used.
pub(crate) fn log_told(
    alloc: Global,
    entry: &LogEntry,
    stands: &Option<Seq<u8>>,
) -> Result<Result<LogFile, Bad>, NoMemory>
    ensures { IfOk result (IsTold (IsLogObject entry.now) stands.now) }
{
    let Some(bytes) = stands else {
        return Ok(Err(Bad::Missing));
    };
    match log_object(alloc, entry, bytes.as_slice())? {
        Some(log) => Ok(Ok(log)),
        None => Ok(Err(Bad::Damaged)),
    }
}

// The piece of the record, likewise.
pub(crate) fn piece_told(
    alloc: Global,
    entry: &PieceEntry,
    stands: &Option<Seq<u8>>,
) -> Result<Result<Piece, Bad>, NoMemory>
    ensures { IfOk result (IsTold (IsPieceObject entry.now) stands.now) }
{
    let Some(bytes) = stands else {
        return Ok(Err(Bad::Missing));
    };
    match piece_object(alloc, entry, bytes.as_slice())? {
        Some(piece) => Ok(Ok(piece)),
        None => Ok(Err(Bad::Damaged)),
    }
}

// The set of the record, likewise.
pub(crate) fn set_told(
    alloc: Global,
    catalog: &Catalog,
    entry: &SetEntry,
    stands: &Option<Seq<u8>>,
) -> Result<Result<Set, Bad>, NoMemory>
    ensures { IfOk result (IsTold (IsSetObject (database_in catalog.now) entry.now) stands.now) }
{
    let Some(bytes) = stands else {
        return Ok(Err(Bad::Missing));
    };
    match set_object(alloc, catalog, entry, bytes.as_slice())? {
        Some(set) => Ok(Ok(set)),
        None => Ok(Err(Bad::Damaged)),
    }
}

/// The log of the record as the store has it, or why it can't be used: nothing stands under its name, or what stands there
/// has not its size and SHA-256, or spells no log with its fields. An error is a fault of the store, which is counted, or
/// want of memory.
pub fn look_for_log<D: Store>(
    alloc: Global,
    store: &mut D,
    entry: &LogEntry,
) -> Result<Result<LogFile, Bad>, EvidenceFault>
    ensures told { IfOk result (λ told. IsSeen (D.held store.old) (λ h. IsTold (IsLogObject entry.now) (h (log_name entry.now.id)) told)) }
    ensures same { D.held store.new ≡ D.held store.old }
    ensures failed { IsErrOf result EvidenceFault.StoreFault → Rose (D.faults store.old) (D.faults store.new) }
    ensures never_falls { D.faults store.old ≤ D.faults store.new }
{
    let name = log_name(alloc, entry.id)?;
    let stands = store.get(name.as_str())?;
    Ok(log_told(alloc, entry, &stands)?)
}
