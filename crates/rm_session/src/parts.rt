//! What the store has of one part of a saved site.
ghost use Rattle.std.specs.Prelude.{◌≡◌, ◌≤◌, IfOk, IfSome, IsErrOf};
ghost use Rattle.rm_base.specs.Outside.{Rose};
ghost use Rattle.rm_machine.specs.Loading.{IsTheOne};
ghost use Rattle.rm_evidence.specs.Names.{site_name};
ghost use Rattle.rm_piece.specs.Valid.{IsPiece};
ghost use Rattle.rm_redo.specs.LogFormat.{IsLogFile};
ghost use Rattle.rm_session.specs.Fit.{HasLogPart, HasPiecePart, IsLogOf, IsPieceOf};

use rm_base::{FormatFault, NoMemory, Seq, Store};
use rm_catalog::PartEntry;
use rm_evidence::{EvidenceFault, recorded_body, site_name};
use rm_piece::{Piece, piece_of_body};
use rm_redo::{LogFile, log_of_body};
use std::alloc::Global;

// The piece that the bytes spell, where they have the digest of the part.
fn piece_of(alloc: Global, part: &PartEntry, bytes: &[u8]) -> Result<Option<Piece>, NoMemory>
    ensures { IfOk result (λ found. IsTheOne (IsPieceOf part.now bytes.now) found) }
{
    let Some(body) = recorded_body(bytes, part.size, &part.sha) else {
        return Ok(None);
    };
    match piece_of_body(alloc, body) {
        Ok(piece) => Ok(Some(piece)),
        Err(FormatFault::Bad) => Ok(None),
        Err(FormatFault::NoMemory) => Err(NoMemory),
    }
}

// The log that the bytes spell, where they have the digest of the part.
fn log_of(alloc: Global, part: &PartEntry, bytes: &[u8]) -> Result<Option<LogFile>, NoMemory>
    ensures { IfOk result (λ found. IsTheOne (IsLogOf part.now bytes.now) found) }
{
    let Some(body) = recorded_body(bytes, part.size, &part.sha) else {
        return Ok(None);
    };
    match log_of_body(alloc, body) {
        Ok(log) => Ok(Some(log)),
        Err(FormatFault::Bad) => Ok(None),
        Err(FormatFault::NoMemory) => Err(NoMemory),
    }
}

// What the store has under the name of the part.
fn bytes_of<D: Store>(
    alloc: Global,
    store: &mut D,
    part: &PartEntry,
) -> Result<Option<Seq<u8>>, EvidenceFault>
    ensures found { IfOk result (λ bytes. IfSome (D.held store.old) (λ h. h (site_name part.now.id) ≡ bytes)) }
    ensures same { D.held store.new ≡ D.held store.old }
    ensures failed { IsErrOf result EvidenceFault.StoreFault → Rose (D.faults store.old) (D.faults store.new) }
    ensures never_falls { D.faults store.old ≤ D.faults store.new }
{
    let name = site_name(alloc, part.id)?;
    Ok(store.get(name.as_str())?)
}

/// The piece that the store has under the name of the part, with its size and SHA-256. An error is a fault of the store,
/// which is counted, or want of memory.
pub(crate) fn load_piece<D: Store>(
    alloc: Global,
    store: &mut D,
    part: &PartEntry,
) -> Result<Option<Piece>, EvidenceFault>
    ensures told { IfOk result (λ found. IfSome (D.held store.old) (λ h. IsTheOne (HasPiecePart h part.now) found)) }
    ensures valid { IfOk result (λ found. IfSome found IsPiece) }
    ensures same { D.held store.new ≡ D.held store.old }
    ensures failed { IsErrOf result EvidenceFault.StoreFault → Rose (D.faults store.old) (D.faults store.new) }
    ensures never_falls { D.faults store.old ≤ D.faults store.new }
{
    let Some(bytes) = bytes_of(alloc, store, part)? else {
        return Ok(None);
    };
    Ok(piece_of(alloc, part, bytes.as_slice())?)
}

/// The log, likewise.
pub(crate) fn load_log<D: Store>(
    alloc: Global,
    store: &mut D,
    part: &PartEntry,
) -> Result<Option<LogFile>, EvidenceFault>
    ensures told { IfOk result (λ found. IfSome (D.held store.old) (λ h. IsTheOne (HasLogPart h part.now) found)) }
    ensures valid { IfOk result (λ found. IfSome found IsLogFile) }
    ensures same { D.held store.new ≡ D.held store.old }
    ensures failed { IsErrOf result EvidenceFault.StoreFault → Rose (D.faults store.old) (D.faults store.new) }
    ensures never_falls { D.faults store.old ≤ D.faults store.new }
{
    let Some(bytes) = bytes_of(alloc, store, part)? else {
        return Ok(None);
    };
    Ok(log_of(alloc, part, bytes.as_slice())?)
}
