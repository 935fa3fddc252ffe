//! Objects from their bytes.
ghost use Rattle.std.specs.Prelude.{◌≡◌, ◌≢◌, ◌↔◌, List, ℕ, IfNone, IfOk, IfSome, IsTrue};
ghost use Rattle.rm_base.specs.Sealed.{sealed};
ghost use Rattle.rm_piece.specs.declared.piece.Piece.{Piece};
ghost use Rattle.rm_redo.specs.declared.log_file.LogFile.{LogFile};
ghost use Rattle.rm_evidence.specs.Objects.{HasDigest, HasLogFields, HasPieceFields, IsLogObject, IsPieceObject};

use rm_base::sealed::unseal_with_digest;
use rm_base::{FormatFault, NoMemory};
use rm_catalog::{LogEntry, PieceEntry};
use rm_piece::{Piece, piece_of_body};
use rm_redo::{LogFile, log_of_body};
use std::alloc::Global;

/// What stands before the seal, where the bytes are sealed and have this size in bytes and this SHA-256. They are hashed once, and not
/// at all where the size is another.
pub fn recorded_body<'a>(bytes: &'a [u8], size: u64, sha: &[u8; 32]) -> Option<&'a [u8]>
    ensures sealed { IfSome result (λ body. bytes.now ≡ sealed body.now) }
    ensures digest { IfSome result (λ _. HasDigest bytes.now size sha.now) }
    ensures none { IfNone result (HasDigest bytes.now size sha.now → (body : List ℕ) → bytes.now ≢ sealed body) }
{
    if bytes.len() as u64 != size {
        return None;
    }
    let (body, digest) = unseal_with_digest(bytes)?;
    if digest.as_slice() == sha.as_slice() {
        Some(body)
    } else {
        None
    }
}

// Whether the log has the fields that its record has.
fn has_log_fields(entry: &LogEntry, log: &LogFile) -> bool
    ensures { IsTrue result ↔ HasLogFields entry.now log.now }
{
    log.inc == entry.inc
        && log.thread == entry.thread
        && log.sequence == entry.sequence
        && log.first == entry.first
        && log.next == entry.next
}

/// The log that the bytes spell. None where they are not the object of the record.
pub fn log_object(
    alloc: Global,
    entry: &LogEntry,
    bytes: &[u8],
) -> Result<Option<LogFile>, NoMemory>
    ensures some { IfOk result (λ found. IfSome found (λ log. IsLogObject entry.now bytes.now log)) }
    ensures none { IfOk result (λ found. IfNone found ((log : LogFile) → ¬ IsLogObject entry.now bytes.now log)) }
{
    let Some(body) = recorded_body(bytes, entry.size, &entry.sha) else {
        return Ok(None);
    };
    match log_of_body(alloc, body) {
        Ok(log) => {
            if has_log_fields(entry, &log) {
                Ok(Some(log))
            } else {
                Ok(None)
            }
        }
        Err(FormatFault::Bad) => Ok(None),
        Err(FormatFault::NoMemory) => Err(NoMemory),
    }
}

// Whether the piece has the fields that its record has.
fn has_piece_fields(entry: &PieceEntry, piece: &Piece) -> bool
    ensures { IsTrue result ↔ HasPieceFields entry.now piece.now }
{
    piece.kind == entry.kind
        && piece.inc == entry.inc
        && piece.file == entry.file
        && piece.from == entry.from
        && piece.checkpoint == entry.checkpoint
        && piece.high == entry.high
        && piece.rows.len() == entry.rows as usize
}

/// The piece that the bytes spell. None where they are not the object of the record.
pub fn piece_object(
    alloc: Global,
    entry: &PieceEntry,
    bytes: &[u8],
) -> Result<Option<Piece>, NoMemory>
    ensures some { IfOk result (λ found. IfSome found (λ piece. IsPieceObject entry.now bytes.now piece)) }
    ensures none { IfOk result (λ found. IfNone found ((piece : Piece) → ¬ IsPieceObject entry.now bytes.now piece)) }
{
    let Some(body) = recorded_body(bytes, entry.size, &entry.sha) else {
        return Ok(None);
    };
    match piece_of_body(alloc, body) {
        Ok(piece) => {
            if has_piece_fields(entry, &piece) {
                Ok(Some(piece))
            } else {
                Ok(None)
            }
        }
        Err(FormatFault::Bad) => Ok(None),
        Err(FormatFault::NoMemory) => Err(NoMemory),
    }
}
