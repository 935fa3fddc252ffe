//! What stands under the name of an object, where it can have a record.
ghost use Rattle.std.specs.Prelude.{◌≡◌, ◌≢◌, ◌-◌, ◌↔◌, ◌≤◌, IfNone, IfOk, IfSome, IsErrOf, IsTrue, Some, codes, false, slice_get};
ghost use Rattle.sha2.specs.Sha256.{sha256};
ghost use Rattle.rm_base.specs.Outside.{Rose};
ghost use Rattle.rm_commit.specs.declared.commit.Stop.TheVariants.{KeeperFault, StoreFault};
ghost use Rattle.rm_evidence.specs.Objects.{piece_entry};
ghost use Rattle.rm_machine.specs.{Sound.{IsSound}, State.{ledger}};
ghost use Rattle.rm_piece.specs.{Valid.{IsPiece}, declared.piece.Piece.{Piece}};
ghost use Rattle.rm_piece.specs.Spelling as piece;
ghost use Rattle.rm_redo.specs.{LogFormat.{IsLogFile}, declared.log_file.LogFile.{LogFile}};
ghost use Rattle.rm_redo.specs.LogFormat as log;
ghost use Rattle.rm_step_upkeep.specs.Catalogued.{Finds, IsBackup, IsLogHere, IsOf, IsOfDatafile, IsPieceHere, ReadsAs, id_of, inc_of, size_of, top_of};
ghost use Rattle.rm_step_upkeep.specs.declared.naming.Named.TheVariants as named;

use crate::naming::Named;
use rm_base::sealed::unseal_with_digest;
use rm_base::{FormatFault, IncNo, Kind, NoMemory, Scn, Status, Store, Text};
use rm_catalog::{LogEntry, PieceEntry};
use rm_commit::Stop;
use rm_history::Datafile;
use rm_machine::State;
use rm_piece::{Piece, piece_of_body};
use rm_redo::{LogFile, log_of_body};
use std::alloc::Global;

/// The record of what stands under a name.
#[derive(Drop)]
pub(crate) enum Entry {
    Log(LogEntry),
    Piece(PieceEntry),
}

impl Entry {
    /// Its id.
    pub(crate) fn id(&self) -> u32
        ensures { result ≡ id_of self.now }
    {
        match self {
            Entry::Log(log) => log.id,
            Entry::Piece(piece) => piece.id,
        }
    }

    /// How many bytes its object has.
    pub(crate) fn size(&self) -> u64
        ensures { result ≡ size_of self.now }
    {
        match self {
            Entry::Log(log) => log.size,
            Entry::Piece(piece) => piece.size,
        }
    }

    /// Its incarnation.
    pub(crate) fn inc(&self) -> IncNo
        ensures { result ≡ inc_of self.now }
    {
        match self {
            Entry::Log(log) => log.inc,
            Entry::Piece(piece) => piece.inc,
        }
    }

    /// The SCN up to which it tells.
    pub(crate) fn top(&self) -> Scn
        ensures { result ≡ top_of self.now }
    {
        match self {
            Entry::Log(log) => log.next,
            Entry::Piece(piece) => piece.high,
        }
    }
}

// The log that the bytes spell, and their SHA-256. None where they spell none.
fn read_log(alloc: Global, bytes: &[u8]) -> Result<Option<(LogFile, [u8; 32])>, NoMemory>
    ensures valid { IfOk result (λ o. IfSome o (λ x. IsLogFile x.0)) }
    ensures spelled { IfOk result (λ o. IfSome o (λ x. bytes.now ≡ log.spelling x.0)) }
    ensures digest { IfOk result (λ o. IfSome o (λ x. x.1 ≡ sha256 bytes.now)) }
    ensures none { IfOk result (λ o. IfNone o ((a : LogFile) → IsLogFile a → bytes.now ≢ log.spelling a)) }
{
    let Some(sealed) = unseal_with_digest(bytes) else {
        return Ok(None);
    };
    let (body, sha) = sealed;
    match log_of_body(alloc, body) {
        Ok(log) => Ok(Some((log, sha))),
        Err(FormatFault::Bad) => Ok(None),
        Err(FormatFault::NoMemory) => Err(NoMemory),
    }
}

// The piece, likewise.
fn read_piece(alloc: Global, bytes: &[u8]) -> Result<Option<(Piece, [u8; 32])>, NoMemory>
    ensures valid { IfOk result (λ o. IfSome o (λ x. IsPiece x.0)) }
    ensures spelled { IfOk result (λ o. IfSome o (λ x. bytes.now ≡ piece.spelling x.0)) }
    ensures digest { IfOk result (λ o. IfSome o (λ x. x.1 ≡ sha256 bytes.now)) }
    ensures none { IfOk result (λ o. IfNone o ((a : Piece) → IsPiece a → bytes.now ≢ piece.spelling a)) }
{
    let Some(sealed) = unseal_with_digest(bytes) else {
        return Ok(None);
    };
    let (body, sha) = sealed;
    match piece_of_body(alloc, body) {
        Ok(piece) => Ok(Some((piece, sha))),
        Err(FormatFault::Bad) => Ok(None),
        Err(FormatFault::NoMemory) => Err(NoMemory),
    }
}

// Whether the log is of the database, and of an incarnation that is there.
fn is_log_here(state: &State, log: &LogFile) -> bool
    ensures { IsTrue result ↔ IsLogHere state.now log.now }
{
    let base = state.catalog.base();
    let Some(inc) = state.catalog.tree().get(log.inc) else {
        return false;
    };
    log.dbid == base.dbid && inc.reset <= log.first && log.first < log.next
}

// Whether a piece of this kind can be recorded: a level 1 as no image copy, and what stood in place not at all.
fn is_backup(kind: Kind, copy: bool) -> bool
    ensures { IsTrue result ↔ IsBackup kind copy }
{
    match kind {
        Kind::Full | Kind::Level0 => true,
        Kind::Level1 => !copy,
        Kind::Place => false,
    }
}

// Whether the datafile was created on the piece's path, and has as many blocks as the piece says.
fn is_of_datafile(state: &State, file: Datafile, piece: &Piece) -> bool
    requires sound { IsSound state.now }
    requires there { slice_get (ledger state.now).files (piece.now.file - 1) ≡ Some file }
    ensures { IsTrue result ↔ IsOfDatafile state.now file piece.now }
{
    let tree = state.catalog.tree();
    piece.blocks == file.blocks && tree.owner(piece.inc, file.creation) == Some(file.inc)
}

// Whether the piece is of the database, and of a datafile that is there.
fn is_piece_here(state: &State, copy: bool, piece: &Piece) -> bool
    requires sound { IsSound state.now }
    requires valid { IsPiece piece.now }
    ensures { IsTrue result ↔ IsPieceHere state.now copy piece.now }
{
    let Some(file) = state.catalog.files().get(piece.file as usize - 1) else {
        return false;
    };
    piece.dbid == state.catalog.base().dbid
        && is_of_datafile(state, *file, piece)
        && is_backup(piece.kind, copy)
}

// The record of the log that the bytes spell, under this id. None where it can't have one.
fn log_in(alloc: Global, state: &State, id: u32, bytes: &[u8]) -> Result<Option<Entry>, NoMemory>
    requires sound { IsSound state.now }
    ensures { IfOk result (ReadsAs state.now (named.Log id) bytes.now) }
{
    let Some(read) = read_log(alloc, bytes)? else {
        return Ok(None);
    };
    let (log, sha) = (&read.0, read.1);
    if !is_log_here(state, log) {
        return Ok(None);
    }
    Ok(Some(Entry::Log(LogEntry {
        id,
        archived: true,
        inc: log.inc,
        thread: log.thread,
        sequence: log.sequence,
        first: log.first,
        next: log.next,
        size: bytes.len() as u64,
        sha,
        status: Status::Available,
        keep: false,
    })))
}

// The record of a piece under this id, of so many bytes and this SHA-256.
fn piece_entry(
    alloc: Global,
    state: &State,
    copy: bool,
    id: u32,
    piece: &Piece,
    size: u64,
    sha: [u8; 32],
) -> Result<PieceEntry, NoMemory>
    requires valid { IsPiece piece.now }
    ensures { IfOk result (λ p. p ≡ record (piece_entry copy false (codes "CATALOGUED") (ledger state.now).base.moment id piece.now) { size = size; sha = sha }) }
{
    Ok(PieceEntry {
        id,
        copy,
        kind: piece.kind,
        inc: piece.inc,
        file: piece.file,
        from: piece.from,
        checkpoint: piece.checkpoint,
        high: piece.high,
        rows: piece.rows.len() as u32,
        size,
        sha,
        status: Status::Available,
        keep: false,
        tag: Text::from_string(String::from_str(alloc, "CATALOGUED")?),
        moment: state.catalog.base().moment,
    })
}

// The record of the piece or image copy that the bytes spell, likewise.
fn piece_in(
    alloc: Global,
    state: &State,
    copy: bool,
    id: u32,
    bytes: &[u8],
) -> Result<Option<Entry>, NoMemory>
    requires sound { IsSound state.now }
    ensures { IfOk result (ReadsAs state.now (named.Piece copy id) bytes.now) }
{
    let Some(read) = read_piece(alloc, bytes)? else {
        return Ok(None);
    };
    let (piece, sha) = (&read.0, read.1);
    if !is_piece_here(state, copy, piece) {
        return Ok(None);
    }
    let size = bytes.len() as u64;
    let entry = piece_entry(alloc, state, copy, id, piece, size, sha)?;
    Ok(Some(Entry::Piece(entry)))
}

// The record of what the bytes spell, if it is what the name is of and can have one.
fn entry_in(
    alloc: Global,
    state: &State,
    named: Named,
    bytes: &[u8],
) -> Result<Option<Entry>, NoMemory>
    requires sound { IsSound state.now }
    ensures { IfOk result (ReadsAs state.now named bytes.now) }
{
    match named {
        Named::Log(id) => log_in(alloc, state, id, bytes),
        Named::Piece { copy, id } => piece_in(alloc, state, copy, id, bytes),
    }
}

/// The record of what the store has under the name, which is of this: a valid log, or a valid piece or image copy, of the
/// database, that obeys the rules of records once its incarnation ends no lower than it tells. None where there is no such object.
/// An error is a stop: a fault of the store, which is counted, or want of memory.
pub(crate) fn find<D: Store>(
    alloc: Global,
    state: &State,
    store: &mut D,
    name: &Text,
    named: Named,
) -> Result<Option<Entry>, Stop>
    requires sound { IsSound state.now }
    requires named { IsOf name.now named }
    ensures finds { IfOk result (Finds (D.held store.old) state.now name.now) }
    ensures same { D.held store.new ≡ D.held store.old }
    ensures store { IsErrOf result StoreFault → Rose (D.faults store.old) (D.faults store.new) }
    ensures keeper { ¬ IsErrOf result KeeperFault }
    ensures never_falls { D.faults store.old ≤ D.faults store.new }
{
    let Some(bytes) = store.get(name.as_str())? else {
        return Ok(None);
    };
    Ok(entry_in(alloc, state, named, bytes.as_slice())?)
}
