//! The piece of a datafile, its record, its bytes and what is told of it.
ghost use Rattle.std.specs.{Prelude.{◌≡◌, ◌<◌, ◌≤◌, IfOk}, Option.{option_copied}};
ghost use Rattle.rm_base.specs.Numbers.{last_moment};
ghost use Rattle.rm_history.specs.World.{blocks_of};
ghost use Rattle.rm_machine.specs.{MadePieces.{piece_by, told_alone}, Backup.{IsTagBy, is_copy, kind_by, named_tag, rows_from, rows_in}};
ghost use Rattle.rm_machine.specs.{Sound.{IsSound}, State.{ledger, world}};
ghost use Rattle.rm_evidence.specs.Objects.{piece_entry};
ghost use Rattle.rm_piece.specs.{Spelling.{spelling}, Valid.{IsPiece}};
ghost use Rattle.rm_step_backup.specs.{Making.{made_by}, declared.reading.Read.TheVariants.{OfOne}};
ghost use Rattle.sha2.specs.Sha256.{sha256};

use crate::making::{Entry, Made};
use crate::reading::FileRead;
use rm_base::sealed::Encoded;
use rm_base::{FileNo, Kind, Moment, NoMemory, Row, Scn, Seq, Status, Text};
use rm_catalog::PieceEntry;
use rm_lang_statement::BackupForm;
use rm_machine::facts::placed;
use rm_machine::replies::{copied, packing_by, shape_by};
use rm_machine::{FileBackup, Job, State};
use rm_piece::{Piece, encode_piece_with_digest, high_of, pick};
use std::alloc::Global;

// What the backup makes of a datafile that begins here.
fn kind_by(form: &BackupForm, from: Option<Scn>) -> Kind
    ensures { result ≡ kind_by form.now from }
{
    if from.is_some() {
        Kind::Level1
    } else if form.level.is_none() {
        Kind::Full
    } else {
        Kind::Level0
    }
}

/// Whether an image copy is made of a datafile, and not a piece.
pub(crate) fn is_copy(form: &BackupForm, job: Job) -> bool
    ensures { result ≡ is_copy form.now job }
{
    job.from.is_none() && (form.copy || form.merge_tag.is_some())
}

// The tag that the backup names.
fn named_tag(form: &BackupForm) -> Option<&Text>
    ensures { option_copied result ≡ named_tag form.now }
{
    form.merge_tag.as_ref().or(form.tag.as_ref())
}

/// The tag of a backup: the one that it names, or else that of its moment. An error is want of memory.
pub(crate) fn tag_of(alloc: Global, form: &BackupForm, moment: Moment) -> Result<Text, NoMemory>
    requires { moment ≤ last_moment }
    ensures { IfOk result (IsTagBy (named_tag form.now) moment) }
{
    match named_tag(form) {
        Some(name) => copied(alloc, name),
        None => rm_moments::tag(alloc, moment),
    }
}

/// The rows that stand in place of a datafile.
pub(crate) fn rows_in(state: &State, file: FileNo) -> &[Row]
    requires sound { IsSound state.now }
    requires some { 0 < file }
    ensures { result.now ≡ rows_in state.now file }
{
    match placed(state, u64::from(file)) {
        Some(file) => file.rows(),
        None => &[],
    }
}

// The rows that a backup has which begins here.
fn rows_from(alloc: Global, from: Option<Scn>, rows: Seq<Row>) -> Result<Seq<Row>, NoMemory>
    ensures { IfOk result (λ taken. taken ≡ rows_from from rows) }
{
    match from {
        Some(from) => pick(alloc, rows.as_slice(), from),
        None => Ok(rows),
    }
}

// How many blocks a datafile has.
fn blocks_of(state: &State, file: FileNo) -> u32
    requires { 0 < file }
    ensures { result ≡ blocks_of (world state.now) file }
{
    let index = file as usize - 1;
    state.catalog.files().get(index).map_or(0, |it| it.blocks)
}

/// The piece of a datafile of which these rows were read, with this checkpoint. A level 1 has the rows of
/// versions at or above the checkpoint of its parent. An error is want of memory.
pub(crate) fn piece_of(
    alloc: Global,
    state: &State,
    form: &BackupForm,
    job: Job,
    checkpoint: Scn,
    rows: Seq<Row>,
) -> Result<Piece, NoMemory>
    requires valid { IsPiece (piece_by (ledger state.now) form.now checkpoint job rows) }
    ensures { IfOk result (λ piece. piece ≡ piece_by (ledger state.now) form.now checkpoint job rows) }
{
    let rows = rows_from(alloc, job.from, rows)?;
    let base = state.catalog.base();
    Ok(Piece {
        kind: kind_by(form, job.from),
        dbid: base.dbid,
        inc: base.current,
        file: job.file,
        blocks: blocks_of(state, job.file),
        from: job.from.unwrap_or(0),
        checkpoint,
        high: high_of(checkpoint, rows.as_slice()),
        rows,
    })
}

// The record of a piece under the next id, whose object has these bytes and this digest.
fn entry_of(
    alloc: Global,
    state: &State,
    form: &BackupForm,
    tag: &Text,
    copy: bool,
    piece: &Piece,
    encoded: &Encoded,
) -> Result<PieceEntry, NoMemory>
    requires valid { IsPiece piece.now }
    requires bytes { encoded.now.bytes ≡ spelling piece.now }
    requires digest { encoded.now.digest ≡ sha256 (spelling piece.now) }
    ensures { IfOk result (λ entry. entry ≡ piece_entry copy form.now.keep tag.now (ledger state.now).base.moment (ledger state.now).base.next_id piece.now) }
{
    let base = state.catalog.base();
    Ok(PieceEntry {
        id: base.next_id,
        copy,
        kind: piece.kind,
        inc: piece.inc,
        file: piece.file,
        from: piece.from,
        checkpoint: piece.checkpoint,
        high: piece.high,
        rows: piece.rows.len() as u32,
        size: encoded.bytes.len() as u64,
        sha: encoded.digest,
        status: Status::Available,
        keep: form.keep,
        tag: copied(alloc, tag)?,
        moment: base.moment,
    })
}

// What is told of a piece, for which so many blocks were read.
fn told_piece(copy: bool, piece: &Piece, reads: u64) -> FileBackup
    requires valid { IsPiece piece.now }
    ensures { result ≡ told_alone (record { copy = copy; piece = piece.now; reads = reads }) }
{
    FileBackup {
        packing: packing_by(copy),
        file: piece.file,
        shape: shape_by(piece.kind, piece.from),
        checkpoint: piece.checkpoint,
        rows: piece.rows.len() as u32,
        reads,
    }
}

/// The piece or the image copy of a datafile that was read, with its record and its bytes. Its rows are let go. An error is
/// want of memory.
pub(crate) fn make_piece(
    alloc: Global,
    state: &State,
    form: &BackupForm,
    tag: &Text,
    checkpoint: Scn,
    file: FileRead,
) -> Result<Made, NoMemory>
    requires valid { IsPiece (piece_by (ledger state.now) form.now checkpoint file.job file.rows) }
    ensures { IfOk result (λ made. made ≡ made_by state.now form.now tag.now checkpoint (OfOne file)) }
{
    let FileRead { job, rows } = file;
    let reads = rows.len() as u64;
    let copy = is_copy(form, job);
    let piece = piece_of(alloc, state, form, job, checkpoint, rows)?;
    let encoded = encode_piece_with_digest(alloc, &piece)?;
    let entry = entry_of(alloc, state, form, tag, copy, &piece, &encoded)?;
    let mut told = Seq::new(alloc);
    told.push(told_piece(copy, &piece, reads))?;
    Ok(Made {
        entry: Entry::OfPiece(entry),
        told,
        bytes: encoded.bytes,
    })
}
