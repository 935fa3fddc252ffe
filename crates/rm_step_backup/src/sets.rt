//! A backup set of datafiles, its record, its bytes and what is told of it.
ghost use Rattle.std.specs.Prelude.{◌≡◌, ◌++◌, All, IfOk, OnOk, length, map};
ghost use Rattle.rm_machine.specs.{Backup.{part_of}, MadeSets.{member_by, set_entry_for, set_of, told_member}, State.{ledger}};
ghost use Rattle.rm_piece.specs.{SetSpelling.{set_spelling, spelled}, Sets.{IsSet}, Valid.{IsPiece}};
ghost use Rattle.rm_step_backup.specs.{Making.{made_by, member_of}, declared.reading.Read.TheVariants.{OfSeveral}};
ghost use Rattle.sha2.specs.Sha256.{sha256};

use crate::making::{Entry, Made};
use crate::pieces::piece_of;
use crate::reading::FileRead;
use rm_base::sealed::Encoded;
use rm_base::{NoMemory, Row, Scn, Seq, Status, Text};
use rm_catalog::{SetEntry, SetPart};
use rm_lang_statement::BackupForm;
use rm_machine::facts::creation_of;
use rm_machine::replies::{copied, shape_by};
use rm_machine::{FileBackup, Job, State};
use rm_piece::{Set, SetFile, count_written, encode_set_with_digest, risen_rows};
use rm_report::Packing;
use std::alloc::Global;

/// The member of a datafile of which these rows were read, with this checkpoint. An error is want of memory.
pub(crate) fn member_of(
    alloc: Global,
    state: &State,
    form: &BackupForm,
    job: Job,
    checkpoint: Scn,
    rows: &[Row],
) -> Result<SetFile, NoMemory>
    requires valid { IsPiece (member_by (ledger state.now) form.now checkpoint job rows.now).piece }
    ensures { IfOk result (λ member. member ≡ member_by (ledger state.now) form.now checkpoint job rows.now) }
{
    let creation = creation_of(state, job.file);
    let risen = risen_rows(alloc, rows, creation)?;
    let piece = piece_of(alloc, state, form, job, checkpoint, risen)?;
    Ok(SetFile { creation, piece })
}

// How many rows of a member stand in the bytes of its set.
fn spelled_rows(member: &SetFile) -> u32
    requires { IsPiece member.now.piece }
    ensures { result ≡ length (spelled member.now) }
{
    count_written(member.piece.rows.as_slice(), member.creation) as u32
}

// What is told of a member of a set, for which so many blocks were read.
fn told_member(member: &SetFile, reads: u64) -> FileBackup
    requires valid { IsPiece member.now.piece }
    ensures { result ≡ told_member (record { member = member.now; reads = reads }) }
{
    let piece = &member.piece;
    FileBackup {
        packing: Packing::Set,
        file: piece.file,
        shape: shape_by(piece.kind, piece.from),
        checkpoint: piece.checkpoint,
        rows: spelled_rows(member),
        reads,
    }
}

// The members of datafiles that were read. What is told of them is added.
fn members_of(
    alloc: Global,
    state: &State,
    told: &mut Seq<FileBackup>,
    form: &BackupForm,
    checkpoint: Scn,
    files: Vec<FileRead>,
) -> Result<Seq<SetFile>, NoMemory>
    requires valid { All (λ x. IsPiece x.member.piece) (map (member_of (ledger state.now) form.now checkpoint) files.items) }
    ensures members { IfOk result (λ members. members ≡ map (λ x. x.member) (map (member_of (ledger state.now) form.now checkpoint) files.items)) }
    ensures told { OnOk result (told.new ≡ told.old ++ map told_member (map (member_of (ledger state.now) form.now checkpoint) files.items)) }
{
    let mut members = Seq::new(alloc);
    for file in files {
        let rows = file.rows.as_slice();
        let member = member_of(alloc, state, form, file.job, checkpoint, rows)?;
        told.push(told_member(&member, rows.len() as u64))?;
        members.push(member)?;
    }
    Ok(members)
}

// What the record of a set says of a member.
fn part_of(member: &SetFile) -> SetPart
    requires { IsPiece member.now.piece }
    ensures { result ≡ part_of member.now }
{
    let piece = &member.piece;
    SetPart {
        file: piece.file,
        kind: piece.kind,
        from: piece.from,
        high: piece.high,
        rows: spelled_rows(member),
    }
}

// What it says of each of them.
fn parts_of(alloc: Global, members: &[SetFile]) -> Result<Seq<SetPart>, NoMemory>
    requires { All (λ m. IsPiece m.piece) members.now }
    ensures { IfOk result (λ parts. parts ≡ map part_of members.now) }
{
    let mut parts = Seq::new(alloc);
    for member in members {
        parts.push(part_of(member))?;
    }
    Ok(parts)
}

// The record of a set under the next id, whose object has these bytes and this digest.
fn entry_of(
    alloc: Global,
    state: &State,
    form: &BackupForm,
    tag: &Text,
    set: &Set,
    encoded: &Encoded,
) -> Result<SetEntry, NoMemory>
    requires valid { IsSet set.now }
    requires bytes { encoded.now.bytes ≡ set_spelling set.now }
    requires digest { encoded.now.digest ≡ sha256 (set_spelling set.now) }
    ensures { IfOk result (λ entry. entry ≡ set_entry_for state.now form.now tag.now set.now) }
{
    let base = state.catalog.base();
    Ok(SetEntry {
        id: base.next_id,
        inc: set.inc,
        checkpoint: set.checkpoint,
        parts: parts_of(alloc, set.members.as_slice())?,
        size: encoded.bytes.len() as u64,
        sha: encoded.digest,
        status: Status::Available,
        keep: form.keep,
        tag: copied(alloc, tag)?,
        moment: base.moment,
    })
}

/// The set of datafiles that were read, with its record and its bytes. Their rows are let go. An error is want of memory.
pub(crate) fn make_set(
    alloc: Global,
    state: &State,
    form: &BackupForm,
    tag: &Text,
    checkpoint: Scn,
    files: Seq<FileRead>,
) -> Result<Made, NoMemory>
    requires valid { IsSet (set_of (ledger state.now) checkpoint (map (member_of (ledger state.now) form.now checkpoint) files)) }
    ensures { IfOk result (λ made. made ≡ made_by state.now form.now tag.now checkpoint (OfSeveral files)) }
{
    let files = files.into_vec();
    let mut told = Seq::new(alloc);
    let members = members_of(alloc, state, &mut told, form, checkpoint, files)?;
    let base = state.catalog.base();
    let set = Set {
        dbid: base.dbid,
        inc: base.current,
        checkpoint,
        members,
    };
    let encoded = encode_set_with_digest(alloc, &set)?;
    let entry = entry_of(alloc, state, form, tag, &set, &encoded)?;
    Ok(Made {
        entry: Entry::OfSet(entry),
        told,
        bytes: encoded.bytes,
    })
}
