//! The records of a duplicate.
ghost use Rattle.std.specs.Prelude.{◌≡◌, ◌≤◌, ◌++◌, All, IfOk, OnOk, length, map};
ghost use Rattle.rm_catalog.specs.{Rules.{HasDatabase}, Switches.{began_with}};
ghost use Rattle.rm_catalog.specs.declared.record.Record.TheVariants as kind;
ghost use Rattle.rm_catalog_typed.specs.{Ledger.{datafile_record, numbered}, TypedCatalog.{records_of}};
ghost use Rattle.rm_evidence.specs.Database.{world_of};
ghost use Rattle.rm_piece.specs.Valid.{IsPiece};
ghost use Rattle.rm_dup.specs.{Copies.{as_first, copies_of}, Entries.{catalog_of, moment_in, entry_of as entry_for}};

use rm_base::{FileNo, Moment, NoMemory, Policy, Scn, Seq, Status, Text, ThreadNo};
use rm_blocks::DataFile;
use rm_catalog::{
    BaseEntry, Catalog, DatafileEntry, IncarnationEntry, MarkEntry, PieceEntry, Record,
};
use rm_evidence::{base_of, datafile};
use rm_history::Datafile;
use rm_piece::{Piece, encode_piece_with_digest};
use std::alloc::Global;

// How many threads the source began with, and the latest moment that it kept.
fn facts_of(catalog: &Catalog) -> (ThreadNo, Moment)
    ensures threads { result.0 ≡ began_with catalog.now }
    ensures moment { result.1 ≡ moment_in catalog.now }
{
    match base_of(catalog) {
        Some(base) => (base.threads, base.moment),
        None => (0, 0),
    }
}

// The datafile of this number of the source, as one of incarnation 1.
fn created_first(catalog: &Catalog, number: FileNo) -> Datafile
    ensures { result ≡ as_first (world_of catalog.now) number }
{
    match datafile(catalog, number) {
        Some(found) => Datafile {
            inc: 1,
            creation: found.creation,
            blocks: found.blocks,
        },
        None => Datafile {
            inc: 1,
            creation: 0,
            blocks: 0,
        },
    }
}

// The record of a copy.
fn entry_of(alloc: Global, moment: Moment, piece: &Piece) -> Result<PieceEntry, NoMemory>
    requires { IsPiece piece.now }
    ensures { IfOk result (λ p. p ≡ entry_for moment piece.now) }
{
    let encoded = encode_piece_with_digest(alloc, piece)?;
    Ok(PieceEntry {
        id: piece.file,
        copy: true,
        kind: piece.kind,
        inc: piece.inc,
        file: piece.file,
        from: piece.from,
        checkpoint: piece.checkpoint,
        high: piece.high,
        rows: piece.rows.len() as u32,
        size: encoded.bytes.len() as u64,
        sha: encoded.digest,
        status: Status::Available,
        keep: false,
        tag: Text::from_ascii(alloc, b"DUPLICATE")?,
        moment,
    })
}

// Adds the record of each datafile, numbered from 1 on.
fn push_files(
    records: &mut Vec<Record>,
    catalog: &Catalog,
    files: &[DataFile],
) -> Result<(), NoMemory>
    requires { length files.now ≤ 64 }
    ensures { OnOk result (records.new.items ≡ records.old.items ++ numbered datafile_record 1 (map (λ x. as_first (world_of catalog.now) x.file) files.now)) }
{
    let mut number = 1;
    for file in files {
        let created = created_first(catalog, file.file());
        records.push(Record::Datafile(DatafileEntry {
            file: number,
            inc: created.inc,
            creation: created.creation,
            blocks: created.blocks,
        }))?;
        number += 1;
    }
    Ok(())
}

// Adds the record of each copy.
fn push_copies(
    alloc: Global,
    records: &mut Vec<Record>,
    moment: Moment,
    pieces: &[Piece],
) -> Result<(), NoMemory>
    requires { All IsPiece pieces.now }
    ensures { OnOk result (records.new.items ≡ records.old.items ++ map kind.Piece (map (entry_for moment) pieces.now)) }
{
    for piece in pieces {
        records.push(Record::Piece(entry_of(alloc, moment, piece)?))?;
    }
    Ok(())
}

/// The records of the duplicate of these datafiles, which were recovered until `s`, and of which these are the
/// copies, ascending by kind and then id.
pub(crate) fn records_of_copies(
    alloc: Global,
    catalog: &Catalog,
    dbid: u32,
    s: Scn,
    files: &[DataFile],
    pieces: &[Piece],
) -> Result<Seq<Record>, NoMemory>
    requires database { HasDatabase catalog.now }
    requires few { length files.now ≤ 64 }
    requires pieces { pieces.now ≡ copies_of dbid s files.now }
    requires valid { All IsPiece pieces.now }
    ensures { IfOk result (λ rs. rs ≡ records_of (catalog_of (world_of catalog.now) dbid (moment_in catalog.now) s files.now)) }
{
    let (threads, moment) = facts_of(catalog);
    let mut records = Vec::new(alloc);
    records.push(Record::Base(BaseEntry {
        dbid,
        threads,
        current: 1,
        next_id: files.len() as u32 + 1,
        moment,
        policy: Policy::Redundancy(1),
        parallelism: 1,
        tracking: false,
    }))?;
    records.push(Record::Incarnation(IncarnationEntry {
        inc: 1,
        parent: 0,
        reset: catalog.tree().reset_of(1),
        end: s,
    }))?;
    push_files(&mut records, catalog, files)?;
    push_copies(alloc, &mut records, moment, pieces)?;
    records.push(Record::Mark(MarkEntry {
        id: 1,
        moment,
        inc: 1,
        scn: s,
    }))?;
    Ok(Seq::from_vec(records))
}
