//! What is in place, as artefacts.
ghost use Rattle.std.specs.Prelude.{◌≡◌, ◌↔◌, All, IfOk, IsTrue, map};
ghost use Rattle.rm_catalog.specs.Rules.{HasDatabase};
ghost use Rattle.rm_piece.specs.Valid.{IsPiece, IsRow};
ghost use Rattle.rm_evidence.specs.{Gathered.{placed, placed_piece}, Known.{FitsLog, FitsPiece}, Place.{FitsPlace, placed_evidence}};

use crate::database::dbid_of;
use crate::evidence::{Evidence, InPlace};
use rm_base::ranges::{is_positive, is_up_to};
use rm_base::{Kind, LAST_SCN, NoMemory, Row, Seq};
use rm_blocks::DataFile;
use rm_catalog::Catalog;
use rm_history::Tree;
use rm_piece::{Piece, high_of};
use rm_redo::{LogFile, is_valid_log};
use std::alloc::Global;

// The most blocks of a datafile.
const MOST_BLOCKS: u64 = 65536;

// An equal datafile.
fn copy_file(alloc: Global, file: &DataFile) -> Result<DataFile, NoMemory>
    ensures { IfOk result (λ copy. copy ≡ file.now) }
{
    let rows = Seq::from_vec(Vec::from_slice(alloc, file.rows())?);
    Ok(DataFile::from_rows(file.file(), file.inc(), file.checkpoint(), rows))
}

// An equal log.
fn copy_log(alloc: Global, log: &LogFile) -> Result<LogFile, NoMemory>
    ensures { IfOk result (λ copy. copy ≡ log.now) }
{
    Ok(LogFile {
        records: Seq::from_vec(Vec::from_slice(alloc, log.records.as_slice())?),
        dbid: log.dbid,
        inc: log.inc,
        thread: log.thread,
        sequence: log.sequence,
        first: log.first,
        next: log.next,
    })
}

fn copy_files(alloc: Global, files: &[DataFile]) -> Result<Seq<DataFile>, NoMemory>
    ensures { IfOk result (λ copies. copies ≡ files.now) }
{
    let mut copies = Vec::new(alloc);
    for file in files {
        copies.push(copy_file(alloc, file)?)?;
    }
    Ok(Seq::from_vec(copies))
}

fn copy_logs(alloc: Global, logs: &[LogFile]) -> Result<Seq<LogFile>, NoMemory>
    ensures { IfOk result (λ copies. copies ≡ logs.now) }
{
    let mut copies = Vec::new(alloc);
    for log in logs {
        copies.push(copy_log(alloc, log)?)?;
    }
    Ok(Seq::from_vec(copies))
}

impl InPlace {
    /// An equal one.
    pub fn copied(&self, alloc: Global) -> Result<InPlace, NoMemory>
        ensures { IfOk result (λ copy. copy ≡ self.now) }
    {
        Ok(InPlace {
            files: copy_files(alloc, self.files.as_slice())?,
            logs: copy_logs(alloc, self.logs.as_slice())?,
        })
    }
}

// A datafile as a piece of the database, which takes over its rows.
fn piece_in_place(dbid: u32, file: DataFile) -> Piece
    requires { IsPiece (placed_piece dbid file) }
    ensures { result ≡ placed_piece dbid file }
{
    let blocks = file.rows().len() as u32;
    let high = high_of(file.checkpoint(), file.rows());
    Piece {
        kind: Kind::Place,
        dbid,
        inc: file.inc(),
        file: file.file(),
        blocks,
        from: 0,
        checkpoint: file.checkpoint(),
        high,
        rows: file.into_rows(),
    }
}

fn pieces_in_place(
    alloc: Global,
    dbid: u32,
    files: Seq<DataFile>,
) -> Result<Seq<(u32, Piece)>, NoMemory>
    requires { All (λ x. IsPiece (placed_piece dbid x)) files }
    ensures { IfOk result (λ pieces. pieces ≡ placed (map (placed_piece dbid) files)) }
{
    let mut pieces = Vec::new(alloc);
    for file in files.into_vec() {
        pieces.push((0, piece_in_place(dbid, file)))?;
    }
    Ok(Seq::from_vec(pieces))
}

fn logs_in_place(alloc: Global, logs: Seq<LogFile>) -> Result<Seq<(u32, LogFile)>, NoMemory>
    ensures { IfOk result (λ placed_logs. placed_logs ≡ placed logs) }
{
    let mut placed = Vec::new(alloc);
    for log in logs.into_vec() {
        placed.push((0, log))?;
    }
    Ok(Seq::from_vec(placed))
}

// What is in place, alone. Its rows and records are moved, and not copied.
pub(crate) fn in_place(alloc: Global, dbid: u32, place: InPlace) -> Result<Evidence, NoMemory>
    requires { All (λ x. IsPiece (placed_piece dbid x)) place.files }
    ensures { IfOk result (λ e. e ≡ placed_evidence dbid place) }
{
    let InPlace { files, logs } = place;
    Ok(Evidence {
        bases: pieces_in_place(alloc, dbid, files)?,
        level1s: Seq::new(alloc),
        logs: logs_in_place(alloc, logs)?,
        skipped: Seq::new(alloc),
    })
}

// A row of a datafile of so many blocks.
fn is_row(row: Row, blocks: usize) -> bool
    ensures { IsTrue result ↔ IsRow blocks 0 row }
{
    (row.block as usize) < blocks && 1 <= row.version && row.version < LAST_SCN
}

fn are_rows(rows: &[Row], blocks: usize) -> bool
    ensures { IsTrue result ↔ All (IsRow blocks 0) rows.now }
{
    rows.iter().all(|row| is_row(*row, blocks))
}

// Whether a datafile is valid as a piece of the database. Its blocks are in order.
fn is_valid_in_place(dbid: u32, file: &DataFile) -> bool
    ensures { IsTrue result ↔ IsPiece (placed_piece dbid file.now) }
{
    let rows = file.rows();
    is_positive(dbid)
        && is_positive(file.inc())
        && is_up_to(file.file() as u64, 64)
        && is_up_to(rows.len() as u64, MOST_BLOCKS)
        && is_up_to(file.checkpoint(), LAST_SCN)
        && are_rows(rows, rows.len())
}

fn fits_file(tree: &Tree, dbid: u32, file: &DataFile) -> bool
    ensures { IsTrue result ↔ FitsPiece tree.now (placed_piece dbid file.now) }
{
    is_valid_in_place(dbid, file) && tree.get(file.inc()).is_some()
}

fn fit_files(tree: &Tree, dbid: u32, files: &[DataFile]) -> bool
    ensures { IsTrue result ↔ All (λ x. FitsPiece tree.now (placed_piece dbid x)) files.now }
{
    files.iter().all(|file| fits_file(tree, dbid, file))
}

fn fits_log(tree: &Tree, log: &LogFile) -> bool
    ensures { IsTrue result ↔ FitsLog tree.now log.now }
{
    is_valid_log(log) && tree.get(log.inc).is_some()
}

fn fit_logs(tree: &Tree, logs: &[LogFile]) -> bool
    ensures { IsTrue result ↔ All (FitsLog tree.now) logs.now }
{
    logs.iter().all(|log| fits_log(tree, log))
}

/// Whether each datafile and each log in place is valid, and of an incarnation of the catalog.
pub fn fits_place(catalog: &Catalog, place: &InPlace) -> bool
    requires { HasDatabase catalog.now }
    ensures { IsTrue result ↔ FitsPlace catalog.now place.now }
{
    let tree = catalog.tree();
    fit_files(tree, dbid_of(catalog), place.files.as_slice())
        && fit_logs(tree, place.logs.as_slice())
}
