//! The level 1s that an image copy takes over, and those that start above it.
ghost use Rattle.std.specs.{Prelude.{◌↔◌, All, IfOk, IsSomeAnd, IsTrue}, Option.{option_copied}};
ghost use Rattle.rm_catalog.specs.{Rules.{HasDatabase}, Trees.{nodes}};
ghost use Rattle.rm_evidence.specs.Known.{FitsPiece};
ghost use Rattle.rm_history.specs.Tree.{IsThere};
ghost use Rattle.rm_backup.specs.{Level1s.{IsNext, MayBeMerged, MayBeNext, MergesFirst, StartAbove, StartsAbove}, Looking.{IsPassing}};
ghost use Rattle.rm_backup.specs.Records.{piece as piece_of};

use crate::records::{is_on_path, piece};
use rm_base::{FileNo, Kind, NoMemory, Scn, Seq, Status};
use rm_catalog::{Catalog, PieceEntry, Record};
use rm_merge::meets;
use rm_piece::Piece;
use std::alloc::Global;

// Whether the record of this id is one of a level 1 with the tag that holds on the current path.
fn may_be_merged(catalog: &Catalog, file: FileNo, tag: &str, id: u32) -> bool
    requires database { HasDatabase catalog.now }
    ensures { IsTrue result ↔ IsSomeAnd (piece_of id catalog.now) (MayBeMerged catalog.now file tag.now) }
{
    match piece(catalog, id) {
        Some(entry) => {
            entry.kind == Kind::Level1
                && entry.tag.as_str() == tag
                && is_on_path(catalog, file, entry)
        }
        None => false,
    }
}

fn may_be_next(
    catalog: &Catalog,
    file: FileNo,
    tag: &str,
    until: Scn,
    copy: &Piece,
    level1: &(u32, Piece),
) -> bool
    requires database { HasDatabase catalog.now }
    requires there { IsThere (nodes catalog.now) level1.now.1.inc }
    ensures { IsTrue result ↔ MayBeNext catalog.now file tag.now until copy.now level1.now }
{
    level1.1.checkpoint <= until
        && meets(copy, &level1.1, catalog.tree())
        && may_be_merged(catalog, file, tag, level1.0)
}

// Whether x has a greater checkpoint, or the same and no greater id.
fn merges_first(x: &(u32, Piece), y: &(u32, Piece)) -> bool
    ensures { IsTrue result ↔ MergesFirst x.now y.now }
{
    y.1.checkpoint < x.1.checkpoint || (y.1.checkpoint == x.1.checkpoint && x.0 <= y.0)
}

/// Of level 1s that are at hand, each with the id of its record, the one to merge next into the copy: of
/// those of the datafile and the tag that hold on the current path, meet the copy and have a checkpoint up
/// to `until` the one of the greatest checkpoint, ties by the least id. None where there is none.
pub fn next_level1<'a>(
    catalog: &Catalog,
    file: FileNo,
    tag: &str,
    until: Scn,
    level1s: &'a [(u32, Piece)],
    copy: &Piece,
) -> Option<&'a (u32, Piece)>
    requires database { HasDatabase catalog.now }
    requires fits { All (λ x. FitsPiece (nodes catalog.now) x.1) level1s.now }
    ensures { IsNext catalog.now file tag.now until level1s.now copy.now (option_copied result) }
{
    let mut best: Option<&'a (u32, Piece)> = None;
    for level1 in level1s {
        if may_be_next(catalog, file, tag, until, copy, level1) {
            best = match best {
                Some(first) if merges_first(first, level1) => Some(first),
                _ => Some(level1),
            };
        }
    }
    best
}

// The backup of which a record tells, if it is an available level 1 of datafile and tag that starts
// above the checkpoint.
fn above<'a>(file: FileNo, tag: &str, checkpoint: Scn, row: &'a Record) -> Option<&'a PieceEntry>
    ensures { IsPassing (StartsAbove file tag.now checkpoint) row.now (option_copied result) }
{
    match row {
        Record::Piece(piece)
            if piece.file == file
                && piece.status == Status::Available
                && piece.kind == Kind::Level1
                && piece.tag.as_str() == tag
                && checkpoint < piece.from => { Some(piece) }
        _ => None,
    }
}

/// The available level 1s of a datafile with the tag that start above a checkpoint, each with the SCN
/// from which on it has the changes, ascending by id.
pub fn start_above(
    alloc: Global,
    catalog: &Catalog,
    file: FileNo,
    tag: &str,
    checkpoint: Scn,
) -> Result<Seq<(u32, Scn)>, NoMemory>
    ensures { IfOk result (StartAbove catalog.now file tag.now checkpoint) }
{
    let records = catalog.records();
    let mut found = Vec::new(alloc);
    for row in records {
        if let Some(piece) = above(file, tag, checkpoint, row) {
            found.push((piece.id, piece.from))?;
        }
    }
    Ok(Seq::from_vec(found))
}
