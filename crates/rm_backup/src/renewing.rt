//! What RECOVER COPY makes of a datafile's image copy.
ghost use Rattle.std.specs.{Prelude.{◌≡◌, ◌≤◌, All, IfNone, IfOk, IfSome, None}, Option.{option_copied, option_map_or}};
ghost use Rattle.rm_catalog.specs.{Rules.{HasDatabase}, Trees.{nodes}};
ghost use Rattle.rm_evidence.specs.Known.{FitsPiece, FitsTree};
ghost use Rattle.rm_piece.specs.Valid.{IsPiece};
ghost use Rattle.rm_backup.specs.{Level1s.{IsEnd}, Renewed.{IsMerged, IsRenewed, copy_at as copy_of}, Taken.{IsTaken}};

use crate::copies::last_copy;
use crate::level1s::{next_level1, start_above};
use rm_base::{FileNo, NoMemory, Scn, Seq};
use rm_catalog::Catalog;
use rm_evidence::Evidence;
use rm_merge::take_over;
use rm_piece::Piece;
use std::alloc::Global;

/// What became of the image copy of a datafile.
#[derive(Drop)]
pub struct Renewed {
    /// The id of the copy that was taken.
    pub id: u32,
    /// The copy after all merges. None where it stays.
    pub merged: Option<Piece>,
    /// The checkpoint of the copy after all merges, or of the one that stays.
    pub checkpoint: Scn,
    /// The available level 1s that start above that checkpoint, each with the SCN from which on it has the
    /// changes, ascending by id.
    pub above: Seq<(u32, Scn)>,
}

// The copy after all merges, in its own memory.
fn merge_all(
    catalog: &Catalog,
    file: FileNo,
    tag: &str,
    until: Scn,
    level1s: &[(u32, Piece)],
    copy: Piece,
) -> Piece
    requires database { HasDatabase catalog.now }
    requires copy { IsPiece copy }
    requires fits { All (λ x. FitsPiece (nodes catalog.now) x.1) level1s.now }
    ensures end { IsEnd catalog.now file tag.now until level1s.now copy result }
    ensures valid { IsPiece result }
    ensures risen { copy.checkpoint ≤ result.checkpoint }
{
    let mut now = copy;
    while let Some(level1) = next_level1(catalog, file, tag, until, level1s, &now) {
        now = take_over(now, &level1.1);
    }
    now
}

// The copy of this id. None where it is not at hand.
fn copy_at(bases: &[(u32, Piece)], id: u32) -> Option<&Piece>
    ensures { option_copied result ≡ copy_of bases.now id }
{
    let base = bases.iter().find(|base| base.0 == id)?;
    Some(&base.1)
}

// The copy of this id after all merges. None where it stays: it is not at hand, or no level 1 may be
// merged.
fn merged_copy(
    alloc: Global,
    catalog: &Catalog,
    evidence: &Evidence,
    file: FileNo,
    tag: &str,
    until: Scn,
    id: u32,
) -> Result<Option<Piece>, NoMemory>
    requires database { HasDatabase catalog.now }
    requires fits { FitsTree (nodes catalog.now) evidence.now }
    ensures { IfOk result (IsMerged catalog.now file tag.now until evidence.now.level1s (copy_of evidence.now.bases id)) }
{
    let Some(copy) = copy_at(evidence.bases.as_slice(), id) else {
        return Ok(None);
    };
    let level1s = evidence.level1s.as_slice();
    let Some(first) = next_level1(catalog, file, tag, until, level1s, copy) else {
        return Ok(None);
    };
    let merged = take_over(copy.copy(alloc)?, &first.1);
    Ok(Some(merge_all(catalog, file, tag, until, level1s, merged)))
}

/// What RECOVER COPY makes of the image copy of a datafile with a tag, by what is at hand: while some
/// available level 1 with the tag may be merged and has a checkpoint up to `until`, the one that
/// `next_level1` chooses is merged. None where no copy is taken.
///
/// A level 1 is judged by its checkpoint and not by its high. One that was made while the database wrote
/// may have rows of versions at and above `until`, and in the merged copy they stand in place of older
/// ones. So a target up to `until` that the copy alone told, without older logs, may have a gap after the
/// merge.
pub fn recover_copy(
    alloc: Global,
    catalog: &Catalog,
    evidence: &Evidence,
    file: FileNo,
    tag: &str,
    until: Scn,
) -> Result<Option<Renewed>, NoMemory>
    requires database { HasDatabase catalog.now }
    requires fits { FitsTree (nodes catalog.now) evidence.now }
    ensures none { IfOk result (λ o. IfNone o (IsTaken catalog.now file tag.now None)) }
    ensures renewed { IfOk result (λ o. IfSome o (IsRenewed catalog.now evidence.now file tag.now until)) }
{
    let Some((id, was)) = last_copy(catalog, file, tag) else {
        return Ok(None);
    };
    let merged = merged_copy(alloc, catalog, evidence, file, tag, until, id)?;
    let checkpoint = checkpoint_after(&merged, was);
    Ok(Some(Renewed {
        id,
        merged,
        checkpoint,
        above: start_above(alloc, catalog, file, tag, checkpoint)?,
    }))
}

// The checkpoint of the merged copy, or of the one that stays.
fn checkpoint_after(merged: &Option<Piece>, was: Scn) -> Scn
    ensures { result ≡ option_map_or (λ last. last.checkpoint) merged.now was }
{
    match merged {
        Some(last) => last.checkpoint,
        None => was,
    }
}
