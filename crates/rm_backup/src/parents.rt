//! The parents of level 1s.
ghost use Rattle.std.specs.{Prelude.{◌≡◌, ◌↔◌, ◌∷◌, [], false, map, IsSome, IsTrue}, Option.{option_copied}};
ghost use Rattle.rm_catalog.specs.{Keys.{part_piece}, Rules.{HasDatabase}};
ghost use Rattle.rm_backup.specs.{Looking.{TellsFirst}, Parents.{IsLevel, IsOfTag, IsParent, IsTagged, MayBeParent, among}};

use crate::records::{first_of, is_on_path};
use rm_base::{FileNo, Kind, Scn, Status};
use rm_catalog::{Catalog, PieceEntry, Record, SetEntry, SetPart};
use rm_evidence::current_of;

fn is_level(cumulative: bool, kind: Kind) -> bool
    ensures { IsTrue result ↔ IsLevel cumulative kind }
{
    match kind {
        Kind::Level0 => true,
        Kind::Level1 => !cumulative,
        Kind::Full | Kind::Place => false,
    }
}

// Whether it has the tag, and is an image copy if it is a level 0.
fn is_of_tag(tag: &str, piece: &PieceEntry) -> bool
    ensures { IsTrue result ↔ IsOfTag tag.now piece.now }
{
    piece.tag.as_str() == tag && (piece.kind != Kind::Level0 || piece.copy)
}

fn is_tagged(tag: Option<&str>, piece: &PieceEntry) -> bool
    ensures { IsTrue result ↔ IsTagged (option_copied tag.entry) piece.now }
{
    match tag {
        Some(tag) => is_of_tag(tag, piece),
        None => true,
    }
}

// The id and the checkpoint of a piece or an image copy, if it may be the parent.
fn own(
    catalog: &Catalog,
    file: FileNo,
    cumulative: bool,
    tag: Option<&str>,
    piece: &PieceEntry,
) -> Option<(u32, Scn)>
    requires database { HasDatabase catalog.now }
    ensures { TellsFirst (MayBeParent catalog.now file cumulative (option_copied tag.entry)) (piece.now ∷ []) result }
{
    if is_level(cumulative, piece.kind)
        && is_tagged(tag, piece)
        && is_on_path(catalog, file, piece)
    {
        Some((piece.id, piece.checkpoint))
    } else {
        None
    }
}

// Whether this part of the set may be the parent.
fn may_be_parent(
    catalog: &Catalog,
    file: FileNo,
    cumulative: bool,
    set: &SetEntry,
    part: &SetPart,
) -> bool
    requires database { HasDatabase catalog.now }
    ensures { IsTrue result ↔ MayBeParent catalog.now file cumulative None (part_piece set.now part.now) }
{
    part.file == file
        && is_level(cumulative, part.kind)
        && set.status == Status::Available
        && catalog
            .tree()
            .is_within(set.inc, current_of(catalog), part.high)
}

// The id and the checkpoint of a set, if a part of it may be the parent.
fn of_set(catalog: &Catalog, file: FileNo, cumulative: bool, set: &SetEntry) -> Option<(u32, Scn)>
    requires database { HasDatabase catalog.now }
    ensures { TellsFirst (MayBeParent catalog.now file cumulative None) (map (part_piece set.now) set.now.parts) result }
{
    for part in set.parts.as_slice() {
        if may_be_parent(catalog, file, cumulative, set, part) {
            return Some((set.id, set.checkpoint));
        }
    }
    None
}

// The id and the checkpoint of the record, if what it tells of may be the parent. With a tag no set is.
fn candidate(
    catalog: &Catalog,
    file: FileNo,
    cumulative: bool,
    tag: Option<&str>,
    row: &Record,
) -> Option<(u32, Scn)>
    requires database { HasDatabase catalog.now }
    ensures { TellsFirst (MayBeParent catalog.now file cumulative (option_copied tag.entry)) (among (option_copied tag.entry) (row.now ∷ [])) result }
{
    match row {
        Record::Piece(piece) => own(catalog, file, cumulative, tag, piece),
        Record::Set(set) if tag.is_none() => of_set(catalog, file, cumulative, set),
        _ => None,
    }
}

// Of what may be the parent the one of the greatest checkpoint, ties by the greatest id.
fn last(catalog: &Catalog, file: FileNo, cumulative: bool, tag: Option<&str>) -> Option<(u32, Scn)>
    requires database { HasDatabase catalog.now }
    ensures { TellsFirst (MayBeParent catalog.now file cumulative (option_copied tag.entry)) (among (option_copied tag.entry) catalog.now) result }
{
    let records = catalog.records();
    let mut best = None;
    for row in records {
        best = first_of(best, candidate(catalog, file, cumulative, tag, row));
    }
    best
}

/// The id and the checkpoint of the parent of a level 1: of the available level 0s and level 1s of the
/// datafile (of the level 0s alone, where it is cumulative) that hold on the current path the one of the
/// greatest checkpoint, ties by the greatest id. A set counts by its part of the datafile. With a tag it is
/// chosen among the image copies of level 0 and the level 1s with the tag that are no part of a set, where
/// one of these copies may be it. None where a level 0 is to be made.
pub fn parent(
    catalog: &Catalog,
    file: FileNo,
    cumulative: bool,
    tag: Option<&str>,
) -> Option<(u32, Scn)>
    requires database { HasDatabase catalog.now }
    requires plain { IsSome tag → cumulative ≡ false }
    ensures { IsParent catalog.now file cumulative (option_copied tag.entry) result }
{
    if tag.is_some() && last(catalog, file, true, tag).is_none() {
        return None;
    }
    last(catalog, file, cumulative, tag)
}
