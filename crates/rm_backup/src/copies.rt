//! The image copies that take over level 1s.
ghost use Rattle.std.specs.{Prelude.{◌≡◌, ◌∷◌, [], Option}, Option.{option_map}};
ghost use Rattle.rm_catalog.specs.{Rules.{HasDatabase}, declared.record.PieceEntry.{PieceEntry}};
ghost use Rattle.rm_backup.specs.{Looking.{TellsFirst}, Records.{pieces}, Taken.{IsTaken, MayBeTaken}};

use crate::records::{first_of, is_on_path};
use rm_base::{FileNo, Scn};
use rm_catalog::{Catalog, Record};

// The id and the checkpoint of the record, if it is one of an image copy that may take over level 1s.
fn image_copy(catalog: &Catalog, file: FileNo, tag: &str, row: &Record) -> Option<(u32, Scn)>
    requires database { HasDatabase catalog.now }
    ensures { TellsFirst (MayBeTaken catalog.now file tag.now) (pieces (row.now ∷ [])) result }
{
    match row {
        Record::Piece(piece)
            if piece.copy && piece.tag.as_str() == tag && is_on_path(catalog, file, piece) => {
            Some((piece.id, piece.checkpoint))
        }
        _ => None,
    }
}

/// The id and the checkpoint of the image copy of a datafile that takes over level 1s with the tag: of the
/// available copies with it that hold on the current path the one of the greatest checkpoint, ties by the
/// greatest id. None where there is none.
pub(crate) fn last_copy(catalog: &Catalog, file: FileNo, tag: &str) -> Option<(u32, Scn)>
    requires database { HasDatabase catalog.now }
    ensures { TellsFirst (MayBeTaken catalog.now file tag.now) (pieces catalog.now) result }
{
    let records = catalog.records();
    let mut best = None;
    for row in records {
        best = first_of(best, image_copy(catalog, file, tag, row));
    }
    best
}

/// The id of the image copy of a datafile that takes over level 1s with the tag: of the available copies
/// with it that hold on the current path the one of the greatest checkpoint, ties by the greatest id. None
/// where there is none.
pub fn taken(catalog: &Catalog, file: FileNo, tag: &str) -> Option<u32>
    requires database { HasDatabase catalog.now }
    ensures { (o : Option PieceEntry) × IsTaken catalog.now file tag.now o × (result ≡ option_map (λ p. p.id) o) }
{
    Some(last_copy(catalog, file, tag)?.0)
}
