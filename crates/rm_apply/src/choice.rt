//! The backup from which a datafile is restored, and its origin.
ghost use Rattle.std.specs.{Prelude.{◌≡◌, ◌↔◌, IsTrue}, Option.{option_copied}};
ghost use Rattle.rm_history.specs.Tree.{IsThere};
ghost use Rattle.rm_apply.specs.{Restore.{IsBackupFor, MayRestore, origin_by}, Taking.{base_at}};

use crate::origin::Origin;
use rm_base::{FileNo, IncNo, Scn, comes_first};
use rm_history::Tree;
use rm_piece::Piece;

// Whether the datafile may be restored from this base to (i, s).
fn may_restore(tree: &Tree, i: IncNo, s: Scn, number: FileNo, base: &(u32, Piece)) -> bool
    requires { IsThere tree.now i }
    ensures { IsTrue result ↔ MayRestore tree.now i s number base.now }
{
    base.0 > 0
        && base.1.file == number
        && base.1.checkpoint <= s
        && tree.is_within(base.1.inc, i, base.1.high)
}

/// The base at this place. None where no place is given, or it is past the end.
pub(crate) fn base_at(bases: &[(u32, Piece)], place: Option<usize>) -> Option<&(u32, Piece)>
    ensures { option_copied result ≡ base_at bases.now place }
{
    match place {
        Some(k) => bases.get(k),
        None => None,
    }
}

/// The place of the backup from which the datafile is restored to (i, s): of those from which it may be the one
/// of the greatest checkpoint, ties by the greatest id. None where there is none.
pub(crate) fn choose(
    tree: &Tree,
    bases: &[(u32, Piece)],
    i: IncNo,
    s: Scn,
    number: FileNo,
) -> Option<usize>
    requires { IsThere tree.now i }
    ensures { IsBackupFor tree.now bases.now i s number (base_at bases.now result) }
{
    let mut best: Option<usize> = None;
    for (place, base) in bases.iter().enumerate() {
        if may_restore(tree, i, s, number, base) {
            best = match base_at(bases, best) {
                Some(first)
                    if comes_first((first.0, first.1.checkpoint), (base.0, base.1.checkpoint)) =>
                    best,
                _ => Some(place),
            };
        }
    }
    best
}

/// From where the datafile is restored.
pub(crate) fn origin_by(backup: Option<&(u32, Piece)>) -> Origin
    ensures { result ≡ origin_by (option_copied backup.entry) }
{
    match backup {
        Some((id, piece)) => Origin::Backup(*id, piece.checkpoint),
        None => Origin::Created,
    }
}
