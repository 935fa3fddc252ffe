//! Merging a level 1 into a copy.
ghost use Rattle.std.specs.Prelude.{◌≡◌, ◌≢◌, ◌↔◌, ◌⊎◌, IsTrue, IfOk, IsErrOf, Some, length};
ghost use Rattle.rm_base.specs.declared.kinds.Kind.TheVariants.{Full, Level0, Level1};
ghost use Rattle.rm_history.specs.Tree.{IsThere};
ghost use Rattle.rm_piece.specs.{Rows.{IsWhole}, Valid.{IsPiece}};
ghost use Rattle.rm_merge.specs.Merge.{AreOf, Meets, greater as greater_of, merged, merged_rows as merged_of};

use rm_base::{Kind, NoMemory, Row, Seq};
use rm_history::Tree;
use rm_piece::{Piece, high_of};
use std::alloc::Global;

/// Why nothing was merged.
#[derive(Clone, Copy, PartialEq, Eq)]
pub enum MergeFault {
    /// The copy and the level 1 do not meet.
    Apart,
    NoMemory,
}

impl From<NoMemory> for MergeFault {
    ghost use Rattle.rm_merge.specs.declared.merging.MergeFault.TheVariants.{NoMemory as WithoutMemory};

    ghost from_gives = { λ _ e. e ≡ WithoutMemory };

    fn from(_: NoMemory) -> Self {
        MergeFault::NoMemory
    }
}

fn is_copy(kind: Kind) -> bool
    ensures { IsTrue result ↔ ((kind ≡ Full) ⊎ (kind ≡ Level0)) }
{
    match kind {
        Kind::Full | Kind::Level0 => true,
        Kind::Level1 | Kind::Place => false,
    }
}

/// Whether the level 1 can be merged into the copy: both are of one datafile with equally many blocks,
/// the level 1 begins at or below the copy's checkpoint and ends above it, and all that the copy tells
/// holds on the path of the level 1's incarnation.
pub fn meets(copy: &Piece, level1: &Piece, tree: &Tree) -> bool
    requires there { IsThere tree.now level1.now.inc }
    ensures { IsTrue result ↔ Meets tree.now copy.now level1.now }
{
    is_copy(copy.kind)
        && level1.kind == Kind::Level1
        && copy.dbid == level1.dbid
        && copy.file == level1.file
        && copy.blocks == level1.blocks
        && level1.from <= copy.checkpoint
        && copy.checkpoint < level1.checkpoint
        && tree.is_within(copy.inc, level1.inc, copy.high)
}

// The row of the greater version, of equal versions the new one.
fn greater(row: Row, new: Row) -> Row
    ensures { result ≡ greater_of row (Some new) }
{
    if new.version < row.version { row } else { new }
}

// The rows of a copy, and in place of each that the level 1 lists too the one of the greater version.
fn merged_rows(copy: Vec<Row>, level1: &[Row]) -> Vec<Row>
    requires whole { IsWhole copy.items }
    requires of { AreOf (length copy.items) level1.now }
    ensures { result.items ≡ merged_of copy.items level1.now }
{
    let mut rows = copy;
    for new in level1 {
        let block = new.block as usize;
        rows[block] = greater(rows[block], *new);
    }
    rows
}

/// The merged copy, in the memory of the copy. Whoever calls it knows that they meet.
pub fn take_over(copy: Piece, level1: &Piece) -> Piece
    requires copy { IsPiece copy }
    requires level1 { IsPiece level1.now }
    requires kind { copy.kind ≢ Level1 }
    requires blocks { copy.blocks ≡ level1.now.blocks }
    ensures merged { result ≡ merged copy level1.now }
    ensures valid { IsPiece result }
{
    let rows = merged_rows(copy.rows.into_vec(), level1.rows.as_slice());
    let high = high_of(level1.checkpoint, &rows);
    Piece {
        kind: Kind::Level0,
        dbid: copy.dbid,
        inc: level1.inc,
        file: copy.file,
        blocks: copy.blocks,
        from: 0,
        checkpoint: level1.checkpoint,
        high,
        rows: Seq::from_vec(rows),
    }
}

/// The merged copy: of kind level 0, with the incarnation and the checkpoint of the level 1, and for each
/// block the row of the greater version, of equal versions the level 1's. Apart exactly where they do not
/// meet.
pub fn merge(alloc: Global, copy: &Piece, level1: &Piece, tree: &Tree) -> Result<Piece, MergeFault>
    requires copy { IsPiece copy.now }
    requires level1 { IsPiece level1.now }
    requires there { IsThere tree.now level1.now.inc }
    ensures merged { IfOk result (λ piece. piece ≡ merged copy.now level1.now) }
    ensures met { IfOk result (λ piece. Meets tree.now copy.now level1.now) }
    ensures apart { IsErrOf result MergeFault.Apart ↔ (¬ Meets tree.now copy.now level1.now) }
{
    if !meets(copy, level1, tree) {
        return Err(MergeFault::Apart);
    }
    Ok(take_over(copy.copy(alloc)?, level1))
}
