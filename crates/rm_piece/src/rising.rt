//! The rows of a datafile as they count in a set.
ghost use Rattle.std.specs.Prelude.{ℕ, ◌≡◌, ◌≢◌, ◌<◌, ◌≤◌, List, All, Contains, IfOk, length, map};
ghost use Rattle.rm_base.specs.{Numbers.{last_scn}, declared.{block.{Change.{Change}, Row.{Row}}, kinds.Kind.TheVariants.{Place}}};
ghost use Rattle.rm_history.specs.{Agrees.{IsRow as IsState}, History.{IsHistory}, World.{creation_of}, declared.world.World.{World}};
ghost use Rattle.rm_piece.specs.{Filling.{risen}, Rows.{IsWhole, from_on}, Sets.{IsMember, IsOf, IsSince}, Valid.{IsPiece, IsRow}};
ghost use Rattle.rm_piece.specs.declared.{piece.Piece.{Piece}, set.{Set.{Set}, SetFile.{SetFile}}};

use crate::set_filling::created_row;
use rm_base::{NoMemory, Row, Scn, Seq};
use std::alloc::Global;

// The row, or the zero row at the creation where its version is not above that.
fn risen(row: &Row, creation: Scn) -> Row
    ensures { result ≡ risen creation row.now }
{
    if creation < row.version {
        *row
    } else {
        created_row(row.block, creation)
    }
}

/// The rows of a datafile that was created at this SCN, as they count in a set: each row whose version is
/// not above the creation is the zero row at the creation. An error is want of memory.
pub fn risen_rows(alloc: Global, rows: &[Row], creation: Scn) -> Result<Seq<Row>, NoMemory>
    ensures { IfOk result (λ made. made ≡ map (risen creation) rows.now) }
{
    let mut made = Vec::with_capacity(alloc, rows.len())?;
    for row in rows {
        made.push(risen(row, creation))?;
    }
    Ok(Seq::from_vec(made))
}

/// Rows that are risen begin at the creation, are of the blocks of before, and are valid where these are.
pub fn risen_rows_begin_at_the_creation()
    ensures since { (creation : ℕ) (rows : List Row) → All (IsSince creation) (map (risen creation) rows) }
    ensures whole { (creation : ℕ) (rows : List Row) → IsWhole rows → IsWhole (map (risen creation) rows) }
    ensures valid { (creation blocks : ℕ) (rows : List Row) → 1 ≤ creation → creation < last_scn → All (IsRow blocks 0) rows → All (IsRow blocks 0) (map (risen creation) rows) }
{}

/// Rows that begin at the creation already, as those of a history do, stay as they are.
pub fn risen_rows_stay()
    ensures since { (creation : ℕ) (rows : List Row) → All (IsSince creation) rows → map (risen creation) rows ≡ rows }
    ensures states { (w : World) (h : List Change) (i f c : ℕ) (rows : List Row) → IsHistory w h → ((r : Row) → Contains rows r → IsState w h i f c r) → map (risen (creation_of w f)) rows ≡ rows }
{}

/// A valid piece that took of risen rows those from its `from` on is a member of a set. Where `from` is not
/// above the creation, the rows are those of all blocks.
pub fn a_piece_of_risen_rows_is_a_member()
    ensures { (s : Set) (m : SetFile) (rows : List Row) → IsOf s m → IsPiece m.piece → m.piece.kind ≢ Place → 1 ≤ m.creation → m.creation < s.checkpoint → (m.piece.from ≤ m.creation → length rows ≡ m.piece.blocks) → m.piece.rows ≡ from_on m.piece.from (map (risen m.creation) rows) → IsMember s m }
{}
