//! What a merged copy tells.
ghost use Rattle.std.specs.Prelude.{ℕ, ◌≡◌, max, IsTrue, List};
ghost use Rattle.rm_base.specs.declared.block.Change.{Change};
ghost use Rattle.rm_history.specs.{Tree.{IsThere, IsTree, is_within}, History.{IsHistory}, Agrees.{BaseAgrees, Level1Agrees}};
ghost use Rattle.rm_history.specs.declared.{tree.Incarnation.{Incarnation}, world.World.{World}};
ghost use Rattle.rm_piece.specs.{Artefacts.{base_of, level1_of}, Valid.{IsPiece}, declared.piece.Piece.{Piece}};
ghost use Rattle.rm_merge.specs.Merge.{Meets, merged};

/// A merged copy agrees with each history that both of its parts agree with.
pub fn merging_keeps_agreement()
    ensures { (w : World) (h : List Change) (copy level1 : Piece) → IsTree w.tree → IsThere w.tree level1.inc → IsHistory w h → IsPiece copy → Meets w.tree copy level1 → BaseAgrees w h (base_of copy) → Level1Agrees w h (level1_of level1) → BaseAgrees w h (base_of (merged copy level1)) }
{}

/// A merged copy of valid parts is valid.
pub fn a_merged_copy_is_a_piece()
    ensures { (tree : List Incarnation) (copy level1 : Piece) → IsPiece copy → IsPiece level1 → Meets tree copy level1 → IsPiece (merged copy level1) }
{}

/// A merged copy reaches as high as the higher of its parts. Where both parts lie within their segments
/// of a path, so does the merged copy.
pub fn a_merged_copy_reaches_as_high_as_its_parts()
    ensures high { (tree : List Incarnation) (copy level1 : Piece) → IsPiece copy → IsPiece level1 → Meets tree copy level1 → (merged copy level1).high ≡ max copy.high level1.high }
    ensures within { (tree : List Incarnation) (i : ℕ) (copy level1 : Piece) → IsTree tree → IsThere tree i → IsThere tree level1.inc → IsPiece copy → IsPiece level1 → Meets tree copy level1 → IsTrue (is_within tree copy.inc i copy.high) → IsTrue (is_within tree level1.inc i level1.high) → IsTrue (is_within tree (merged copy level1).inc i (merged copy level1).high) }
{}
