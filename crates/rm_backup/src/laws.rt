//! What a copy tells that took over level 1s, and what is at hand.
ghost use Rattle.std.specs.Prelude.{ℕ, ◌≡◌, ◌≢◌, ◌↔◌, List, All, Contains, Some};
ghost use Rattle.rm_base.specs.{Store.{Held}, declared.{block.Change.{Change}, kinds.Kind.TheVariants.{Level1}}};
ghost use Rattle.rm_catalog.specs.{Rules.{IsCatalog}, Trees.{nodes}, declared.record.{PieceEntry.{PieceEntry}, Record.{Record}}};
ghost use Rattle.rm_catalog.specs.declared.record.Record.TheVariants.{Piece as OfPiece};
ghost use Rattle.rm_evidence.specs.{Available.{HasPieceObject}, Gathered.{IsGathered}, Known.{FitsPiece}};
ghost use Rattle.rm_evidence.specs.declared.evidence.{Evidence.{Evidence}, InPlace.{InPlace}};
ghost use Rattle.rm_history.specs.{Agrees.{BaseAgrees, Level1Agrees}, History.{IsHistory}, Tree.{IsTree}, declared.world.World.{World}};
ghost use Rattle.rm_piece.specs.{Artefacts.{base_of, level1_of}, Valid.{IsPiece}, declared.piece.Piece.{Piece}};
ghost use Rattle.rm_backup.specs.{Level1s.{IsReached}, Renewed.{copy_at}};

/// However many level 1s a copy takes over, it is valid, and agrees with each history of the database that
/// it and all of them agree with.
pub fn a_chain_of_merges_keeps_agreement()
    ensures valid { (rs : List Record) (f : ℕ) (tag : List ℕ) (s : ℕ) (level1s : List (ℕ × Piece)) (copy last : Piece) → All (λ x. FitsPiece (nodes rs) x.1) level1s → IsPiece copy → IsReached rs f tag s level1s copy last → IsPiece last }
    ensures agrees { (w : World) (h : List Change) (rs : List Record) (f : ℕ) (tag : List ℕ) (s : ℕ) (level1s : List (ℕ × Piece)) (copy last : Piece) → w.tree ≡ nodes rs → IsTree w.tree → IsHistory w h → All (λ x. FitsPiece (nodes rs) x.1) level1s → ((x : ℕ × Piece) → Contains level1s x → Level1Agrees w h (level1_of x.1)) → IsPiece copy → BaseAgrees w h (base_of copy) → IsReached rs f tag s level1s copy last → BaseAgrees w h (base_of last) }
{}

/// By what was gathered, the copy and the level 1s at hand are exactly the available ones: a record's piece
/// is found by its id exactly where the record counts as available and the store has its object.
pub fn what_is_at_hand_is_available()
    ensures copies { (held : Held) (rs : List Record) (place : InPlace) (e : Evidence) (p : PieceEntry) (a : Piece) → IsCatalog rs → IsGathered held rs place e → Contains rs (OfPiece p) → p.kind ≢ Level1 → (copy_at e.bases p.id ≡ Some a) ↔ HasPieceObject held p a }
    ensures level1s { (held : Held) (rs : List Record) (place : InPlace) (e : Evidence) (p : PieceEntry) (a : Piece) → IsCatalog rs → IsGathered held rs place e → Contains rs (OfPiece p) → p.kind ≡ Level1 → Contains e.level1s (p.id, a) ↔ HasPieceObject held p a }
{}
