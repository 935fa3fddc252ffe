//! What the definitions of a set as bytes mean.
ghost use Rattle.std.specs.{Prelude.{◌≡◌, ◌≤◌, ◌+◌, ◌*◌, length}, List.{sum_by}};
ghost use Rattle.rm_piece.specs.{SetSpelling.{set_spelling, spelled}, Sets.{blocks_in, IsSet}, declared.set.Set.{Set}};

/// A valid set has one spelling, and bytes spell one valid set at most.
pub fn bytes_spell_one_set()
    ensures { (s t : Set) → IsSet s → IsSet t → set_spelling s ≡ set_spelling t → s ≡ t }
{}

/// A spelling has 57 bytes, 37 for each member, and 76 for each row that is spelled, of which there is at
/// most one for each block.
pub fn a_set_has_a_length()
    ensures is { (s : Set) → IsSet s → length (set_spelling s) ≡ 57 + 37 * length s.members + 76 * sum_by (λ m. length (spelled m)) s.members }
    ensures most { (s : Set) → IsSet s → length (set_spelling s) ≤ 57 + 37 * length s.members + 76 * blocks_in s.members }
{}
