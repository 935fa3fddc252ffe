//! What bits of lists of bytes come to. A byte is below 2^8.
ghost use Rattle.std.specs.{Prelude.{ℕ, ◌≡◌, ◌*◌, ◌<◌, ◌^◌, ◌↔◌, ◌⊎◌, All, List, count_by, length, true}, List.{range_with_len}};
ghost use Rattle.rm_lanes.specs.Bits.{IsNextSet, IsSet, NoneSet, bitwise_or, is_set, set_count};

/// Of two lists of one length, the bits that are set in either one are those of their bitwise or.
pub fn an_or_has_the_bits_of_both()
    ensures { (xs ys : List ℕ) (k : ℕ) → length xs ≡ length ys → (IsSet (bitwise_or xs ys) k ↔ (IsSet xs k ⊎ IsSet ys k)) }
{}

/// The count is the number of bits that are set.
pub fn the_count_is_of_the_set_bits()
    ensures test { (bytes : List ℕ) (k : ℕ) → (is_set bytes k ≡ true ↔ IsSet bytes k) }
    ensures count { (bytes : List ℕ) → All (λ x. x < 2 ^ 8) bytes → set_count bytes ≡ count_by (is_set bytes) (range_with_len 0 (8 * length bytes)) }
{}

/// The next set bit is the only one, and is there only where not all are unset.
pub fn the_next_set_bit_is_unique()
    ensures one { (bytes : List ℕ) (from j k : ℕ) → IsNextSet bytes from j → IsNextSet bytes from k → j ≡ k }
    ensures none { (bytes : List ℕ) (from k : ℕ) → NoneSet bytes from → ¬ IsNextSet bytes from k }
{}
