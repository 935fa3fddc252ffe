//! What is known of the numbers of passes.
ghost use Rattle.std.specs.Prelude.{◌≡◌, length};
ghost use Rattle.rm_live.specs.{Ruled.{AreShares}, Passes.{Standing, IsOnly}};

/// A pass that has as many numbers as there are is the only one.
pub fn a_pass_with_all_numbers_is_the_only_one()
    ensures { (p : Standing) → AreShares p.numbers p.passes → length p.numbers ≡ p.passes → IsOnly p }
{}
