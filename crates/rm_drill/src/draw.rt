//! Draws of a fixed generator: each leads from one number to the next.
ghost use Rattle.std.specs.Prelude.{◌≡◌};
ghost use Rattle.rm_drill.specs.Script.{draw_of, next_number};

const FACTOR: u64 = 6364136223846793005;

const STEP: u64 = 1442695040888963407;

// The number after the next draw.
#[tactic(auto, unfolding(crate::specs::Script::next_number))]
pub(crate) fn next_of(number: u64) -> u64
    ensures { result ≡ next_number number }
{
    number.wrapping_mul(FACTOR).wrapping_add(STEP)
}

// What a draw gives that leads to this number.
pub(crate) fn draw_at(number: u64) -> u64
    ensures { result ≡ draw_of number }
{
    number >> 33
}
