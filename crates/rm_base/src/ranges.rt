//! Tests of numbers for their ranges.
ghost use Rattle.std.specs.Prelude.{◌↔◌, ◌<◌, ◌≤◌, ◌^◌, IsTrue};

/// Whether the number, of 32 bits, is at least 1.
pub fn is_positive(n: u32) -> bool
    ensures { IsTrue result ↔ ((1 ≤ n) × (n < 2 ^ 32)) }
{
    1 <= n
}

/// Whether the number is 1 to `last`.
pub fn is_up_to(n: u64, last: u64) -> bool
    ensures { IsTrue result ↔ ((1 ≤ n) × (n ≤ last)) }
{
    1 <= n && n <= last
}
