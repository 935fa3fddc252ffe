//! Bytes as bits: bit k is bit k mod 8, the least first, of byte k / 8.
ghost use Rattle.std.specs.Prelude.{ℕ, ◌≡◌, ◌≢◌, ◌↔◌, take, drop, replicate, ◌+◌, ◌<◌, ◌≤◌, ◌^◌, length, slice_index, IfSome, IfNone, IsTrue, IsBitSet};
ghost use Rattle.rm_lanes.specs.Bits.{bitwise_or, set_count, IsNextSet, NoneSet};

use std::simd::prelude::*;

/// Sets in `to` each bit that is set in `from`. Both have as many bytes.
pub fn or_into(to: &mut [u8], from: &[u8])
    requires { length to.old ≡ length from.now }
    ensures { to.new ≡ bitwise_or to.old from.now }
{
    let mut i = 0;
    'lanes: while to.len() - i >= 32 {
        let both = u8x32::from_slice(&to[i..]) | u8x32::from_slice(&from[i..]);
        both.copy_to_slice(&mut to[i..]);
        i += 32;
    }
    'tail: while i < to.len() {
        to[i] |= from[i];
        i += 1;
    }
}

/// How many bits are set, of fewer than 2^61 bytes.
pub fn count_ones(bits: &[u8]) -> u64
    requires { length bits.now < 2 ^ 61 }
    ensures { result ≡ set_count bits.now }
{
    let mut count = 0u64;
    let mut i = 0;
    'lanes: while bits.len() - i >= 16 {
        let ones = u8x16::from_slice(&bits[i..]).count_ones();
        count += ones.strict_reduce_sum() as u64;
        i += 16;
    }
    'tail: while i < bits.len() {
        count += bits[i].count_ones() as u64;
        i += 1;
    }
    count
}

/// The least set bit at or above `from`; None where there is none. There are fewer than 2^61
/// bytes.
pub fn next_set(bits: &[u8], from: usize) -> Option<usize>
    requires { length bits.now < 2 ^ 61 }
    ensures found { IfSome result (λ k. IsNextSet bits.now from k) }
    ensures none { IfNone result (NoneSet bits.now from) }
{
    let first = from / 8;
    if first >= bits.len() {
        return None;
    }
    if let Some(bit) = next_in_byte(bits[first], from % 8) {
        return Some(8 * first + bit);
    }
    let next = skip_zeros(bits, first + 1);
    if next >= bits.len() {
        return None;
    }
    let bit = next_in_byte(bits[next], 0)?;
    Some(8 * next + bit)
}

// The least set bit of the byte at or above `from`.
fn next_in_byte(byte: u8, from: usize) -> Option<usize>
    ensures found { IfSome result (λ k. IsBitSet byte k) }
    ensures within { IfSome result (λ k. k < 8) }
    ensures reached { IfSome result (λ k. from ≤ k) }
    ensures least { IfSome result (λ k. (j : ℕ) → from ≤ j → j < k → ¬ IsBitSet byte j) }
    ensures none { IfNone result ((j : ℕ) → from ≤ j → j < 8 → ¬ IsBitSet byte j) }
{
    for bit in from..8 {
        if byte & (1 << bit) != 0 {
            return Some(bit);
        }
    }
    None
}

// The first byte at or above `from` that is not zero, and the length where there is none.
fn skip_zeros(bytes: &[u8], from: usize) -> usize
    requires { from ≤ length bytes.now }
    ensures within { result ≤ length bytes.now }
    ensures reached { from ≤ result }
    ensures zeros { (i : ℕ) → from ≤ i → i < result → slice_index bytes.now i ≡ 0 }
    ensures stops { result < length bytes.now → slice_index bytes.now result ≢ 0 }
{
    let mut i = from;
    'lanes: while bytes.len() - i >= 32 && is_zero_at(bytes, i) {
        i += 32;
    }
    'tail: while i < bytes.len() && bytes[i] == 0 {
        i += 1;
    }
    i
}

// Whether the 32 bytes at `at` are zero.
fn is_zero_at(bytes: &[u8], at: usize) -> bool
    requires { at + 32 ≤ length bytes.now }
    ensures { IsTrue result ↔ (take 32 (drop at bytes.now) ≡ replicate 32 0) }
{
    u8x32::from_slice(&bytes[at..]) == u8x32::splat(0)
}
