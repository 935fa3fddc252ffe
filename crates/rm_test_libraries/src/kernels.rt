//! Kernels over lanes beside plain loops, at each length up to 200.
ghost use Rattle.std.specs.Prelude.{◌≤◌};

use rm_base::Block;
use rm_lanes::{count_ones, is_zero, next_set, or_into, same};
use rm_test_harness::Fault;
use std::alloc::Global;

// Bytes of a linear congruential generator. Those whose second byte reaches `density` are zero.
fn bytes_of(alloc: Global, len: usize, seed: u32, density: u8) -> Result<Vec<u8>, Fault> {
    let mut bytes = Vec::new(alloc);
    let mut state = seed;
    for _ in 0..len {
        state = state.wrapping_mul(1664525).wrapping_add(1013904223);
        let [first, second, _, _] = state.to_be_bytes();
        bytes.push(if second < density { first } else { 0 })?;
    }
    Ok(bytes)
}

fn is_set(byte: u8, bit: u32) -> bool {
    byte.checked_shr(bit).is_some_and(|rest| rest % 2 == 1)
}

fn plain_count(bits: &[u8]) -> u64 {
    let mut count = 0u64;
    for byte in bits {
        for bit in 0..8u32 {
            count = count.wrapping_add(is_set(*byte, bit) as u64);
        }
    }
    count
}

fn plain_next(bits: &[u8], from: usize) -> Option<usize> {
    let mut place = 0usize;
    for byte in bits {
        for bit in 0..8u32 {
            if place >= from && is_set(*byte, bit) {
                return Some(place);
            }
            place = place.wrapping_add(1);
        }
    }
    None
}

fn ors_agree(alloc: Global, left: &[u8], right: &[u8]) -> Result<bool, Fault> {
    let mut lanes = Vec::from_slice(alloc, left)?;
    if lanes.len() == right.len() {
        or_into(lanes.as_mut_slice(), right);
    }
    let mut plain = Vec::new(alloc);
    for (a, b) in left.iter().zip(right) {
        plain.push(*a | *b)?;
    }
    Ok(lanes.as_slice() == plain.as_slice())
}

fn bits_agree(bits: &[u8]) -> bool {
    if bits.len() > 200 || count_ones(bits) != plain_count(bits) {
        return false;
    }
    for from in (0..1610usize).step_by(37) {
        if next_set(bits, from) != plain_next(bits, from) {
            return false;
        }
    }
    true
}

// A zero block, and the same but for one byte.
fn blocks_agree(place: usize, byte: u8) -> bool {
    let zeros = Block([0; 64]);
    let mut other = zeros;
    if let Some(changed) = other.0.get_mut(place) {
        *changed = byte;
    }
    let mut plain = true;
    for byte in other.0 {
        plain = plain && byte == 0;
    }
    is_zero(&other) == plain && same(&other, &zeros) == plain && same(&other, &other)
}

fn agree_at(alloc: Global, len: usize) -> Result<bool, Fault>
    requires { len ≤ 200 }
{
    let dense = bytes_of(alloc, len, 1, 200)?;
    let sparse = bytes_of(alloc, len, 2, 5)?;
    let are_bits = bits_agree(dense.as_slice()) && bits_agree(sparse.as_slice());
    let are_blocks = blocks_agree(len % 64, (len / 64) as u8);
    Ok(are_bits && are_blocks && ors_agree(alloc, dense.as_slice(), sparse.as_slice())?)
}

/// Each kernel tells what a plain loop tells.
pub fn plain(alloc: Global) -> Result<bool, Fault> {
    for len in 0..201usize {
        if !agree_at(alloc, len)? {
            return Ok(false);
        }
    }
    Ok(true)
}

/// The least bit of a byte is its first.
pub fn least_first() -> bool {
    let bits = [0, 0b0100_0010];
    let front = [next_set(&bits, 0), next_set(&bits, 9)];
    let back = [next_set(&bits, 10), next_set(&bits, 15)];
    let is_none_past = next_set(&[255], 1000).is_none();
    let count = count_ones(&[255, 0, 0b0100_0010]);
    front == [Some(9), Some(9)] && back == [Some(14), None] && is_none_past && count == 10
}
