//! The plain loops.
use rm_base::Block;

/// Sets in `to` each bit that is set in `from`.
pub fn or_into(to: &mut [u8], from: &[u8]) {
    for (byte, other) in to.iter_mut().zip(from) {
        *byte |= *other;
    }
}

/// How many bits are set.
pub fn count_ones(bits: &[u8]) -> u64 {
    let mut count = 0u64;
    for byte in bits {
        count = count.wrapping_add(byte.count_ones() as u64);
    }
    count
}

/// The least set bit at or above `from`.
pub fn next_set(bits: &[u8], from: usize) -> Option<usize> {
    for k in from..bits.len().saturating_mul(8) {
        if bits[k / 8] & (1 << (k % 8)) != 0 {
            return Some(k);
        }
    }
    None
}

/// Whether each byte is zero.
pub fn is_zero(block: &Block) -> bool {
    for byte in block.0 {
        if byte != 0 {
            return false;
        }
    }
    true
}

/// Whether the blocks have the same bytes.
pub fn same(a: &Block, b: &Block) -> bool {
    for i in 0..64usize {
        if a.0[i] != b.0[i] {
            return false;
        }
    }
    true
}
