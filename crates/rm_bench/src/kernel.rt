//! A kernel with the data that it runs over.
use std::alloc::{AllocError, Global};

/// A kernel with its data, and what it gave.
pub trait Kernel: Sized + Drop {
    /// The data, so many bytes or blocks, the same each time.
    fn new(alloc: Global, size: usize) -> Result<Self, AllocError>;

    /// Runs over all the data by lanes. The data change a little, so that no run can be left out.
    fn by_lanes(&mut self);

    /// Runs over all the data by a plain loop, with the same change.
    fn by_plain_loop(&mut self);

    /// Whether both runs gave the same.
    fn gave_the_same(&self, other: &Self) -> bool;
}

/// Bytes of a linear congruential generator. Those whose second byte reaches `density` are zero.
pub fn bytes_of(alloc: Global, size: usize, density: u8) -> Result<Vec<u8>, AllocError> {
    let mut bytes = Vec::new(alloc);
    let mut state = 1u32;
    for _ in 0..size {
        state = state.wrapping_mul(1664525).wrapping_add(1013904223);
        let [first, second, _, _] = state.to_be_bytes();
        bytes.push(if second < density { first } else { 0 })?;
    }
    Ok(bytes)
}

/// Changes the first byte, if there is one.
pub fn change_first(bytes: &mut [u8]) {
    if let Some(byte) = bytes.first_mut() {
        *byte = byte.wrapping_add(1);
    }
}
