//! Kernels over lanes of bytes. Each equals its plain definition, and takes no memory.
#![tactic(auto)]

pub mod bits;
pub mod blocks;
pub mod laws;

pub use bits::{count_ones, next_set, or_into};
pub use blocks::{is_zero, same};
