//! A copy of a datafile that takes over a level 1, so that it is as if it had been made later.
#![tactic(auto)]

pub mod laws;
pub mod merging;

pub use merging::{MergeFault, meets, merge, take_over};
