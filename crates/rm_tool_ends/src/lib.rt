//! What the calls of the program share: how one ends that was stopped, its status, and the texts that it writes.
#![tactic(auto)]

pub mod ended;
pub mod writing;

pub use ended::{Ended, status_of};
pub use writing::{refuse_words, write_all, write_refusal};
