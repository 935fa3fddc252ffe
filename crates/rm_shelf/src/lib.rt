//! The records of several databases in one place, each database under a number, and a keeper of one of them.
#![tactic(auto)]

pub mod desk;
pub mod laws;
pub mod memory;
pub mod shelf;

pub use desk::{Desk, Noted};
pub use memory::MemShelf;
pub use shelf::Shelf;
