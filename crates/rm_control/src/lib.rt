//! A keeper whose records a second one follows, some lists of edits behind.
#![tactic(auto)]

pub mod control;
mod differences;

pub use control::{Control, level};
