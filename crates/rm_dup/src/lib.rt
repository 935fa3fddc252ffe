//! A duplicate of a database, as it was at a target.
#![tactic(auto)]

mod copying;
pub mod database;
pub mod duplicating;
pub mod laws;
mod recording;

pub use database::Duplicate;
