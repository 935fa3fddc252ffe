//! A duplicate of a database, as it was at a target, made by one call: from the words to the status.
#![tactic(auto)]

mod carrying;
pub mod laws;
mod making;
mod preparing;
mod refusing;
pub mod run;
mod source;
mod telling;

pub use run::run_duplicate;
