//! A standby of a database, made, rolled forward or told by one call: from the words to the status.
#![tactic(auto)]

mod keeping;
pub mod laws;
mod making;
mod numbering;
mod preparing;
mod rolling;
pub mod run;
mod telling;
mod work;

pub use run::run_standby;
