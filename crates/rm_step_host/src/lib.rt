//! The HOST mishaps: what is in place or an online log is lost, a block in place is damaged, and an object goes, is
//! damaged, is cut short or has another name.
#![tactic(auto)]

pub mod answer;
mod corrupting;
mod losing;
mod objects;

pub use corrupting::{corrupt, corrupt_refusal};
pub use losing::{lose_datafile, lose_log, lose_log_refusal, lose_refusal};
pub use objects::{cut, damage, remove, rename};
