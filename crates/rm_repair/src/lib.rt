//! Blocks that are damaged in place: the rows that the evidence tells of them, and their mending while others write.
#![tactic(auto)]

pub mod jobs;
pub mod mending;

pub use jobs::{MendJob, mend_jobs};
pub use mending::mend_during;
