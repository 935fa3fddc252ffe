//! Work of many threads at one live database, and parts put into rows by many threads.
#![tactic(auto)]

pub mod applying;
pub mod copying;
pub mod cutting;
pub mod jobs;
pub mod pacing;
pub mod working;
pub mod writing;

pub use applying::{apply_in_order, apply_rows};
pub use copying::{copy_during, copy_file, scns_of};
pub use jobs::{CopyJob, Gate, Point, Wanted, Work, WriteJob};
pub use writing::write_lists;
