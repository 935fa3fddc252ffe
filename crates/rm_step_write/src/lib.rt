//! The statements that write into the database: WRITE and CREATE DATAFILE.
#![tactic(auto)]

mod creating;
mod writing;

pub use creating::{create_datafile, datafile_refusal};
pub use writing::{write, write_refusal};
