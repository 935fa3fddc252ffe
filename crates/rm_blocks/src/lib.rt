//! The datafiles in place, each a list of rows.
#![tactic(auto)]

pub mod file;
pub mod laws;

pub use file::DataFile;
