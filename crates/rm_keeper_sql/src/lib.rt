//! The records of databases in a table of a file, each database under a number.
#![tactic(auto)]

mod fault;
pub mod file;
pub mod keeper;
pub mod laws;
pub mod log;
mod ours;
mod sql;
pub mod told;

pub use file::{CatalogFile, Unopened};
pub use keeper::SqlKeeper;
pub use log::Log;
pub use rm_shelf::{Desk, MemShelf, Noted, Shelf};
pub use told::{Honest, ToldKeeper};
