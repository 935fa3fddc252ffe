//! A live database, which threads share under a lock, and the one history of all that they did.
#![tactic(auto)]

pub mod database;
pub mod history;
pub mod laws;
pub mod live;
pub mod rule;

pub use database::Database;
pub use history::LiveFault;
pub use live::{Live, Pass};
