//! The standbys of a store: their names, and which of them is the standby.
#![tactic(auto)]

pub mod finding;
pub mod names;

pub use finding::{find_standby, set_under};
pub use names::{standby_name, standby_number};
