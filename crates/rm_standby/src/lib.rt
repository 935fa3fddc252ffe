//! A standby: a set with every block of every datafile at one address, which an increment rolls forward.
#![tactic(auto)]

pub mod imaging;
pub mod laws;
pub mod meeting;
pub mod rolling;

pub use imaging::image;
pub use meeting::{is_standby, meets};
pub use rolling::{RollFault, roll};
