//! The site that a top call stands on is opened, or the line of the first record that breaks a rule is written.
#![tactic(auto)]

pub mod opening;

pub use opening::{Unopened, open_site};
pub use rm_site::{OpenGate, Site};
