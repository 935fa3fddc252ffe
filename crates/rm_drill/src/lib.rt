//! The script of the drill, which one number makes.
#![tactic(auto)]

mod draw;
pub mod laws;
mod round;
pub mod script;

pub use script::drill_script;
