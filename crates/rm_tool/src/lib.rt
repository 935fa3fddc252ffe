//! The whole run of the program over every source, sink, store, keeper and clock, and those of the machine.
#![tactic(auto)]

mod adapters;
mod block;
mod built;
pub mod desk;
mod drill;
mod early;
pub mod ends;
pub mod laws;
pub mod run;
mod session;
mod tally;
mod untils;
mod words;

pub use adapters::{ReadSource, SystemClock, WriteSink};
pub use desk::run_at;
pub use rm_tool_opening::OpenGate;
