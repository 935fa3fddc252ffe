//! What the evidence tells of blocks, or the first address of which it does not tell.
#![tactic(auto)]

mod cover;
mod entry;
pub mod first;
mod idle;
pub mod laws;
pub mod plan;
mod span;
mod survey;
mod target;
mod ways;

pub use first::first_gap;
pub use plan::{Gap, PlanFault, Told, plan_blocks, plan_file};
