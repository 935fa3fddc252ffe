//! BLOCKRECOVER: damaged blocks are mended by what is at hand, while the database may write.
#![tactic(auto)]

pub mod answer;
mod blocks;
mod lines;
mod refusing;
mod running;
mod statement;
mod telling;

pub use refusing::repair_refusal;
pub use statement::block_recover;
