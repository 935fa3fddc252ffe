//! Incarnations, their addresses, what a database holds at each of them, and what artefacts make known of it.
#![tactic(auto)]

pub mod known;
pub mod laws;
pub mod rows;
pub mod threads;
pub mod tree;
pub mod world;

pub use tree::{Incarnation, Standing, Tree, TreeFault};
pub use world::{Datafile, Switch, World};
