//! The laws of the machine: what is at hand leads it on, whatever statement is made; and the frame: what a statement
//! hands out, carried out over a store and a keeper, is a step of the whole machine.
#![tactic(auto)]

pub mod example;
pub mod frame;
pub mod laws;
