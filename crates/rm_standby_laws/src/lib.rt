//! The law of a standby beside a machine: what a set holds of the states at its address it holds after each statement too.
#![tactic(auto)]

pub mod laws;
