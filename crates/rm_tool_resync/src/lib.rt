//! A far catalog is made equal to a near one by one call: from the words to the status.
#![tactic(auto)]

pub mod run;

pub use run::run_resync;
