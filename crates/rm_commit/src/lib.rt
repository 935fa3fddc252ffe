//! What a statement does outside the site.
#![tactic(auto)]

pub mod commit;

pub use commit::{Commit, Object, Stop, carry_out};
