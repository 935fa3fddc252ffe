//! RECOVER COPY OF DATABASE WITH TAG: image copies take over level 1s.
#![tactic(auto)]

pub mod answer;
mod evidence;
mod limits;
mod refusing;
mod renewals;
mod renewing;
mod skipping;
mod statement;

pub use refusing::recover_copy_refusal;
pub use statement::recover_copy;
