//! RECOVER DATABASE and its test, RESTORE and its preview, by the evidence alone: what the store has of the
//! records, and what is in place.
#![tactic(auto)]

pub mod answer;
mod faults;
mod lines;
mod placing;
mod previewing;
mod recovered_files;
mod recovery;
mod recovery_test;
mod restoring;

pub use lines::push_rows;
pub use previewing::{preview, preview_refusal};
pub use recovered_files::recovered_at;
pub use recovery::{recover, recover_refusal};
pub use recovery_test::{recover_test, test_refusal};
pub use restoring::{restore, restore_refusal};
