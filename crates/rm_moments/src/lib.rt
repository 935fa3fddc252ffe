//! Moments as text, and the marks about a moment.
#![tactic(auto)]

mod civil;
mod fields;
pub mod laws;
mod marks;
mod meaning;
mod spelling;
mod times;

pub use marks::{at_or_after, at_or_before};
pub use meaning::parse;
pub use spelling::{tag, text};
pub use times::is_time;
