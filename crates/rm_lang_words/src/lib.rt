//! The words of the programs, read by `clap`: a form for each program, and one reader for every form.
#![tactic(auto)]

mod clap_command;
mod duplicate;
mod faults;
mod form;
mod options;
mod reader;
mod resync;
mod standby;
mod values;
mod words;

pub use duplicate::{DuplicateWords, read_duplicate};
pub use faults::WordsFault;
pub use resync::{ResyncWords, read_resync};
pub use standby::{StandbyTask, StandbyWords, read_standby};
pub use words::{Words, read_words};
