//! Logs, threads, mode and incarnation: SWITCH LOGFILE and ARCHIVE LOG CURRENT, by which online logs become archived
//! ones; ENABLE THREAD and DISABLE THREAD; SHUTDOWN, STARTUP MOUNT, OPEN, OPEN RESETLOGS and RESET DATABASE.
#![tactic(auto)]

mod archive_refusals;
mod archives;
mod branching;
mod due;
mod mounting;
mod opening;
mod place;
mod resetting;
mod switching;
mod threads;

pub use archive_refusals::{archive_all_refusal, switch_refusal};
pub use branching::{open_resetlogs, resetlogs_refusal};
pub use mounting::mount;
pub use opening::{open, open_refusal};
pub use resetting::{reset_database, reset_refusal};
pub use switching::{archive_log_current, switch_logfile};
pub use threads::{disable_refusal, disable_thread, enable_refusal, enable_thread};
