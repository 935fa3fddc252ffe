//! The redo of a database: what each thread has changed since its online log was last archived.
#![tactic(auto)]

pub mod log_file;
pub mod log_laws;
pub mod log_reading;
pub mod log_valid;
pub mod log_writing;
pub mod online;

pub use log_file::LogFile;
pub use log_reading::{decode_log, log_of_body};
pub use log_valid::is_valid_log;
pub use log_writing::{encode_log, encode_log_with_digest};
pub use online::{LogFault, LogRecord, OnlineLogs, ThreadLog};
