//! BACKUP of datafiles by channels, while the database may write, over its state; BACKUP ARCHIVELOG ALL; and
//! BACKUP INCREMENTAL FROM SCN.
#![tactic(auto)]

pub mod answer;
mod asking;
mod datafiles;
mod jobs;
mod logs;
mod looking;
mod making;
mod pieces;
mod reading;
mod recording;
pub mod refusing;
mod rolling;
mod running;
mod sets;
pub mod statement;

pub use logs::backup_logs;
pub use refusing::backup_refusal;
pub use rolling::{roll, roll_refusal};
pub use statement::backup;
