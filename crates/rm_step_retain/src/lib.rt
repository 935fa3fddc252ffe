//! The statements of the retention policy: REPORT OBSOLETE, REPORT NEED BACKUP, and DELETE OBSOLETE.
#![tactic(auto)]

pub mod answer;
mod deleting;
mod finding;
mod looking;
mod needing;
mod reporting;

pub use deleting::delete_obsolete;
pub use needing::report_need_backup;
pub use reporting::report_obsolete;
