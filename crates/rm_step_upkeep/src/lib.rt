//! The upkeep of records: CATALOG, CHANGE BACKUP, DELETE BACKUP, DELETE EXPIRED and CROSSCHECK; and the settings of a database:
//! CONFIGURE RETENTION POLICY and DEVICE TYPE DISK PARALLELISM, and ENABLE and DISABLE BLOCK CHANGE TRACKING.
#![tactic(auto)]

mod amending;
pub mod answer;
mod cataloguing;
mod changing;
mod crosschecking;
mod deleting;
mod expiring;
mod finding;
mod naming;
mod parallelism;
mod refusing;
mod retention;
mod tracking;

pub use cataloguing::catalog;
pub use changing::change_backup;
pub use crosschecking::crosscheck;
pub use deleting::delete_backup;
pub use expiring::delete_expired;
pub use parallelism::{configure_parallelism, parallelism_refusal};
pub use refusing::record_refusal;
pub use retention::{configure_retention, retention_refusal};
pub use tracking::track_changes;
