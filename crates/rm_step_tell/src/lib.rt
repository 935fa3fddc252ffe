//! The statements that only tell: LIST, REPORT SCHEMA, SHOW ALL, DUMP and VALIDATE ALL.
#![tactic(auto)]

pub mod answer;
mod corruption;
mod dumping;
mod incarnations;
mod listing;
mod schema;
mod settings;
mod validating;

pub use corruption::list_corruption;
pub use dumping::{dump, dump_refusal};
pub use incarnations::list_incarnation;
pub use listing::list;
pub use schema::report_schema;
pub use settings::show_all;
pub use validating::validate_all;
