//! The records of a database, typed by kind, in memory: what stands in place of the list where a statement looks or changes.
#![tactic(auto)]

mod by_id;
pub mod catalog;
mod changes;
mod edits;
pub mod founding;
pub mod laws;
pub mod ledger_laws;
mod loading;
mod objects;
mod saved;
mod sets;
mod starting;
mod switches;
mod telling;
pub mod thread_switch;

pub use catalog::{Saved, TypedCatalog};
pub use founding::fresh_edits;
pub use starting::Earlier;
pub use thread_switch::ThreadSwitch;
