//! The objects that records name, the database of which records tell, and the artefacts that are at hand.
#![tactic(auto)]

pub mod database;
pub mod database_laws;
pub mod evidence;
pub mod gathering;
pub mod looking;
pub mod naming;
pub mod order;
pub mod place;
pub mod reading;
pub mod sets;
mod taking;
pub mod telling;

pub use database::{base_of, current_of, datafile, has_database, switches, threads};
pub use evidence::{Evidence, InPlace};
pub use gathering::{EvidenceFault, gather, gather_by};
pub use looking::look_for_log;
pub use naming::{id_fits, log_name, object_id, piece_name, roll_name, set_name, site_name};
pub use order::by_id;
pub use place::fits_place;
pub use reading::{log_object, piece_object, recorded_body};
pub use sets::set_object;
pub use telling::{Told, tell_each};
