//! Sessions: what runs is loaded at the start of one, and saved at its end.
#![tactic(auto)]

pub mod fault;
pub mod files;
pub mod instances;
pub mod laws;
pub mod loading;
pub mod parts;
pub mod point;
pub mod records;
pub mod saved_laws;
pub mod saving;
mod site_parts;
pub mod threads;

pub use fault::SessionFault;
pub use loading::load_place;
pub use saving::put_place;
