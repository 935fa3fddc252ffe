//! The records against the objects that they name.
#![tactic(auto)]

pub mod crosschecking;
pub mod fault;
pub mod found;
pub mod laws;
mod object;
pub mod validating;

pub use crosschecking::crosscheck;
pub use fault::VerifyFault;
pub use object::is_of;
pub use validating::validate;
