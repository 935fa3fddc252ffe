//! The fields of a record as bytes, as the catalog keeps them beside the record's key.
#![tactic(auto)]

mod codes;
mod ending;
pub mod laws;
mod numbers;
pub mod reading;
mod sets;
pub mod writing;

pub use reading::decode_record;
pub use writing::encode_record;
