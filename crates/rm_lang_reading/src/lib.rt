//! The reading of each form of statement.
#![tactic(auto)]

mod asking;
pub mod backup;
mod creating;
mod mishaps;
mod modes;
mod phrases;
mod reading;
mod recovering;
mod repairs;
mod run;
mod settings;
mod texts;
pub mod upkeep;

pub use backup::agrees;
pub use reading::read_statement;
pub use texts::is_new_name;
