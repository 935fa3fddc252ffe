//! The site: a database or none, over a store of objects and a keeper of records.
#![tactic(auto)]

mod changing;
mod create;
mod gates;
mod moment;
pub mod open;
mod refusing;
mod save;
pub mod site;
mod statement;
mod step;

pub use gates::OpenGate;
pub use open::OpenFault;
pub use rm_commit::Stop;
pub use site::Site;
