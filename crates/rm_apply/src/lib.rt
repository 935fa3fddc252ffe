//! Datafiles as recovery and restore bring them back, by what is at hand.
#![tactic(auto)]

mod applying;
mod choice;
pub mod fault;
pub mod given;
pub mod laws;
pub mod origin;
mod plans;
pub mod previewing;
pub mod range;
pub mod recovering;
pub mod restoring;
pub mod targets;

pub use fault::RecoverFault;
pub use given::{preview, recover, restore};
pub use origin::Origin;
pub use previewing::preview_from;
pub use range::outside;
pub use recovering::{Recovered, recover_from};
pub use restoring::restore_from;
pub use targets::{TargetFile, datafiles_at};
