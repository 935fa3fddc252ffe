//! Which records are the parents of level 1s, which image copies take over level 1s, and what becomes of
//! these.
#![tactic(auto)]

pub mod copies;
pub mod laws;
pub mod level1s;
pub mod parents;
mod records;
pub mod renewing;

pub use copies::taken;
pub use level1s::{next_level1, start_above};
pub use parents::parent;
pub use renewing::{Renewed, recover_copy};
