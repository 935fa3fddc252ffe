//! Which records a retention policy does not need, and why no target of its window is lost with them.
#![tactic(auto)]

pub mod copies;
pub mod deciding;
pub mod file_need;
pub mod laws;
pub mod needs;
pub mod window;

pub use copies::Backup;
pub use deciding::obsolete;
pub use needs::{chosen, do_ascend};
pub use window::window_start;
