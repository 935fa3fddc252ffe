//! A store of objects over a directory.
#![tactic(auto)]

pub mod dir;
pub mod folder;
mod lock;
pub mod names;
pub mod store;

pub use dir::Dir;
pub use folder::{Folder, put_whole, remove_whole};
pub use lock::Last;
pub use names::is_object;
pub use store::{DirStore, Failure};
