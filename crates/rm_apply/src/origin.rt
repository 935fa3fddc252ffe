//! From where a datafile is restored.
use rm_base::Scn;

/// From where a datafile is restored.
#[derive(Clone, Copy, PartialEq, Eq)]
pub enum Origin {
    /// The backup of this id, with its checkpoint. What a set has of a datafile stands under the set's id.
    Backup(u32, Scn),
    /// As it was created: there is no backup of it.
    Created,
}
