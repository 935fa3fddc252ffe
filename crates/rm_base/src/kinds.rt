//! The kinds, states and choices that records, lists and statements name.

/// What a piece holds of its datafile.
#[derive(Clone, Copy, PartialEq, Eq)]
pub enum Kind {
    /// Each block, and it is no parent of a level 1.
    Full,
    /// Each block.
    Level0,
    /// The blocks whose version is at or above its `from`.
    Level1,
    /// Each block of a datafile that stands in place.
    Place,
}

/// Whether a record's object may be used.
#[derive(Clone, Copy, PartialEq, Eq)]
pub enum Status {
    Available,
    /// Set aside by a statement.
    Unavailable,
    /// A crosscheck found no object of its name.
    Expired,
}

/// Why the object of an available record can't be used.
#[derive(Clone, Copy, Debug, PartialEq, Eq)]
pub enum Bad {
    /// The store has nothing under its name.
    Missing,
    /// What stands there is not what was recorded.
    Damaged,
}

/// Which backups are kept.
#[derive(Clone, Copy, PartialEq, Eq)]
pub enum Policy {
    /// Those that a recovery to any point of so many last days needs: 1 to 36,500.
    Window(u32),
    /// So many of each datafile: 1 to 1,000.
    Redundancy(u32),
    /// All.
    Nothing,
}

/// A class of records.
#[derive(Clone, Copy, PartialEq, Eq)]
pub enum Class {
    /// Pieces, and backups of logs.
    Backup,
    /// Image copies.
    Copy,
    /// Archived logs.
    Archived,
}
