//! The numbers of the recovery manager.

/// A system change number: 1 to [`LAST_SCN`].
pub type Scn = u64;

/// An incarnation: 1 to 256.
pub type IncNo = u32;

/// A datafile: 1 to 64.
pub type FileNo = u32;

/// A block of a datafile: 0 to 65,535.
pub type BlockNo = u32;

/// A redo thread: 1 to 4.
pub type ThreadNo = u8;

/// Seconds since 1970-01-01 UTC: at most [`LAST_MOMENT`].
pub type Moment = u64;

/// The most bytes of an object, 2^28.
pub const MOST_BYTES: u64 = 268_435_456;

/// The greatest SCN, 2^48 - 1.
pub const LAST_SCN: Scn = 281_474_976_710_655;

/// The last moment, 23:59:59 on the last day of 9999.
pub const LAST_MOMENT: Moment = 253_402_300_799;
