//! How a call ends that was refused or stopped.
ghost use Rattle.std.specs.Prelude.{◌≡◌};
ghost use Rattle.rm_tool_ends.specs.Ended.{status_of as the_status_of};

use rm_base::{Failed, NoMemory};
use rm_commit::Stop;

/// Why a call has not done all that it was asked for, or not all of it was told.
#[derive(Clone, Copy, PartialEq, Eq)]
pub enum Ended {
    /// It was refused, and the line of that was written.
    Refused,
    /// A record breaks a rule, and the line of the first that does was written.
    BadRecord,
    /// The sink failed, and counted it.
    Sink,
    /// A store failed, and counted it.
    Store,
    /// The catalog's keeper failed, and counted it.
    Keeper,
    NoMemory,
}

impl From<NoMemory> for Ended {
    ghost use Rattle.rm_tool_ends.specs.declared.ended.Ended.TheVariants.{NoMemory as WithoutMemory};

    ghost from_gives = { λ _ e. e ≡ WithoutMemory };

    fn from(_: NoMemory) -> Self {
        Ended::NoMemory
    }
}

impl From<Failed> for Ended {
    ghost use Rattle.rm_tool_ends.specs.declared.ended.Ended.TheVariants.{Sink as OfSink};

    ghost from_gives = { λ _ e. e ≡ OfSink };

    fn from(_: Failed) -> Self {
        Ended::Sink
    }
}

impl From<Stop> for Ended {
    ghost use Rattle.rm_tool_ends.specs.Causes.{of_stop};

    ghost from_gives = { λ stop e. e ≡ of_stop stop };

    fn from(stop: Stop) -> Self {
        match stop {
            Stop::StoreFault => Ended::Store,
            Stop::KeeperFault => Ended::Keeper,
            Stop::NoMemory => Ended::NoMemory,
        }
    }
}

/// The status of the program: 0 where all was done, 1 where it was refused, 4, 5 and 6 where the sink, a store or the catalog's keeper failed,
/// 7 where memory was wanting, and 9 where a record breaks a rule.
pub fn status_of(ended: Result<(), Ended>) -> u8
    ensures { result ≡ the_status_of ended }
{
    match ended {
        Ok(()) => 0,
        Err(Ended::Refused) => 1,
        Err(Ended::Sink) => 4,
        Err(Ended::Store) => 5,
        Err(Ended::Keeper) => 6,
        Err(Ended::NoMemory) => 7,
        Err(Ended::BadRecord) => 9,
    }
}
