//! Why a run, the statements of a session, or the reading of a script ended early, and the status of each way to end.
ghost use Rattle.std.specs.Prelude.{◌≡◌};
ghost use Rattle.rm_tool.specs.Early.{status_of as the_status_of};

use rm_base::{Failed, NoMemory};
use rm_commit::Stop;
use rm_tool_opening::Unopened;
use std::alloc::AllocError;

/// Why a script was not read.
#[derive(Clone, Copy, PartialEq, Eq)]
pub enum ReadFault {
    /// The source failed.
    Failed,
    /// More than 4,194,304 bytes were taken.
    TooLong,
    NoMemory,
}

impl From<AllocError> for ReadFault {
    ghost use Rattle.rm_tool.specs.declared.early.ReadFault.TheVariants.{NoMemory as WithoutMemory};

    ghost from_gives = { λ _ e. e ≡ WithoutMemory };

    fn from(_: AllocError) -> Self {
        ReadFault::NoMemory
    }
}

impl From<NoMemory> for ReadFault {
    ghost use Rattle.rm_tool.specs.declared.early.ReadFault.TheVariants.{NoMemory as WithoutMemory};

    ghost from_gives = { λ _ e. e ≡ WithoutMemory };

    fn from(_: NoMemory) -> Self {
        ReadFault::NoMemory
    }
}

impl From<Failed> for ReadFault {
    ghost use Rattle.rm_tool.specs.declared.early.ReadFault.TheVariants.{Failed as OfSource};

    ghost from_gives = { λ _ e. e ≡ OfSource };

    fn from(_: Failed) -> Self {
        ReadFault::Failed
    }
}

/// Why a session ended early.
#[derive(Clone, Copy, PartialEq, Eq)]
pub enum Halt {
    Sink,
    Store,
    Keeper,
    NoMemory,
}

impl From<NoMemory> for Halt {
    ghost use Rattle.rm_tool.specs.declared.early.Halt.TheVariants.{NoMemory as WithoutMemory};

    ghost from_gives = { λ _ e. e ≡ WithoutMemory };

    fn from(_: NoMemory) -> Self {
        Halt::NoMemory
    }
}

impl From<Stop> for Halt {
    ghost use Rattle.rm_tool.specs.Serving.{halt_of};

    ghost from_gives = { λ stop e. e ≡ halt_of stop };

    fn from(stop: Stop) -> Self {
        match stop {
            Stop::StoreFault => Halt::Store,
            Stop::KeeperFault => Halt::Keeper,
            Stop::NoMemory => Halt::NoMemory,
        }
    }
}

impl From<Failed> for Halt {
    ghost use Rattle.rm_tool.specs.declared.early.Halt.TheVariants.{Sink as OfSink};

    ghost from_gives = { λ _ e. e ≡ OfSink };

    fn from(_: Failed) -> Self {
        Halt::Sink
    }
}

/// Why a run has not answered each statement of its script, or has not saved what they changed.
#[derive(Clone, Copy, PartialEq, Eq)]
pub enum Early {
    /// The words were refused, and the line of that was written.
    Words,
    /// The source failed, and counted it.
    Source,
    /// The script has too many bytes, and the line of that was written.
    TooLong,
    /// A record breaks a rule, and the line of the first that does was written.
    BadRecord,
    /// The sink failed, and counted it.
    Sink,
    /// The store failed, and counted it.
    Store,
    /// The keeper failed, and counted it.
    Keeper,
    NoMemory,
}

impl From<NoMemory> for Early {
    ghost use Rattle.rm_tool.specs.declared.early.Early.TheVariants.{NoMemory as WithoutMemory};

    ghost from_gives = { λ _ e. e ≡ WithoutMemory };

    fn from(_: NoMemory) -> Self {
        Early::NoMemory
    }
}

impl From<Failed> for Early {
    ghost use Rattle.rm_tool.specs.declared.early.Early.TheVariants.{Sink as OfSink};

    ghost from_gives = { λ _ e. e ≡ OfSink };

    fn from(_: Failed) -> Self {
        Early::Sink
    }
}

impl From<Unopened> for Early {
    ghost use Rattle.rm_tool.specs.Early.{of_unopened};

    ghost from_gives = { λ unopened e. e ≡ of_unopened unopened };

    fn from(unopened: Unopened) -> Self {
        match unopened {
            Unopened::BadRecord => Early::BadRecord,
            Unopened::Sink => Early::Sink,
            Unopened::Store => Early::Store,
            Unopened::Keeper => Early::Keeper,
            Unopened::NoMemory => Early::NoMemory,
        }
    }
}

impl From<Halt> for Early {
    ghost use Rattle.rm_tool.specs.Early.{of_halt};

    ghost from_gives = { λ halt e. e ≡ of_halt halt };

    fn from(halt: Halt) -> Self {
        match halt {
            Halt::Sink => Early::Sink,
            Halt::Store => Early::Store,
            Halt::Keeper => Early::Keeper,
            Halt::NoMemory => Early::NoMemory,
        }
    }
}

/// The status of the program: whether a statement was refused, or how the run ended early.
pub fn status_of(ended: Result<bool, Early>) -> u8
    ensures { result ≡ the_status_of ended }
{
    match ended {
        Ok(refused) => u8::from(refused),
        Err(Early::Words) => 2,
        Err(Early::Source) => 3,
        Err(Early::Sink) => 4,
        Err(Early::Store) => 5,
        Err(Early::Keeper) => 6,
        Err(Early::NoMemory) => 7,
        Err(Early::TooLong) => 8,
        Err(Early::BadRecord) => 9,
    }
}
