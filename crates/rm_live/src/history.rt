//! What is asked of a live database, and what it answers.
ghost use Rattle.std.specs.Prelude.{◌≡◌};

use rm_base::{Block, BlockNo, FileNo, Row, Scn, ThreadNo};
use rm_redo::LogFault;

/// Why a write was refused.
#[derive(Clone, Copy, PartialEq, Eq)]
pub enum LiveFault {
    /// There is no such block.
    NoBlock,
    /// The thread's log has 65,536 records.
    Full,
    /// No SCN is left.
    LastScn,
    NoMemory,
}

impl From<LogFault> for LiveFault {
    ghost use Rattle.rm_live.specs.History.{live_fault};

    ghost from_gives = { λ f e. e ≡ live_fault f };

    fn from(fault: LogFault) -> Self {
        match fault {
            LogFault::Full => LiveFault::Full,
            LogFault::NoMemory => LiveFault::NoMemory,
        }
    }
}

/// A call.
#[derive(Clone, Copy)]
pub enum Call {
    Read(FileNo, BlockNo),
    Write(ThreadNo, FileNo, BlockNo, Block),
    /// A row takes the place of the one of its block.
    Mend(FileNo, Row),
}

/// Its answer.
#[derive(Clone, Copy)]
pub enum Answer {
    Found(Option<Row>),
    Wrote(Result<Scn, LiveFault>),
    Mended(bool),
}

/// A call with its answer, and the number of its caller.
pub struct Event {
    pub by: u64,
    pub call: Call,
    pub answer: Answer,
}
