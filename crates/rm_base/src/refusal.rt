//! Why a statement is refused. A refusal is one line of the reply, and changes nothing.
use crate::numbers::{BlockNo, FileNo, IncNo, Moment, Scn, ThreadNo};
use crate::text::Text;

/// A limit of the database.
#[derive(Clone, Copy, PartialEq, Eq)]
pub enum Limit {
    Threads,
    Files,
    FileBlocks,
    Blocks,
    Channels,
    Incarnations,
    Records,
    Bytes,
    ObjectIds,
    Sequences,
    LogRecords,
    WindowDays,
    Redundancy,
}

/// A thread, a file or a block that is not there.
#[derive(Clone, Copy, PartialEq, Eq)]
pub enum Absent {
    Thread(u64),
    File(u64),
    Block { block: u64, file: u64 },
}

/// How a redo thread is, where it can't be switched as asked.
#[derive(Clone, Copy, PartialEq, Eq)]
pub enum ThreadState {
    Enabled,
    Disabled,
    /// It is the only one that is enabled.
    Last,
}

/// A record, a tag, a log, an object or a byte that is not there.
#[derive(Drop)]
pub enum Unknown {
    Entry(u64),
    Tag(Text),
    Log { sequence: u64, thread: u64 },
    Object(Text),
    Byte { at: u64, name: Text },
}

/// Why a statement is refused, by the number of its line.
#[derive(Drop)]
pub enum Refusal {
    /// The statement, whose first token stands on this line, is not of the grammar.
    Rm01 {
        line: u32,
    },
    /// There is no database.
    Rm02,
    /// There is a database.
    Rm03,
    /// The mode does not allow the statement.
    Rm04 {
        mounted: bool,
    },
    /// A thread, a file or a block is not there.
    Rm05(Absent),
    /// The UNTIL is below `low` or above `high`.
    Rm06 {
        until: u64,
        low: Scn,
        high: Scn,
    },
    /// The incarnation is not there.
    Rm07 {
        inc: u64,
    },
    /// Nothing available tells of this block at this SCN.
    Rm08 {
        file: FileNo,
        block: BlockNo,
        scn: Scn,
        inc: IncNo,
    },
    /// The file, which is needed in place, is lost.
    Rm09 {
        file: FileNo,
    },
    /// The database is not recovered for this opening.
    Rm10,
    /// A limit would be passed.
    Rm11(Limit),
    /// A record, a tag, a log, an object or a byte is not there.
    Rm12(Unknown),
    /// The name of the new object is taken.
    Rm13 {
        name: Text,
    },
    /// No mark on the path is at or before this moment.
    Rm14 {
        moment: Moment,
    },
    /// No SCN is left.
    Rm15,
    /// The thread is enabled, is disabled or is the last one, and so it is not switched.
    Rm16 {
        thread: ThreadNo,
        state: ThreadState,
    },
    /// The block, which is needed in place, is damaged.
    Rm17 {
        file: FileNo,
        block: BlockNo,
    },
    /// The block, which is to be mended, is not damaged.
    Rm18 {
        file: FileNo,
        block: BlockNo,
    },
    /// The increment of this number, which begins at `from`, does not meet the standby, which is at `standby`.
    Rm19 {
        increment: u64,
        from: Scn,
        standby: Scn,
    },
}
