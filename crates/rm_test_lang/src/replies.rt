//! Replies of one line each, of each kind of line.
ghost use Rattle.std.specs.Prelude.{IfOk, IfSome};
ghost use Rattle.rm_report.specs.Reply.{HasDate, LineHasDate};

use rm_base::{
    Absent, Bad, Block, LAST_MOMENT, Limit, NoMemory, Policy, Refusal, Seq, Status, Text, ThreadNo,
    ThreadState, Unknown,
};
use rm_history::Standing;
use rm_report::{Line, Packing, Reply, SchemaPlace, Shape, bytes_of};
use std::alloc::Global;

/// How many numbers there are for the lines of one kind.
pub const MOST: u32 = 32;

/// The text of the reply of this line alone.
pub fn text_of(alloc: Global, line: Line) -> Result<Seq<u8>, NoMemory>
    requires { LineHasDate line }
{
    let mut lines = Seq::new(alloc);
    lines.push(line)?;
    let reply = Reply {
        lines,
        refused: false,
    };
    bytes_of(alloc, &reply)
}

/// The lines of statements that make a database and change it.
pub fn changing(number: u32) -> Option<Line>
    ensures { IfSome result LineHasDate }
{
    Some(match number {
        0 => Line::DatabaseAt { dbid: 7, scn: 1 },
        1 => Line::DatafileAt {
            file: 2,
            scn: 3,
            blocks: 4,
        },
        2 => Line::Written {
            scn: 281_474_976_710_654,
        },
        3 => Line::LogMade {
            id: 3,
            thread: 1,
            sequence: 2,
            first: 1,
            next: 4,
        },
        4 => Line::NothingToArchive { thread: 2 },
        5 => Line::Mounted,
        6 => Line::Opened { inc: 2, scn: 4 },
        7 => Line::Tracking { on: true },
        8 => Line::Tracking { on: false },
        9 => Line::Chosen { inc: 1 },
        10 => Line::ThreadScn { thread: 2, scn: 9 },
        11 => Line::NothingToBackUp,
        12 => Line::ThreadSwitched {
            thread: 2,
            on: true,
            scn: 6,
        },
        13 => Line::ThreadSwitched {
            thread: 2,
            on: false,
            scn: 4,
        },
        _ => return None,
    })
}

// A backup of datafile 1 at checkpoint 5.
fn backed_up(packing: Packing, shape: Shape, reads: u64) -> Line
    ensures { LineHasDate result }
{
    Line::BackedUp {
        packing,
        id: 1,
        file: 1,
        shape,
        checkpoint: 5,
        rows: 2,
        reads,
    }
}

// The content of these first bytes.
fn content(first: [u8; 3]) -> Block {
    let mut bytes = [0u8; 64];
    bytes[0] = first[0];
    bytes[1] = first[1];
    bytes[2] = first[2];
    Block(bytes)
}

/// The lines of backups and of recoveries.
pub fn recovering(number: u32) -> Option<Line>
    ensures { IfSome result LineHasDate }
{
    Some(match number {
        0 => backed_up(Packing::Copy, Shape::Full, 2),
        1 => backed_up(Packing::Copy, Shape::Level0, 2),
        2 => backed_up(Packing::Piece, Shape::Full, 2),
        3 => backed_up(
            Packing::Piece,
            Shape::Level1 { from: 3 },
            18_446_744_073_709_551_615,
        ),
        4 => Line::Skipped {
            id: 7,
            bad: Bad::Missing,
        },
        5 => Line::Skipped {
            id: 8,
            bad: Bad::Damaged,
        },
        6 => Line::RestoredFrom {
            file: 1,
            id: 2,
            checkpoint: 3,
        },
        7 => Line::CreatedEmpty { file: 4 },
        8 => Line::Complete,
        9 => Line::GapIn {
            file: 1,
            block: 2,
            scn: 3,
            inc: 4,
        },
        10 => Line::Recovered {
            until: 4,
            inc: 1,
            files: 2,
        },
        11 => Line::UntilIs {
            until: 4,
            inc: 2,
            files: 3,
        },
        12 => Line::FileIs {
            file: 1,
            blocks: 4,
            written: 2,
        },
        13 => Line::BlockIs {
            block: 0,
            version: 3,
            content: content(*b"BB\0"),
        },
        14 => Line::BlockIs {
            block: 1,
            version: 2,
            content: content([0, 0, 0]),
        },
        15 => Line::BlockIs {
            block: 5,
            version: 9,
            content: content([0xab, 0, 0x0f]),
        },
        16 => Line::Dumped {
            file: 2,
            block: 0,
            version: 3,
            content: content(*b"BB\0"),
        },
        17 => Line::Merged {
            id: 3,
            file: 1,
            checkpoint: 9,
        },
        18 => Line::Stays {
            id: 3,
            file: 1,
            checkpoint: 9,
        },
        19 => Line::StartsAbove {
            id: 5,
            from: 12,
            checkpoint: 9,
        },
        20 => Line::Mended {
            file: 1,
            block: 2,
            version: 281_474_976_710_654,
        },
        21 => backed_up(Packing::Set, Shape::Level0, 8),
        22 => backed_up(Packing::Set, Shape::Level1 { from: 3 }, 0),
        23 => Line::DuplicatedDatafile { file: 3, number: 1 },
        24 => Line::DuplicatedDatabase {
            dbid: 7,
            until: 3,
            files: 1,
        },
        25 => Line::Rolled {
            id: 3,
            from: 3,
            checkpoint: 4,
            files: 1,
            rows: 1,
        },
        26 => Line::StandbyMade {
            number: 1,
            checkpoint: 3,
            inc: 1,
            files: 1,
        },
        27 => Line::StandbyRolled {
            number: 2,
            checkpoint: 4,
            inc: 1,
            files: 1,
            changed: 1,
        },
        28 => Line::Resynced { records: 6 },
        _ => return None,
    })
}

// An incarnation from 4 to 9.
fn incarnation(inc: u32, parent: u32, standing: Standing) -> Line
    ensures { LineHasDate result }
{
    Line::IncarnationIs {
        inc,
        parent,
        reset: 4,
        end: 9,
        standing,
    }
}

// Datafile 2, created at 5.
fn schema(place: SchemaPlace) -> Line
    ensures { LineHasDate result }
{
    Line::Schema {
        file: 2,
        blocks: 3,
        scn: 5,
        inc: 1,
        place,
    }
}

/// The lines that list what is there.
pub fn listing(number: u32) -> Option<Line>
    ensures { IfSome result LineHasDate }
{
    Some(match number {
        0 => incarnation(1, 0, Standing::Parent),
        1 => incarnation(2, 1, Standing::Orphan),
        2 => incarnation(3, 1, Standing::Current),
        3 => schema(SchemaPlace::At(9)),
        4 => schema(SchemaPlace::Lost),
        5 => schema(SchemaPlace::OffPath),
        6 => Line::StatusOf {
            id: 3,
            status: Status::Available,
        },
        7 => Line::StatusOf {
            id: 3,
            status: Status::Unavailable,
        },
        8 => Line::StatusOf {
            id: 3,
            status: Status::Expired,
        },
        9 => Line::BadOf {
            id: 4,
            bad: Bad::Damaged,
        },
        10 => Line::Checked { count: 9, bad: 1 },
        11 => Line::Obsolete { id: 6 },
        12 => Line::ObsoleteCount { count: 0 },
        13 => Line::NeedsBackup { file: 2 },
        14 => Line::NeedCount { count: 1 },
        15 => Line::Retention {
            policy: Policy::Window(7),
        },
        16 => Line::Retention {
            policy: Policy::Redundancy(2),
        },
        17 => Line::Retention {
            policy: Policy::Nothing,
        },
        18 => Line::Parallelism { channels: 4 },
        _ => return None,
    })
}

/// The lines of upkeep, of what befalls the devices, and of a RUN.
pub fn upkeep(number: u32) -> Option<Line>
    ensures { IfSome result LineHasDate }
{
    Some(match number {
        0 => Line::Uncatalogued { id: 5 },
        1 => Line::Kept { id: 5 },
        2 => Line::NotKept { id: 5 },
        3 => Line::Deleted { id: 5 },
        4 => Line::DeletedCount { count: 1 },
        5 => Line::Catalogued { id: 5 },
        6 => Line::FileLost { file: 1 },
        7 => Line::LogLost { thread: 2 },
        8 => Line::BlockDamaged { file: 1, block: 0 },
        9 => Line::Removed,
        10 => Line::Damaged,
        11 => Line::Cut,
        12 => Line::Renamed,
        13 => Line::UntilSet,
        14 => Line::ChannelAllocated,
        _ => return None,
    })
}

// A log that is recorded.
fn log(keep: bool, status: Status) -> Line
    ensures { LineHasDate result }
{
    Line::LogIs {
        id: 4,
        thread: 1,
        sequence: 2,
        first: 5,
        next: 9,
        inc: 1,
        status,
        keep,
    }
}

// A piece, a copy or a part of a set that is recorded.
fn piece(packing: Packing, shape: Shape, tag: Text, keep: bool) -> Line
    ensures { LineHasDate result }
{
    Line::PieceIs {
        packing,
        id: 3,
        file: 1,
        shape,
        checkpoint: 5,
        high: 6,
        status: Status::Available,
        tag,
        keep,
    }
}

/// The lines of records.
pub fn records(alloc: Global, number: u32) -> Result<Option<Line>, NoMemory>
    ensures { IfOk result (λ o. IfSome o LineHasDate) }
{
    let line = match number {
        0 => log(false, Status::Available),
        1 => log(true, Status::Expired),
        2 => piece(
            Packing::Piece,
            Shape::Level1 { from: 2 },
            name(alloc, "INC")?,
            false,
        ),
        3 => piece(Packing::Copy, Shape::Level0, name(alloc, "WEEK_1")?, true),
        4 => piece(Packing::Set, Shape::Full, name(alloc, "ALL")?, false),
        _ => return Ok(None),
    };
    Ok(Some(line))
}

// The limits by their numbers.
fn limit(number: u32) -> Option<Limit> {
    Some(match number {
        0 => Limit::Threads,
        1 => Limit::Files,
        2 => Limit::FileBlocks,
        3 => Limit::Blocks,
        4 => Limit::Channels,
        5 => Limit::Incarnations,
        6 => Limit::Records,
        7 => Limit::Bytes,
        8 => Limit::ObjectIds,
        9 => Limit::Sequences,
        10 => Limit::LogRecords,
        11 => Limit::WindowDays,
        12 => Limit::Redundancy,
        _ => return None,
    })
}

/// The refusals for a limit.
pub fn limits(number: u32) -> Option<Line>
    ensures { IfSome result LineHasDate }
{
    Some(Line::Refused(Refusal::Rm11(limit(number)?)))
}

// Why a thread is not switched.
fn switch_refusal(thread: ThreadNo, state: ThreadState) -> Refusal
    ensures { HasDate result }
{
    Refusal::Rm16 { thread, state }
}

// The refusals by their numbers.
fn refusal(number: u32) -> Option<Refusal>
    ensures { IfSome result HasDate }
{
    Some(match number {
        0 => Refusal::Rm01 { line: 12 },
        1 => Refusal::Rm02,
        2 => Refusal::Rm03,
        3 => Refusal::Rm04 { mounted: false },
        4 => Refusal::Rm04 { mounted: true },
        5 => Refusal::Rm05(Absent::Thread(5)),
        6 => Refusal::Rm05(Absent::File(6)),
        7 => Refusal::Rm05(Absent::Block { block: 8, file: 1 }),
        8 => Refusal::Rm06 {
            until: 5,
            low: 1,
            high: 4,
        },
        9 => Refusal::Rm07 { inc: 3 },
        10 => Refusal::Rm08 {
            file: 1,
            block: 2,
            scn: 3,
            inc: 4,
        },
        11 => Refusal::Rm09 { file: 2 },
        12 => Refusal::Rm10,
        13 => Refusal::Rm12(Unknown::Entry(9)),
        14 => Refusal::Rm12(Unknown::Log {
            sequence: 2,
            thread: 1,
        }),
        15 => Refusal::Rm14 { moment: 0 },
        16 => Refusal::Rm14 {
            moment: 951_782_400,
        },
        17 => Refusal::Rm14 {
            moment: LAST_MOMENT,
        },
        18 => Refusal::Rm15,
        19 => switch_refusal(1, ThreadState::Enabled),
        20 => switch_refusal(3, ThreadState::Disabled),
        21 => switch_refusal(2, ThreadState::Last),
        22 => Refusal::Rm17 { file: 1, block: 3 },
        23 => Refusal::Rm18 {
            file: 2,
            block: 65535,
        },
        24 => Refusal::Rm19 {
            increment: 4,
            from: 4,
            standby: 3,
        },
        _ => return None,
    })
}

/// The other refusals that have no name.
pub fn refusals(number: u32) -> Option<Line>
    ensures { IfSome result LineHasDate }
{
    Some(Line::Refused(refusal(number)?))
}

fn name(alloc: Global, text: &str) -> Result<Text, NoMemory> {
    Ok(Text::from_string(String::from_str(alloc, text)?))
}

/// The refusals with a name.
pub fn names(alloc: Global, number: u32) -> Result<Option<Line>, NoMemory>
    ensures { IfOk result (λ o. IfSome o LineHasDate) }
{
    let refusal = match number {
        0 => Refusal::Rm12(Unknown::Tag(name(alloc, "INC")?)),
        1 => Refusal::Rm12(Unknown::Object(name(alloc, "log_1")?)),
        2 => Refusal::Rm12(Unknown::Byte {
            at: 234,
            name: name(alloc, "copy_1")?,
        }),
        3 => Refusal::Rm13 {
            name: name(alloc, "away")?,
        },
        _ => return Ok(None),
    };
    Ok(Some(Line::Refused(refusal)))
}
