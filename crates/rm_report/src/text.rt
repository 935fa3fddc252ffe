//! The text of a reply.
ghost use Rattle.std.specs.{Prelude.{◌≡◌, ◌≤◌, ◌++◌, IfOk, OnOk, IsTrue}, String.{string_bytes}};
ghost use Rattle.rm_base.specs.{Numbers.{last_moment}, declared.refusal.Refusal.TheVariants.{Rm14}};
ghost use Rattle.rm_report.specs.Reply.{HasDate, LineHasDate, HasDates};
ghost use Rattle.rm_report.specs.Text.{tells_blocks, tells_history, tells_backup, line_text, block_text, backup_text, shape_text, standing_text, refusal_text, absent_text, unknown_text, limit_text, content_text, byte_text, thread_state_text, reply_text};

use crate::line::{Line, Packing, Reply, Shape};
use crate::lines::{
    push_bad_of, push_block_damaged, push_checked, push_duplicated_database,
    push_duplicated_datafile, push_gap_in, push_mended, push_merged, push_policy, push_record,
    push_restored_from, push_rolled, push_schema, push_skipped, push_standby_made,
    push_standby_rolled, push_starts_above, push_status_of, push_stays, push_thread_scn,
    push_thread_switched, push_tracking,
};
use rm_base::{
    Absent, Block, BlockNo, Limit, Moment, NoMemory, Refusal, Scn, Seq, ThreadState, Unknown,
};
use rm_history::Standing;
use rm_moments::text;
use std::alloc::{AllocError, Global};

/// The text of a reply: each line in order, with a line feed at its end. The moment of each RM-14 in
/// it is at most the last of the year 9999.
pub fn bytes_of(alloc: Global, reply: &Reply) -> Result<Seq<u8>, NoMemory>
    requires dates { HasDates reply.now }
    ensures { IfOk result (λ bytes. bytes ≡ reply_text reply.now) }
{
    let mut out = String::new(alloc);
    for line in reply.lines.as_slice() {
        push_line(alloc, &mut out, line)?;
        out.push_str("\n")?;
    }
    Ok(Seq::from_vec(out.into_bytes()))
}

// Appends the line, without a line feed.
fn push_line(alloc: Global, out: &mut String, line: &Line) -> Result<(), AllocError>
    requires { LineHasDate line.now }
    ensures { OnOk result (string_bytes out.new ≡ string_bytes out.old ++ line_text line.now) }
{
    match line {
        Line::DatabaseAt { dbid, scn } => write!(out, "database {dbid} incarnation 1 at {scn}"),
        Line::DatafileAt { file, scn, blocks } => {
            write!(out, "datafile {file} created at {scn} with {blocks} blocks")
        }
        Line::Written { scn } => write!(out, "scn {scn}"),
        Line::LogMade { .. } => push_history(out, line),
        Line::NothingToArchive { thread } => write!(out, "thread {thread} nothing to archive"),
        Line::Mounted => write!(out, "mounted"),
        Line::Opened { inc, scn } => write!(out, "opened incarnation {inc} at {scn}"),
        Line::Chosen { inc } => write!(out, "incarnation {inc} chosen"),
        Line::Recovered { until, inc, files } => {
            write!(
                out,
                "recovered until {until} of incarnation {inc}: files {files}"
            )
        }
        Line::UntilIs { until, inc, files } => {
            write!(out, "until {until} of incarnation {inc}: files {files}")
        }
        Line::FileIs { .. } => push_blocks(out, line),
        Line::BlockIs { .. } => push_blocks(out, line),
        Line::BackedUp { .. } => push_backup(out, line),
        Line::NothingToBackUp => write!(out, "nothing to back up"),
        Line::IncarnationIs { .. } => push_history(out, line),
        Line::Dumped { .. } => push_blocks(out, line),
        Line::Tracking { on } => push_tracking(out, *on),
        Line::ThreadSwitched { thread, on, scn } => push_thread_switched(out, *thread, *on, *scn),
        Line::Skipped { id, bad } => push_skipped(out, *id, *bad),
        Line::RestoredFrom {
            file,
            id,
            checkpoint,
        } => push_restored_from(out, *file, *id, *checkpoint),
        Line::CreatedEmpty { file } => write!(out, "datafile {file} created empty"),
        Line::Complete => write!(out, "complete"),
        Line::GapIn {
            file,
            block,
            scn,
            inc,
        } => push_gap_in(out, *file, *block, *scn, *inc),
        Line::Merged {
            id,
            file,
            checkpoint,
        } => push_merged(out, *id, *file, *checkpoint),
        Line::Stays {
            id,
            file,
            checkpoint,
        } => push_stays(out, *id, *file, *checkpoint),
        Line::StartsAbove {
            id,
            from,
            checkpoint,
        } => push_starts_above(out, *id, *from, *checkpoint),
        Line::BlockDamaged { file, block } => push_block_damaged(out, *file, *block),
        Line::Mended {
            file,
            block,
            version,
        } => push_mended(out, *file, *block, *version),
        Line::ThreadScn { thread, scn } => push_thread_scn(out, *thread, *scn),
        Line::StatusOf { id, status } => push_status_of(out, *id, *status),
        Line::BadOf { id, bad } => push_bad_of(out, *id, *bad),
        Line::Checked { count, bad } => push_checked(out, *count, *bad),
        Line::Uncatalogued { id } => write!(out, "{id} uncatalogued"),
        Line::Kept { id } => write!(out, "{id} kept"),
        Line::NotKept { id } => write!(out, "{id} not kept"),
        Line::Deleted { id } => write!(out, "deleted {id}"),
        Line::DeletedCount { count } => write!(out, "{count} deleted"),
        Line::Obsolete { id } => write!(out, "obsolete {id}"),
        Line::ObsoleteCount { count } => write!(out, "{count} obsolete"),
        Line::NeedsBackup { file } => write!(out, "datafile {file} needs backup"),
        Line::NeedCount { count } => write!(out, "{count} need backup"),
        Line::Parallelism { channels } => write!(out, "parallelism {channels}"),
        Line::Catalogued { id } => write!(out, "{id} catalogued"),
        Line::FileLost { file } => write!(out, "datafile {file} lost"),
        Line::LogLost { thread } => write!(out, "log of thread {thread} lost"),
        Line::Removed => write!(out, "removed"),
        Line::Damaged => write!(out, "damaged"),
        Line::Cut => write!(out, "cut"),
        Line::Renamed => write!(out, "renamed"),
        Line::UntilSet => write!(out, "until set"),
        Line::ChannelAllocated => write!(out, "channel allocated"),
        Line::Schema {
            file,
            blocks,
            scn,
            inc,
            place,
        } => push_schema(out, *file, *blocks, *scn, *inc, *place),
        Line::PieceIs { .. } => push_record(out, line),
        Line::LogIs { .. } => push_record(out, line),
        Line::Retention { policy } => push_policy(out, *policy),
        Line::DuplicatedDatafile { file, number } => push_duplicated_datafile(out, *file, *number),
        Line::DuplicatedDatabase { dbid, until, files } => {
            push_duplicated_database(out, *dbid, *until, *files)
        }
        Line::Rolled {
            id,
            from,
            checkpoint,
            files,
            rows,
        } => push_rolled(out, *id, *from, *checkpoint, *files, *rows),
        Line::StandbyMade {
            number,
            checkpoint,
            inc,
            files,
        } => push_standby_made(out, *number, *checkpoint, *inc, *files),
        Line::StandbyRolled {
            number,
            checkpoint,
            inc,
            files,
            changed,
        } => push_standby_rolled(out, *number, *checkpoint, *inc, *files, *changed),
        Line::Resynced { records } => write!(out, "resynced {records} records"),
        Line::Refused(refusal) => push_refusal(alloc, out, refusal),
    }
}

// Appends a line that tells of a file's blocks.
fn push_blocks(out: &mut String, line: &Line) -> Result<(), AllocError>
    requires { IsTrue (tells_blocks line.now) }
    ensures { OnOk result (string_bytes out.new ≡ string_bytes out.old ++ line_text line.now) }
{
    match line {
        Line::FileIs {
            file,
            blocks,
            written,
        } => write!(out, "datafile {file}: {blocks} blocks, {written} written"),
        Line::BlockIs {
            block,
            version,
            content,
        } => push_block(out, *block, *version, content),
        Line::Dumped {
            file,
            block,
            version,
            content,
        } => {
            write!(out, "datafile {file} ")?;
            push_block(out, *block, *version, content)
        }
        _ => unreachable!(),
    }
}

// Appends a line that tells of a log or an incarnation.
fn push_history(out: &mut String, line: &Line) -> Result<(), AllocError>
    requires { IsTrue (tells_history line.now) }
    ensures { OnOk result (string_bytes out.new ≡ string_bytes out.old ++ line_text line.now) }
{
    match line {
        Line::LogMade {
            id,
            thread,
            sequence,
            first,
            next,
        } => write!(
            out,
            "log {id} thread {thread} sequence {sequence} first {first} next {next}"
        ),
        Line::IncarnationIs {
            inc,
            parent,
            reset,
            end,
            standing,
        } => {
            let standing = standing_text(*standing);
            write!(
                out,
                "incarnation {inc} parent {parent} reset at {reset} end {end} {standing}"
            )
        }
        _ => unreachable!(),
    }
}

// Appends a line that tells of a backup.
fn push_backup(out: &mut String, line: &Line) -> Result<(), AllocError>
    requires { IsTrue (tells_backup line.now) }
    ensures { OnOk result (string_bytes out.new ≡ string_bytes out.old ++ line_text line.now) }
{
    match line {
        Line::BackedUp {
            packing,
            id,
            file,
            shape,
            checkpoint,
            rows,
            reads,
        } => {
            write!(out, "{} {id} datafile {file} ", backup_text(*packing))?;
            push_shape(out, *shape)?;
            write!(out, " checkpoint {checkpoint} rows {rows} read {reads}")
        }
        _ => unreachable!(),
    }
}

/// A piece, a copy or a set.
pub fn backup_text(packing: Packing) -> &'static str
    ensures { result.now ≡ backup_text packing }
{
    match packing {
        Packing::Piece => "piece",
        Packing::Copy => "copy",
        Packing::Set => "set",
    }
}

/// Appends what a backup holds.
pub fn push_shape(out: &mut String, shape: Shape) -> Result<(), AllocError>
    ensures { OnOk result (string_bytes out.new ≡ string_bytes out.old ++ shape_text shape) }
{
    match shape {
        Shape::Full => write!(out, "full"),
        Shape::Level0 => write!(out, "level 0"),
        Shape::Level1 { from } => write!(out, "level 1 from {from}"),
    }
}

// Appends the block's number, version and content.
fn push_block(
    out: &mut String,
    block: BlockNo,
    version: Scn,
    content: &Block,
) -> Result<(), AllocError>
    ensures { OnOk result (string_bytes out.new ≡ string_bytes out.old ++ block_text block version content.now) }
{
    write!(out, "block {block} version {version} value ")?;
    push_content(out, content)
}

// How the incarnation stands to the current one.
fn standing_text(standing: Standing) -> &'static str
    ensures { result.now ≡ standing_text standing }
{
    match standing {
        Standing::Current => "current",
        Standing::Parent => "parent",
        Standing::Orphan => "orphan",
    }
}

// Appends the content's bytes without the zero bytes at its end, or `-` where no byte is left.
fn push_content(out: &mut String, content: &Block) -> Result<(), AllocError>
    ensures { OnOk result (string_bytes out.new ≡ string_bytes out.old ++ content_text content.now) }
{
    let bytes = content.trimmed();
    if bytes.is_empty() {
        return out.push_str("-");
    }
    for byte in bytes {
        push_byte(out, *byte)?;
    }
    Ok(())
}

// Appends the byte's two digits in lower-case hexadecimal.
fn push_byte(out: &mut String, byte: u8) -> Result<(), AllocError>
    ensures { OnOk result (string_bytes out.new ≡ string_bytes out.old ++ byte_text byte) }
{
    write!(out, "{byte:02x}")
}

// Appends the line of a refusal.
fn push_refusal(alloc: Global, out: &mut String, refusal: &Refusal) -> Result<(), AllocError>
    requires { HasDate refusal.now }
    ensures { OnOk result (string_bytes out.new ≡ string_bytes out.old ++ refusal_text refusal.now) }
{
    match refusal {
        Refusal::Rm01 { line } => write!(out, "RM-01: syntax at line {line}"),
        Refusal::Rm02 => write!(out, "RM-02: no database"),
        Refusal::Rm03 => write!(out, "RM-03: a database is there"),
        Refusal::Rm04 { mounted: false } => write!(out, "RM-04: mode is open"),
        Refusal::Rm04 { mounted: true } => write!(out, "RM-04: mode is mounted"),
        Refusal::Rm05(absent) => push_absent(out, absent),
        Refusal::Rm06 { until, low, high } => {
            write!(out, "RM-06: until {until} is outside {low}..{high}")
        }
        Refusal::Rm07 { inc } => write!(out, "RM-07: no incarnation {inc}"),
        Refusal::Rm08 {
            file,
            block,
            scn,
            inc,
        } => write!(
            out,
            "RM-08: gap in datafile {file} block {block} at {scn} of incarnation {inc}"
        ),
        Refusal::Rm09 { file } => write!(out, "RM-09: datafile {file} is lost, restore it first"),
        Refusal::Rm10 => write!(out, "RM-10: recovery isn't done for this opening"),
        Refusal::Rm11(limit) => write!(out, "RM-11: limit {}", limit_text(*limit)),
        Refusal::Rm12(unknown) => push_unknown(out, unknown),
        Refusal::Rm13 { name } => write!(out, "RM-13: name {} is taken", name.as_str()),
        Refusal::Rm14 { moment } => push_unmarked(alloc, out, *moment),
        Refusal::Rm15 => write!(out, "RM-15: last SCN"),
        Refusal::Rm16 { thread, state } => {
            write!(
                out,
                "RM-16: thread {thread} is {}",
                thread_state_text(*state)
            )
        }
        Refusal::Rm17 { file, block } => {
            write!(out, "RM-17: block {block} of datafile {file} is damaged")
        }
        Refusal::Rm18 { file, block } => {
            write!(out, "RM-18: block {block} of datafile {file} isn't damaged")
        }
        Refusal::Rm19 {
            increment,
            from,
            standby,
        } => {
            write!(
                out,
                "RM-19: increment {increment} from {from} does not meet standby at {standby}"
            )
        }
    }
}

// Appends the line for a moment that no mark is at or before.
fn push_unmarked(alloc: Global, out: &mut String, moment: Moment) -> Result<(), AllocError>
    requires { moment ≤ last_moment }
    ensures { OnOk result (string_bytes out.new ≡ string_bytes out.old ++ refusal_text (Rm14 moment)) }
{
    let Ok(shown) = text(alloc, moment) else {
        return Err(AllocError);
    };
    write!(out, "RM-14: no mark at or before {}", shown.as_str())
}

// Appends the line for a thread, a file or a block that is not there.
fn push_absent(out: &mut String, absent: &Absent) -> Result<(), AllocError>
    ensures { OnOk result (string_bytes out.new ≡ string_bytes out.old ++ absent_text absent.now) }
{
    match absent {
        Absent::Thread(thread) => write!(out, "RM-05: no thread {thread}"),
        Absent::File(file) => write!(out, "RM-05: no datafile {file}"),
        Absent::Block { block, file } => write!(out, "RM-05: no block {block} in datafile {file}"),
    }
}

// The limit's name and number.
fn limit_text(limit: Limit) -> &'static str
    ensures { result.now ≡ limit_text limit }
{
    match limit {
        Limit::Threads => "threads 4",
        Limit::Files => "files 64",
        Limit::FileBlocks => "blocks per file 65536",
        Limit::Blocks => "blocks 131072",
        Limit::Channels => "channels 16",
        Limit::Incarnations => "incarnations 256",
        Limit::Records => "records 65536",
        Limit::Bytes => "bytes 268435456",
        Limit::ObjectIds => "object ids 4294967295",
        Limit::Sequences => "sequences 4294967295",
        Limit::LogRecords => "log records 65536",
        Limit::WindowDays => "window days 36500",
        Limit::Redundancy => "redundancy 1000",
    }
}

// How a thread is that can't be switched.
fn thread_state_text(state: ThreadState) -> &'static str
    ensures { result.now ≡ thread_state_text state }
{
    match state {
        ThreadState::Enabled => "enabled",
        ThreadState::Disabled => "disabled",
        ThreadState::Last => "the last",
    }
}

// Appends the line for a record, a tag, a log, an object or a byte that is not there.
fn push_unknown(out: &mut String, unknown: &Unknown) -> Result<(), AllocError>
    ensures { OnOk result (string_bytes out.new ≡ string_bytes out.old ++ unknown_text unknown.now) }
{
    match unknown {
        Unknown::Entry(entry) => write!(out, "RM-12: no record {entry}"),
        Unknown::Tag(tag) => write!(out, "RM-12: no tag {}", tag.as_str()),
        Unknown::Log { sequence, thread } => {
            write!(out, "RM-12: no log {sequence} of thread {thread}")
        }
        Unknown::Object(name) => write!(out, "RM-12: no object {}", name.as_str()),
        Unknown::Byte { at, name } => write!(out, "RM-12: no byte {at} in {}", name.as_str()),
    }
}
