//! What rows and records tell of each block of a datafile, gathered in one pass over all of them.
ghost use Rattle.std.specs.Prelude.{ℕ, ◌≡◌, ◌<◌, IfOk, fold, length, slice_index_or};
ghost use Rattle.rm_plan.specs.Entries.{EachBecomes, after_logs, after_own_row, after_piece, after_pieces, after_record, after_row, after_version, entry_of, no_entry};

use crate::plan::Told;
use crate::span::Span;
use crate::ways::way_to;
use rm_base::{Block, FileNo, NoMemory, Row, Scn};
use rm_evidence::Evidence;
use rm_piece::Piece;
use rm_redo::{LogFile, LogRecord};
use std::alloc::Global;

/// What rows and records tell of a block.
#[derive(Clone, Copy, PartialEq, Eq)]
pub(crate) struct Entry {
    /// The greatest version at which it is seen on the path of the target, and a content seen there.
    pub told: Told,
    /// The SCN up to which a row tells that the block stayed at a version on that path; 0 without a row.
    pub reach: Scn,
    /// Whether a level 1 that looked for changes on that path, below the target, lists the block astray: at
    /// a version that is not on the path, or not below the target.
    pub is_listed_astray: bool,
}

// What is told of a block once it is seen at `version` with this content.
fn with_version(entry: Entry, version: Scn, content: Block) -> Entry
    ensures { result ≡ after_version version content entry }
{
    if entry.told.version < version {
        return Entry {
            told: Told { version, content },
            reach: entry.reach,
            is_listed_astray: entry.is_listed_astray,
        };
    }
    entry
}

// What is told of a block once a row of it is looked at, in a piece of this checkpoint whose way ends at
// `end`; `has_looked` is for a level 1 that looked for changes on its way.
fn with_row(entry: Entry, row: &Row, end: Scn, checkpoint: Scn, has_looked: bool) -> Entry
    ensures { result ≡ after_own_row has_looked end checkpoint entry row.now }
{
    if row.version < end {
        let entry = with_version(entry, row.version, row.content);
        return Entry {
            told: entry.told,
            reach: entry.reach.max(checkpoint.min(end)),
            is_listed_astray: entry.is_listed_astray,
        };
    }
    Entry {
        told: entry.told,
        reach: entry.reach,
        is_listed_astray: entry.is_listed_astray || has_looked,
    }
}

fn note_row(entries: &mut Vec<Entry>, row: &Row, end: Scn, checkpoint: Scn, has_looked: bool)
    ensures len { length entries.new.items ≡ length entries.old.items }
    ensures each { EachBecomes (λ b t. after_row has_looked end checkpoint b t row.now)
        entries.old.items entries.new.items }
{
    let block = row.block as usize;
    if block < entries.len() {
        entries[block] = with_row(entries[block], row, end, checkpoint, has_looked);
    }
}

fn note_rows(entries: &mut Vec<Entry>, rows: &[Row], end: Scn, checkpoint: Scn, has_looked: bool)
    ensures len { length entries.new.items ≡ length entries.old.items }
    ensures each { EachBecomes (λ b t. fold (after_row has_looked end checkpoint b) t rows.now)
        entries.old.items entries.new.items }
{
    for row in rows {
        note_row(entries, row, end, checkpoint, has_looked);
    }
}

fn note_piece(entries: &mut Vec<Entry>, ways: &[Span], piece: &Piece, file: FileNo, is_level1: bool)
    ensures len { length entries.new.items ≡ length entries.old.items }
    ensures each { EachBecomes (λ b t. after_piece is_level1 ways.now file b t piece.now)
        entries.old.items entries.new.items }
{
    if piece.file == file {
        let end = way_to(ways, piece.inc).end;
        let has_looked = is_level1 && piece.from < piece.checkpoint.min(end);
        note_rows(
            entries,
            piece.rows.as_slice(),
            end,
            piece.checkpoint,
            has_looked,
        );
    }
}

fn note_pieces(
    entries: &mut Vec<Entry>,
    ways: &[Span],
    pieces: &[(u32, Piece)],
    file: FileNo,
    is_level1: bool,
)
    ensures len { length entries.new.items ≡ length entries.old.items }
    ensures each { EachBecomes (λ b t. after_pieces is_level1 ways.now file b t pieces.now)
        entries.old.items entries.new.items }
{
    for (_, piece) in pieces {
        note_piece(entries, ways, piece, file, is_level1);
    }
}

fn note_record(entries: &mut Vec<Entry>, way: Span, change: &LogRecord, file: FileNo)
    ensures len { length entries.new.items ≡ length entries.old.items }
    ensures each { EachBecomes (λ b t. after_record way file b t change.now)
        entries.old.items entries.new.items }
{
    let block = change.block as usize;
    if change.file == file
        && block < entries.len()
        && way.start <= change.scn
        && change.scn < way.end
    {
        entries[block] = with_version(entries[block], change.scn, change.content);
    }
}

fn note_log(entries: &mut Vec<Entry>, way: Span, records: &[LogRecord], file: FileNo)
    ensures len { length entries.new.items ≡ length entries.old.items }
    ensures each { EachBecomes (λ b t. fold (after_record way file b) t records.now)
        entries.old.items entries.new.items }
{
    for change in records {
        note_record(entries, way, change, file);
    }
}

fn note_logs(entries: &mut Vec<Entry>, ways: &[Span], logs: &[(u32, LogFile)], file: FileNo)
    ensures len { length entries.new.items ≡ length entries.old.items }
    ensures each { EachBecomes (λ b t. after_logs ways.now file b t logs.now)
        entries.old.items entries.new.items }
{
    for (_, log) in logs {
        note_log(entries, way_to(ways, log.inc), log.records.as_slice(), file);
    }
}

// What rows and records tell of each of the first `blocks` blocks of a datafile that was created at
// `creation`.
pub(crate) fn entries(
    alloc: Global,
    ways: &[Span],
    evidence: &Evidence,
    file: FileNo,
    creation: Scn,
    blocks: u32,
) -> Result<Vec<Entry>, NoMemory>
    ensures len { IfOk result (λ entries. length entries.items ≡ blocks) }
    ensures each { IfOk result (λ entries. (b : ℕ) → b < blocks →
        slice_index_or entries.items b no_entry ≡ entry_of ways.now evidence.now creation file b) }
{
    let told = Told {
        version: creation,
        content: Block::padded(b""),
    };
    let fresh = Entry {
        told,
        reach: 0,
        is_listed_astray: false,
    };
    let mut entries = vec![in alloc; fresh; blocks as usize]?;
    note_pieces(&mut entries, ways, evidence.bases.as_slice(), file, false);
    note_pieces(&mut entries, ways, evidence.level1s.as_slice(), file, true);
    note_logs(&mut entries, ways, evidence.logs.as_slice(), file);
    Ok(entries)
}
