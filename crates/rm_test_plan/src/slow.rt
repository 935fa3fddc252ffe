//! The plain planner, which looks at one address after another. What it answers is wished for, and
//! nothing is proved of it.
use crate::threads::is_enabled;
use rm_base::{Block, BlockNo, FileNo, IncNo, Row, Scn, ThreadNo};
use rm_evidence::Evidence;
use rm_history::{Switch, Tree};
use rm_piece::Piece;
use rm_plan::{Gap, Told};
use rm_redo::{LogFile, LogRecord};

/// A block of a datafile that was created at `creation`, at SCN `scn` on the path of incarnation `inc`.
#[derive(Clone, Copy)]
pub struct Target {
    pub inc: IncNo,
    pub scn: Scn,
    pub file: FileNo,
    pub block: BlockNo,
    pub creation: Scn,
}

fn later(told: Told, version: Scn, content: Block) -> Told {
    if told.version < version {
        Told { version, content }
    } else {
        told
    }
}

// Whether the row is one of the block, below the target on its path, in a piece of incarnation `inc`.
fn does_row_count(tree: &Tree, inc: IncNo, row: &Row, at: Target) -> bool {
    row.block == at.block
        && row.version < at.scn
        && tree.owner(inc, row.version) == tree.owner(at.inc, row.version)
}

fn told_by_pieces(tree: &Tree, pieces: &[(u32, Piece)], at: Target, told: Told) -> Told {
    let mut told = told;
    for (_, piece) in pieces {
        if piece.file == at.file {
            told = told_by_rows(tree, piece.inc, piece.rows.as_slice(), at, told);
        }
    }
    told
}

fn told_by_rows(tree: &Tree, inc: IncNo, rows: &[Row], at: Target, told: Told) -> Told {
    let mut told = told;
    for row in rows {
        if does_row_count(tree, inc, row, at) {
            told = later(told, row.version, row.content);
        }
    }
    told
}

fn does_record_count(tree: &Tree, inc: IncNo, entry: &LogRecord, at: Target) -> bool {
    entry.file == at.file
        && entry.block == at.block
        && entry.scn < at.scn
        && tree.owner(at.inc, entry.scn) == Some(inc)
}

fn told_by_log(tree: &Tree, log: &LogFile, at: Target, told: Told) -> Told {
    let mut told = told;
    for entry in log.records.as_slice() {
        if does_record_count(tree, log.inc, entry, at) {
            told = later(told, entry.scn, entry.content);
        }
    }
    told
}

// The greatest version below the target at which the block is seen on its path.
fn greatest(tree: &Tree, evidence: &Evidence, at: Target) -> Told {
    let mut told = Told {
        version: at.creation,
        content: Block::padded(b""),
    };
    told = told_by_pieces(tree, evidence.bases.as_slice(), at, told);
    told = told_by_pieces(tree, evidence.level1s.as_slice(), at, told);
    for (_, log) in evidence.logs.as_slice() {
        told = told_by_log(tree, log, at, told);
    }
    told
}

// Whether the piece speaks of the block's file at the SCN `g` of incarnation `m`.
fn does_reach(tree: &Tree, piece: &Piece, at: Target, m: IncNo, g: Scn) -> bool {
    piece.file == at.file && g < piece.checkpoint && tree.owner(piece.inc, g) == Some(m)
}

fn has_row_below(rows: &[Row], block: BlockNo, g: Scn) -> bool {
    rows.iter().any(|row| row.block == block && row.version < g)
}

fn is_listed(rows: &[Row], block: BlockNo) -> bool {
    rows.iter().any(|row| row.block == block)
}

fn is_any_row(tree: &Tree, pieces: &[(u32, Piece)], at: Target, m: IncNo, g: Scn) -> bool {
    for (_, piece) in pieces {
        let rows = piece.rows.as_slice();
        if does_reach(tree, piece, at, m, g) && has_row_below(rows, at.block, g) {
            return true;
        }
    }
    false
}

fn is_any_absence(tree: &Tree, level1s: &[(u32, Piece)], at: Target, m: IncNo, g: Scn) -> bool {
    for (_, piece) in level1s {
        let rows = piece.rows.as_slice();
        if does_reach(tree, piece, at, m, g) && piece.from <= g && !is_listed(rows, at.block) {
            return true;
        }
    }
    false
}

fn does_hold(log: &LogFile, m: IncNo, g: Scn) -> bool {
    log.inc == m && log.first <= g && g < log.next
}

fn is_logged(logs: &[(u32, LogFile)], m: IncNo, g: Scn, thread: ThreadNo) -> bool {
    for (_, log) in logs {
        if does_hold(log, m, g) && log.thread == thread {
            return true;
        }
    }
    false
}

fn has_record(records: &[LogRecord], at: Target, g: Scn) -> bool {
    records.iter().any(|entry| entry.file == at.file && entry.block == at.block && entry.scn == g)
}

fn is_any_record(logs: &[(u32, LogFile)], at: Target, m: IncNo, g: Scn) -> bool {
    for (_, log) in logs {
        if does_hold(log, m, g) && has_record(log.records.as_slice(), at, g) {
            return true;
        }
    }
    false
}

// Whether each thread that is enabled at the SCN `g` of incarnation `m` has a log that holds it.
fn are_logged(tree: &Tree, switches: &[Switch], logs: &[(u32, LogFile)], m: IncNo, g: Scn) -> bool {
    for thread in 1..5u8 {
        if is_enabled(tree, switches, m, g, thread) && !is_logged(logs, m, g, thread) {
            return false;
        }
    }
    true
}

// Whether the block is known not to have changed at the SCN `g` of incarnation `m`.
fn is_quiet(
    tree: &Tree,
    switches: &[Switch],
    evidence: &Evidence,
    at: Target,
    m: IncNo,
    g: Scn,
) -> bool {
    let logs = evidence.logs.as_slice();
    is_any_row(tree, evidence.bases.as_slice(), at, m, g)
        || is_any_row(tree, evidence.level1s.as_slice(), at, m, g)
        || is_any_absence(tree, evidence.level1s.as_slice(), at, m, g)
        || (are_logged(tree, switches, logs, m, g) && !is_any_record(logs, at, m, g))
}

/// What the evidence tells of the block, or its gap.
pub fn plan_slowly(
    tree: &Tree,
    switches: &[Switch],
    evidence: &Evidence,
    at: Target,
) -> Result<Told, Gap> {
    let told = greatest(tree, evidence, at);
    for scn in told.version.saturating_add(1)..at.scn {
        let inc = tree.owner(at.inc, scn).unwrap_or(0);
        if !is_quiet(tree, switches, evidence, at, inc, scn) {
            return Err(Gap {
                file: at.file,
                block: at.block,
                inc,
                scn,
            });
        }
    }
    Ok(told)
}
