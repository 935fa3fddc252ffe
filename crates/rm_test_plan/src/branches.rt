//! Made databases of four incarnations, whose threads come and go, each from one number: with a history, and with
//! copies, level 1s and logs that tell of it.
use crate::draws::Draws;
use crate::made::{base_entry, catalog_of, datafile, nothing, push_incarnation, switch_entry};
use crate::threads::{BEGAN, enabled_behind, is_enabled};
use rm_base::{Block, BlockNo, Change, IncNo, Kind, NoMemory, Row, Scn, Seq, ThreadNo};
use rm_catalog::{Catalog, IncarnationEntry};
use rm_evidence::Evidence;
use rm_history::{Switch, Tree};
use rm_piece::{Piece, pick};
use rm_redo::{LogFile, LogRecord};
use rm_test_harness::Fault;
use std::alloc::Global;

/// Where each incarnation ends.
pub const END: Scn = 24;

/// How many blocks datafile 1 has; datafile 2 has one, which never changes.
pub const BLOCKS: u32 = 3;

/// A made database: its number, its incarnations, and its switches of threads.
#[derive(Clone, Copy)]
pub struct Made<'a> {
    pub number: u64,
    pub tree: &'a Tree,
    pub switches: &'a [Switch],
}

// The change at an SCN of an incarnation, where there is one: three in four are changes of datafile 1, each by a thread
// that is enabled there.
fn change_at(made: Made<'_>, inc: IncNo, scn: Scn) -> Option<Change> {
    let place = scn.saturating_mul(8).saturating_add(u64::from(inc));
    let mut draws = Draws {
        number: made.number.wrapping_mul(1000).wrapping_add(place),
    };
    draws.below(2);
    if draws.below(4) == 0 {
        return None;
    }
    let after = draws.below(4) as u8;
    Some(Change {
        inc,
        thread: enabled_behind(made.tree, made.switches, inc, scn, after)?,
        scn,
        file: 1,
        block: draws.below(BLOCKS),
        content: Block::padded(&[65 + draws.below(26) as u8, 65 + draws.below(26) as u8]),
    })
}

fn change_of(made: Made<'_>, i: IncNo, g: Scn, block: BlockNo) -> Option<Change> {
    let inc = made.tree.owner(i, g)?;
    change_at(made, inc, g).filter(|change| change.block == block)
}

/// The block of datafile 1, as the history makes it below `s` on the path of incarnation `i`.
pub fn row_at(made: Made<'_>, i: IncNo, s: Scn, block: BlockNo) -> Row {
    let mut row = Row {
        block,
        version: 1,
        content: Block::padded(b""),
    };
    for g in 2..s {
        if let Some(change) = change_of(made, i, g, block) {
            row.version = g;
            row.content = change.content;
        }
    }
    row
}

// An incarnation that branched off from a lower one, at an SCN of it.
fn branch(draws: &mut Draws, made: &[IncarnationEntry], inc: IncNo) -> IncarnationEntry {
    let parent = 1 + draws.below(inc.saturating_sub(1).max(1));
    let from = made.get(parent as usize - 1).map_or(1, |entry| entry.reset);
    IncarnationEntry {
        inc,
        parent,
        reset: draws.scn(from, 12).min(END),
        end: END,
    }
}

/// The incarnations of the database of this number.
pub fn incarnations(alloc: Global, number: u64) -> Result<Vec<IncarnationEntry>, NoMemory> {
    let mut draws = Draws { number };
    let mut made = Vec::new(alloc);
    made.push(IncarnationEntry {
        inc: 1,
        parent: 0,
        reset: 1,
        end: END,
    })?;
    for inc in 2..5u32 {
        let entry = branch(&mut draws, &made, inc);
        made.push(entry)?;
    }
    Ok(made)
}

// The SCN from which on the next switch of the incarnation may lie.
fn next_scn(switches: &[Switch], entry: &IncarnationEntry) -> Scn {
    let mut next = entry.reset.max(2);
    for switch in switches {
        if switch.inc == entry.inc {
            next = next.max(switch.scn.saturating_add(1));
        }
    }
    next
}

// Whether another thread is enabled at the SCN of an incarnation.
fn has_other(tree: &Tree, switches: &[Switch], inc: IncNo, scn: Scn, thread: ThreadNo) -> bool {
    enabled_behind(tree, switches, inc, scn, thread).is_some_and(|other| other != thread)
}

// The other state of a thread from an SCN of an incarnation on. None where no thread would be enabled there.
fn switch_at(
    tree: &Tree,
    switches: &[Switch],
    inc: IncNo,
    scn: Scn,
    thread: ThreadNo,
) -> Option<Switch> {
    let was_on = is_enabled(tree, switches, inc, scn, thread);
    if was_on && !has_other(tree, switches, inc, scn, thread) {
        return None;
    }
    Some(Switch {
        thread,
        inc,
        scn,
        on: !was_on,
    })
}

// Up to two switches of the incarnation, behind those that it has.
fn push_switches(
    tree: &Tree,
    switches: &mut Vec<Switch>,
    draws: &mut Draws,
    entry: &IncarnationEntry,
) -> Result<(), NoMemory> {
    for _ in 0..draws.below(3) {
        let scn = draws.scn(next_scn(switches, entry), 6);
        let thread = 1 + draws.below(3) as u8;
        let found = switch_at(tree, switches, entry.inc, scn, thread);
        if let Some(switch) = found.filter(|switch| switch.scn < entry.end) {
            switches.push(switch)?;
        }
    }
    Ok(())
}

/// The switches of threads of the database of this number, of which one in four has none. Those of each incarnation come
/// before and behind those of the ones that branched off from it.
pub fn switches(
    alloc: Global,
    tree: &Tree,
    number: u64,
    made: &[IncarnationEntry],
) -> Result<Vec<Switch>, NoMemory> {
    let mut draws = Draws {
        number: number.wrapping_add(7000),
    };
    let mut switches = Vec::new(alloc);
    let rounds = if draws.below(4) == 0 { 0 } else { 2usize };
    for turn in 0..made.len().saturating_mul(rounds) {
        if let Some(entry) = made.get(turn % made.len().max(1)) {
            push_switches(tree, &mut switches, &mut draws, entry)?;
        }
    }
    Ok(switches)
}

/// The catalog of these incarnations and switches.
pub fn catalog(
    alloc: Global,
    made: &[IncarnationEntry],
    switches: &[Switch],
) -> Result<Catalog, Fault> {
    let mut records = Seq::new(alloc);
    records.push(base_entry(BEGAN, 100))?;
    for entry in made {
        push_incarnation(&mut records, *entry)?;
    }
    records.push(datafile(1, BLOCKS))?;
    records.push(datafile(2, 1))?;
    let mut id = 0u32;
    for switch in switches {
        id = id.saturating_add(1);
        records.push(switch_entry(id, *switch))?;
    }
    catalog_of(alloc, records)
}

// The rows of all blocks, each as the history made it a little after the checkpoint at most.
fn rows(
    alloc: Global,
    made: Made<'_>,
    draws: &mut Draws,
    inc: IncNo,
    checkpoint: Scn,
) -> Result<Seq<Row>, NoMemory> {
    let mut rows = Seq::new(alloc);
    for block in 0..BLOCKS {
        let until = draws.scn(checkpoint, 3).min(END);
        rows.push(row_at(made, inc, until, block))?;
    }
    Ok(rows)
}

fn high(checkpoint: Scn, rows: &[Row]) -> Scn {
    let mut high = checkpoint;
    for row in rows {
        high = high.max(row.version.saturating_add(1));
    }
    high
}

fn piece(kind: Kind, inc: IncNo, from: Scn, checkpoint: Scn, rows: Seq<Row>) -> Piece {
    Piece {
        kind,
        dbid: 1,
        inc,
        file: 1,
        blocks: BLOCKS,
        from,
        checkpoint,
        high: high(checkpoint, rows.as_slice()),
        rows,
    }
}

fn base(alloc: Global, made: Made<'_>, draws: &mut Draws) -> Result<Piece, NoMemory> {
    let inc = 1 + draws.below(4);
    let checkpoint = draws.scn(2, 22);
    let rows = rows(alloc, made, draws, inc, checkpoint)?;
    Ok(piece(Kind::Full, inc, 0, checkpoint, rows))
}

fn level1(alloc: Global, made: Made<'_>, draws: &mut Draws) -> Result<Piece, NoMemory> {
    let inc = 1 + draws.below(4);
    let checkpoint = draws.scn(2, 22);
    let from = draws.scn(1, 22).min(checkpoint);
    let rows = rows(alloc, made, draws, inc, checkpoint)?;
    let picked = pick(alloc, rows.as_slice(), from)?;
    Ok(piece(Kind::Level1, inc, from, checkpoint, picked))
}

fn is_of(change: &Change, thread: ThreadNo) -> bool {
    change.thread == thread
}

// The log of a thread of an incarnation from `first` up to, and without, `next`.
fn log(
    alloc: Global,
    made: Made<'_>,
    entry: &IncarnationEntry,
    thread: ThreadNo,
    first: Scn,
    next: Scn,
) -> Result<LogFile, NoMemory> {
    let mut records = Seq::new(alloc);
    for scn in first.max(entry.reset).max(2)..next {
        if let Some(change) = change_at(made, entry.inc, scn).filter(|c| is_of(c, thread)) {
            records.push(LogRecord {
                scn,
                file: 1,
                block: change.block,
                content: change.content,
            })?;
        }
    }
    Ok(LogFile {
        dbid: 1,
        inc: entry.inc,
        thread,
        sequence: 1,
        first,
        next,
        records,
    })
}

// The SCN from `first` on, up to `next`, at which the thread is enabled where `on` is true, and else at which it is not;
// or `next`.
fn turn(made: Made<'_>, inc: IncNo, thread: ThreadNo, first: Scn, next: Scn, on: bool) -> Scn {
    for scn in first..next {
        if is_enabled(made.tree, made.switches, inc, scn, thread) == on {
            return scn;
        }
    }
    next
}

// The logs of a thread of an incarnation from `first` up to, and without, `next`: one for each run of SCNs at which it is
// enabled.
fn push_runs(
    alloc: Global,
    logs: &mut Seq<(u32, LogFile)>,
    made: Made<'_>,
    entry: &IncarnationEntry,
    thread: ThreadNo,
    first: Scn,
    next: Scn,
) -> Result<(), NoMemory> {
    let mut at = first;
    for _ in first..next {
        let start = turn(made, entry.inc, thread, at, next, true);
        at = turn(made, entry.inc, thread, start, next, false);
        if start < at {
            logs.push((1, log(alloc, made, entry, thread, start, at)?))?;
        }
    }
    Ok(())
}

// The logs of a thread of an incarnation: of the whole, or with a gap or more.
fn push_logs(
    alloc: Global,
    logs: &mut Seq<(u32, LogFile)>,
    made: Made<'_>,
    draws: &mut Draws,
    entry: &IncarnationEntry,
    thread: ThreadNo,
) -> Result<(), NoMemory> {
    if draws.below(3) > 0 {
        let first = draws.scn(1, 3);
        return push_runs(alloc, logs, made, entry, thread, first, END);
    }
    let first = draws.scn(1, 8);
    let next = draws.scn(first, 8).min(END);
    push_runs(alloc, logs, made, entry, thread, first, next)?;
    let first = draws.scn(next, 4).min(END);
    push_runs(alloc, logs, made, entry, thread, first, END)
}

/// The artefacts of a database of these incarnations.
pub fn evidence(
    alloc: Global,
    made: Made<'_>,
    incarnations: &[IncarnationEntry],
) -> Result<Evidence, NoMemory> {
    let mut draws = Draws {
        number: made.number,
    };
    let mut evidence = nothing(alloc);
    for id in 0..draws.below(4) {
        evidence.bases.push((id, base(alloc, made, &mut draws)?))?;
    }
    for id in 0..draws.below(5) {
        evidence
            .level1s
            .push((id, level1(alloc, made, &mut draws)?))?;
    }
    for entry in incarnations {
        for thread in 1..5u8 {
            push_logs(alloc, &mut evidence.logs, made, &mut draws, entry, thread)?;
        }
    }
    Ok(evidence)
}
