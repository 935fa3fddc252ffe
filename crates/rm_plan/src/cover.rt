//! Where the blocks of a datafile were quiet, whatever their rows: in logs of all enabled threads, and where a
//! level 1 does not list them.
ghost use Rattle.std.specs.{Prelude.{ℕ, ◌≡◌, ◌||◌, All, AllPairs, IfOk, None, Some}, List.{list_any}};
ghost use Rattle.rm_catalog.specs.{Rules.{HasDatabase}, Switches.{switches}, Trees.{nodes}};
ghost use Rattle.rm_history.specs.{Agrees.{lists}, Tree.{IsThere}};
ghost use Rattle.rm_evidence.specs.Database.{world_of};
ghost use Rattle.rm_piece.specs.Valid.{IsBefore};
ghost use Rattle.rm_plan.specs.Covers.{HaveSortedRows, is_covered, is_unlisted, level1_covers, log_covers, span_of_level1, span_of_log, threads_cover};
ghost use Rattle.rm_plan.specs.{Idle.{is_idle}, Spans.{AreApart, IsAscending, covers}};

use crate::idle::idle_spans;
use crate::span::{Span, common_spans, in_order, merged_spans};
use crate::ways::way_to;
use rm_base::{BlockNo, FileNo, IncNo, NoMemory, Row, Scn, ThreadNo};
use rm_catalog::Catalog;
use rm_evidence::{Evidence, switches, threads};
use rm_history::Switch;
use rm_piece::Piece;
use rm_redo::LogFile;
use std::alloc::Global;

/// Where the blocks of a datafile were quiet, whatever their rows.
#[derive(Drop)]
pub(crate) struct Cover {
    /// Where each thread that is enabled has a log.
    pub logs: Vec<Span>,
    /// There, and where a level 1 looked for changes.
    pub all: Vec<Span>,
}

// The SCNs on its way that the log holds.
fn log_span(ways: &[Span], log: &LogFile) -> Span
    ensures { result ≡ span_of_log ways.now log.now }
{
    let way = way_to(ways, log.inc);
    Span {
        start: log.first.max(way.start),
        end: log.next.min(way.end),
    }
}

// Where the thread has a log.
fn thread_spans(
    alloc: Global,
    ways: &[Span],
    logs: &[(u32, LogFile)],
    thread: ThreadNo,
) -> Result<Vec<Span>, NoMemory>
    ensures { IfOk result (λ out. (g : ℕ) →
        covers out.items g ≡ list_any (log_covers ways.now thread g) logs.now) }
{
    let mut out = Vec::new(alloc);
    for (_, log) in logs {
        if log.thread == thread {
            out.push(log_span(ways, log))?;
        }
    }
    Ok(out)
}

// Where the thread is not enabled, below `s` on the path of `i`, or has a log.
fn thread_cover(
    alloc: Global,
    ways: &[Span],
    logs: &[(u32, LogFile)],
    catalog: &Catalog,
    all: &[Switch],
    i: IncNo,
    s: Scn,
    thread: ThreadNo,
) -> Result<Vec<Span>, NoMemory>
    requires database { HasDatabase catalog.now }
    requires there { IsThere (nodes catalog.now) i }
    requires all { all.now ≡ switches catalog.now }
    ensures same { IfOk result (λ out. (g : ℕ) →
        covers out.items g ≡ (is_idle (world_of catalog.now) i s thread g || list_any (log_covers ways.now thread g) logs.now)) }
    ensures apart { IfOk result (λ out. AreApart out.items) }
{
    // They are a catalog's, so no two switches have one address.
    let _ = catalog.records();
    let idle = idle_spans(alloc, catalog.tree(), threads(catalog), all, i, s, thread)?;
    let spans = joined_spans(thread_spans(alloc, ways, logs, thread)?, &idle)?;
    let spans = merged_spans(alloc, &spans)?;
    Ok(spans)
}

// The SCNs below `s` at which each thread that is enabled on the path of `i` has a log.
fn log_cover(
    alloc: Global,
    ways: &[Span],
    logs: &[(u32, LogFile)],
    catalog: &Catalog,
    i: IncNo,
    s: Scn,
) -> Result<Vec<Span>, NoMemory>
    requires database { HasDatabase catalog.now }
    requires there { IsThere (nodes catalog.now) i }
    ensures { IfOk result (λ out. (g : ℕ) →
        covers out.items g ≡ threads_cover (world_of catalog.now) i ways.now logs.now s g 4) }
{
    let all = switches(alloc, catalog)?;
    let mut cover = Vec::new(alloc);
    cover.push(Span { start: 0, end: s })?;
    for thread in 0..4u8 {
        let spans = thread_cover(alloc, ways, logs, catalog, &all, i, s, thread + 1)?;
        let both = in_order(common_spans(alloc, &cover, &spans)?);
        cover = merged_spans(alloc, &both)?;
    }
    Ok(cover)
}

// Whether one of the rows, which ascend by block, is of this block.
fn does_list(rows: &[Row], block: BlockNo) -> bool
    requires ascending { AllPairs IsBefore rows.now }
    ensures { result ≡ lists rows.now block }
{
    rows.binary_search_by_key(&block, |row| row.block).is_ok()
}

// Whether none is of the block that is named.
fn does_not_list(rows: &[Row], block: Option<BlockNo>) -> bool
    requires ascending { AllPairs IsBefore rows.now }
    ensures { result ≡ is_unlisted block rows.now }
{
    match block {
        Some(block) => !does_list(rows, block),
        None => true,
    }
}

// The SCNs on its way at which a level 1 looked for changes.
fn level1_span(ways: &[Span], piece: &Piece) -> Span
    ensures { result ≡ span_of_level1 ways.now piece.now }
{
    Span {
        start: piece.from,
        end: piece.checkpoint.min(way_to(ways, piece.inc).end),
    }
}

// Where a level 1 of the datafile that does not list the block looked for changes; of any block where none
// is named.
fn level1_spans(
    alloc: Global,
    ways: &[Span],
    level1s: &[(u32, Piece)],
    file: FileNo,
    block: Option<BlockNo>,
) -> Result<Vec<Span>, NoMemory>
    requires { HaveSortedRows level1s.now }
    ensures { IfOk result (λ out. (g : ℕ) →
        covers out.items g ≡ list_any (level1_covers ways.now file block g) level1s.now) }
{
    let mut out = Vec::new(alloc);
    for (_, piece) in level1s {
        if piece.file == file && does_not_list(piece.rows.as_slice(), block) {
            out.push(level1_span(ways, piece))?;
        }
    }
    Ok(out)
}

// The spans of both lists, ascending.
fn joined_spans(xs: Vec<Span>, ys: &[Span]) -> Result<Vec<Span>, NoMemory>
    ensures same { IfOk result (λ out. (g : ℕ) → covers out.items g ≡ (covers ys.now g || covers xs.items g)) }
    ensures ascending { IfOk result (λ out. IsAscending out.items) }
{
    let mut out = xs;
    out.extend_from_slice(ys)?;
    Ok(in_order(out))
}

// What covers a block, by these logs of all threads and the level 1s that do not list it; each block where
// none is named.
pub(crate) fn block_cover(
    alloc: Global,
    ways: &[Span],
    logs: &[Span],
    level1s: &[(u32, Piece)],
    file: FileNo,
    block: Option<BlockNo>,
) -> Result<Vec<Span>, NoMemory>
    requires { HaveSortedRows level1s.now }
    ensures same { IfOk result (λ out. (g : ℕ) →
        covers out.items g ≡ (covers logs.now g || list_any (level1_covers ways.now file block g) level1s.now)) }
    ensures ascending { IfOk result (λ out. IsAscending out.items) }
{
    joined_spans(level1_spans(alloc, ways, level1s, file, block)?, logs)
}

// What covers each block that no level 1 lists astray.
pub(crate) fn file_cover(
    alloc: Global,
    ways: &[Span],
    evidence: &Evidence,
    catalog: &Catalog,
    i: IncNo,
    s: Scn,
    file: FileNo,
) -> Result<Cover, NoMemory>
    requires sorted { HaveSortedRows evidence.now.level1s }
    requires database { HasDatabase catalog.now }
    requires there { IsThere (nodes catalog.now) i }
    ensures logs { IfOk result (λ cover. (g : ℕ) →
        covers cover.logs.items g ≡ threads_cover (world_of catalog.now) i ways.now evidence.now.logs s g 4) }
    ensures all { IfOk result (λ cover. (g : ℕ) →
        covers cover.all.items g ≡ is_covered (world_of catalog.now) i ways.now evidence.now s file None g) }
    ensures ascending { IfOk result (λ cover. IsAscending cover.all.items) }
    ensures apart { IfOk result (λ cover. AreApart cover.all.items) }
{
    let logs = log_cover(alloc, ways, evidence.logs.as_slice(), catalog, i, s)?;
    let all = block_cover(alloc, ways, &logs, evidence.level1s.as_slice(), file, None)?;
    let all = merged_spans(alloc, &all)?;
    Ok(Cover { logs, all })
}
