//! The planner, where what it requires was tested.
ghost use Rattle.std.specs.Prelude.{◌≡◌, ◌≢◌, ◌<◌, All, IsTrue};
ghost use Rattle.rm_base.specs.declared.kinds.Kind.TheVariants.{Level1 as AnIncrement};
ghost use Rattle.rm_catalog.specs.Rules.{HasDatabase};
ghost use Rattle.rm_evidence.specs.{Known.{FitsLog, FitsPiece, FitsTree}, Database.{world_of}};
ghost use Rattle.rm_history.specs.{FirstGap.{IsTarget}, World.{blocks_of}};
ghost use Rattle.rm_plan.specs.Plan.{IsFileTarget};

use rm_base::{BlockId, BlockNo, FileNo, IncNo, Kind, NoMemory, Part, Scn, Seq};
use rm_catalog::Catalog;
use rm_evidence::{Evidence, datafile, has_database};
use rm_history::Tree;
use rm_piece::{Piece, is_valid};
use rm_plan::plan::{plan, plan_file};
use rm_plan::{Gap, PlanFault, Told, first_gap};
use rm_redo::{LogFile, is_valid_log};
use rm_repair::{MendJob, mend_jobs};
use std::alloc::Global;

fn does_fit(tree: &Tree, piece: &Piece) -> bool
    ensures { IsTrue result → FitsPiece tree.now piece.now }
{
    is_valid(piece) && tree.get(piece.inc).is_some()
}

fn are_bases(tree: &Tree, pieces: &[(u32, Piece)]) -> bool
    ensures fit { IsTrue result → All (λ x. FitsPiece tree.now x.1) pieces.now }
    ensures kind { IsTrue result → All (λ x. x.1.kind ≢ AnIncrement) pieces.now }
{
    for (_, piece) in pieces {
        if !does_fit(tree, piece) || piece.kind == Kind::Level1 {
            return false;
        }
    }
    true
}

fn are_level1s(tree: &Tree, pieces: &[(u32, Piece)]) -> bool
    ensures fit { IsTrue result → All (λ x. FitsPiece tree.now x.1) pieces.now }
    ensures kind { IsTrue result → All (λ x. x.1.kind ≡ AnIncrement) pieces.now }
{
    for (_, piece) in pieces {
        if !does_fit(tree, piece) || piece.kind != Kind::Level1 {
            return false;
        }
    }
    true
}

fn does_log_fit(tree: &Tree, log: &LogFile) -> bool
    ensures { IsTrue result → FitsLog tree.now log.now }
{
    is_valid_log(log) && tree.get(log.inc).is_some()
}

fn are_logs(tree: &Tree, logs: &[(u32, LogFile)]) -> bool
    ensures { IsTrue result → All (λ x. FitsLog tree.now x.1) logs.now }
{
    for (_, log) in logs {
        if !does_log_fit(tree, log) {
            return false;
        }
    }
    true
}

fn is_fit(tree: &Tree, evidence: &Evidence) -> bool
    ensures { IsTrue result → FitsTree tree.now evidence.now }
{
    if !are_bases(tree, evidence.bases.as_slice()) {
        return false;
    }
    if !are_level1s(tree, evidence.level1s.as_slice()) {
        return false;
    }
    are_logs(tree, evidence.logs.as_slice())
}

fn is_file(catalog: &Catalog, i: IncNo, s: Scn, file: FileNo) -> bool
    requires { HasDatabase catalog.now }
    ensures { IsTrue result → IsFileTarget (world_of catalog.now) i s file }
{
    let tree = catalog.tree();
    match datafile(catalog, file) {
        Some(found) => found.creation > 0 && tree.is_there(i) && tree.exists(i, s, &found),
        None => false,
    }
}

fn has_block(catalog: &Catalog, file: FileNo, block: BlockNo) -> bool
    requires { HasDatabase catalog.now }
    ensures { IsTrue result → block < blocks_of (world_of catalog.now) file }
{
    datafile(catalog, file).is_some_and(|found| block < found.blocks)
}

fn is_block(catalog: &Catalog, i: IncNo, s: Scn, at: BlockId) -> bool
    requires { HasDatabase catalog.now }
    ensures { IsTrue result → IsTarget (world_of catalog.now) i s at.file at.block }
{
    is_file(catalog, i, s, at.file) && has_block(catalog, at.file, at.block)
}

fn are_blocks(catalog: &Catalog, i: IncNo, s: Scn, blocks: &[BlockId]) -> bool
    requires { HasDatabase catalog.now }
    ensures { IsTrue result → All (λ x. IsTarget (world_of catalog.now) i s x.file x.block) blocks.now }
{
    for at in blocks {
        if !is_block(catalog, i, s, *at) {
            return false;
        }
    }
    true
}

/// What the planner answers of a block; None where it may not be asked.
pub fn asked(
    alloc: Global,
    evidence: &Evidence,
    catalog: &Catalog,
    i: IncNo,
    s: Scn,
    file: FileNo,
    block: BlockNo,
) -> Option<Result<Told, PlanFault>> {
    if !has_database(catalog) || !is_fit(catalog.tree(), evidence) {
        return None;
    }
    if !is_file(catalog, i, s, file) || !has_block(catalog, file, block) {
        return None;
    }
    Some(plan(alloc, evidence, catalog, i, s, file, block))
}

/// What the planner answers of a datafile; None where it may not be asked.
pub fn asked_file(
    alloc: Global,
    evidence: &Evidence,
    catalog: &Catalog,
    i: IncNo,
    s: Scn,
    file: FileNo,
) -> Option<Result<Seq<Part>, PlanFault>> {
    if !has_database(catalog)
        || !is_fit(catalog.tree(), evidence)
        || !is_file(catalog, i, s, file)
    {
        return None;
    }
    Some(plan_file(alloc, evidence, catalog, i, s, file))
}

/// The rows that mend these blocks; None where they may not be asked for.
pub fn asked_jobs(
    alloc: Global,
    evidence: &Evidence,
    catalog: &Catalog,
    i: IncNo,
    s: Scn,
    blocks: &[BlockId],
) -> Option<Result<Vec<MendJob>, PlanFault>> {
    if !has_database(catalog)
        || !is_fit(catalog.tree(), evidence)
        || !are_blocks(catalog, i, s, blocks)
    {
        return None;
    }
    Some(mend_jobs(alloc, evidence, catalog, i, s, blocks))
}

/// What the planner answers of all datafiles; None where it may not be asked.
pub fn asked_first(
    alloc: Global,
    evidence: &Evidence,
    catalog: &Catalog,
    i: IncNo,
    s: Scn,
) -> Option<Result<Option<Gap>, NoMemory>> {
    if !has_database(catalog) || !is_fit(catalog.tree(), evidence) {
        return None;
    }
    if catalog.tree().get(i).is_none() {
        return None;
    }
    Some(first_gap(alloc, evidence, catalog, i, s))
}
