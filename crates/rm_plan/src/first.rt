//! The first gap of all datafiles.
ghost use Rattle.std.specs.Prelude.{◌≡◌, IfNone, IfOk, IfSome, Some};
ghost use Rattle.rm_catalog.specs.{Rules.{HasDatabase}, Trees.{nodes}};
ghost use Rattle.rm_evidence.specs.{Known.{FitsTree, known_of}, Database.{world_of}};
ghost use Rattle.rm_history.specs.{Tree.{IsThere}, World.{file_of}, FirstGap.{IsFirstGap, IsRecoverable}, Unknown.{IsUnknown}};
ghost use Rattle.rm_plan.specs.{FirstGap.{FileDetermined, IsGapOfFile}, Plan.{DeterminedBelow, IsFileTarget, NamesFirstGap}};

use crate::plan::{Gap, PlanFault};
use crate::survey::{survey_file, tell_block};
use crate::target::Target;
use rm_base::{FileNo, IncNo, NoMemory, Scn};
use rm_catalog::Catalog;
use rm_evidence::{Evidence, datafile};
use rm_history::Datafile;
use std::alloc::Global;

// The greatest number of a datafile.
const LAST_FILE: FileNo = 64;

// The gap of the least block of the datafile that is not told.
fn gap_of_blocks(
    alloc: Global,
    evidence: &Evidence,
    catalog: &Catalog,
    i: IncNo,
    s: Scn,
    file: FileNo,
    found: Datafile,
) -> Result<Option<Gap>, NoMemory>
    requires database { HasDatabase catalog.now }
    requires fits { FitsTree (nodes catalog.now) evidence.now }
    requires target { IsFileTarget (world_of catalog.now) i s file }
    requires is { file_of (world_of catalog.now) file ≡ Some found }
    ensures none { IfOk result (λ gap. IfNone gap
        (DeterminedBelow (world_of catalog.now) (known_of evidence.now) i s file found.blocks)) }
    ensures some { IfOk result (λ gap. IfSome gap (λ x.
        NamesFirstGap (world_of catalog.now) (known_of evidence.now) i s file x)) }
{
    let survey = survey_file(alloc, evidence, catalog, i, s, file, found)?;
    for block in 0..found.blocks {
        let at = Target {
            inc: i,
            scn: s,
            file,
            block,
        };
        match tell_block(alloc, evidence, catalog, &survey, at) {
            Ok(_) => {}
            Err(PlanFault::Gap(gap)) => return Ok(Some(gap)),
            Err(PlanFault::NoMemory) => return Err(NoMemory),
        }
    }
    Ok(None)
}

// The first gap of a datafile that exists at (i, s).
fn gap_of_file(
    alloc: Global,
    evidence: &Evidence,
    catalog: &Catalog,
    i: IncNo,
    s: Scn,
    file: FileNo,
) -> Result<Option<Gap>, NoMemory>
    requires database { HasDatabase catalog.now }
    requires fits { FitsTree (nodes catalog.now) evidence.now }
    requires there { IsThere (nodes catalog.now) i }
    ensures none { IfOk result (λ gap. IfNone gap
        (FileDetermined (world_of catalog.now) (known_of evidence.now) i s file)) }
    ensures some { IfOk result (λ gap. IfSome gap (λ x.
        IsGapOfFile (world_of catalog.now) (known_of evidence.now) i s file x)) }
{
    // They are a catalog's, so each datafile was created at 1 or later.
    let _ = catalog.records();
    match datafile(catalog, file) {
        Some(found) if catalog.tree().exists(i, s, &found) => {
            gap_of_blocks(alloc, evidence, catalog, i, s, file, found)
        }
        _ => Ok(None),
    }
}

/// The gap of the least block, by datafile and then block, that is not told at SCN `s` on the path of
/// incarnation `i`; behind it nothing more could be known. None where each block of each datafile that
/// exists there is told.
pub fn first_gap(
    alloc: Global,
    evidence: &Evidence,
    catalog: &Catalog,
    i: IncNo,
    s: Scn,
) -> Result<Option<Gap>, NoMemory>
    requires database { HasDatabase catalog.now }
    requires fits { FitsTree (nodes catalog.now) evidence.now }
    requires there { IsThere (nodes catalog.now) i }
    ensures none { IfOk result (λ gap. IfNone gap
        (IsRecoverable (world_of catalog.now) (known_of evidence.now) i s)) }
    ensures some { IfOk result (λ gap. IfSome gap (λ x.
        IsFirstGap (world_of catalog.now) (known_of evidence.now) i s x.file x.block x.inc x.scn)) }
    ensures unknown { IfOk result (λ gap. IfSome gap (λ x.
        IsUnknown (world_of catalog.now) (known_of evidence.now) i s x.file x.block x.inc x.scn)) }
{
    // They are a catalog's, so no datafile has a greater number.
    let _ = catalog.records();
    for file in 1..LAST_FILE + 1 {
        if let Some(gap) = gap_of_file(alloc, evidence, catalog, i, s, file)? {
            return Ok(Some(gap));
        }
    }
    Ok(None)
}
