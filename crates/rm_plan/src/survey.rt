//! What the evidence tells of a datafile until a target, and of each of its blocks.
ghost use Rattle.std.specs.Prelude.{ℕ, ◌≡◌, ◌<◌, IfOk, IfErr, Some};
ghost use Rattle.rm_catalog.specs.{Rules.{HasDatabase}, Trees.{nodes}};
ghost use Rattle.rm_evidence.specs.{Known.{FitsTree, known_of}, Database.{world_of}};
ghost use Rattle.rm_history.specs.{World.{file_of}, FirstGap.{IsTarget}, declared.world.World.{World}};
ghost use Rattle.rm_plan.specs.{Covers.{HaveSortedRows}, Plan.{IsFault, IsFileTarget, Tells}, Spans.{AreApart, IsAscending}};
ghost use Rattle.rm_plan.specs.Survey.{IsFirstUncovered, IsSurvey};

use crate::cover::{Cover, block_cover, file_cover};
use crate::entry::{Entry, entries};
use crate::plan::{Gap, PlanFault, Told};
use crate::span::{Span, first_outside, first_outside_apart};
use crate::target::Target;
use crate::ways::{owner_of, ways};
use rm_base::{FileNo, IncNo, NoMemory, Scn};
use rm_catalog::Catalog;
use rm_evidence::Evidence;
use rm_history::Datafile;
use std::alloc::Global;

/// What the evidence tells of a datafile until a target, before its blocks are looked at one by one.
#[derive(Drop)]
pub(crate) struct Survey {
    pub ways: Vec<Span>,
    pub cover: Cover,
    pub entries: Vec<Entry>,
}

// What the evidence tells of a datafile until `s` on the path of incarnation `i`.
pub(crate) fn survey_file(
    alloc: Global,
    evidence: &Evidence,
    catalog: &Catalog,
    i: IncNo,
    s: Scn,
    file: FileNo,
    found: Datafile,
) -> Result<Survey, NoMemory>
    requires database { HasDatabase catalog.now }
    requires fits { FitsTree (nodes catalog.now) evidence.now }
    requires target { IsFileTarget (world_of catalog.now) i s file }
    requires found { file_of (world_of catalog.now) file ≡ Some found }
    ensures { IfOk result (λ survey. IsSurvey (world_of catalog.now) evidence.now i s file survey) }
{
    let ways = ways(alloc, catalog.tree(), i, s)?;
    let cover = file_cover(alloc, &ways, evidence, catalog, i, s, file)?;
    let entries = entries(alloc, &ways, evidence, file, found.creation, found.blocks)?;
    Ok(Survey {
        ways,
        cover,
        entries,
    })
}

// The least SCN, above what rows and records tell of the block, that is not covered.
fn first_uncovered(
    alloc: Global,
    evidence: &Evidence,
    survey: &Survey,
    entry: Entry,
    at: Target,
) -> Result<Scn, NoMemory>
    requires sorted { HaveSortedRows evidence.now.level1s }
    requires ascending { IsAscending survey.now.cover.all.items }
    requires apart { AreApart survey.now.cover.all.items }
    requires below { entry.told.version < at.scn }
    ensures { IfOk result (λ g. (w : World) → IsSurvey w evidence.now at.inc at.scn at.file survey.now →
        IsFirstUncovered w at.inc survey.now.ways.items evidence.now at.scn at.file at.block entry g) }
{
    let low = entry.reach.max(entry.told.version + 1);
    if entry.is_listed_astray {
        let level1s = evidence.level1s.as_slice();
        let logs = &survey.cover.logs;
        let spans = block_cover(alloc, &survey.ways, logs, level1s, at.file, Some(at.block))?;
        return Ok(first_outside(&spans, low));
    }
    Ok(first_outside_apart(&survey.cover.all, low))
}

// What the evidence tells of a block, or the block's gap.
pub(crate) fn tell_block(
    alloc: Global,
    evidence: &Evidence,
    catalog: &Catalog,
    survey: &Survey,
    at: Target,
) -> Result<Told, PlanFault>
    requires database { HasDatabase catalog.now }
    requires fits { FitsTree (nodes catalog.now) evidence.now }
    requires target { IsTarget (world_of catalog.now) at.inc at.scn at.file at.block }
    requires survey { IsSurvey (world_of catalog.now) evidence.now at.inc at.scn at.file survey.now }
    ensures told { IfOk result (λ t.
        Tells (world_of catalog.now) (known_of evidence.now) at.inc at.scn at.file at.block t) }
    ensures gap { IfErr result (λ x.
        IsFault (world_of catalog.now) (known_of evidence.now) at.inc at.scn at.file at.block x) }
{
    // They are a catalog's, so each datafile was created on an incarnation of the tree.
    let _ = catalog.records();
    let entry = survey.entries[at.block as usize];
    let uncovered = first_uncovered(alloc, evidence, survey, entry, at)?;
    if uncovered < at.scn {
        return Err(PlanFault::Gap(Gap {
            file: at.file,
            block: at.block,
            inc: owner_of(catalog.tree(), at.inc, uncovered),
            scn: uncovered,
        }));
    }
    Ok(entry.told)
}
