//! What the evidence tells of the datafiles of a target, before any of it is applied.
ghost use Rattle.std.specs.Prelude.{◌≡◌, ◌<◌, ◌++◌, All, IfErr, IfOk, OnOk, length, map};
ghost use Rattle.rm_catalog.specs.{Rules.{HasDatabase}, Trees.{nodes}};
ghost use Rattle.rm_evidence.specs.{Known.{FitsTree, known_of}, Database.{world_of}};
ghost use Rattle.rm_plan.specs.Plan.{IsFileFault, IsFileTarget};
ghost use Rattle.rm_apply.specs.{Applying.{AreFirst, ArePlanned, AreTried, IsPlanned, TriedAt}, Files.{AreExactly, IsTargetFile}};
ghost use Rattle.rm_apply.specs.Told.{IsFaultOfAll};

use crate::applying::blank_rows;
use crate::targets::TargetFile;
use rm_base::{FileNo, IncNo, NoMemory, Part, Row, Scn, Seq};
use rm_catalog::Catalog;
use rm_evidence::Evidence;
use rm_plan::{PlanFault, plan_file};
use std::alloc::Global;
use std::thread;
use std::thread::Threads;

/// What is told of each block of a datafile, and as many rows, into which it is to be put.
#[derive(Drop)]
pub(crate) struct Plan {
    pub number: FileNo,
    pub parts: Seq<Part>,
    pub rows: Vec<Row>,
}

// The plan of a datafile that exists at (i, s). `Gap` is that of its least block that is not told.
fn file_plan(
    alloc: Global,
    evidence: &Evidence,
    catalog: &Catalog,
    i: IncNo,
    s: Scn,
    number: FileNo,
) -> Result<Plan, PlanFault>
    requires database { HasDatabase catalog.now }
    requires fits { FitsTree (nodes catalog.now) evidence.now }
    requires target { IsFileTarget (world_of catalog.now) i s number }
    ensures number { IfOk result (λ plan. plan.number ≡ number) }
    ensures planned { IfOk result (IsPlanned (world_of catalog.now) (known_of evidence.now) i s) }
    ensures gap { IfErr result (IsFileFault (world_of catalog.now) (known_of evidence.now) i s number) }
{
    let parts = plan_file(alloc, evidence, catalog, i, s, number)?;
    let rows = blank_rows(alloc, parts.len())?;
    Ok(Plan {
        number,
        parts,
        rows,
    })
}

// The plan of the datafile at a place.
fn plan_at(
    alloc: Global,
    evidence: &Evidence,
    catalog: &Catalog,
    i: IncNo,
    s: Scn,
    part: &[TargetFile],
    place: usize,
) -> Result<Plan, PlanFault>
    requires inside { place < length part.now }
    requires database { HasDatabase catalog.now }
    requires fits { FitsTree (nodes catalog.now) evidence.now }
    requires each { All (IsTargetFile (world_of catalog.now) i s) part.now }
    ensures { TriedAt (world_of catalog.now) (known_of evidence.now) i s part.now place result }
{
    let target = part[place];
    file_plan(alloc, evidence, catalog, i, s, target.number)
}

// The plan of each of these datafiles, made in a thread of its own.
fn plan_each<R: Threads + Sync>(
    rt: &R,
    alloc: Global,
    evidence: &Evidence,
    catalog: &Catalog,
    i: IncNo,
    s: Scn,
    part: &[TargetFile],
) -> Result<Vec<Result<Plan, PlanFault>>, NoMemory>
    requires database { HasDatabase catalog.now }
    requires fits { FitsTree (nodes catalog.now) evidence.now }
    requires each { All (IsTargetFile (world_of catalog.now) i s) part.now }
    ensures { IfOk result (λ made. AreTried (world_of catalog.now) (known_of evidence.now) i s (map (λ x. x.number) part.now) made.items) }
{
    let made = thread::map_indices(
        rt,
        alloc,
        part.len(),
        &|place: usize| -> Result<Plan, PlanFault>
            requires { (place < length part.now) × HasDatabase catalog.now × FitsTree (nodes catalog.now) evidence.now × All (IsTargetFile (world_of catalog.now) i s) part.now }
            ensures { TriedAt (world_of catalog.entry.now) (known_of evidence.entry.now) i s part.entry.now place result }
        { plan_at(alloc, evidence, catalog, i, s, part, place) },
    )?;
    Ok(made)
}

// Adds the plans of the next datafiles, which are made side by side.
fn add_plans<R: Threads + Sync>(
    rt: &R,
    alloc: Global,
    evidence: &Evidence,
    catalog: &Catalog,
    i: IncNo,
    s: Scn,
    part: &[TargetFile],
    plans: &mut Seq<Plan>,
) -> Result<(), PlanFault>
    requires database { HasDatabase catalog.now }
    requires fits { FitsTree (nodes catalog.now) evidence.now }
    requires each { All (IsTargetFile (world_of catalog.now) i s) part.now }
    requires first { AreFirst (world_of catalog.now) i s (map (λ x. x.number) plans.old ++ map (λ x. x.number) part.now) }
    requires planned { All (IsPlanned (world_of catalog.now) (known_of evidence.now) i s) plans.old }
    ensures numbers { OnOk result (map (λ x. x.number) plans.new ≡ map (λ x. x.number) plans.old ++ map (λ x. x.number) part.now) }
    ensures planned { OnOk result (All (IsPlanned (world_of catalog.now) (known_of evidence.now) i s) plans.new) }
    ensures gap { IfErr result (IsFaultOfAll (world_of catalog.now) (known_of evidence.now) i s) }
{
    let made = plan_each(rt, alloc, evidence, catalog, i, s, part)?;
    for plan in made {
        plans.push(plan?)?;
    }
    Ok(())
}

/// The plans of the datafiles that exist at (i, s), in order. `Gap` is the first of all. They are made side by side by so
/// many threads, at least one; each number gives the same.
pub(crate) fn plans<R: Threads + Sync>(
    rt: &R,
    alloc: Global,
    evidence: &Evidence,
    catalog: &Catalog,
    i: IncNo,
    s: Scn,
    targets: &[TargetFile],
    channels: u32,
) -> Result<Seq<Plan>, PlanFault>
    requires database { HasDatabase catalog.now }
    requires fits { FitsTree (nodes catalog.now) evidence.now }
    requires numbers { AreExactly (IsFileTarget (world_of catalog.now) i s) (map (λ x. x.number) targets.now) }
    requires each { All (IsTargetFile (world_of catalog.now) i s) targets.now }
    ensures plans { IfOk result (ArePlanned (world_of catalog.now) (known_of evidence.now) i s (map (λ x. x.number) targets.now)) }
    ensures gap { IfErr result (IsFaultOfAll (world_of catalog.now) (known_of evidence.now) i s) }
{
    let mut plans = Seq::new(alloc);
    for part in targets.chunks(channels.max(1) as usize) {
        add_plans(rt, alloc, evidence, catalog, i, s, part, &mut plans)?;
    }
    Ok(plans)
}
