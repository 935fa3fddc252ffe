//! Both planners, over the artefacts of 200 made databases.
use crate::asked::{asked, asked_first, asked_jobs};
use crate::branches::{BLOCKS, END, Made, catalog, evidence, incarnations, row_at, switches};
use crate::draws::Draws;
use crate::slow::{Target, plan_slowly};
use crate::switched::Kinds;
use rm_base::{BlockId, BlockNo, FileNo, IncNo, Scn};
use rm_catalog::{Catalog, IncarnationEntry};
use rm_evidence::{Evidence, has_database};
use rm_history::{Switch, Tree};
use rm_plan::{Gap, PlanFault, Told};
use rm_repair::MendJob;
use rm_test_harness::{Fault, differs};
use std::alloc::Global;

// The datafiles, and how many blocks each has.
const FILES: [(FileNo, u32); 2] = [(1, BLOCKS), (2, 1)];

// Blocks whose rows are asked for together, in this order.
const TOGETHER: [BlockId; 3] = [
    BlockId {
        file: 1,
        block: BLOCKS - 1,
    },
    BlockId { file: 1, block: 0 },
    BlockId { file: 2, block: 0 },
];

// A made database, and what is at hand of it.
#[derive(Drop)]
struct Case {
    number: u64,
    catalog: Catalog,
    switches: Vec<Switch>,
    evidence: Evidence,
}

// The switches of its threads, along its incarnations.
fn made_switches(
    alloc: Global,
    number: u64,
    made: &[IncarnationEntry],
) -> Result<Vec<Switch>, Fault> {
    let catalog = catalog(alloc, made, &[])?;
    if !has_database(&catalog) {
        return differs(alloc, "no database");
    }
    Ok(switches(alloc, catalog.tree(), number, made)?)
}

fn made_case(alloc: Global, number: u64) -> Result<Case, Fault> {
    let incarnations = incarnations(alloc, number)?;
    let switches = made_switches(alloc, number, &incarnations)?;
    let catalog = catalog(alloc, &incarnations, &switches)?;
    if !has_database(&catalog) {
        return differs(alloc, "no database");
    }
    let made = Made {
        number,
        tree: catalog.tree(),
        switches: &switches,
    };
    let evidence = evidence(alloc, made, &incarnations)?;
    Ok(Case {
        number,
        catalog,
        switches,
        evidence,
    })
}

fn slowly(
    made: Made<'_>,
    case: &Case,
    i: IncNo,
    s: Scn,
    file: FileNo,
    block: BlockNo,
) -> Result<Told, Gap> {
    let at = Target {
        inc: i,
        scn: s,
        file,
        block,
        creation: 1,
    };
    plan_slowly(made.tree, made.switches, &case.evidence, at)
}

// Whether what is told of a block of datafile 1 is what the history made of it.
fn is_true(made: Made<'_>, told: Told, i: IncNo, s: Scn, block: BlockNo) -> bool {
    let row = row_at(made, i, s, block);
    told.version == row.version && told.content == row.content
}

// Whether both planners answer the same of a block, and what is told is true.
fn agree(
    alloc: Global,
    made: Made<'_>,
    case: &Case,
    i: IncNo,
    s: Scn,
    file: FileNo,
    block: BlockNo,
) -> bool {
    let slow = slowly(made, case, i, s, file, block);
    match asked(alloc, &case.evidence, &case.catalog, i, s, file, block) {
        Some(Ok(told)) => slow == Ok(told) && (file != 1 || is_true(made, told, i, s, block)),
        Some(Err(PlanFault::Gap(gap))) => slow == Err(gap),
        _ => false,
    }
}

// Whether they do so of each block.
fn all_agree(alloc: Global, made: Made<'_>, case: &Case, i: IncNo, s: Scn) -> bool {
    for (file, blocks) in FILES {
        for block in 0..blocks {
            if !agree(alloc, made, case, i, s, file, block) {
                return false;
            }
        }
    }
    true
}

// Whether the job puts in place what is told of the block.
fn is_job(made: Made<'_>, case: &Case, i: IncNo, s: Scn, at: BlockId, job: &MendJob) -> bool {
    let told = Told {
        version: job.row.version,
        content: job.row.content,
    };
    job.file == at.file
        && job.row.block == at.block
        && slowly(made, case, i, s, at.file, at.block) == Ok(told)
}

// The gap of the first of the blocks together that has one.
fn first_together(made: Made<'_>, case: &Case, i: IncNo, s: Scn) -> Option<Gap> {
    for at in TOGETHER {
        if let Err(gap) = slowly(made, case, i, s, at.file, at.block) {
            return Some(gap);
        }
    }
    None
}

// Whether there is a job for each of them, in order.
fn are_jobs(made: Made<'_>, case: &Case, i: IncNo, s: Scn, jobs: &[MendJob]) -> bool {
    for (at, job) in TOGETHER.iter().zip(jobs) {
        if !is_job(made, case, i, s, *at, job) {
            return false;
        }
    }
    jobs.len() == TOGETHER.len()
}

// Whether both planners answer the same of them together.
fn agree_together(alloc: Global, made: Made<'_>, case: &Case, i: IncNo, s: Scn) -> bool {
    match asked_jobs(alloc, &case.evidence, &case.catalog, i, s, &TOGETHER) {
        Some(Ok(jobs)) => are_jobs(made, case, i, s, jobs.as_slice()),
        Some(Err(PlanFault::Gap(gap))) => first_together(made, case, i, s) == Some(gap),
        _ => false,
    }
}

// The gap of the least block that has one.
fn first_slowly(made: Made<'_>, case: &Case, i: IncNo, s: Scn) -> Option<Gap> {
    for (file, blocks) in FILES {
        for block in 0..blocks {
            if let Err(gap) = slowly(made, case, i, s, file, block) {
                return Some(gap);
            }
        }
    }
    None
}

// The SCNs until which incarnation `i` is recovered: where it began, behind that, within, and its end.
fn targets(tree: &Tree, number: u64, i: IncNo) -> [Scn; 4] {
    let reset = tree.get(i).map_or(2, |found| found.reset);
    let mut draws = Draws { number };
    [
        reset.max(2),
        reset.saturating_add(1).max(2),
        draws.scn(3, 20),
        END,
    ]
}

// Whether the datafiles, which incarnation 1 created at 1, are on the path of `i`.
fn has_files(tree: &Tree, i: IncNo) -> bool {
    tree.owner(i, 1) == Some(1)
}

// How many targets were told, how many have a gap, and of how many the switches decide it; and what the databases did.
#[derive(Clone, Copy)]
struct Counts {
    recovered: u32,
    open: u32,
    by_switches: u32,
    kinds: Kinds,
}

// Whether there is a gap until `s` of incarnation `i`, of which both planners answer the same.
fn has_gap(alloc: Global, made: Made<'_>, case: &Case, i: IncNo, s: Scn) -> Result<bool, Fault> {
    let first = first_slowly(made, case, i, s);
    let asked = asked_first(alloc, &case.evidence, &case.catalog, i, s);
    let all_agree = all_agree(alloc, made, case, i, s) && agree_together(alloc, made, case, i, s);
    if all_agree && asked == Some(Ok(first)) {
        return Ok(first.is_some());
    }
    Err(Fault::Differs(format!(in alloc; "{}: {i} until {s}", case.number)?))
}

// Whether the first gap would be another one, or none, if no thread had been switched.
fn is_by_switches(made: Made<'_>, case: &Case, i: IncNo, s: Scn) -> bool {
    let unswitched = Made {
        number: made.number,
        tree: made.tree,
        switches: &[],
    };
    first_slowly(made, case, i, s) != first_slowly(unswitched, case, i, s)
}

// Adds up what is told of the targets of incarnation `i`.
fn count_targets(
    alloc: Global,
    made: Made<'_>,
    case: &Case,
    i: IncNo,
    counts: &mut Counts,
) -> Result<(), Fault> {
    for s in targets(made.tree, case.number, i) {
        if has_gap(alloc, made, case, i, s)? {
            counts.open = counts.open.saturating_add(1);
        } else {
            counts.recovered = counts.recovered.saturating_add(1);
        }
        if is_by_switches(made, case, i, s) {
            counts.by_switches = counts.by_switches.saturating_add(1);
        }
    }
    Ok(())
}

// Adds up those of the incarnations on whose path the datafiles are.
fn count_case(alloc: Global, case: &Case, counts: &mut Counts) -> Result<(), Fault> {
    if !has_database(&case.catalog) {
        return differs(alloc, "no database");
    }
    let made = Made {
        number: case.number,
        tree: case.catalog.tree(),
        switches: &case.switches,
    };
    counts.kinds.add(made);
    for i in 1..5u32 {
        if has_files(made.tree, i) {
            count_targets(alloc, made, case, i, counts)?;
        }
    }
    Ok(())
}

// Nothing is counted.
fn none() -> Counts {
    Counts {
        recovered: 0,
        open: 0,
        by_switches: 0,
        kinds: Kinds {
            again: 0,
            above: 0,
            below: 0,
        },
    }
}

/// Both planners answer the same, of more than a hundred targets that are told and of as many with a gap; of as many the
/// switches of threads decide it. In fifty databases and more a thread is enabled again, a branch keeps a switch, and
/// one leaves a switch behind.
pub fn planners(alloc: Global) -> Result<bool, Fault> {
    let mut counts = none();
    for number in 0..200u64 {
        count_case(alloc, &made_case(alloc, number)?, &mut counts)?;
    }
    let kinds = counts.kinds;
    let is_each_kind = kinds.again >= 50 && kinds.above >= 50 && kinds.below >= 50;
    Ok(is_each_kind && counts.recovered > 100 && counts.open > 100 && counts.by_switches > 100)
}
