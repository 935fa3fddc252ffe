//! The rows that mend blocks, as the evidence tells them.
ghost use Rattle.std.specs.Prelude.{◌≡◌, ◌++◌, All, IfErr, IfOk, List, map};
ghost use Rattle.rm_base.specs.BlockOrder.{AscendByBlock};
ghost use Rattle.rm_catalog.specs.{Rules.{HasDatabase}, Trees.{nodes}};
ghost use Rattle.rm_evidence.specs.{Database.{world_of}, Known.{FitsTree, known_of}};
ghost use Rattle.rm_history.specs.FirstGap.{IsTarget};
ghost use Rattle.rm_plan.specs.{Blocks.{AreToldRows}, Chosen.{IsFaultOf, row_of}, Plan.{IsFileTarget}};
ghost use Rattle.rm_repair.specs.Jobs.{AreMendJobs, IsLeastFault, job_of, run_length};

use rm_base::{BlockId, BlockNo, FileNo, IncNo, NoMemory, Part, Row, Scn};
use rm_catalog::Catalog;
use rm_evidence::Evidence;
use rm_plan::{PlanFault, plan_blocks};
use std::alloc::Global;

/// A row that is to take the place of the one of its block.
#[derive(Clone, Copy, PartialEq, Eq)]
pub struct MendJob {
    pub file: FileNo,
    pub row: Row,
}

// How many of the first blocks are of this datafile.
fn run_of(blocks: &[BlockId], file: FileNo) -> usize
    ensures { result ≡ run_length file blocks.now }
{
    blocks.iter().take_while(|block| block.file == file).count()
}

// The numbers of the blocks in their datafiles.
fn numbers_of(alloc: Global, blocks: &[BlockId]) -> Result<Vec<BlockNo>, NoMemory>
    ensures { IfOk result (λ v. v.items ≡ map (λ x. x.block) blocks.now) }
{
    let mut numbers = Vec::with_capacity(alloc, blocks.len())?;
    for block in blocks {
        numbers.push_reserved(block.block);
    }
    Ok(numbers)
}

// Adds a job for each part of a datafile.
fn add_jobs(jobs: &mut Vec<MendJob>, file: FileNo, parts: &[Part]) -> Result<(), NoMemory>
    ensures { IfOk result (λ _. jobs.new.items ≡ jobs.old.items ++ map (job_of file) parts.now) }
{
    for part in parts {
        jobs.push(MendJob {
            file,
            row: Row {
                block: part.block,
                version: part.version,
                content: part.content,
            },
        })?;
    }
    Ok(())
}

// Adds the jobs of blocks of one datafile.
fn add_run(
    alloc: Global,
    evidence: &Evidence,
    catalog: &Catalog,
    i: IncNo,
    s: Scn,
    run: &[BlockId],
    file: FileNo,
    jobs: &mut Vec<MendJob>,
) -> Result<(), PlanFault>
    requires database { HasDatabase catalog.now }
    requires fits { FitsTree (nodes catalog.now) evidence.now }
    requires target { IsFileTarget (world_of catalog.now) i s file }
    requires there { All (λ x. IsTarget (world_of catalog.now) i s x.file x.block) run.now }
    requires of { All (λ x. x.file ≡ file) run.now }
    ensures adds { IfOk result (λ _. (parts : List Part) × (jobs.new.items ≡ jobs.old.items ++ map (job_of file) parts)
        × AreToldRows (world_of catalog.now) (known_of evidence.now) i s run.now (map row_of parts)) }
    ensures gap { IfErr result (λ x. IsFaultOf (world_of catalog.now) (known_of evidence.now) i s run.now x) }
{
    let numbers = numbers_of(alloc, run)?;
    let parts = plan_blocks(alloc, evidence, catalog, i, s, file, numbers.as_slice())?;
    add_jobs(jobs, file, parts.as_slice())?;
    Ok(())
}

/// The row of each of these blocks as the evidence tells it at SCN `s` on the path of incarnation `i`, in
/// the order given, which goes datafile by datafile: each datafile is looked through once for each run of
/// its blocks. `Gap` where one is not told: that of the first such block, which is the least where they ascend.
pub fn mend_jobs(
    alloc: Global,
    evidence: &Evidence,
    catalog: &Catalog,
    i: IncNo,
    s: Scn,
    blocks: &[BlockId],
) -> Result<Vec<MendJob>, PlanFault>
    requires database { HasDatabase catalog.now }
    requires fits { FitsTree (nodes catalog.now) evidence.now }
    requires there { All (λ x. IsTarget (world_of catalog.now) i s x.file x.block) blocks.now }
    ensures jobs { IfOk result (λ v. AreMendJobs (world_of catalog.now) (known_of evidence.now) i s blocks.now v.items) }
    ensures gap { IfErr result (λ x. IsFaultOf (world_of catalog.now) (known_of evidence.now) i s blocks.now x) }
    ensures least { AscendByBlock blocks.now → IfErr result (IsLeastFault (world_of catalog.now) (known_of evidence.now) i s blocks.now) }
{
    let mut jobs = Vec::new(alloc);
    let mut left = blocks;
    'runs: while !left.is_empty() {
        let file = left[0].file;
        let (run, rest) = left.split_at(run_of(left, file));
        add_run(alloc, evidence, catalog, i, s, run, file, &mut jobs)?;
        left = rest;
    }
    Ok(jobs)
}
