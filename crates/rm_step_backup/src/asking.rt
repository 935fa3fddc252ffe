//! What a BACKUP asks of its channels.
ghost use Rattle.std.specs.{Prelude.{◌≡◌, All, IfOk, IfSome}, Option.{option_map}};
ghost use Rattle.rm_machine.specs.{Asked.{candidates_in}, Sound.{IsSound}};
ghost use Rattle.rm_step_backup.specs.Copying.{AreCopiesOf, IsCopyOf, Stands};
ghost use Rattle.rm_track.specs.Bits.{IsBits, marks_of};

use crate::pieces::rows_in;
use rm_base::NoMemory;
use rm_channel::{CopyJob, Wanted};
use rm_machine::{Job, State};
use rm_track::Bits;
use std::alloc::Global;

// The blocks of a datafile that changed since the checkpoint of its level 1's parent. None where all blocks are backed up, or
// the bitmaps do not go so far back. An error is want of memory.
fn candidates(alloc: Global, state: &State, job: &Job) -> Result<Option<Bits>, NoMemory>
    ensures bits { IfOk result (λ o. IfSome o IsBits) }
    ensures marks { IfOk result (λ o. option_map marks_of o ≡ candidates_in state.now job.now) }
{
    match job.from {
        Some(from) => state.instance.tracker.candidates(alloc, job.file, from),
        None => Ok(None),
    }
}

// A copy of the blocks that are read of a datafile.
fn copy_job(alloc: Global, state: &State, job: &Job) -> Result<CopyJob, NoMemory>
    requires sound { IsSound state.now }
    requires stands { Stands state.now job.now.file }
    ensures { IfOk result (IsCopyOf state.now job.now) }
{
    let wanted = match candidates(alloc, state, job)? {
        Some(bits) => Wanted::Blocks(bits),
        None => Wanted::All(rows_in(state, job.file).len() as u32),
    };
    Ok(CopyJob {
        file: job.file,
        wanted,
    })
}

/// What the channels copy of each of these datafiles: the blocks that changed since the parent of its level 1, where the
/// bitmaps tell, or else all. An error is want of memory.
pub(crate) fn copy_jobs(
    alloc: Global,
    state: &State,
    jobs: &[Job],
) -> Result<Vec<CopyJob>, NoMemory>
    requires sound { IsSound state.now }
    requires stand { All (λ j. Stands state.now j.file) jobs.now }
    ensures { IfOk result (λ all. AreCopiesOf state.now jobs.now all.items) }
{
    let mut all = Vec::new(alloc);
    for job in jobs {
        all.push(copy_job(alloc, state, job)?)?;
    }
    Ok(all)
}
