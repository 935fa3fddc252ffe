//! What a backup makes of each datafile that it takes.
ghost use Rattle.std.specs.{Prelude.{◌≡◌, false, IfOk, IfSome, IsSome}, Option.{option_copied}};
ghost use Rattle.rm_step_backup.specs.Begins.{AreJobsBy, BeginsBy, records_for};
ghost use Rattle.rm_catalog.specs.Rules.{HasDatabase};
ghost use Rattle.rm_machine.specs.{Backup.{AreJobs, is_level1}, Sound.{IsSound}};

use crate::datafiles::taken;
use rm_backup::parent;
use rm_base::{FileNo, NoMemory, Scn};
use rm_catalog::Catalog as Records;
use rm_lang_statement::BackupForm;
use rm_machine::recorded::records_of;
use rm_machine::{Job, State};
use std::alloc::Global;

// Whether a level 1 is asked for.
fn is_level1(form: &BackupForm) -> bool
    ensures { result ≡ is_level1 form.now }
{
    form.level.is_some_and(|level| level != 0)
}

// The records by which parents are chosen: none where no level 1 is asked for.
fn records_for(alloc: Global, state: &State, form: &BackupForm) -> Result<Option<Records>, NoMemory>
    requires sound { IsSound state.now }
    ensures records { IfOk result (λ records. records ≡ records_for state.now form.now) }
    ensures database { IfOk result (λ records. IfSome records HasDatabase) }
{
    if is_level1(form) {
        Ok(Some(records_of(alloc, state)?))
    } else {
        Ok(None)
    }
}

// The tag of the copies for whose recovery the backup is made.
fn merge_tag(form: &BackupForm) -> Option<&str>
    ensures { option_copied result ≡ form.now.merge_tag }
{
    match &form.merge_tag {
        Some(tag) => Some(tag.as_str()),
        None => None,
    }
}

// The checkpoint of the parent of the datafile's level 1. None where all blocks are backed up.
fn start_of(records: Option<&Records>, form: &BackupForm, file: FileNo) -> Option<Scn>
    requires database { IfSome (option_copied records) HasDatabase }
    requires plain { IsSome form.now.merge_tag → form.now.cumulative ≡ false }
    ensures { BeginsBy (option_copied records.entry) form.now file result }
{
    let (_, checkpoint) = parent(records?, file, form.cumulative, merge_tag(form))?;
    Some(checkpoint)
}

// What is made of these datafiles, by the records.
fn jobs_by(
    alloc: Global,
    records: Option<&Records>,
    form: &BackupForm,
    files: &[FileNo],
) -> Result<Vec<Job>, NoMemory>
    requires database { IfSome (option_copied records) HasDatabase }
    requires plain { IsSome form.now.merge_tag → form.now.cumulative ≡ false }
    ensures { IfOk result (λ jobs. AreJobsBy (option_copied records.entry) form.now files.now jobs.items) }
{
    let mut jobs = Vec::new(alloc);
    for file in files {
        jobs.push(Job {
            file: *file,
            from: start_of(records, form, *file),
        })?;
    }
    Ok(jobs)
}

/// What is made of the datafiles that the backup takes, by the records as they are now. An error is want of memory.
pub(crate) fn jobs(alloc: Global, state: &State, form: &BackupForm) -> Result<Vec<Job>, NoMemory>
    requires sound { IsSound state.now }
    requires plain { IsSome form.now.merge_tag → form.now.cumulative ≡ false }
    ensures { IfOk result (λ jobs. AreJobs state.now form.now jobs.items) }
{
    let records = records_for(alloc, state, form)?;
    let files = taken(alloc, state, form)?;
    jobs_by(alloc, records.as_ref(), form, &files)
}
