//! What was read for each object of a backup: of one datafile, or of several that go into one set.
ghost use Rattle.std.specs.Prelude.{◌≡◌, ◌≤◌, IfOk, IfSome, length, map};
ghost use Rattle.rm_channel.specs.Jobs.{lists};
ghost use Rattle.rm_machine.specs.Backup.{cut};
ghost use Rattle.rm_step_backup.specs.{Making.{files_of, reads_by}, declared.reading.Read.TheVariants.{OfOne, OfSeveral}};

use rm_base::{NoMemory, Row, Seq};
use rm_lang_statement::BackupForm;
use rm_machine::Job;
use std::alloc::Global;

/// A datafile that is backed up, and the rows that were read of it, one of each block that was wanted.
#[derive(Drop)]
pub(crate) struct FileRead {
    pub job: Job,
    pub rows: Seq<Row>,
}

/// What was read for an object.
#[derive(Drop)]
pub(crate) enum Read {
    /// For a piece or an image copy.
    OfOne(FileRead),
    /// For a backup set.
    OfSeveral(Seq<FileRead>),
}

// The datafiles of these jobs with the rows that were read of them.
fn files_of(alloc: Global, jobs: &[Job], rows: Vec<Vec<Row>>) -> Result<Vec<FileRead>, NoMemory>
    requires many { length rows.items ≡ length jobs.now }
    ensures { IfOk result (λ files. files.items ≡ files_of jobs.now (lists rows.items)) }
{
    let mut files = Vec::new(alloc);
    for rows in rows {
        let job = jobs[files.len()];
        let rows = Seq::from_vec(rows);
        files.push(FileRead { job, rows })?;
    }
    Ok(files)
}

// Each by itself.
fn singles(alloc: Global, files: Vec<FileRead>) -> Result<Vec<Read>, NoMemory>
    ensures { IfOk result (λ reads. reads.items ≡ map OfOne files.items) }
{
    let mut reads = Vec::new(alloc);
    for file in files {
        reads.push(Read::OfOne(file))?;
    }
    Ok(reads)
}

// So many of them together, the last ones possibly fewer.
fn groups(alloc: Global, files: Vec<FileRead>, most: u8) -> Result<Vec<Read>, NoMemory>
    requires some { 1 ≤ most }
    ensures { IfOk result (λ reads. reads.items ≡ map OfSeveral (cut (length files.items) most files.items)) }
{
    let mut reads = Vec::new(alloc);
    let mut left = files;
    while !left.is_empty() {
        let behind = left.split_off(left.len().min(usize::from(most)))?;
        reads.push(Read::OfSeveral(Seq::from_vec(left)))?;
        left = behind;
    }
    Ok(reads)
}

/// What was read for each object of the backup, of the datafiles of these jobs, of which these rows were read. The rows
/// move. An error is want of memory.
pub(crate) fn reads_of(
    alloc: Global,
    form: &BackupForm,
    jobs: &[Job],
    rows: Vec<Vec<Row>>,
) -> Result<Vec<Read>, NoMemory>
    requires some { IfSome form.now.files_per_set (λ n. 1 ≤ n) }
    requires many { length rows.items ≡ length jobs.now }
    ensures { IfOk result (λ reads. reads.items ≡ reads_by form.now.files_per_set (files_of jobs.now (lists rows.items))) }
{
    let files = files_of(alloc, jobs, rows)?;
    match form.files_per_set {
        None => singles(alloc, files),
        Some(most) => groups(alloc, files, most),
    }
}
