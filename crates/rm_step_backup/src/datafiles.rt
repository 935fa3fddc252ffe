//! The datafiles that a backup takes.
ghost use Rattle.std.specs.{Prelude.{◌≡◌, ◌<◌, ◌≤◌, ◌==◌, IfOk, IfSome, is_none, length, sum_by}, List.{list_any}};
ghost use Rattle.rm_history.specs.World.{blocks_of};
ghost use Rattle.rm_machine.specs.{Backup.{asks_for, is_taken, lost_taken, object_bytes, objects_of, taken}, Sound.{IsSound}};
ghost use Rattle.rm_machine.specs.State.{placed, world};

use rm_base::{FileNo, NoMemory};
use rm_history::Datafile;
use rm_lang_statement::BackupForm;
use rm_machine::State;
use rm_machine::facts::{exists, now, on_path, placed};
use rm_machine::room::sets_bytes;
use std::alloc::Global;

// Whether the backup asks for the datafile of this number.
fn asks_for(form: &BackupForm, number: FileNo) -> bool
    ensures { result ≡ asks_for form.now number }
{
    match &form.files {
        Some(files) => files.as_slice().contains(&u64::from(number)),
        None => true,
    }
}

// Whether the datafile of this number is backed up: it is on the current path, and it is asked for.
fn is_taken(state: &State, form: &BackupForm, number: FileNo, datafile: &Datafile) -> bool
    requires sound { IsSound state.now }
    requires created { 0 < datafile.now.creation }
    ensures { result ≡ is_taken state.now form.now number datafile.now }
{
    exists(state, state.catalog.base().current, now(state), datafile) && asks_for(form, number)
}

/// How many datafiles are backed up: 0 to 64.
pub(crate) fn taken_count(state: &State, form: &BackupForm) -> u64
    requires sound { IsSound state.now }
    ensures { result ≡ length (taken state.now form.now) }
{
    let mut count = 0;
    for (index, datafile) in state.catalog.files().iter().enumerate() {
        if is_taken(state, form, index as FileNo + 1, datafile) {
            count += 1;
        }
    }
    count
}

/// How many blocks they have together: at most 131,072.
pub(crate) fn taken_blocks(state: &State, form: &BackupForm) -> u64
    requires sound { IsSound state.now }
    ensures { result ≡ sum_by (blocks_of (world state.now)) (taken state.now form.now) }
{
    let mut blocks = 0;
    for (index, datafile) in state.catalog.files().iter().enumerate() {
        if is_taken(state, form, index as FileNo + 1, datafile) {
            blocks += u64::from(datafile.blocks);
        }
    }
    blocks
}

/// How many objects are made of them: 0 to 64.
pub(crate) fn object_count(state: &State, form: &BackupForm) -> u64
    requires sound { IsSound state.now }
    requires some { IfSome form.now.files_per_set (λ n. 1 ≤ n) }
    ensures { result ≡ length (objects_of state.now form.now) }
{
    let files = taken_count(state, form);
    match form.files_per_set {
        Some(most) => files.div_ceil(u64::from(most)),
        None => files,
    }
}

/// How many bytes these objects count as: a piece as it is where each block is listed, and a set the same whatever it lists.
pub(crate) fn object_bytes(state: &State, form: &BackupForm) -> u64
    requires sound { IsSound state.now }
    requires some { IfSome form.now.files_per_set (λ n. 1 ≤ n) }
    ensures { result ≡ sum_by (object_bytes state.now form.now) (objects_of state.now form.now) }
{
    let files = taken_count(state, form);
    let blocks = taken_blocks(state, form);
    match form.files_per_set {
        Some(_) => sets_bytes(object_count(state, form), files, blocks),
        None => 82 * files + 76 * blocks,
    }
}

// Whether nothing stands in place of the datafile of this number.
fn is_lost(state: &State, number: FileNo) -> bool
    requires sound { IsSound state.now }
    requires some { 0 < number }
    ensures { result ≡ is_none (placed state.now number) }
{
    placed(state, u64::from(number)).is_none()
}

/// The least of them that is lost.
pub(crate) fn lost_taken(state: &State, form: &BackupForm) -> Option<FileNo>
    requires sound { IsSound state.now }
    ensures { result ≡ lost_taken state.now form.now }
{
    for (index, datafile) in state.catalog.files().iter().enumerate() {
        let number = index as FileNo + 1;
        if is_taken(state, form, number, datafile) && is_lost(state, number) {
            return Some(number);
        }
    }
    None
}

// Their numbers, ascending.
pub(crate) fn taken(
    alloc: Global,
    state: &State,
    form: &BackupForm,
) -> Result<Vec<FileNo>, NoMemory>
    requires sound { IsSound state.now }
    ensures { IfOk result (λ files. files.items ≡ taken state.now form.now) }
{
    let mut files = Vec::new(alloc);
    for (index, datafile) in state.catalog.files().iter().enumerate() {
        let number = index as FileNo + 1;
        if is_taken(state, form, number, datafile) {
            files.push(number)?;
        }
    }
    Ok(files)
}

/// Whether the datafile of this number is one of them.
pub(crate) fn takes(state: &State, form: &BackupForm, number: FileNo) -> bool
    requires sound { IsSound state.now }
    ensures { result ≡ list_any (λ f. f == number) (taken state.now form.now) }
{
    match on_path(state, u64::from(number)) {
        Some(_) => asks_for(form, number),
        None => false,
    }
}
