//! The objects of a backup are made of what was read of its datafiles, side by side.
ghost use Rattle.std.specs.{Prelude.{◌≡◌, All, IfOk, map}, Thread.{IsSync}};
ghost use Rattle.rm_step_backup.specs.Making.{CanMake, made_by};

use crate::pieces::make_piece;
use crate::reading::Read;
use crate::sets::make_set;
use rm_base::{NoMemory, Scn, Seq, Text};
use rm_catalog::{PieceEntry, SetEntry};
use rm_lang_statement::BackupForm;
use rm_machine::{FileBackup, State};
use std::alloc::Global;
use std::thread::{Threads, join};

/// The record of an object, under the id that was the next one when it was made.
#[derive(Drop)]
pub(crate) enum Entry {
    OfPiece(PieceEntry),
    OfSet(SetEntry),
}

/// An object that is not recorded yet: its record, what is told of its datafiles, and its bytes.
#[derive(Drop)]
pub(crate) struct Made {
    pub entry: Entry,
    pub told: Seq<FileBackup>,
    pub bytes: Seq<u8>,
}

// The object of what was read for it.
fn make(
    alloc: Global,
    state: &State,
    form: &BackupForm,
    tag: &Text,
    checkpoint: Scn,
    read: Read,
) -> Result<Made, NoMemory>
    requires valid { CanMake state.now form.now checkpoint read }
    ensures { IfOk result (λ made. made ≡ made_by state.now form.now tag.now checkpoint read) }
{
    match read {
        Read::OfOne(file) => make_piece(alloc, state, form, tag, checkpoint, file),
        Read::OfSeveral(files) => make_set(alloc, state, form, tag, checkpoint, files),
    }
}

// Those of several, one after another.
fn make_each(
    alloc: Global,
    state: &State,
    form: &BackupForm,
    tag: &Text,
    checkpoint: Scn,
    reads: Vec<Read>,
) -> Result<Vec<Made>, NoMemory>
    requires valid { All (CanMake state.now form.now checkpoint) reads.items }
    ensures { IfOk result (λ all. all.items ≡ map (made_by state.now form.now tag.now checkpoint) reads.items) }
{
    let mut all = Vec::new(alloc);
    for read in reads {
        all.push(make(alloc, state, form, tag, checkpoint, read)?)?;
    }
    Ok(all)
}

/// The objects of what was read for them, in their order, made by at most so many threads, each of which makes those of its
/// share one after another: so many are encoded at a time, and each number gives the same. The rows of an object are let go
/// as soon as its bytes stand. An error is want of memory.
pub(crate) fn make_all<R: Threads + Sync>(
    rt: &R,
    alloc: Global,
    state: &State,
    form: &BackupForm,
    tag: &Text,
    checkpoint: Scn,
    reads: Vec<Read>,
    threads: u32,
) -> Result<Vec<Made>, NoMemory>
    requires valid { All (CanMake state.now form.now checkpoint) reads.items }
    ensures { IfOk result (λ all. all.items ≡ map (made_by state.now form.now tag.now checkpoint) reads.items) }
{
    if threads < 2 || reads.len() < 2 {
        return make_each(alloc, state, form, tag, checkpoint, reads);
    }
    let mut front = reads;
    let back = front.split_off(front.len() / 2)?;
    let (few, others) = (threads / 2, threads - threads / 2);
    let (first, last) = join(
        rt,
        move || -> Result<Vec<Made>, NoMemory>
            requires { IsSync R.row × All (CanMake state.now form.now checkpoint) front.items }
            ensures { IfOk result (λ all. all.items ≡ map (made_by state.entry.now form.entry.now tag.entry.now checkpoint) front.items) }
        { make_all(rt, alloc, state, form, tag, checkpoint, front, few) },
        move || -> Result<Vec<Made>, NoMemory>
            requires { IsSync R.row × All (CanMake state.now form.now checkpoint) back.items }
            ensures { IfOk result (λ all. all.items ≡ map (made_by state.entry.now form.entry.now tag.entry.now checkpoint) back.items) }
        { make_all(rt, alloc, state, form, tag, checkpoint, back, others) },
    );
    let mut all = first?;
    let mut more = last?;
    all.append(&mut more)?;
    Ok(all)
}
