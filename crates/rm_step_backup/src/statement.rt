//! BACKUP of datafiles, while the database may write.
ghost use Rattle.std.specs.Prelude.{◌≡◌, ◌≤◌, List, IfOk, None, OnOk, Option, false, map};
ghost use Rattle.rm_base.specs.Store.{Held};
ghost use Rattle.rm_step_backup.specs.{Copying.{StartBelow}, Running.{HasRunLive}};
ghost use Rattle.rm_channel.specs.{Jobs.{whole}, declared.jobs.CopyJob.{CopyJob}};
ghost use Rattle.rm_machine.specs.{Asked.{span_of, writers_of}, BackupOutcome.{begun}, Hands.{Hands}, Backup.{AreJobs, or_nothing, taken}};
ghost use Rattle.rm_machine.specs.{BackupRefusal.{mark_count}, Marks.{lacks_room}, Sound.{IsSound}, Step.{IsStatement, refusal_of}};
ghost use Rattle.rm_machine.specs.Tracked.{switch_all};
ghost use Rattle.rm_lang_statement.specs.declared.command.Command.TheVariants.{Backup};
ghost use Rattle.rm_catalog_typed.specs.Changes.{EditsFollow};

use crate::asking::copy_jobs;
use crate::jobs::jobs;
use crate::pieces::tag_of;
use crate::recording::record_all;
use crate::running::run_live;
use rm_base::{NoMemory, Scn, Seq};
use rm_catalog::Edit;
use rm_channel::{Gate, Work};
use rm_lang_statement::BackupForm;
use rm_machine::facts::now;
use rm_machine::marks::add_marks_for;
use rm_machine::writers::{tell_writes, writers_in};
use rm_machine::{Handed, Job, State};
use rm_report::Line;
use rm_track::Tracker;
use std::alloc::Global;
use std::sync::Wait;
use std::thread::Threads;

// Ends the current bitmap of each of these datafiles at the checkpoint. Without memory nothing is said of the bitmaps.
fn switch_all(
    alloc: Global,
    tracker: &mut Tracker,
    checkpoint: Scn,
    jobs: &[Job],
) -> Result<(), NoMemory>
    requires { StartBelow checkpoint tracker.old }
    ensures { OnOk result (tracker.new ≡ switch_all checkpoint (map (λ j. j.file) jobs.now) tracker.old) }
{
    for job in jobs {
        tracker.switch(alloc, job.file, checkpoint)?;
    }
    Ok(())
}

/// Begins the backup: writes the mark that comes before its writes, and ends the current bitmap of each datafile that is backed up.
/// Without memory nothing is said of the state and the edits.
pub(crate) fn begin(
    alloc: Global,
    state: &mut State,
    edits: &mut Vec<Edit>,
    form: &BackupForm,
    jobs: &[Job],
) -> Result<(), NoMemory>
    requires sound { IsSound state.old }
    requires room { lacks_room state.old (mark_count state.old form.now) ≡ false }
    requires jobs { map (λ j. j.file) jobs.now ≡ taken state.old form.now }
    ensures after { OnOk result (state.new ≡ begun state.old form.now) }
    ensures edits { OnOk result (EditsFollow edits.old.items edits.new.items state.old.catalog state.new.catalog) }
{
    let checkpoint = now(state);
    add_marks_for(state, edits, &form.during)?;
    switch_all(alloc, &mut state.instance.tracker, checkpoint, jobs)
}

// Makes the copies of these jobs, and the writes of the DURING, behind its mark.
fn run<G: Gate, R: Threads + Wait + Sync>(
    rt: &R,
    alloc: Global,
    gate: &G,
    channels: u32,
    state: &mut State,
    edits: &mut Vec<Edit>,
    form: &BackupForm,
    jobs: &[Job],
) -> Result<Work, NoMemory>
    requires sound { IsSound state.old }
    requires channels { (1 ≤ channels) × (channels ≤ 16) }
    requires accepted { refusal_of state.old (Backup form.now) ≡ None }
    requires jobs { AreJobs state.old form.now jobs.now }
    ensures ran { IfOk result (λ w. (copies : List CopyJob) × (map whole copies ≡ map (span_of (begun state.old form.now)) jobs.now) × HasRunLive (begun state.old form.now) copies (writers_of state.old form.now) state.new w) }
    ensures edits { OnOk result (EditsFollow edits.old.items edits.new.items state.old.catalog state.new.catalog) }
{
    let writers = writers_in(alloc, state, &form.during)?;
    begin(alloc, state, edits, form, jobs)?;
    let copies = copy_jobs(alloc, state, jobs)?;
    run_live(
        rt,
        alloc,
        gate,
        channels,
        state,
        edits,
        copies.as_slice(),
        writers.as_slice(),
    )
}

// Tells that no datafile is backed up, where there is no line.
fn tell_none(lines: &mut Seq<Line>) -> Result<(), NoMemory>
    ensures { OnOk result (lines.new ≡ or_nothing lines.old) }
{
    if lines.is_empty() {
        lines.push(Line::NothingToBackUp)?;
    }
    Ok(())
}

/// BACKUP of datafiles, full, of level 0 or of level 1, while the database writes: by so many channels, 1 to 16, which call the
/// gate before each section, and a writer for each thread. Each block that is wanted of each datafile is read once, in a turn of its
/// own, and each write of the DURING is made once, those of a thread in their order; how their turns interleave is free. The
/// pieces and sets have `now` at the start as their checkpoint. They are made side by side, as many at a time as there are
/// channels, and recorded in their order: each number of channels gives the same. What is held in memory are the rows of
/// those that are still to be made, and the bytes of the others. An error is want of memory; then nothing is said of the state
/// and the edits.
pub fn backup<G: Gate, R: Threads + Wait + Sync>(
    rt: &R,
    alloc: Global,
    gate: &G,
    channels: u32,
    state: &mut State,
    edits: &mut Vec<Edit>,
    form: &BackupForm,
) -> Result<Handed, NoMemory>
    requires sound { IsSound state.old }
    requires statement { IsStatement (Backup form.now) }
    requires channels { (1 ≤ channels) × (channels ≤ 16) }
    requires accepted { refusal_of state.old (Backup form.now) ≡ None }
    ensures hands { IfOk result (λ x. (held : Option Held) → Hands held state.old (Backup form.now) x state.new) }
    ensures edits { OnOk result (EditsFollow edits.old.items edits.new.items state.old.catalog state.new.catalog) }
{
    let checkpoint = now(state);
    let tag = tag_of(alloc, form, state.catalog.base().moment)?;
    let made = jobs(alloc, state, form)?;
    let jobs = made.as_slice();
    let work = run(rt, alloc, gate, channels, state, edits, form, jobs)?;
    let Work {
        rows,
        reads: _,
        scns,
    } = work;
    let mut handed = Handed {
        lines: Seq::new(alloc),
        objects: Seq::new(alloc),
        removes: Seq::new(alloc),
    };
    let to = &mut handed;
    record_all(
        rt, alloc, channels, state, edits, to, form, &tag, checkpoint, jobs, rows,
    )?;
    tell_none(&mut handed.lines)?;
    tell_writes(&mut handed.lines, scns.as_slice())?;
    Ok(handed)
}
