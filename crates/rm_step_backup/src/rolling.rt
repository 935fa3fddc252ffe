//! BACKUP INCREMENTAL FROM SCN: an increment of all datafiles, by which a standby is rolled forward.
ghost use Rattle.std.specs.Prelude.{◌≡◌, ◌<◌, ◌≤◌, ◌+◌, ◌∷◌, [], Option, None, IfOk, OnOk};
ghost use Rattle.rm_base.specs.Store.{Held};
ghost use Rattle.rm_catalog_typed.specs.{Changes.{EditsFollow}, Fitting.{FitsBase}};
ghost use Rattle.rm_lang_statement.specs.declared.command.Command.TheVariants.{BackupFrom};
ghost use Rattle.rm_machine.specs.{Backup.{taken}, Hands.{Hands}, Marks.{set_bytes}};
ghost use Rattle.rm_machine.specs.Roll.{line_of, lost_by, object_of, of_all, roll_refusal, room_by, rows_listed, standing_member, standing_set, with_next_id};
ghost use Rattle.rm_machine.specs.{Sound.{IsSound}, State.{ledger, tree, world}};
ghost use Rattle.rm_machine.specs.{Step.{refusal_of}, Upkeep.{with_catalog}};
ghost use Rattle.rm_piece.specs.{Sets.{IsSet}, Valid.{IsPiece}};
ghost use Rattle.rm_step_backup.specs.Increments.{CanStand, jobs_of};

use crate::datafiles::{lost_taken, taken, taken_blocks, taken_count};
use crate::pieces::rows_in;
use crate::refusing::damage_refusal;
use crate::sets::member_of;
use crate::statement::begin;
use rm_base::{FileNo, Limit, NoMemory, Refusal, Scn, Seq};
use rm_catalog::{BaseEntry, Edit};
use rm_commit::Object;
use rm_evidence::roll_name;
use rm_lang_statement::BackupForm;
use rm_machine::facts::now;
use rm_machine::handed::of_line;
use rm_machine::room::{lacks_bytes, lacks_ids, sets_bytes};
use rm_machine::{Handed, Job, State};
use rm_piece::{Set, SetFile, encode_set};
use rm_report::Line;
use std::alloc::Global;

// All datafiles of the current path, in one set. It takes no memory.
fn of_all() -> BackupForm
    ensures { result ≡ of_all }
{
    BackupForm {
        copy: false,
        level: Some(1),
        cumulative: false,
        merge_tag: None,
        files: None,
        files_per_set: Some(64),
        tag: None,
        keep: false,
        during: None,
    }
}

// What a set of the datafiles counts as.
fn set_bytes(state: &State, form: &BackupForm) -> u64
    requires sound { IsSound state.now }
    ensures { result ≡ set_bytes (world state.now) (taken state.now form.now) }
{
    sets_bytes(1, taken_count(state, form), taken_blocks(state, form))
}

// Why the set can't be made of datafiles that are in place.
fn room_refusal(state: &State, form: &BackupForm) -> Option<Refusal>
    requires sound { IsSound state.now }
    requires alone { form.now.during ≡ None }
    ensures { result ≡ room_by state.now form.now }
{
    if lacks_bytes(state, set_bytes(state, form)) {
        Some(Refusal::Rm11(Limit::Bytes))
    } else if lacks_ids(state, 1) {
        Some(Refusal::Rm11(Limit::ObjectIds))
    } else {
        damage_refusal(state, form)
    }
}

// Why the set can't be made of these datafiles.
fn lost_refusal(state: &State, form: &BackupForm) -> Option<Refusal>
    requires sound { IsSound state.now }
    requires alone { form.now.during ≡ None }
    ensures { result ≡ lost_by state.now form.now }
{
    match lost_taken(state, form) {
        Some(file) => Some(Refusal::Rm09 { file }),
        None => room_refusal(state, form),
    }
}

/// Why an increment from an SCN is refused, if it is: the database is mounted (RM-04); the SCN lies below the first incarnation or
/// above `now` (RM-06); a datafile of the current path is lost (RM-09), the least of them; too few bytes or ids are left (RM-11,
/// in this order); or a block of these datafiles is damaged (RM-17), the least of them.
pub fn roll_refusal(state: &State, scn: u64) -> Option<Refusal>
    requires sound { IsSound state.now }
    ensures value { result ≡ roll_refusal state.now scn }
{
    if !state.instance.is_open {
        return Some(Refusal::Rm04 { mounted: true });
    }
    let low = state.catalog.tree().reset_of(1);
    let high = now(state);
    if scn < low || high < scn {
        return Some(Refusal::Rm06 {
            until: scn,
            low,
            high,
        });
    }
    lost_refusal(state, &of_all())
}

// An increment of each of these datafiles, from an SCN on.
fn jobs_of(alloc: Global, files: &[FileNo], scn: Scn) -> Result<Vec<Job>, NoMemory>
    ensures { IfOk result (λ jobs. jobs.items ≡ jobs_of scn files.now) }
{
    let mut jobs = Vec::new(alloc);
    for file in files {
        jobs.push(Job {
            file: *file,
            from: Some(scn),
        })?;
    }
    Ok(jobs)
}

// The member of a datafile as it stands in place, from an SCN on.
fn standing_member(
    alloc: Global,
    state: &State,
    form: &BackupForm,
    scn: Scn,
    file: FileNo,
) -> Result<SetFile, NoMemory>
    requires sound { IsSound state.now }
    requires some { 0 < file }
    requires valid { IsPiece (standing_member state.now form.now scn file).piece }
    ensures { IfOk result (λ member. member ≡ standing_member state.now form.now scn file) }
{
    let rows = rows_in(state, file);
    let job = Job {
        file,
        from: Some(scn),
    };
    member_of(alloc, state, form, job, now(state), rows)
}

// The set of these datafiles as they stand in place, from an SCN on.
fn standing_set(
    alloc: Global,
    state: &State,
    form: &BackupForm,
    scn: Scn,
    files: &[FileNo],
) -> Result<Set, NoMemory>
    requires sound { IsSound state.now }
    requires can { CanStand state.now form.now scn files.now }
    ensures { IfOk result (λ set. set ≡ standing_set state.now form.now scn files.now) }
{
    let mut members = Seq::new(alloc);
    for file in files {
        members.push(standing_member(alloc, state, form, scn, *file)?)?;
    }
    let base = state.catalog.base();
    Ok(Set {
        dbid: base.dbid,
        inc: base.current,
        checkpoint: now(state),
        members,
    })
}

// How many rows a set lists.
fn rows_listed(set: &Set) -> u32
    requires few { rows_listed set.now ≤ 4194304 }
    ensures { result ≡ rows_listed set.now }
{
    let members = set.members.as_slice();
    let rows: usize = members.iter().map(|member| member.piece.rows.len()).sum();
    rows as u32
}

// The line of a set under the next id, which lists rows from an SCN on.
fn line_of(state: &State, set: &Set, from: Scn) -> Line
    requires { IsSet set.now }
    ensures { result ≡ line_of state.now set.now from }
{
    Line::Rolled {
        id: state.catalog.base().next_id,
        from,
        checkpoint: set.checkpoint,
        files: set.members.len() as u32,
        rows: rows_listed(set),
    }
}

// Its object.
fn object_of(alloc: Global, state: &State, set: &Set) -> Result<Object, NoMemory>
    requires { IsSet set.now }
    ensures { IfOk result (λ object. object ≡ object_of state.now set.now) }
{
    Ok(Object {
        name: roll_name(alloc, u64::from(state.catalog.base().next_id))?,
        bytes: encode_set(alloc, set)?,
    })
}

// Hands out a set: its line and its object.
fn hand_out(alloc: Global, state: &State, set: &Set, from: Scn) -> Result<Handed, NoMemory>
    requires { IsSet set.now }
    ensures lines { IfOk result (λ x. x.lines ≡ line_of state.now set.now from ∷ []) }
    ensures objects { IfOk result (λ x. x.objects ≡ object_of state.now set.now ∷ []) }
    ensures removes { IfOk result (λ x. x.removes ≡ []) }
{
    let mut handed = of_line(alloc, line_of(state, set, from))?;
    handed.objects.push(object_of(alloc, state, set)?)?;
    Ok(handed)
}

// Draws the next id. Without memory nothing changes.
fn draw_id(state: &mut State, edits: &mut Vec<Edit>) -> Result<(), NoMemory>
    requires { FitsBase state.old.catalog (record (ledger state.old).base { next_id = (ledger state.old).base.next_id + 1 }) }
    ensures after { OnOk result (state.new ≡ with_catalog state.old (with_next_id state.old.catalog)) }
    ensures edits { OnOk result (EditsFollow edits.old.items edits.new.items state.old.catalog state.new.catalog) }
{
    let base = state.catalog.base();
    let base = BaseEntry {
        next_id: base.next_id + 1,
        ..base
    };
    state.catalog.set_base(edits, base)
}

// Makes the set of these datafiles as they stand in place, from an SCN on, and hands it out.
fn make(
    alloc: Global,
    state: &State,
    form: &BackupForm,
    scn: Scn,
    files: &[FileNo],
) -> Result<Handed, NoMemory>
    requires sound { IsSound state.now }
    requires can { CanStand state.now form.now scn files.now }
    requires valid { IsSet (standing_set state.now form.now scn files.now) }
    ensures lines { IfOk result (λ x. x.lines ≡ line_of state.now (standing_set state.now form.now scn files.now) scn ∷ []) }
    ensures objects { IfOk result (λ x. x.objects ≡ object_of state.now (standing_set state.now form.now scn files.now) ∷ []) }
    ensures removes { IfOk result (λ x. x.removes ≡ []) }
{
    let set = standing_set(alloc, state, form, scn, files)?;
    hand_out(alloc, state, &set, scn)
}

// The increment, by the form that takes all datafiles.
fn roll_all(
    alloc: Global,
    state: &mut State,
    edits: &mut Vec<Edit>,
    form: &BackupForm,
    scn: u64,
) -> Result<Handed, NoMemory>
    requires sound { IsSound state.old }
    requires accepted { refusal_of state.old (BackupFrom scn) ≡ None }
    requires all { form.now ≡ of_all }
    ensures hands { IfOk result (λ x. (held : Option Held) → Hands held state.old (BackupFrom scn) x state.new) }
    ensures edits { OnOk result (EditsFollow edits.old.items edits.new.items state.old.catalog state.new.catalog) }
{
    let taken = taken(alloc, state, form)?;
    let files = taken.as_slice();
    let handed = make(alloc, state, form, scn, files)?;
    let made = jobs_of(alloc, files, scn)?;
    let jobs = made.as_slice();
    begin(alloc, state, edits, form, jobs)?;
    draw_id(state, edits)?;
    Ok(handed)
}

/// BACKUP INCREMENTAL FROM SCN: one set of all datafiles of the current path, with their rows of versions at or above the SCN, up to
/// `now`. It draws an id, under which its object stands; no record tells of it. The current bitmap of each of the datafiles ends at
/// `now`. An error is want of memory; then nothing is said of the state and the edits.
pub fn roll(
    alloc: Global,
    state: &mut State,
    edits: &mut Vec<Edit>,
    scn: u64,
) -> Result<Handed, NoMemory>
    requires sound { IsSound state.old }
    requires accepted { refusal_of state.old (BackupFrom scn) ≡ None }
    ensures hands { IfOk result (λ x. (held : Option Held) → Hands held state.old (BackupFrom scn) x state.new) }
    ensures edits { OnOk result (EditsFollow edits.old.items edits.new.items state.old.catalog state.new.catalog) }
{
    roll_all(alloc, state, edits, &of_all(), scn)
}
