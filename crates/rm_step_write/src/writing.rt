//! WRITE [THREAD t] DATAFILE f BLOCK b VALUE 'v'
ghost use Rattle.std.specs.Prelude.{◌≡◌, ◌<◌, ◌≤◌, ◌-◌, IfOk, IfSome, OnOk, Option, None, slice_get, slice_set, slice_index_or};
ghost use Rattle.std.specs.Option.{option_map};
ghost use Rattle.rm_base.specs.Store.{Held};
ghost use Rattle.rm_blocks.specs.File.{written};
ghost use Rattle.rm_lang_statement.specs.declared.command.Command.TheVariants.{Write};
ghost use Rattle.rm_machine.specs.{Hands.{Hands}, Sound.{IsSound}, Write.{block_refusal, change_of, place_refusal, write_refusal}};
ghost use Rattle.rm_redo.specs.Online.{IsThread};
ghost use Rattle.rm_catalog_typed.specs.Changes.{EditsFollow};

use rm_base::{Absent, Change, LAST_SCN, Limit, NoMemory, Refusal, Seq, ThreadNo};
use rm_blocks::DataFile;
use rm_catalog::Edit;
use rm_history::Datafile;
use rm_lang_statement::WriteForm;
use rm_machine::damage::is_damaged;
use rm_machine::facts::{is_thread, now, on_path, placed};
use rm_machine::handed::of_line;
use rm_machine::marks::{go_further, mark_count};
use rm_machine::room::{lacks_ids, lacks_room};
use rm_machine::{Handed, State};
use rm_redo::LogFault;
use rm_report::Line;
use std::alloc::Global;
use std::mem;

// Why WRITE is refused where its thread and its datafile are there, if it is.
fn block_refusal(state: &State, form: &WriteForm, datafile: Datafile) -> Option<Refusal>
    requires sound { IsSound state.now }
    requires thread { IsThread state.now.instance.logs form.now.thread }
    requires most { form.now.thread ≤ 4 }
    requires file { (0 < form.now.file) × (form.now.file ≤ 64) }
    ensures value { result ≡ block_refusal state.now form.now datafile }
{
    if form.block >= u64::from(datafile.blocks) {
        Some(Refusal::Rm05(Absent::Block {
            block: form.block,
            file: form.file,
        }))
    } else if placed(state, form.file).is_none() {
        Some(Refusal::Rm09 {
            file: form.file as u32,
        })
    } else if lacks_room(state, mark_count(state)) {
        Some(Refusal::Rm11(Limit::Records))
    } else if lacks_ids(state, 0) {
        Some(Refusal::Rm11(Limit::ObjectIds))
    } else if state.instance.logs.count(form.thread as ThreadNo) >= 65_536 {
        Some(Refusal::Rm11(Limit::LogRecords))
    } else if now(state) >= LAST_SCN {
        Some(Refusal::Rm15)
    } else if is_damaged(state, form.file, form.block) {
        Some(Refusal::Rm17 {
            file: form.file as u32,
            block: form.block as u32,
        })
    } else {
        None
    }
}

// Why WRITE is refused in an open database, if it is.
fn place_refusal(state: &State, form: &WriteForm) -> Option<Refusal>
    requires sound { IsSound state.now }
    ensures value { result ≡ place_refusal state.now form.now }
{
    if !is_thread(state, form.thread) {
        return Some(Refusal::Rm05(Absent::Thread(form.thread)));
    }
    let Some(datafile) = on_path(state, form.file) else {
        return Some(Refusal::Rm05(Absent::File(form.file)));
    };
    block_refusal(state, form, datafile)
}

/// Why WRITE is refused, if it is: the database is mounted (RM-04); there is no such thread, datafile on the current
/// path, or block (RM-05, in this order); the datafile is lost (RM-09); too many records, too few object ids, or a
/// full log (RM-11, in this order); no SCN is left (RM-15); or the block is damaged (RM-17).
pub fn write_refusal(state: &State, form: &WriteForm) -> Option<Refusal>
    requires sound { IsSound state.now }
    ensures value { result ≡ write_refusal state.now form.now }
{
    if !state.instance.is_open {
        return Some(Refusal::Rm04 { mounted: true });
    }
    place_refusal(state, form)
}

// The change that an accepted WRITE makes.
fn change_of(state: &State, form: &WriteForm) -> Change
    requires sound { IsSound state.now }
    requires accepted { write_refusal state.now form.now ≡ None }
    ensures { result ≡ change_of state.now form.now }
{
    Change {
        inc: state.catalog.base().current,
        thread: form.thread as ThreadNo,
        scn: now(state),
        file: form.file as u32,
        block: form.block as u32,
        content: form.content,
    }
}

// Puts the change into its row, where its datafile is in place.
fn write_row(slot: &mut Option<DataFile>, change: Change)
    requires above { IfSome slot.old (λ x. IfSome (slice_get x.rows change.block) (λ r. r.version < change.scn)) }
    ensures { slot.new ≡ option_map (λ x. written x change.block change.scn change.content) slot.old }
{
    if let Some(file) = slot {
        file.write(change.block, change.scn, change.content);
    }
}

// Puts the change into its row in place.
fn put_row(place: &mut Vec<Option<DataFile>>, change: Change)
    requires file { 0 < change.file }
    requires above { IfSome (slice_index_or place.old.items (change.file - 1) None) (λ x. IfSome (slice_get x.rows change.block) (λ r. r.version < change.scn)) }
    ensures { place.new.items ≡ slice_set place.old.items (change.file - 1) (option_map (λ x. written x change.block change.scn change.content) (slice_index_or place.old.items (change.file - 1) None)) }
{
    let index = change.file as usize - 1;
    if index < place.len() {
        write_row(&mut place[index], change);
    }
}

/// WRITE: the change takes the SCN `now`, and goes to its row in place and to the online log of its thread; its block is
/// marked where changes are tracked. An error is want of memory; then nothing is said of the state and the edits.
pub fn write(
    alloc: Global,
    state: &mut State,
    edits: &mut Vec<Edit>,
    form: &WriteForm,
) -> Result<Handed, NoMemory>
    requires sound { IsSound state.old }
    requires accepted { write_refusal state.old form.now ≡ None }
    ensures hands { IfOk result (λ x. (held : Option Held) → Hands held state.old (Write form.now) x state.new) }
    ensures edits { OnOk result (EditsFollow edits.old.items edits.new.items state.old.catalog state.new.catalog) }
{
    let change = change_of(state, form);
    let handed = of_line(alloc, Line::Written { scn: change.scn })?;
    go_further(state, edits)?;
    match state.instance.logs.append(change) {
        Ok(()) => {}
        Err(LogFault::NoMemory) => return Err(NoMemory),
        Err(LogFault::Full) => unreachable!(),
    }
    let mut place = mem::replace(&mut state.instance.place, Seq::new(alloc)).into_vec();
    put_row(&mut place, change);
    state.instance.place = Seq::from_vec(place);
    state.instance.tracker.mark(change.file, change.block);
    Ok(handed)
}
