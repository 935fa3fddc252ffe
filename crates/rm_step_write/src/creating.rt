//! CREATE DATAFILE BLOCKS n
ghost use Rattle.std.specs.Prelude.{◌≡◌, ◌<◌, ◌≤◌, ◌+◌, if◌then◌else◌, IfOk, OnOk, Option, None, sum_by};
ghost use Rattle.rm_base.specs.{Numbers.{last_scn}, Store.{Held}};
ghost use Rattle.rm_lang_statement.specs.declared.command.Command.TheVariants.{CreateDatafile};
ghost use Rattle.rm_machine.specs.{CreateDatafile.{datafile_refusal, new_datafile, next_file, room_refusal}, Hands.{Hands}};
ghost use Rattle.rm_machine.specs.{Sound.{IsSound}, State.{ledger}, Tracked.{tracks}};
ghost use Rattle.rm_track.specs.Bitmaps.{fresh, with_file};
ghost use Rattle.rm_catalog_typed.specs.Changes.{EditsFollow};

use rm_base::{FileNo, LAST_SCN, Limit, NoMemory, Refusal};
use rm_blocks::DataFile;
use rm_catalog::Edit;
use rm_history::Datafile;
use rm_machine::facts::now;
use rm_machine::handed::of_line;
use rm_machine::marks::{go_further, mark_count};
use rm_machine::room::{lacks_ids, lacks_room};
use rm_machine::{Handed, State};
use rm_report::Line;
use rm_track::Tracker;
use std::alloc::Global;

// The number of blocks of all datafiles.
fn blocks(state: &State) -> u64
    requires sound { IsSound state.now }
    ensures value { result ≡ sum_by (λ d. d.blocks) (ledger state.now).files }
    ensures most { result ≤ 131072 }
{
    state
        .catalog
        .files()
        .iter()
        .map(|d| u64::from(d.blocks))
        .sum()
}

// Why there is no room for the datafile, if there is none.
fn room_refusal(state: &State, more: u64) -> Option<Refusal>
    requires sound { IsSound state.now }
    ensures value { result ≡ room_refusal state.now more }
{
    if state.catalog.files().len() >= 64 {
        Some(Refusal::Rm11(Limit::Files))
    } else if more > 65_536 {
        Some(Refusal::Rm11(Limit::FileBlocks))
    } else if blocks(state) + more > 131_072 {
        Some(Refusal::Rm11(Limit::Blocks))
    } else if lacks_room(state, mark_count(state) + 1) {
        Some(Refusal::Rm11(Limit::Records))
    } else if lacks_ids(state, 0) {
        Some(Refusal::Rm11(Limit::ObjectIds))
    } else if now(state) >= LAST_SCN {
        Some(Refusal::Rm15)
    } else {
        None
    }
}

/// Why CREATE DATAFILE is refused, if it is: the database is mounted (RM-04); it would have too many datafiles, the
/// datafile or all of them too many blocks, the catalog too many records or too few object ids (RM-11, in this
/// order); or no SCN is left (RM-15).
pub fn datafile_refusal(state: &State, blocks: u64) -> Option<Refusal>
    requires sound { IsSound state.now }
    ensures value { result ≡ datafile_refusal state.now blocks }
{
    if !state.instance.is_open {
        return Some(Refusal::Rm04 { mounted: true });
    }
    room_refusal(state, blocks)
}

// The number of the next datafile.
fn next_file(state: &State) -> FileNo
    requires sound { IsSound state.now }
    ensures { result ≡ next_file state.now }
{
    state.catalog.files().len() as FileNo + 1
}

// A datafile created at `now`.
fn new_datafile(state: &State, blocks: u32) -> Datafile
    ensures { result ≡ new_datafile state.now blocks }
{
    Datafile {
        inc: state.catalog.base().current,
        creation: now(state),
        blocks,
    }
}

// Whether changes are tracked.
fn tracks(state: &State) -> bool
    ensures { result ≡ tracks state.now.instance.is_open (ledger state.now) }
{
    state.instance.is_open && state.catalog.base().tracking
}

// Tracks a new datafile from the SCN after its creation on, where changes are tracked. An error is want of memory; then
// nothing is said of the bitmaps.
fn track(
    alloc: Global,
    tracker: &mut Tracker,
    is_tracked: bool,
    file: FileNo,
    datafile: Datafile,
) -> Result<(), NoMemory>
    requires below { datafile.creation < last_scn }
    ensures { OnOk result (tracker.new ≡ if is_tracked then with_file tracker.old (fresh file datafile.blocks (datafile.creation + 1)) else tracker.old) }
{
    if is_tracked {
        tracker.add_file(alloc, file, datafile.blocks, datafile.creation + 1)
    } else {
        Ok(())
    }
}

/// CREATE DATAFILE: a datafile of 1 block at least takes the next number and the SCN `now`, and stands in place as
/// it was created. Where changes are tracked its own are from the next SCN on. An error is want of memory; then
/// nothing is said of the state and the edits.
pub fn create_datafile(
    alloc: Global,
    state: &mut State,
    edits: &mut Vec<Edit>,
    blocks: u64,
) -> Result<Handed, NoMemory>
    requires sound { IsSound state.old }
    requires some { 1 ≤ blocks }
    requires accepted { datafile_refusal state.old blocks ≡ None }
    ensures hands { IfOk result (λ x. (held : Option Held) → Hands held state.old (CreateDatafile blocks) x state.new) }
    ensures edits { OnOk result (EditsFollow edits.old.items edits.new.items state.old.catalog state.new.catalog) }
{
    let (file, datafile) = (next_file(state), new_datafile(state, blocks as u32));
    let is_tracked = tracks(state);
    let line = Line::DatafileAt {
        file,
        scn: datafile.creation,
        blocks: datafile.blocks,
    };
    let handed = of_line(alloc, line)?;
    let empty = DataFile::empty(
        alloc,
        file,
        datafile.inc,
        datafile.creation,
        datafile.blocks,
    )?;
    go_further(state, edits)?;
    state.catalog.add_file(edits, datafile)?;
    state.instance.place.push(Some(empty))?;
    track(
        alloc,
        &mut state.instance.tracker,
        is_tracked,
        file,
        datafile,
    )?;
    Ok(handed)
}
