//! The running database, taken out of a state so that it is live, and put back.
ghost use Rattle.std.specs.{Prelude.{◌≡◌, ◌≤◌, All, IfOk, List, OnOk, None, length, replicate, true}, List.{filter_map}};
ghost use Rattle.rm_base.specs.Numbers.{last_scn};
ghost use Rattle.rm_history.specs.Tree.{IsThere as IsIncarnation};
ghost use Rattle.rm_live.specs.{Parts.{IsNumbered, IsSound as IsSoundLive, parts_of}, declared.history.Event.{Event}};
ghost use Rattle.rm_machine.specs.{Events.{after_events, opening}, Running.{HasNumber, HasRun, IsTakenOut, at_home, risen}};
ghost use Rattle.rm_machine.specs.{Sound.{IsSound}, State.{current_of, ledger, tree}, declared.state.State.{State}};
ghost use Rattle.rm_catalog_typed.specs.Changes.{EditsFollow};

use crate::facts::now;
use crate::state::State;
use rm_base::{NoMemory, Scn, Seq};
use rm_blocks::DataFile;
use rm_catalog::Edit;
use rm_live::Database;
use rm_redo::OnlineLogs;
use rm_track::Tracker;
use std::alloc::Global;
use std::mem;

// The datafiles that stand in these places.
fn standing_in(alloc: Global, place: Vec<Option<DataFile>>) -> Result<Vec<DataFile>, NoMemory>
    ensures { IfOk result (λ files. files.items ≡ filter_map (λ o. o) place.items) }
{
    let mut files = Vec::new(alloc);
    for slot in place {
        if let Some(file) = slot {
            files.push(file)?;
        }
    }
    Ok(files)
}

// So many places, of which each is empty.
fn empty_places(alloc: Global, count: usize) -> Result<Vec<Option<DataFile>>, NoMemory>
    ensures { IfOk result (λ place. place.items ≡ replicate count None) }
{
    let mut place = Vec::new(alloc);
    for _ in 0..count {
        place.push(None)?;
    }
    Ok(place)
}

// Each datafile in its place, of so many.
fn at_home(
    alloc: Global,
    count: usize,
    files: Vec<DataFile>,
) -> Result<Vec<Option<DataFile>>, NoMemory>
    requires { All (HasNumber count) files.items }
    ensures { IfOk result (λ place. place.items ≡ at_home (replicate count None) files.items) }
{
    let mut place = empty_places(alloc, count)?;
    for file in files {
        let index = file.file() as usize - 1;
        place[index] = Some(file);
    }
    Ok(place)
}

/// Takes the running database out of an open state; it is one that can be live. What is left runs nothing until it comes back. An
/// error is want of memory; then nothing is said of the state.
pub fn take_out(alloc: Global, state: &mut State) -> Result<Database, NoMemory>
    requires sound { IsSound state.old }
    requires opened { state.old.instance.is_open ≡ true }
    ensures parts { IfOk result (λ d. parts_of d ≡ opening state.old) }
    ensures numbered { IfOk result (λ d. IsNumbered (parts_of d).files) }
    ensures live { IfOk result (λ d. IsSoundLive (parts_of d)) }
    ensures out { IsTakenOut state.old state.new }
{
    let base = state.catalog.base();
    let (inc, now) = (base.current, now(state));
    let nothing = OnlineLogs::new(alloc, base.dbid, inc, 1, 1)?;
    let place = mem::replace(&mut state.instance.place, Seq::new(alloc)).into_vec();
    Ok(Database {
        inc,
        now,
        files: standing_in(alloc, place)?,
        logs: mem::replace(&mut state.instance.logs, nothing),
        tracker: mem::replace(&mut state.instance.tracker, Tracker::new(alloc)),
    })
}

// Gives the running database back. Without memory nothing is said of the state.
fn give_back(alloc: Global, state: &mut State, database: Database) -> Result<(), NoMemory>
    requires numbers { All (HasNumber (length (ledger state.old).files)) database.files.items }
    ensures place { OnOk result (state.new.instance.place ≡ at_home (replicate (length (ledger state.old).files) None) database.files.items) }
    ensures logs { OnOk result (state.new.instance.logs ≡ database.logs) }
    ensures tracker { OnOk result (state.new.instance.tracker ≡ database.tracker) }
    ensures out { IsTakenOut state.old state.new }
{
    let Database {
        files,
        logs,
        tracker,
        ..
    } = database;
    let place = at_home(alloc, state.catalog.files().len(), files)?;
    state.instance.place = Seq::from_vec(place);
    state.instance.logs = logs;
    state.instance.tracker = tracker;
    Ok(())
}

// Raises the end of the current incarnation to this SCN, if it is later. An error is want of memory; then nothing is said of
// the state and the edits.
fn raise_to(state: &mut State, edits: &mut Vec<Edit>, end: Scn) -> Result<(), NoMemory>
    requires there { IsIncarnation (tree state.old) (current_of state.old) }
    requires last { end ≤ last_scn }
    ensures catalog { OnOk result (state.new.catalog ≡ risen state.old.catalog end) }
    ensures instance { state.new.instance ≡ state.old.instance }
    ensures edits { OnOk result (EditsFollow edits.old.items edits.new.items state.old.catalog state.new.catalog) }
{
    if end <= now(state) {
        return Ok(());
    }
    let current = state.catalog.base().current;
    state.catalog.raise_end(edits, current, end)
}

/// Puts the running database back, as legal events left it, into the state from which it was taken out: it goes on as they leave
/// it. An error is want of memory; then nothing is said of the state and the edits.
pub fn put_back(
    alloc: Global,
    state: &mut State,
    edits: &mut Vec<Edit>,
    database: Database,
) -> Result<(), NoMemory>
    requires ran { (before : State) × (events : List Event) × HasRun before events state.old (parts_of database) }
    ensures after { OnOk result ((before : State) (events : List Event) → HasRun before events state.old (parts_of database) → state.new ≡ after_events before events) }
    ensures edits { OnOk result (EditsFollow edits.old.items edits.new.items state.old.catalog state.new.catalog) }
{
    let end = database.now;
    give_back(alloc, state, database)?;
    raise_to(state, edits, end)
}
