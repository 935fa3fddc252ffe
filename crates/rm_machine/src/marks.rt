//! The mark that a statement writes before its change, and one SCN further.
ghost use Rattle.std.specs.Prelude.{◌≡◌, ◌<◌, ◌≤◌, OnOk, false, length};
ghost use Rattle.rm_base.specs.Numbers.{last_scn};
ghost use Rattle.rm_machine.specs.BackupRefusal.{marks_for};
ghost use Rattle.rm_machine.specs.Marks.{lacks_room, last_marked, listed, mark_now, marked_for, marks_before, one_further, with_marks};
ghost use Rattle.rm_machine.specs.{Sound.{IsSound}, State.{now_of}};
ghost use Rattle.rm_catalog_typed.specs.Changes.{EditsFollow};

use crate::facts::now;
use crate::state::State;
use rm_base::{Mark, Moment, NoMemory, Seq};
use rm_catalog::Edit;
use rm_lang_statement::WriteForm;

// The moment of the last mark, 0 before the first.
fn last_marked(marks: &[Mark]) -> Moment
    ensures { result ≡ last_marked 0 marks.now }
{
    match marks.last() {
        Some(mark) => mark.moment,
        None => 0,
    }
}

// A mark of `now`, at the moment of the statement.
fn mark_now(state: &State) -> Mark
    ensures { result ≡ mark_now state.now }
{
    let base = state.catalog.base();
    Mark {
        moment: base.moment,
        inc: base.current,
        scn: now(state),
    }
}

/// The mark before a change: `now`, where the moment of the statement is later than the last mark's.
pub fn marks_before(state: &State) -> Option<Mark>
    ensures { listed result ≡ marks_before state.now }
{
    if last_marked(state.catalog.marks()) < state.catalog.base().moment {
        Some(mark_now(state))
    } else {
        None
    }
}

/// How many marks come before a change: 1 or none.
pub fn mark_count(state: &State) -> u64
    requires sound { IsSound state.now }
    ensures value { result ≡ length (marks_before state.now) }
    ensures most { result ≤ 1 }
{
    u64::from(marks_before(state).is_some())
}

/// Writes the mark before a change, if there is one. An error is want of memory; then nothing is said of
/// the state and the edits.
pub fn add_marks_before(state: &mut State, edits: &mut Vec<Edit>) -> Result<(), NoMemory>
    requires sound { IsSound state.old }
    requires room { lacks_room state.old (length (marks_before state.old)) ≡ false }
    ensures after { OnOk result (state.new ≡ record state.old { catalog = with_marks state.old.catalog (marks_before state.old) }) }
    ensures edits { OnOk result (EditsFollow edits.old.items edits.new.items state.old.catalog state.new.catalog) }
{
    if let Some(mark) = marks_before(state) {
        state.catalog.add_mark(edits, mark)?;
    }
    Ok(())
}

/// Writes the mark before a change, and raises the end of the current incarnation by one SCN. An error is want of
/// memory; then nothing is said of the state and the edits.
pub fn go_further(state: &mut State, edits: &mut Vec<Edit>) -> Result<(), NoMemory>
    requires sound { IsSound state.old }
    requires room { lacks_room state.old (length (marks_before state.old)) ≡ false }
    requires below { now_of state.old < last_scn }
    ensures catalog { OnOk result (state.new.catalog ≡ one_further state.old) }
    ensures instance { OnOk result (state.new.instance ≡ state.old.instance) }
    ensures edits { OnOk result (EditsFollow edits.old.items edits.new.items state.old.catalog state.new.catalog) }
{
    let end = now(state) + 1;
    let current = state.catalog.base().current;
    add_marks_before(state, edits)?;
    state.catalog.raise_end(edits, current, end)
}

/// Writes the mark that comes before the writes, where a statement has a DURING. An error is want of memory; then nothing is said
/// of the state and the edits.
pub fn add_marks_for(
    state: &mut State,
    edits: &mut Vec<Edit>,
    during: &Option<Seq<WriteForm>>,
) -> Result<(), NoMemory>
    requires sound { IsSound state.old }
    requires room { lacks_room state.old (marks_for state.old during.now) ≡ false }
    ensures after { OnOk result (state.new ≡ marked_for state.old during.now) }
    ensures edits { OnOk result (EditsFollow edits.old.items edits.new.items state.old.catalog state.new.catalog) }
{
    if during.is_some() {
        add_marks_before(state, edits)?;
    }
    Ok(())
}
