//! ALTER DATABASE OPEN RESETLOGS
ghost use Rattle.std.specs.Prelude.{◌≡◌, ◌<◌, length, IfOk, None, OnOk, Option, Some};
ghost use Rattle.rm_base.specs.Store.{Held};
ghost use Rattle.rm_lang_statement.specs.declared.command.Command.TheVariants.{OpenResetlogs};
ghost use Rattle.rm_machine.specs.{Hands.{Hands}, OpenResetlogs.{branch_refusal, branched_off, resetlogs_refusal}, Sound.{IsSound}};
ghost use Rattle.rm_machine.specs.State.{tree};
ghost use Rattle.rm_catalog_typed.specs.{Changes.{EditsFollow}, Fitting.{HasRoomFor}};

use crate::archive_refusals::archiving_refusal;
use crate::archives::archive_all;
use crate::opening::open_at;
use rm_base::{Limit, NoMemory, Refusal, Scn, Seq};
use rm_catalog::{BaseEntry, Edit};
use rm_machine::tracking::first_tracker;
use rm_machine::{Handed, State};
use rm_redo::OnlineLogs;
use rm_report::Line;
use std::alloc::Global;

// Why OPEN RESETLOGS is refused at a point, if it is. The new incarnation and its mark are two records more.
fn branch_refusal(state: &State) -> Option<Refusal>
    requires sound { IsSound state.now }
    ensures value { result ≡ branch_refusal state.now }
{
    if state.catalog.tree().count() >= 256 {
        Some(Refusal::Rm11(Limit::Incarnations))
    } else {
        archiving_refusal(state, 2)
    }
}

/// Why OPEN RESETLOGS is refused, if it is: the database is open (RM-04), no point is known (RM-10), no incarnation
/// is left, or too few records, bytes, object ids or sequence numbers are (RM-11).
pub fn resetlogs_refusal(state: &State) -> Option<Refusal>
    requires sound { IsSound state.now }
    ensures value { result ≡ resetlogs_refusal state.now }
{
    if state.instance.is_open {
        return Some(Refusal::Rm04 { mounted: false });
    }
    match state.instance.point {
        Some(_) => branch_refusal(state),
        None => Some(Refusal::Rm10),
    }
}

// Opens a database at its point as a new incarnation, with empty logs of the threads that are enabled there.
fn branch_off(
    alloc: Global,
    state: &mut State,
    edits: &mut Vec<Edit>,
    at: Scn,
) -> Result<(), NoMemory>
    requires sound { IsSound state.old }
    requires point { state.old.instance.point ≡ Some at }
    requires few { length (tree state.old) < 256 }
    requires room { HasRoomFor state.old.catalog 2 }
    ensures value { OnOk result (state.new ≡ branched_off state.old at) }
    ensures edits { OnOk result (EditsFollow edits.old.items edits.new.items state.old.catalog state.new.catalog) }
{
    let base = state.catalog.base();
    let inc = state.catalog.tree().count() + 1;
    open_at(alloc, state, at);
    state.catalog.branch(edits, base.current, at, base.moment)?;
    let base = BaseEntry {
        current: inc,
        ..base
    };
    state.catalog.set_base(edits, base)?;
    let enabled = state.catalog.enabled_at(inc, at);
    let logs = OnlineLogs::with_threads(alloc, base.dbid, inc, enabled, at)?;
    let tracker = first_tracker(alloc, &state.catalog, true)?;
    state.instance.logs = logs;
    state.instance.tracker = tracker;
    Ok(())
}

/// OPEN RESETLOGS: archives what there is of each online log, and opens the database at its point as a new
/// incarnation, with its mark and with fresh logs; where changes are tracked they are from there on. An error is want
/// of memory; then nothing is said of the state and the edits.
pub fn open_resetlogs(
    alloc: Global,
    state: &mut State,
    edits: &mut Vec<Edit>,
) -> Result<Handed, NoMemory>
    requires sound { IsSound state.old }
    requires accepted { resetlogs_refusal state.old ≡ None }
    ensures hands { IfOk result (λ x. (held : Option Held) → Hands held state.old OpenResetlogs x state.new) }
    ensures edits { OnOk result (EditsFollow edits.old.items edits.new.items state.old.catalog state.new.catalog) }
{
    let Some(scn) = state.instance.point else {
        unreachable!()
    };
    let inc = state.catalog.tree().count() + 1;
    let mut lines = Seq::new(alloc);
    let mut objects = Seq::new(alloc);
    archive_all(alloc, state, edits, &mut lines, &mut objects, false)?;
    branch_off(alloc, state, edits, scn)?;
    lines.push(Line::Opened { inc, scn })?;
    Ok(Handed {
        lines,
        objects,
        removes: Seq::new(alloc),
    })
}
