//! ALTER DATABASE (ENABLE | DISABLE) BLOCK CHANGE TRACKING
ghost use Rattle.std.specs.Prelude.{◌≡◌, IfOk, None, OnOk, Option};
ghost use Rattle.rm_base.specs.Store.{Held};
ghost use Rattle.rm_machine.specs.{Hands.{Hands}, Marks.{ids_refusal}, Sound.{IsSound}, Tracking.{with_setting}, Upkeep.{with_catalog}};
ghost use Rattle.rm_catalog_typed.specs.Changes.{EditsFollow};
ghost use Rattle.rm_lang_statement.specs.declared.command.Command.TheVariants.{Tracking};

use rm_base::NoMemory;
use rm_catalog::{BaseEntry, Edit};
use rm_machine::handed::of_line;
use rm_machine::tracking::first_tracker;
use rm_machine::{Handed, State};
use rm_report::Line;
use std::alloc::Global;

// Sets whether changes are tracked, and no other base fact.
fn set_tracking(state: &mut State, edits: &mut Vec<Edit>, on: bool) -> Result<(), NoMemory>
    requires sound { IsSound state.old }
    ensures value { OnOk result (state.new ≡ with_catalog state.old (with_setting state.old.catalog on)) }
    ensures edits { OnOk result (EditsFollow edits.old.items edits.new.items state.old.catalog state.new.catalog) }
{
    let base = BaseEntry {
        tracking: on,
        ..state.catalog.base()
    };
    state.catalog.set_base(edits, base)
}

/// ENABLE or DISABLE BLOCK CHANGE TRACKING, in an open or a mounted database: in an open one the changes of each datafile
/// are tracked anew from `now` on, or no longer. An error is want of memory; then nothing is said of the state and
/// the edits.
pub fn track_changes(
    alloc: Global,
    state: &mut State,
    edits: &mut Vec<Edit>,
    on: bool,
) -> Result<Handed, NoMemory>
    requires sound { IsSound state.old }
    requires accepted { ids_refusal state.old ≡ None }
    ensures hands { IfOk result (λ x. (held : Option Held) → Hands held state.old (Tracking on) x state.new) }
    ensures edits { OnOk result (EditsFollow edits.old.items edits.new.items state.old.catalog state.new.catalog) }
{
    let handed = of_line(alloc, Line::Tracking { on })?;
    set_tracking(state, edits, on)?;
    let tracker = first_tracker(alloc, &state.catalog, state.instance.is_open)?;
    state.instance.tracker = tracker;
    Ok(handed)
}
