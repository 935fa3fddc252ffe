//! The records of logs, pieces and sets go.
ghost use Rattle.std.specs.Prelude.{◌≡◌, ◌≤◌, ◌<◌, ◌^◌, ◌++◌, ◌∷◌, [], All, IfOk, OnOk, length, map};
ghost use Rattle.rm_machine.specs.Upkeep.{with_catalog, without_all, without_record};
ghost use Rattle.rm_report.specs.declared.line.Line.TheVariants.{Deleted, DeletedCount};
ghost use Rattle.rm_catalog_typed.specs.Changes.{EditsFollow};

use crate::state::State;
use rm_base::{NoMemory, Seq};
use rm_catalog::Edit;
use rm_report::Line;
use std::alloc::Global;

/// Takes the record of an id away, if there is one.
pub fn drop_record(state: &mut State, edits: &mut Vec<Edit>, id: u32) -> Result<(), NoMemory>
    requires some { 1 ≤ id }
    ensures value { OnOk result (state.new ≡ with_catalog state.old (without_record id state.old.catalog)) }
    ensures edits { OnOk result (EditsFollow edits.old.items edits.new.items state.old.catalog state.new.catalog) }
{
    state.catalog.drop_log(edits, id)?;
    state.catalog.drop_piece(edits, id)?;
    state.catalog.drop_set(edits, id)
}

/// Takes the records of these ids away, one after another, with an edit for each. A line tells each, and a last one how
/// many they are. An error is want of memory; then nothing is said of the state and the edits.
pub fn drop_records(
    alloc: Global,
    state: &mut State,
    edits: &mut Vec<Edit>,
    ids: &[u32],
) -> Result<Seq<Line>, NoMemory>
    requires some { All (λ n. 1 ≤ n) ids.now }
    requires few { length ids.now < 2 ^ 32 }
    ensures lines { IfOk result (λ lines. lines ≡ map Deleted ids.now ++ DeletedCount (length ids.now) ∷ []) }
    ensures value { OnOk result (state.new ≡ with_catalog state.old (without_all ids.now state.old.catalog)) }
    ensures edits { OnOk result (EditsFollow edits.old.items edits.new.items state.old.catalog state.new.catalog) }
{
    let mut lines = Seq::new(alloc);
    for id in ids {
        drop_record(state, edits, *id)?;
        lines.push(Line::Deleted { id: *id })?;
    }
    lines.push(Line::DeletedCount {
        count: ids.len() as u32,
    })?;
    Ok(lines)
}
