//! DELETE BACKUP id
ghost use Rattle.std.specs.Prelude.{◌≡◌, IfOk, None, OnOk, Option};
ghost use Rattle.rm_base.specs.Store.{Held};
ghost use Rattle.rm_lang_statement.specs.declared.command.Command.TheVariants.{DeleteBackup};
ghost use Rattle.rm_machine.specs.{Hands.{Hands}, Sound.{IsSound}, Upkeep.{record_refusal}};
ghost use Rattle.rm_catalog_typed.specs.Changes.{EditsFollow};

use crate::refusing::known;
use rm_base::{NoMemory, Seq};
use rm_catalog::Edit;
use rm_machine::drops::drop_record;
use rm_machine::naming::push_name;
use rm_machine::{Handed, State};
use rm_report::Line;
use std::alloc::Global;

/// DELETE BACKUP: the record of the id goes, and its object. An error is want of memory; then nothing is said of the
/// state and the edits.
pub fn delete_backup(
    alloc: Global,
    state: &mut State,
    edits: &mut Vec<Edit>,
    id: u64,
) -> Result<Handed, NoMemory>
    requires sound { IsSound state.old }
    requires accepted { record_refusal state.old id ≡ None }
    ensures hands { IfOk result (λ x. (held : Option Held) → Hands held state.old (DeleteBackup id) x state.new) }
    ensures edits { OnOk result (EditsFollow edits.old.items edits.new.items state.old.catalog state.new.catalog) }
{
    let id = known(state, id);
    let mut removes = Seq::new(alloc);
    push_name(alloc, state, id, &mut removes)?;
    drop_record(state, edits, id)?;
    let mut lines = Seq::new(alloc);
    lines.push(Line::Deleted { id })?;
    lines.push(Line::DeletedCount { count: 1 })?;
    Ok(Handed {
        lines,
        objects: Seq::new(alloc),
        removes,
    })
}
