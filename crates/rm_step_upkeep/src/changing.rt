//! CHANGE BACKUP id
ghost use Rattle.std.specs.Prelude.{◌≡◌, ◌≤◌, IfOk, None, OnOk, Option};
ghost use Rattle.rm_base.specs.Store.{Held};
ghost use Rattle.rm_lang_statement.specs.declared.command.Command.TheVariants.{ChangeBackup};
ghost use Rattle.rm_machine.specs.{Hands.{Hands}, Sound.{IsSound}, Upkeep.{change_line, changed_to, record_refusal, with_catalog}};
ghost use Rattle.rm_catalog_typed.specs.Changes.{EditsFollow};

use crate::amending::{Amendment, amend};
use crate::refusing::known;
use rm_base::{NoMemory, Status};
use rm_catalog::Edit;
use rm_lang_statement::ChangeTo;
use rm_machine::drops::drop_record;
use rm_machine::handed::of_line;
use rm_machine::{Handed, State};
use rm_report::Line;
use std::alloc::Global;

// The line of a change.
fn change_line(id: u32, to: ChangeTo) -> Line
    ensures { result ≡ change_line to id }
{
    match to {
        ChangeTo::Available => Line::StatusOf {
            id,
            status: Status::Available,
        },
        ChangeTo::Unavailable => Line::StatusOf {
            id,
            status: Status::Unavailable,
        },
        ChangeTo::Uncatalog => Line::Uncatalogued { id },
        ChangeTo::Keep => Line::Kept { id },
        ChangeTo::NoKeep => Line::NotKept { id },
    }
}

// Changes the record of an id so.
fn change(
    alloc: Global,
    state: &mut State,
    edits: &mut Vec<Edit>,
    id: u32,
    to: ChangeTo,
) -> Result<(), NoMemory>
    requires sound { IsSound state.old }
    requires some { 1 ≤ id }
    ensures value { OnOk result (state.new ≡ with_catalog state.old (changed_to to id state.old.catalog)) }
    ensures edits { OnOk result (EditsFollow edits.old.items edits.new.items state.old.catalog state.new.catalog) }
{
    let by = match to {
        ChangeTo::Uncatalog => return drop_record(state, edits, id),
        ChangeTo::Available => Amendment::Status(Status::Available),
        ChangeTo::Unavailable => Amendment::Status(Status::Unavailable),
        ChangeTo::Keep => Amendment::Keep(true),
        ChangeTo::NoKeep => Amendment::Keep(false),
    };
    amend(alloc, state, edits, id, by)
}

/// CHANGE BACKUP: the record of the id counts as available or as unavailable, goes, or is kept forever or not; its
/// object stays. An error is want of memory; then nothing is said of the state and the edits.
pub fn change_backup(
    alloc: Global,
    state: &mut State,
    edits: &mut Vec<Edit>,
    id: u64,
    to: ChangeTo,
) -> Result<Handed, NoMemory>
    requires sound { IsSound state.old }
    requires accepted { record_refusal state.old id ≡ None }
    ensures hands { IfOk result (λ x. (held : Option Held) → Hands held state.old (ChangeBackup id to) x state.new) }
    ensures edits { OnOk result (EditsFollow edits.old.items edits.new.items state.old.catalog state.new.catalog) }
{
    let id = known(state, id);
    let handed = of_line(alloc, change_line(id, to))?;
    change(alloc, state, edits, id, to)?;
    Ok(handed)
}
