//! RESET DATABASE TO INCARNATION n
ghost use Rattle.std.specs.Prelude.{◌≡◌, IfOk, None, OnOk, Option};
ghost use Rattle.rm_base.specs.Store.{Held};
ghost use Rattle.rm_lang_statement.specs.declared.command.Command.TheVariants.{ResetDatabase};
ghost use Rattle.rm_machine.specs.{Hands.{Hands}, ResetDatabase.{reset_refusal}, Sound.{IsSound}};
ghost use Rattle.rm_catalog_typed.specs.Changes.{EditsFollow};

use rm_base::{IncNo, NoMemory, Refusal};
use rm_catalog::{BaseEntry, Edit};
use rm_machine::facts::now;
use rm_machine::handed::of_line;
use rm_machine::room::ids_refusal;
use rm_machine::{Handed, State};
use rm_report::Line;
use std::alloc::Global;

/// Why RESET DATABASE is refused, if it is: the database is open (RM-04), the incarnation is not there (RM-07), or
/// too few object ids are left (RM-11).
pub fn reset_refusal(state: &State, inc: u64) -> Option<Refusal>
    requires sound { IsSound state.now }
    ensures value { result ≡ reset_refusal state.now inc }
{
    if state.instance.is_open {
        Some(Refusal::Rm04 { mounted: false })
    } else if inc == 0 || u64::from(state.catalog.tree().count()) < inc {
        Some(Refusal::Rm07 { inc })
    } else {
        ids_refusal(state)
    }
}

/// RESET DATABASE: another incarnation is the current one, and no point is known. Where all online logs are lost
/// they count as its logs, of the threads that are enabled at its end. An error is want of memory; then nothing is
/// said of the state and the edits.
pub fn reset_database(
    alloc: Global,
    state: &mut State,
    edits: &mut Vec<Edit>,
    inc: u64,
) -> Result<Handed, NoMemory>
    requires sound { IsSound state.old }
    requires accepted { reset_refusal state.old inc ≡ None }
    ensures hands { IfOk result (λ x. (held : Option Held) → Hands held state.old (ResetDatabase inc) x state.new) }
    ensures edits { OnOk result (EditsFollow edits.old.items edits.new.items state.old.catalog state.new.catalog) }
{
    let inc = inc as IncNo;
    let handed = of_line(alloc, Line::Chosen { inc })?;
    let base = BaseEntry {
        current: inc,
        ..state.catalog.base()
    };
    state.catalog.set_base(edits, base)?;
    let enabled = state.catalog.enabled_at(inc, now(state));
    state.instance.point = None;
    state.instance.logs.count_as(inc, enabled);
    Ok(handed)
}
