//! CROSSCHECK
ghost use Rattle.std.specs.Prelude.{◌≡◌, ◌≤◌, All, IfOk, IsErrOf, OnOk, map};
ghost use Rattle.rm_base.specs.Outside.{Rose};
ghost use Rattle.rm_report.specs.Reply.{IsPlain};
ghost use Rattle.rm_lang_statement.specs.declared.command.Command.TheVariants.{Crosscheck};
ghost use Rattle.rm_machine.specs.{Hands.{Hands}, Sound.{IsSound}, Upkeep.{with_catalog, with_statuses}};
ghost use Rattle.rm_catalog_typed.specs.Changes.{EditsFollow};
ghost use Rattle.rm_step_upkeep.specs.Lines.{status_line};

use crate::amending::{Amendment, amend};
use rm_base::{Class, NoMemory, Seq, Status, Store};
use rm_catalog::Edit;
use rm_evidence::EvidenceFault;
use rm_machine::recorded::records_of;
use rm_machine::{Handed, State};
use rm_report::Line;
use std::alloc::Global;

// Gives each record of these ids its status, one after another, and tells it.
fn set_all(
    alloc: Global,
    state: &mut State,
    edits: &mut Vec<Edit>,
    statuses: &[(u32, Status)],
) -> Result<Seq<Line>, NoMemory>
    requires sound { IsSound state.old }
    ensures lines { IfOk result (λ lines. lines ≡ map status_line statuses.now) }
    ensures value { OnOk result (state.new ≡ with_catalog state.old (with_statuses statuses.now state.old.catalog)) }
    ensures edits { OnOk result (EditsFollow edits.old.items edits.new.items state.old.catalog state.new.catalog) }
    ensures sound { OnOk result (IsSound state.new) }
{
    let mut lines = Seq::new(alloc);
    for (id, status) in statuses {
        let (id, status) = (*id, *status);
        amend(alloc, state, edits, id, Amendment::Status(status))?;
        lines.push(Line::StatusOf { id, status })?;
    }
    Ok(lines)
}

/// CROSSCHECK: each record of the class gets the status that a crosscheck finds: UNAVAILABLE stays so; else it is
/// AVAILABLE where an object stands under its name, and EXPIRED where none does. A line tells each, ascending by id. An
/// error is a fault of the store, which is counted, or want of memory; then nothing is said of the state and the edits.
pub fn crosscheck<D: Store>(
    alloc: Global,
    state: &mut State,
    store: &mut D,
    edits: &mut Vec<Edit>,
    class: Class,
) -> Result<Handed, EvidenceFault>
    requires sound { IsSound state.old }
    ensures hands { IfOk result (λ x. Hands (D.held store.old) state.old (Crosscheck class) x state.new) }
    ensures edits { OnOk result (EditsFollow edits.old.items edits.new.items state.old.catalog state.new.catalog) }
    ensures sound { OnOk result (IsSound state.new) }
    ensures dates { IfOk result (λ x. All IsPlain x.lines) }
    ensures same { D.held store.new ≡ D.held store.old }
    ensures store { IsErrOf result EvidenceFault.StoreFault → Rose (D.faults store.old) (D.faults store.new) }
    ensures never_falls { D.faults store.old ≤ D.faults store.new }
{
    let records = records_of(alloc, state)?;
    let checked = rm_verify::crosscheck(alloc, &records, store, class)?;
    let lines = set_all(alloc, state, edits, checked.as_slice())?;
    Ok(Handed {
        lines,
        objects: Seq::new(alloc),
        removes: Seq::new(alloc),
    })
}
