//! What CROSSCHECK and CATALOG come to: they look at objects, one after another.
ghost use Rattle.std.specs.Prelude.{◌≡◌, ◌≤◌, None, IfOk, IsErrOf, OnOk};
ghost use Rattle.rm_base.specs.Outside.{Rose};
ghost use Rattle.rm_commit.specs.declared.commit.Stop.TheVariants.{StoreFault, KeeperFault};
ghost use Rattle.rm_machine.specs.{Comes.{IsAnswer}, Marks.{ids_refusal}, Nature.{nature_of}, Sound.{IsSound}};
ghost use Rattle.rm_machine.specs.declared.nature.Nature.TheVariants.{Records};
ghost use Rattle.rm_catalog_typed.specs.Changes.{EditsFollow};
ghost use Rattle.rm_lang_statement.specs.declared.command.Command.TheVariants.{Crosscheck};

use crate::cataloguing::catalog;
use crate::crosschecking::crosscheck;
use rm_base::{Class, Store};
use rm_catalog::Edit;
use rm_commit::Stop;
use rm_lang_statement::Command;
use rm_machine::{Answer, State, stop_of};
use std::alloc::Global;

/// What CROSSCHECK comes to that the state does not refuse: it is done. After an error, which is a stop, nothing is
/// said of the state and the edits.
pub fn check<D: Store>(
    alloc: Global,
    state: &mut State,
    store: &mut D,
    edits: &mut Vec<Edit>,
    class: Class,
) -> Result<Answer, Stop>
    requires sound { IsSound state.old }
    requires accepted { ids_refusal state.old ≡ None }
    ensures answer { IfOk result (λ a. IsAnswer (D.held store.old) state.old (Crosscheck class) a state.new) }
    ensures edits { OnOk result (EditsFollow edits.old.items edits.new.items state.old.catalog state.new.catalog) }
    ensures held { D.held store.new ≡ D.held store.old }
    ensures store { IsErrOf result StoreFault → Rose (D.faults store.old) (D.faults store.new) }
    ensures keeper { ¬ IsErrOf result KeeperFault }
    ensures never_falls { D.faults store.old ≤ D.faults store.new }
{
    match crosscheck(alloc, state, store, edits, class) {
        Ok(handed) => Ok(Answer::Done(handed)),
        Err(fault) => Err(stop_of(fault)),
    }
}

/// What CATALOG comes to: it is done, or refused by what the store holds. After an error, which is a stop, nothing is said of the
/// state and the edits.
pub fn record<D: Store>(
    alloc: Global,
    state: &mut State,
    store: &mut D,
    edits: &mut Vec<Edit>,
    command: &Command,
) -> Result<Answer, Stop>
    requires nature { nature_of command.now ≡ Records }
    requires sound { IsSound state.old }
    requires unsaved { state.old.catalog.saved ≡ None }
    ensures answer { IfOk result (λ a. IsAnswer (D.held store.old) state.old command.now a state.new) }
    ensures edits { OnOk result (EditsFollow edits.old.items edits.new.items state.old.catalog state.new.catalog) }
    ensures held { D.held store.new ≡ D.held store.old }
    ensures store { IsErrOf result StoreFault → Rose (D.faults store.old) (D.faults store.new) }
    ensures keeper { ¬ IsErrOf result KeeperFault }
    ensures never_falls { D.faults store.old ≤ D.faults store.new }
{
    let Command::CatalogName { name } = command else {
        unreachable!()
    };
    match catalog(alloc, state, store, edits, name)? {
        Ok(handed) => Ok(Answer::Done(handed)),
        Err(refusal) => Ok(Answer::Refused(refusal)),
    }
}
