//! What BACKUP ARCHIVELOG ALL comes to: it looks at the objects of records, one after another.
ghost use Rattle.std.specs.Prelude.{◌≡◌, ◌≤◌, IfOk, IsErrOf, OnOk};
ghost use Rattle.rm_base.specs.Outside.{Rose};
ghost use Rattle.rm_commit.specs.declared.commit.Stop.TheVariants.{StoreFault, KeeperFault};
ghost use Rattle.rm_machine.specs.{Comes.{IsAnswer}, Sound.{IsSound}};
ghost use Rattle.rm_catalog_typed.specs.Changes.{EditsFollow};
ghost use Rattle.rm_lang_statement.specs.declared.command.Command.TheVariants.{BackupLogs};

use crate::logs::backup_logs;
use rm_base::Store;
use rm_catalog::Edit;
use rm_commit::Stop;
use rm_machine::{Answer, State, stop_of};
use std::alloc::Global;

/// What BACKUP ARCHIVELOG ALL comes to that the state does not refuse: it is done, or refused by what the store holds.
/// After an error, which is a stop, nothing is said of the state and the edits.
pub fn back_up_logs<D: Store>(
    alloc: Global,
    state: &mut State,
    store: &mut D,
    edits: &mut Vec<Edit>,
) -> Result<Answer, Stop>
    requires sound { IsSound state.old }
    ensures answer { IfOk result (λ a. IsAnswer (D.held store.old) state.old BackupLogs a state.new) }
    ensures edits { OnOk result (EditsFollow edits.old.items edits.new.items state.old.catalog state.new.catalog) }
    ensures held { D.held store.new ≡ D.held store.old }
    ensures store { IsErrOf result StoreFault → Rose (D.faults store.old) (D.faults store.new) }
    ensures keeper { ¬ IsErrOf result KeeperFault }
    ensures never_falls { D.faults store.old ≤ D.faults store.new }
{
    match backup_logs(alloc, state, store, edits) {
        Ok(Ok(handed)) => Ok(Answer::Done(handed)),
        Ok(Err(refusal)) => Ok(Answer::Refused(refusal)),
        Err(fault) => Err(stop_of(fault)),
    }
}
