//! What BLOCKRECOVER comes to: it looks at what the store holds.
ghost use Rattle.std.specs.Prelude.{◌≡◌, ◌≤◌, None, IfOk, IsErrOf, OnOk};
ghost use Rattle.rm_base.specs.Outside.{Rose};
ghost use Rattle.rm_commit.specs.declared.commit.Stop.TheVariants.{StoreFault, KeeperFault};
ghost use Rattle.rm_machine.specs.{BlockRecoverRefusal.{repair_refusal}, Comes.{IsAnswer}, Sound.{IsSound}, Step.{IsStatement}};
ghost use Rattle.rm_catalog_typed.specs.Changes.{EditsFollow};
ghost use Rattle.rm_lang_statement.specs.declared.command.Command.TheVariants.{BlockRecover};

use crate::statement::block_recover;
use rm_base::Store;
use rm_catalog::Edit;
use rm_commit::Stop;
use rm_lang_statement::RepairForm;
use rm_machine::{Answer, State, stop_of};
use std::alloc::Global;
use std::sync::Wait;
use std::thread::Threads;

/// What BLOCKRECOVER comes to that the state does not refuse: it is done, or refused with the first gap. After an error,
/// which is a stop, nothing is said of the state and the edits.
#[tactic(auto, using(crate::proofs::Ids::repair_ids))]
pub fn mend<R: Threads + Wait + Sync, D: Store>(
    rt: &R,
    alloc: Global,
    state: &mut State,
    store: &mut D,
    edits: &mut Vec<Edit>,
    form: &RepairForm,
) -> Result<Answer, Stop>
    requires command { IsStatement (BlockRecover form.now) }
    requires sound { IsSound state.old }
    requires accepted { repair_refusal state.old form.now ≡ None }
    ensures answer { IfOk result (λ a. IsAnswer (D.held store.old) state.old (BlockRecover form.now) a state.new) }
    ensures edits { OnOk result (EditsFollow edits.old.items edits.new.items state.old.catalog state.new.catalog) }
    ensures held { D.held store.new ≡ D.held store.old }
    ensures store { IsErrOf result StoreFault → Rose (D.faults store.old) (D.faults store.new) }
    ensures keeper { ¬ IsErrOf result KeeperFault }
    ensures never_falls { D.faults store.old ≤ D.faults store.new }
{
    match block_recover(rt, alloc, state, store, edits, form) {
        Ok(Ok(handed)) => Ok(Answer::Done(handed)),
        Ok(Err(refusal)) => Ok(Answer::Refused(refusal)),
        Err(fault) => Err(stop_of(fault)),
    }
}
