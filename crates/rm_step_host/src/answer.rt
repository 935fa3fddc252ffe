//! What HOST REMOVE, DAMAGE, CUT and RENAME come to: they look at what the store holds, and change nothing but objects.
ghost use Rattle.std.specs.Prelude.{◌≡◌, ◌≤◌, None, IfOk, IsErrOf};
ghost use Rattle.rm_base.specs.Outside.{Rose};
ghost use Rattle.rm_commit.specs.declared.commit.Stop.TheVariants.{StoreFault, KeeperFault};
ghost use Rattle.rm_machine.specs.{Comes.{IsAnswer}, Nature.{nature_of}, Sound.{IsSound}, Step.{refusal_of}};
ghost use Rattle.rm_machine.specs.declared.nature.Nature.TheVariants.{Mishap};

use crate::objects::{cut, damage, remove, rename};
use rm_base::Store;
use rm_commit::Stop;
use rm_lang_statement::Command;
use rm_machine::{Answer, State};
use std::alloc::Global;

/// What a mishap of an object comes to that the state does not refuse: it is done, or refused by what the store holds.
/// The state stays. An error is a stop.
#[tactic(auto, using(crate::proofs::Mishaps::mishap_does, crate::proofs::Mishaps::mishap_ids))]
pub fn mishap<D: Store>(
    alloc: Global,
    state: &State,
    store: &mut D,
    command: &Command,
) -> Result<Answer, Stop>
    requires nature { nature_of command.now ≡ Mishap }
    requires sound { IsSound state.now }
    requires accepted { refusal_of state.now command.now ≡ None }
    ensures answer { IfOk result (λ a. IsAnswer (D.held store.old) state.now command.now a state.now) }
    ensures held { D.held store.new ≡ D.held store.old }
    ensures store { IsErrOf result StoreFault → Rose (D.faults store.old) (D.faults store.new) }
    ensures keeper { ¬ IsErrOf result KeeperFault }
    ensures never_falls { D.faults store.old ≤ D.faults store.new }
{
    let came = match command {
        Command::Remove { name } => remove(alloc, state, store, name),
        Command::Damage { name, at } => damage(alloc, state, store, name, *at),
        Command::Cut { name, to } => cut(alloc, state, store, name, *to),
        Command::Rename { old, new_name } => rename(alloc, state, store, old, new_name),
        _ => unreachable!(),
    };
    match came? {
        Ok(handed) => Ok(Answer::Done(handed)),
        Err(refusal) => Ok(Answer::Refused(refusal)),
    }
}
