//! What RECOVER COPY comes to: it looks at what the store holds.
ghost use Rattle.std.specs.Prelude.{◌≡◌, ◌≤◌, None, IfOk, IfSome, IsErrOf, OnOk};
ghost use Rattle.rm_base.specs.Outside.{Rose};
ghost use Rattle.rm_commit.specs.declared.commit.Stop.TheVariants.{StoreFault, KeeperFault};
ghost use Rattle.rm_machine.specs.{Comes.{IsAnswer}, RecoverCopy.{recover_copy_refusal}, Sound.{IsSound}, Step.{IsStatement}};
ghost use Rattle.rm_catalog_typed.specs.Changes.{EditsFollow};
ghost use Rattle.rm_lang_statement.specs.declared.command.Command.TheVariants.{RecoverCopy};

use crate::statement::recover_copy;
use rm_base::{Store, Text};
use rm_catalog::Edit;
use rm_commit::Stop;
use rm_lang_statement::Until;
use rm_machine::{Answer, State, channel_count, stop_of};
use std::alloc::Global;
use std::thread::Threads;

/// What RECOVER COPY comes to that the state does not refuse: it is done, or refused by what the store holds. It goes by so
/// many channels, 1 to 16, or else by as many as are configured. After an error, which is a stop, nothing is said of the
/// state and the edits.
pub fn renew<R: Threads + Sync, D: Store>(
    rt: &R,
    alloc: Global,
    channels: Option<u32>,
    state: &mut State,
    store: &mut D,
    edits: &mut Vec<Edit>,
    tag: &Text,
    until: &Option<Until>,
) -> Result<Answer, Stop>
    requires channels { IfSome channels (λ n. (1 ≤ n) × (n ≤ 16)) }
    requires command { IsStatement (RecoverCopy tag.now until.now) }
    requires sound { IsSound state.old }
    requires accepted { recover_copy_refusal state.old tag.now until.now ≡ None }
    ensures answer { IfOk result (λ a. IsAnswer (D.held store.old) state.old (RecoverCopy tag.now until.now) a state.new) }
    ensures edits { OnOk result (EditsFollow edits.old.items edits.new.items state.old.catalog state.new.catalog) }
    ensures held { D.held store.new ≡ D.held store.old }
    ensures store { IsErrOf result StoreFault → Rose (D.faults store.old) (D.faults store.new) }
    ensures keeper { ¬ IsErrOf result KeeperFault }
    ensures never_falls { D.faults store.old ≤ D.faults store.new }
{
    let channels = channel_count(state, channels);
    match recover_copy(
        rt,
        alloc,
        channels,
        state,
        store,
        edits,
        tag.as_str(),
        until,
    ) {
        Ok(Ok(handed)) => Ok(Answer::Done(handed)),
        Ok(Err(refusal)) => Ok(Answer::Refused(refusal)),
        Err(fault) => Err(stop_of(fault)),
    }
}
