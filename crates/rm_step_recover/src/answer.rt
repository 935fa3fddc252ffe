//! What RESTORE and RECOVER DATABASE come to, and what only tells of them: they look at what the store holds.
ghost use Rattle.std.specs.Prelude.{◌≡◌, ◌≤◌, None, IfOk, IfSome, IsErrOf};
ghost use Rattle.rm_base.specs.Outside.{Rose};
ghost use Rattle.rm_commit.specs.declared.commit.Stop.TheVariants.{StoreFault, KeeperFault};
ghost use Rattle.rm_lang_statement.specs.declared.command.Command.TheVariants.{Preview, Recover, RecoverTest, Restore};
ghost use Rattle.rm_machine.specs.{Recover.{recover_refusal}, RecoverTest.{test_refusal}, Restore.{preview_refusal, restore_refusal}};
ghost use Rattle.rm_machine.specs.{Comes.{IsAnswer}, Sound.{IsSound}};

use crate::{previewing, recovery, recovery_test, restoring};
use rm_base::Store;
use rm_commit::Stop;
use rm_lang_statement::Until;
use rm_machine::{Answer, State, channel_count, stop_of};
use std::alloc::Global;
use std::thread::Threads;

/// What RECOVER DATABASE comes to that the state does not refuse: it is done, or refused with the first gap. The
/// catalog stays. It goes by so many channels, 1 to 16, or else by as many as are configured. After an error, which is
/// a stop, nothing changed.
#[tactic(auto, using(crate::proofs::Ids::recover_ids))]
pub fn recover<R: Threads + Sync, D: Store>(
    rt: &R,
    alloc: Global,
    channels: Option<u32>,
    state: &mut State,
    store: &mut D,
    until: &Option<Until>,
) -> Result<Answer, Stop>
    requires channels { IfSome channels (λ n. (1 ≤ n) × (n ≤ 16)) }
    requires sound { IsSound state.old }
    requires accepted { recover_refusal state.old until.now ≡ None }
    ensures answer { IfOk result (λ a. IsAnswer (D.held store.old) state.old (Recover until.now) a state.new) }
    ensures catalog { state.new.catalog ≡ state.old.catalog }
    ensures held { D.held store.new ≡ D.held store.old }
    ensures store { IsErrOf result StoreFault → Rose (D.faults store.old) (D.faults store.new) }
    ensures keeper { ¬ IsErrOf result KeeperFault }
    ensures never_falls { D.faults store.old ≤ D.faults store.new }
{
    let channels = channel_count(state, channels);
    match recovery::recover(rt, alloc, channels, state, store, until) {
        Ok(Ok(handed)) => Ok(Answer::Done(handed)),
        Ok(Err(refusal)) => Ok(Answer::Refused(refusal)),
        Err(fault) => Err(stop_of(fault)),
    }
}

/// What RECOVER DATABASE TEST comes to that the state does not refuse: it tells, or is refused with the first gap. It
/// goes by so many channels, 1 to 16, or else by as many as are configured. An error is a stop.
pub fn recover_test<R: Threads + Sync, D: Store>(
    rt: &R,
    alloc: Global,
    channels: Option<u32>,
    state: &State,
    store: &mut D,
    until: &Option<Until>,
    inc: Option<u64>,
) -> Result<Answer, Stop>
    requires channels { IfSome channels (λ n. (1 ≤ n) × (n ≤ 16)) }
    requires sound { IsSound state.now }
    requires accepted { test_refusal state.now until.now inc ≡ None }
    ensures answer { IfOk result (λ a. IsAnswer (D.held store.old) state.now (RecoverTest until.now inc) a state.now) }
    ensures held { D.held store.new ≡ D.held store.old }
    ensures store { IsErrOf result StoreFault → Rose (D.faults store.old) (D.faults store.new) }
    ensures keeper { ¬ IsErrOf result KeeperFault }
    ensures never_falls { D.faults store.old ≤ D.faults store.new }
{
    let channels = channel_count(state, channels);
    match recovery_test::recover_test(rt, alloc, channels, state, store, until, inc) {
        Ok(Ok(lines)) => Ok(Answer::Told(lines)),
        Ok(Err(refusal)) => Ok(Answer::Refused(refusal)),
        Err(fault) => Err(stop_of(fault)),
    }
}

/// What RESTORE comes to that the state does not refuse: it is done. The catalog stays. It goes by so many channels,
/// 1 to 16, or else by as many as are configured. After an error, which is a stop, nothing changed.
#[tactic(auto, using(crate::proofs::Ids::restore_ids))]
pub fn restore<R: Threads + Sync, D: Store>(
    rt: &R,
    alloc: Global,
    channels: Option<u32>,
    state: &mut State,
    store: &mut D,
    file: Option<u64>,
    until: &Option<Until>,
) -> Result<Answer, Stop>
    requires channels { IfSome channels (λ n. (1 ≤ n) × (n ≤ 16)) }
    requires sound { IsSound state.old }
    requires accepted { restore_refusal state.old file until.now ≡ None }
    ensures answer { IfOk result (λ a. IsAnswer (D.held store.old) state.old (Restore file until.now) a state.new) }
    ensures catalog { state.new.catalog ≡ state.old.catalog }
    ensures held { D.held store.new ≡ D.held store.old }
    ensures store { IsErrOf result StoreFault → Rose (D.faults store.old) (D.faults store.new) }
    ensures keeper { ¬ IsErrOf result KeeperFault }
    ensures never_falls { D.faults store.old ≤ D.faults store.new }
{
    let channels = channel_count(state, channels);
    match restoring::restore(rt, alloc, channels, state, store, file, until) {
        Ok(handed) => Ok(Answer::Done(handed)),
        Err(fault) => Err(stop_of(fault)),
    }
}

/// What RESTORE PREVIEW comes to that the state does not refuse: it tells. It goes by so many channels, 1 to 16, or else
/// by as many as are configured. An error is a stop.
pub fn preview<R: Threads + Sync, D: Store>(
    rt: &R,
    alloc: Global,
    channels: Option<u32>,
    state: &State,
    store: &mut D,
    until: &Option<Until>,
) -> Result<Answer, Stop>
    requires channels { IfSome channels (λ n. (1 ≤ n) × (n ≤ 16)) }
    requires sound { IsSound state.now }
    requires accepted { preview_refusal state.now until.now ≡ None }
    ensures answer { IfOk result (λ a. IsAnswer (D.held store.old) state.now (Preview until.now) a state.now) }
    ensures held { D.held store.new ≡ D.held store.old }
    ensures store { IsErrOf result StoreFault → Rose (D.faults store.old) (D.faults store.new) }
    ensures keeper { ¬ IsErrOf result KeeperFault }
    ensures never_falls { D.faults store.old ≤ D.faults store.new }
{
    let channels = channel_count(state, channels);
    match previewing::preview(rt, alloc, channels, state, store, until) {
        Ok(lines) => Ok(Answer::Told(lines)),
        Err(fault) => Err(stop_of(fault)),
    }
}
