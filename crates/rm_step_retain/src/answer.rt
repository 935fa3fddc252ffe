//! What REPORT OBSOLETE, REPORT NEED BACKUP and DELETE OBSOLETE come to: they look at what the store holds.
ghost use Rattle.std.specs.Prelude.{◌≡◌, ◌≤◌, None, IfOk, IfSome, IsErrOf, OnOk};
ghost use Rattle.rm_base.specs.Outside.{Rose};
ghost use Rattle.rm_commit.specs.declared.commit.Stop.TheVariants.{StoreFault, KeeperFault};
ghost use Rattle.rm_machine.specs.{Comes.{IsAnswer}, Marks.{ids_refusal}, Sound.{IsSound}};
ghost use Rattle.rm_catalog_typed.specs.Changes.{EditsFollow};
ghost use Rattle.rm_lang_statement.specs.declared.command.Command.TheVariants.{DeleteObsolete, ReportNeedBackup, ReportObsolete};

use crate::deleting::delete_obsolete;
use crate::needing::report_need_backup;
use crate::reporting::report_obsolete;
use rm_base::Store;
use rm_catalog::Edit;
use rm_commit::Stop;
use rm_machine::{Answer, State, channel_count, stop_of};
use std::alloc::Global;
use std::thread::Threads;

/// What REPORT OBSOLETE comes to: it tells. It goes by so many channels, 1 to 16, or else by as many as are configured.
/// An error is a stop.
pub fn tell_obsolete<R: Threads + Sync, D: Store>(
    rt: &R,
    alloc: Global,
    channels: Option<u32>,
    state: &State,
    store: &mut D,
) -> Result<Answer, Stop>
    requires channels { IfSome channels (λ n. (1 ≤ n) × (n ≤ 16)) }
    requires sound { IsSound state.now }
    ensures answer { IfOk result (λ a. IsAnswer (D.held store.old) state.now ReportObsolete a state.now) }
    ensures held { D.held store.new ≡ D.held store.old }
    ensures store { IsErrOf result StoreFault → Rose (D.faults store.old) (D.faults store.new) }
    ensures keeper { ¬ IsErrOf result KeeperFault }
    ensures never_falls { D.faults store.old ≤ D.faults store.new }
{
    let channels = channel_count(state, channels);
    match report_obsolete(rt, alloc, channels, state, store) {
        Ok(lines) => Ok(Answer::Told(lines)),
        Err(fault) => Err(stop_of(fault)),
    }
}

/// What REPORT NEED BACKUP comes to: it tells. It goes by so many channels, 1 to 16, or else by as many as are
/// configured. An error is a stop.
pub fn tell_needs<R: Threads + Sync, D: Store>(
    rt: &R,
    alloc: Global,
    channels: Option<u32>,
    state: &State,
    store: &mut D,
) -> Result<Answer, Stop>
    requires channels { IfSome channels (λ n. (1 ≤ n) × (n ≤ 16)) }
    requires sound { IsSound state.now }
    ensures answer { IfOk result (λ a. IsAnswer (D.held store.old) state.now ReportNeedBackup a state.now) }
    ensures held { D.held store.new ≡ D.held store.old }
    ensures store { IsErrOf result StoreFault → Rose (D.faults store.old) (D.faults store.new) }
    ensures keeper { ¬ IsErrOf result KeeperFault }
    ensures never_falls { D.faults store.old ≤ D.faults store.new }
{
    let channels = channel_count(state, channels);
    match report_need_backup(rt, alloc, channels, state, store) {
        Ok(lines) => Ok(Answer::Told(lines)),
        Err(fault) => Err(stop_of(fault)),
    }
}

/// What DELETE OBSOLETE comes to that the state does not refuse: it is done. It goes by so many channels, 1 to 16, or else
/// by as many as are configured. After an error, which is a stop, nothing is said of the state and the edits.
pub fn clear<R: Threads + Sync, D: Store>(
    rt: &R,
    alloc: Global,
    channels: Option<u32>,
    state: &mut State,
    store: &mut D,
    edits: &mut Vec<Edit>,
) -> Result<Answer, Stop>
    requires channels { IfSome channels (λ n. (1 ≤ n) × (n ≤ 16)) }
    requires sound { IsSound state.old }
    requires accepted { ids_refusal state.old ≡ None }
    ensures answer { IfOk result (λ a. IsAnswer (D.held store.old) state.old DeleteObsolete a state.new) }
    ensures edits { OnOk result (EditsFollow edits.old.items edits.new.items state.old.catalog state.new.catalog) }
    ensures held { D.held store.new ≡ D.held store.old }
    ensures store { IsErrOf result StoreFault → Rose (D.faults store.old) (D.faults store.new) }
    ensures keeper { ¬ IsErrOf result KeeperFault }
    ensures never_falls { D.faults store.old ≤ D.faults store.new }
{
    let channels = channel_count(state, channels);
    match delete_obsolete(rt, alloc, channels, state, store, edits) {
        Ok(handed) => Ok(Answer::Done(handed)),
        Err(fault) => Err(stop_of(fault)),
    }
}
