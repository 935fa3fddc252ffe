//! What a statement comes to, where there is a database.
ghost use Rattle.std.specs.Prelude.{◌≡◌, ◌≤◌, true, Option, None, IfOk, IsTrue, IsErrOf, OnOk, IfSome};
ghost use Rattle.rm_base.specs.{Outside.{Rose}, Store.{Held}};
ghost use Rattle.rm_commit.specs.declared.commit.Stop.TheVariants.{StoreFault, KeeperFault};
ghost use Rattle.rm_catalog_typed.specs.Changes.{EditsFollow};
ghost use Rattle.rm_machine.specs.{Built.{is_built}, Comes.{AnswersPlainly, ComesTo, DoesMore, HadIds, IsAnswer, IsRefusedBy}};
ghost use Rattle.rm_machine.specs.{Nature.{by_state, nature_of}, Sound.{IsSound}, Step.{IsStatement, refusal_of}};
ghost use Rattle.rm_machine.specs.declared.nature.Nature.TheVariants.{ChangesByHeld, TellsHeld, TestsHeld, TriesByHeld};

use crate::changing::change;
use crate::refusing::refusal_of;
use rm_base::Store;
use rm_catalog::Edit;
use rm_channel::Gate;
use rm_commit::Stop;
use rm_lang_statement::Command;
use rm_machine::{Answer, Nature, State, nature_of};
use std::alloc::Global;
use std::sync::Wait;
use std::thread::Threads;

// What a statement comes to that tells of what the store has, and that the state does not refuse.
fn tell_held<R: Threads + Sync, D: Store>(
    rt: &R,
    alloc: Global,
    channels: Option<u32>,
    state: &State,
    store: &mut D,
    command: &Command,
) -> Result<Answer, Stop>
    requires channels { IfSome channels (λ n. (1 ≤ n) × (n ≤ 16)) }
    requires nature { nature_of command.now ≡ TellsHeld }
    requires sound { IsSound state.now }
    requires accepted { refusal_of state.now command.now ≡ None }
    ensures answer { IfOk result (λ a. IsAnswer (D.held store.old) state.now command.now a state.now) }
    ensures held { D.held store.new ≡ D.held store.old }
    ensures store { IsErrOf result StoreFault → Rose (D.faults store.old) (D.faults store.new) }
    ensures keeper { ¬ IsErrOf result KeeperFault }
    ensures never_falls { D.faults store.old ≤ D.faults store.new }
{
    match command {
        Command::Preview { until } => {
            rm_step_recover::answer::preview(rt, alloc, channels, state, store, until)
        }
        Command::ValidateAll => rm_step_tell::answer::validate(rt, alloc, channels, state, store),
        Command::ReportObsolete => rm_step_retain::answer::tell_obsolete(
            rt, alloc, channels, state, store,
        ),
        Command::ReportNeedBackup => rm_step_retain::answer::tell_needs(
            rt, alloc, channels, state, store,
        ),
        _ => unreachable!(),
    }
}

// The same of one that what the store has may refuse too.
fn test_held<R: Threads + Sync, D: Store>(
    rt: &R,
    alloc: Global,
    channels: Option<u32>,
    state: &State,
    store: &mut D,
    command: &Command,
) -> Result<Answer, Stop>
    requires channels { IfSome channels (λ n. (1 ≤ n) × (n ≤ 16)) }
    requires nature { nature_of command.now ≡ TestsHeld }
    requires sound { IsSound state.now }
    requires accepted { refusal_of state.now command.now ≡ None }
    ensures answer { IfOk result (λ a. IsAnswer (D.held store.old) state.now command.now a state.now) }
    ensures held { D.held store.new ≡ D.held store.old }
    ensures store { IsErrOf result StoreFault → Rose (D.faults store.old) (D.faults store.new) }
    ensures keeper { ¬ IsErrOf result KeeperFault }
    ensures never_falls { D.faults store.old ≤ D.faults store.new }
{
    match command {
        Command::RecoverTest { until, inc } => {
            rm_step_recover::answer::recover_test(rt, alloc, channels, state, store, until, *inc)
        }
        _ => unreachable!(),
    }
}

// What a statement comes to that changes the database by what the store has, and that the state does not refuse.
fn change_by_held<R: Threads + Sync, D: Store>(
    rt: &R,
    alloc: Global,
    channels: Option<u32>,
    state: &mut State,
    store: &mut D,
    edits: &mut Vec<Edit>,
    command: &Command,
) -> Result<Answer, Stop>
    requires channels { IfSome channels (λ n. (1 ≤ n) × (n ≤ 16)) }
    requires nature { nature_of command.now ≡ ChangesByHeld }
    requires sound { IsSound state.old }
    requires accepted { refusal_of state.old command.now ≡ None }
    ensures answer { IfOk result (λ a. IsAnswer (D.held store.old) state.old command.now a state.new) }
    ensures edits { OnOk result (EditsFollow edits.old.items edits.new.items state.old.catalog state.new.catalog) }
    ensures held { D.held store.new ≡ D.held store.old }
    ensures store { IsErrOf result StoreFault → Rose (D.faults store.old) (D.faults store.new) }
    ensures keeper { ¬ IsErrOf result KeeperFault }
    ensures never_falls { D.faults store.old ≤ D.faults store.new }
{
    match command {
        Command::Restore { file, until } => rm_step_recover::answer::restore(
            rt, alloc, channels, state, store, *file, until,
        ),
        Command::Crosscheck { class } => rm_step_upkeep::answer::check(
            alloc, state, store, edits, *class,
        ),
        Command::DeleteObsolete => rm_step_retain::answer::clear(
            rt, alloc, channels, state, store, edits,
        ),
        _ => unreachable!(),
    }
}

// The same of one that what the store has may refuse too.
fn try_by_held<R: Threads + Wait + Sync, D: Store>(
    rt: &R,
    alloc: Global,
    channels: Option<u32>,
    state: &mut State,
    store: &mut D,
    edits: &mut Vec<Edit>,
    command: &Command,
) -> Result<Answer, Stop>
    requires channels { IfSome channels (λ n. (1 ≤ n) × (n ≤ 16)) }
    requires command { IsStatement command.now }
    requires nature { nature_of command.now ≡ TriesByHeld }
    requires sound { IsSound state.old }
    requires accepted { refusal_of state.old command.now ≡ None }
    ensures answer { IfOk result (λ a. IsAnswer (D.held store.old) state.old command.now a state.new) }
    ensures edits { OnOk result (EditsFollow edits.old.items edits.new.items state.old.catalog state.new.catalog) }
    ensures held { D.held store.new ≡ D.held store.old }
    ensures store { IsErrOf result StoreFault → Rose (D.faults store.old) (D.faults store.new) }
    ensures keeper { ¬ IsErrOf result KeeperFault }
    ensures never_falls { D.faults store.old ≤ D.faults store.new }
{
    match command {
        Command::Recover { until } => rm_step_recover::answer::recover(
            rt, alloc, channels, state, store, until,
        ),
        Command::RecoverCopy { tag, until } => rm_step_copies::answer::renew(
            rt, alloc, channels, state, store, edits, tag, until,
        ),
        Command::BackupLogs => rm_step_backup::answer::back_up_logs(alloc, state, store, edits),
        Command::BlockRecover(form) => rm_step_repair::answer::mend(
            rt, alloc, state, store, edits, form,
        ),
        _ => unreachable!(),
    }
}

// What a statement comes to that the state does not refuse.
fn accepted<R: Threads + Wait + Sync, G: Gate, D: Store>(
    rt: &R,
    alloc: Global,
    gate: &G,
    channels: Option<u32>,
    state: &mut State,
    store: &mut D,
    edits: &mut Vec<Edit>,
    command: &Command,
) -> Result<Answer, Stop>
    requires channels { IfSome channels (λ n. (1 ≤ n) × (n ≤ 16)) }
    requires command { IsStatement command.now }
    requires built { IsTrue (is_built command.now) }
    requires sound { IsSound state.old }
    requires unsaved { state.old.catalog.saved ≡ None }
    requires accepted { refusal_of state.old command.now ≡ None }
    ensures answer { IfOk result (λ a. IsAnswer (D.held store.old) state.old command.now a state.new) }
    ensures by_state { IfOk result (λ a. by_state (nature_of command.now) ≡ true → (held : Option Held) → ComesTo held state.old command.now a state.new) }
    ensures edits { OnOk result (EditsFollow edits.old.items edits.new.items state.old.catalog state.new.catalog) }
    ensures held { D.held store.new ≡ D.held store.old }
    ensures store { IsErrOf result StoreFault → Rose (D.faults store.old) (D.faults store.new) }
    ensures keeper { ¬ IsErrOf result KeeperFault }
    ensures never_falls { D.faults store.old ≤ D.faults store.new }
{
    match nature_of(command) {
        Nature::Unbuilt => unreachable!(),
        Nature::TellsState => Ok(rm_step_tell::answer::tell(alloc, state, command)?),
        Nature::TellsHeld => tell_held(rt, alloc, channels, state, store, command),
        Nature::TestsHeld => test_held(rt, alloc, channels, state, store, command),
        Nature::Changes => Ok(Answer::Done(change(
            rt, alloc, gate, channels, state, edits, command,
        )?)),
        Nature::ChangesByHeld => {
            change_by_held(rt, alloc, channels, state, store, edits, command)
        }
        Nature::TriesByHeld => try_by_held(rt, alloc, channels, state, store, edits, command),
        Nature::Records => rm_step_upkeep::answer::record(alloc, state, store, edits, command),
        Nature::Mishap => rm_step_host::answer::mishap(alloc, state, store, command),
    }
}

/// What a statement comes to; one that goes by the state alone does so whatever the store has. It begins at its moment, and no
/// site is saved. The state refuses it exactly where `refusal_of` says so. After an error, which is a stop, nothing is said of
/// the state and the edits.
pub(crate) fn come_to<R: Threads + Wait + Sync, G: Gate, D: Store>(
    rt: &R,
    alloc: Global,
    gate: &G,
    channels: Option<u32>,
    state: &mut State,
    store: &mut D,
    edits: &mut Vec<Edit>,
    command: &Command,
) -> Result<Answer, Stop>
    requires channels { IfSome channels (λ n. (1 ≤ n) × (n ≤ 16)) }
    requires command { IsStatement command.now }
    requires built { IsTrue (is_built command.now) }
    requires sound { IsSound state.old }
    requires unsaved { state.old.catalog.saved ≡ None }
    ensures comes { IfOk result (λ a. ComesTo (D.held store.old) state.old command.now a state.new) }
    ensures by_state { IfOk result (λ a. by_state (nature_of command.now) ≡ true → (held : Option Held) → ComesTo held state.old command.now a state.new) }
    ensures refused { IfOk result (IsRefusedBy (refusal_of state.old command.now) command.now) }
    ensures edits { OnOk result (EditsFollow edits.old.items edits.new.items state.old.catalog state.new.catalog) }
    ensures sound { OnOk result (IsSound state.new) }
    ensures dates { IfOk result AnswersPlainly }
    ensures more { IfOk result (DoesMore command.now) }
    ensures ids { IfOk result (HadIds state.old) }
    ensures held { D.held store.new ≡ D.held store.old }
    ensures store { IsErrOf result StoreFault → Rose (D.faults store.old) (D.faults store.new) }
    ensures keeper { ¬ IsErrOf result KeeperFault }
    ensures never_falls { D.faults store.old ≤ D.faults store.new }
{
    if let Some(refusal) = refusal_of(alloc, state, command)? {
        return Ok(Answer::Refused(refusal));
    }
    accepted(rt, alloc, gate, channels, state, store, edits, command)
}
