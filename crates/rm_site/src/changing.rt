//! The statements that change the state, and look at nothing else.
ghost use Rattle.std.specs.Prelude.{◌≡◌, Option, None, IfOk, OnOk, ◌≤◌, IfSome};
ghost use Rattle.rm_base.specs.Store.{Held};
ghost use Rattle.rm_machine.specs.{Hands.{Hands}, Nature.{nature_of}, Sound.{IsSound}, Step.{IsStatement, refusal_of}};
ghost use Rattle.rm_machine.specs.declared.nature.Nature.TheVariants.{Changes};
ghost use Rattle.rm_catalog_typed.specs.Changes.{EditsFollow};

use rm_base::NoMemory;
use rm_catalog::Edit;
use rm_channel::Gate;
use rm_lang_statement::Command;
use rm_machine::{Handed, State, channel_count};
use std::alloc::Global;
use std::sync::Wait;
use std::thread::Threads;

/// What a statement hands out that changes the state, and that the state does not refuse. An error is want of
/// memory; then nothing is said of the state and the edits.
pub(crate) fn change<R: Threads + Wait + Sync, G: Gate>(
    rt: &R,
    alloc: Global,
    gate: &G,
    channels: Option<u32>,
    state: &mut State,
    edits: &mut Vec<Edit>,
    command: &Command,
) -> Result<Handed, NoMemory>
    requires channels { IfSome channels (λ n. (1 ≤ n) × (n ≤ 16)) }
    requires command { IsStatement command.now }
    requires nature { nature_of command.now ≡ Changes }
    requires sound { IsSound state.old }
    requires accepted { refusal_of state.old command.now ≡ None }
    ensures hands { IfOk result (λ x. (held : Option Held) → Hands held state.old command.now x state.new) }
    ensures edits { OnOk result (EditsFollow edits.old.items edits.new.items state.old.catalog state.new.catalog) }
{
    match command {
        Command::CreateDatafile { blocks } => rm_step_write::create_datafile(
            alloc, state, edits, *blocks,
        ),
        Command::Write(form) => rm_step_write::write(alloc, state, edits, form),
        Command::SwitchLogfile { thread } => rm_step_open::switch_logfile(
            alloc, state, edits, *thread,
        ),
        Command::ArchiveLogCurrent => rm_step_open::archive_log_current(alloc, state, edits),
        Command::Backup(form) => {
            let channels = channel_count(state, channels);
            rm_step_backup::backup(rt, alloc, gate, channels, state, edits, form)
        }
        Command::BackupFrom { scn } => rm_step_backup::roll(alloc, state, edits, *scn),
        Command::Mount => rm_step_open::mount(alloc, state),
        Command::OpenPlain => rm_step_open::open(alloc, state),
        Command::OpenResetlogs => rm_step_open::open_resetlogs(alloc, state, edits),
        Command::ResetDatabase { inc } => rm_step_open::reset_database(alloc, state, edits, *inc),
        Command::ChangeBackup { id, to } => rm_step_upkeep::change_backup(
            alloc, state, edits, *id, *to,
        ),
        Command::DeleteBackup { id } => rm_step_upkeep::delete_backup(alloc, state, edits, *id),
        Command::DeleteExpired { class } => rm_step_upkeep::delete_expired(
            alloc, state, edits, *class,
        ),
        Command::Retention(form) => rm_step_upkeep::configure_retention(alloc, state, edits, *form),
        Command::Parallelism { channels } => rm_step_upkeep::configure_parallelism(
            alloc, state, edits, *channels,
        ),
        Command::Tracking { on } => rm_step_upkeep::track_changes(alloc, state, edits, *on),
        Command::SwitchThread { thread, on: true } => rm_step_open::enable_thread(
            alloc, state, edits, *thread,
        ),
        Command::SwitchThread { thread, on: false } => rm_step_open::disable_thread(
            alloc, state, edits, *thread,
        ),
        Command::LoseDatafile { file } => rm_step_host::lose_datafile(alloc, state, *file),
        Command::LoseLog { thread } => rm_step_host::lose_log(alloc, state, *thread),
        Command::Corrupt { file, block } => rm_step_host::corrupt(alloc, state, *file, *block),
        _ => unreachable!(),
    }
}
