//! Why the state alone refuses a statement.
ghost use Rattle.std.specs.Prelude.{◌≡◌, IfOk};
ghost use Rattle.rm_machine.specs.{Sound.{IsSound}, Step.{IsStatement, refusal_of}};

use rm_base::{NoMemory, Refusal};
use rm_lang_statement::Command;
use rm_machine::State;
use rm_machine::room::ids_refusal;
use std::alloc::Global;

/// Why the state alone refuses a statement, if it does. Only the text of a tag takes memory.
pub(crate) fn refusal_of(
    alloc: Global,
    state: &State,
    command: &Command,
) -> Result<Option<Refusal>, NoMemory>
    requires command { IsStatement command.now }
    requires sound { IsSound state.now }
    ensures value { IfOk result (λ o. o ≡ refusal_of state.now command.now) }
{
    match command {
        Command::CreateDatabase { .. } => Ok(Some(Refusal::Rm03)),
        Command::CreateDatafile { blocks } => Ok(rm_step_write::datafile_refusal(state, *blocks)),
        Command::Write(form) => Ok(rm_step_write::write_refusal(state, form)),
        Command::Dump { file, block } => Ok(rm_step_tell::dump_refusal(state, *file, *block)),
        Command::SwitchLogfile { thread } => Ok(rm_step_open::switch_refusal(state, *thread)),
        Command::ArchiveLogCurrent => Ok(rm_step_open::archive_all_refusal(state)),
        Command::Backup(form) => Ok(rm_step_backup::backup_refusal(state, form)),
        Command::BackupLogs => Ok(None),
        Command::BackupFrom { scn } => Ok(rm_step_backup::roll_refusal(state, *scn)),
        Command::BlockRecover(form) => Ok(rm_step_repair::repair_refusal(state, form)),
        Command::Mount => Ok(ids_refusal(state)),
        Command::OpenPlain => Ok(rm_step_open::open_refusal(state)),
        Command::OpenResetlogs => Ok(rm_step_open::resetlogs_refusal(state)),
        Command::ResetDatabase { inc } => Ok(rm_step_open::reset_refusal(state, *inc)),
        Command::Restore { file, until } => Ok(rm_step_recover::restore_refusal(
            state, *file, until,
        )),
        Command::Preview { until } => Ok(rm_step_recover::preview_refusal(state, until)),
        Command::Recover { until } => Ok(rm_step_recover::recover_refusal(state, until)),
        Command::RecoverTest { until, inc } => Ok(rm_step_recover::test_refusal(
            state, until, *inc,
        )),
        Command::RecoverCopy { tag, until } => rm_step_copies::recover_copy_refusal(
            alloc,
            state,
            tag.as_str(),
            until,
        ),
        Command::Crosscheck { .. } => Ok(ids_refusal(state)),
        Command::ChangeBackup { id, .. } => Ok(rm_step_upkeep::record_refusal(state, *id)),
        Command::DeleteBackup { id } => Ok(rm_step_upkeep::record_refusal(state, *id)),
        Command::DeleteExpired { .. } => Ok(ids_refusal(state)),
        Command::DeleteObsolete => Ok(ids_refusal(state)),
        Command::Retention(form) => Ok(rm_step_upkeep::retention_refusal(state, *form)),
        Command::Parallelism { channels } => Ok(rm_step_upkeep::parallelism_refusal(
            state, *channels,
        )),
        Command::Tracking { .. } => Ok(ids_refusal(state)),
        Command::SwitchThread { thread, on: true } => Ok(rm_step_open::enable_refusal(
            state, *thread,
        )),
        Command::SwitchThread { thread, on: false } => Ok(rm_step_open::disable_refusal(
            state, *thread,
        )),
        Command::LoseDatafile { file } => Ok(rm_step_host::lose_refusal(state, *file)),
        Command::LoseLog { thread } => Ok(rm_step_host::lose_log_refusal(state, *thread)),
        Command::Corrupt { file, block } => Ok(rm_step_host::corrupt_refusal(state, *file, *block)),
        Command::Remove { .. } => Ok(ids_refusal(state)),
        Command::Damage { .. } => Ok(ids_refusal(state)),
        Command::Cut { .. } => Ok(ids_refusal(state)),
        Command::Rename { .. } => Ok(ids_refusal(state)),
        Command::ValidateAll => Ok(None),
        Command::ReportObsolete => Ok(None),
        Command::ReportNeedBackup => Ok(None),
        Command::ReportSchema => Ok(None),
        Command::ListIncarnation => Ok(None),
        Command::ListBackup => Ok(None),
        Command::ListCopy => Ok(None),
        Command::ListArchived => Ok(None),
        Command::ListCorruption => Ok(None),
        Command::ShowAll => Ok(None),
        Command::CatalogName { .. } => Ok(None),
    }
}
