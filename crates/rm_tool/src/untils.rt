//! The until of a RUN in the commands that take one.
ghost use Rattle.std.specs.{Prelude.{◌≡◌, IfOk}, Option.{option_or}};
ghost use Rattle.rm_tool.specs.Block.{with_until};

use rm_base::{NoMemory, Text};
use rm_lang::{Command, Until};
use std::alloc::Global;

// A copy of the until.
fn copied(alloc: Global, until: &Until) -> Result<Until, NoMemory>
    ensures { IfOk result (λ copy. copy ≡ until.now) }
{
    match until {
        Until::Scn(scn) => Ok(Until::Scn(*scn)),
        Until::Sequence { sequence, thread } => Ok(Until::Sequence {
            sequence: *sequence,
            thread: *thread,
        }),
        Until::Time(text) => {
            let copy = String::from_str(alloc, text.as_str())?;
            Ok(Until::Time(Text::from_string(copy)))
        }
    }
}

// The until of a command, else a copy of the one that is set.
fn or_set(alloc: Global, own: Option<Until>, set: &Option<Until>) -> Result<Option<Until>, NoMemory>
    ensures { IfOk result (λ until. until ≡ option_or own set.now) }
{
    match own {
        Some(until) => Ok(Some(until)),
        None => match set {
            Some(until) => Ok(Some(copied(alloc, until)?)),
            None => Ok(None),
        },
    }
}

/// The command with the until that is set, if it takes one and has none.
pub fn with_until(alloc: Global, set: &Option<Until>, command: Command) -> Result<Command, NoMemory>
    ensures { IfOk result (λ c. c ≡ with_until set.now command) }
{
    match command {
        Command::Restore { file, until } => Ok(Command::Restore {
            file,
            until: or_set(alloc, until, set)?,
        }),
        Command::Preview { until } => Ok(Command::Preview {
            until: or_set(alloc, until, set)?,
        }),
        Command::Recover { until } => Ok(Command::Recover {
            until: or_set(alloc, until, set)?,
        }),
        Command::RecoverTest { until, inc } => Ok(Command::RecoverTest {
            until: or_set(alloc, until, set)?,
            inc,
        }),
        Command::RecoverCopy { tag, until } => Ok(Command::RecoverCopy {
            tag,
            until: or_set(alloc, until, set)?,
        }),
        Command::CreateDatabase { .. }
        | Command::CreateDatafile { .. }
        | Command::Write(_)
        | Command::SwitchLogfile { .. }
        | Command::ArchiveLogCurrent
        | Command::Mount
        | Command::OpenPlain
        | Command::OpenResetlogs
        | Command::Tracking { .. }
        | Command::SwitchThread { .. }
        | Command::ResetDatabase { .. }
        | Command::Backup(_)
        | Command::BackupLogs
        | Command::BackupFrom { .. }
        | Command::BlockRecover(_)
        | Command::Crosscheck { .. }
        | Command::ValidateAll
        | Command::ChangeBackup { .. }
        | Command::DeleteObsolete
        | Command::DeleteBackup { .. }
        | Command::DeleteExpired { .. }
        | Command::ReportObsolete
        | Command::ReportNeedBackup
        | Command::ReportSchema
        | Command::ListIncarnation
        | Command::ListBackup
        | Command::ListCopy
        | Command::ListArchived
        | Command::ListCorruption
        | Command::ShowAll
        | Command::Dump { .. }
        | Command::Retention(_)
        | Command::Parallelism { .. }
        | Command::CatalogName { .. }
        | Command::LoseDatafile { .. }
        | Command::LoseLog { .. }
        | Command::Corrupt { .. }
        | Command::Remove { .. }
        | Command::Damage { .. }
        | Command::Cut { .. }
        | Command::Rename { .. } => Ok(command),
    }
}
