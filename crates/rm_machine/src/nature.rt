//! The nature of a statement, and what follows of it.
ghost use Rattle.std.specs.Prelude.{◌≡◌};
ghost use Rattle.rm_machine.specs.{Built.{is_built}, Laws.{only_tells}, Nature.{nature_of}};

use rm_lang_statement::Command;

/// What a statement does, and by what.
#[derive(Clone, Copy)]
pub enum Nature {
    /// It has no step yet.
    Unbuilt,
    /// It tells of the state alone.
    TellsState,
    /// It tells of what the store has too.
    TellsHeld,
    /// It tells of what the store has too, which may refuse it.
    TestsHeld,
    /// It makes a database, or changes one by the state alone.
    Changes,
    /// It changes the database by what the store has too.
    ChangesByHeld,
    /// It changes the database by what the store has too, which may refuse it.
    TriesByHeld,
    /// It records an object of which no record tells: what the store has may refuse it.
    Records,
    /// It is a mishap of an object, whose name it gives: what the store has may refuse it.
    Mishap,
}

/// The nature of a statement. It takes no memory.
pub fn nature_of(command: &Command) -> Nature
    ensures { result ≡ nature_of command.now }
{
    match command {
        Command::CreateDatabase { .. } => Nature::Changes,
        Command::CreateDatafile { .. } => Nature::Changes,
        Command::Write(_) => Nature::Changes,
        Command::SwitchLogfile { .. } => Nature::Changes,
        Command::ArchiveLogCurrent => Nature::Changes,
        Command::Mount => Nature::Changes,
        Command::OpenPlain => Nature::Changes,
        Command::OpenResetlogs => Nature::Changes,
        Command::Tracking { .. } => Nature::Changes,
        Command::SwitchThread { .. } => Nature::Changes,
        Command::ResetDatabase { .. } => Nature::Changes,
        Command::Restore { .. } => Nature::ChangesByHeld,
        Command::Preview { .. } => Nature::TellsHeld,
        Command::Recover { .. } => Nature::TriesByHeld,
        Command::RecoverTest { .. } => Nature::TestsHeld,
        Command::RecoverCopy { .. } => Nature::TriesByHeld,
        Command::Backup(_) => Nature::Changes,
        Command::BackupFrom { .. } => Nature::Changes,
        Command::BackupLogs => Nature::TriesByHeld,
        Command::BlockRecover(_) => Nature::TriesByHeld,
        Command::Crosscheck { .. } => Nature::ChangesByHeld,
        Command::ValidateAll => Nature::TellsHeld,
        Command::ChangeBackup { .. } => Nature::Changes,
        Command::DeleteObsolete => Nature::ChangesByHeld,
        Command::DeleteBackup { .. } => Nature::Changes,
        Command::DeleteExpired { .. } => Nature::Changes,
        Command::ReportObsolete => Nature::TellsHeld,
        Command::ReportNeedBackup => Nature::TellsHeld,
        Command::ReportSchema => Nature::TellsState,
        Command::ListIncarnation => Nature::TellsState,
        Command::ListBackup => Nature::TellsState,
        Command::ListCopy => Nature::TellsState,
        Command::ListArchived => Nature::TellsState,
        Command::ListCorruption => Nature::TellsState,
        Command::ShowAll => Nature::TellsState,
        Command::Dump { .. } => Nature::TellsState,
        Command::Retention(_) => Nature::Changes,
        Command::Parallelism { .. } => Nature::Changes,
        Command::CatalogName { .. } => Nature::Records,
        Command::LoseDatafile { .. } => Nature::Changes,
        Command::LoseLog { .. } => Nature::Changes,
        Command::Corrupt { .. } => Nature::Changes,
        Command::Remove { .. } => Nature::Mishap,
        Command::Damage { .. } => Nature::Mishap,
        Command::Cut { .. } => Nature::Mishap,
        Command::Rename { .. } => Nature::Mishap,
    }
}

/// The statement is built, and so can be stepped. It takes no memory.
pub fn is_built(command: &Command) -> bool
    ensures { result ≡ is_built command.now }
{
    match nature_of(command) {
        Nature::Unbuilt => false,
        Nature::TellsState => true,
        Nature::TellsHeld => true,
        Nature::TestsHeld => true,
        Nature::Changes => true,
        Nature::ChangesByHeld => true,
        Nature::TriesByHeld => true,
        Nature::Records => true,
        Nature::Mishap => true,
    }
}

/// The statement only tells. It takes no memory.
pub fn only_tells(command: &Command) -> bool
    ensures { result ≡ only_tells command.now }
{
    match nature_of(command) {
        Nature::Unbuilt => false,
        Nature::TellsState => true,
        Nature::TellsHeld => true,
        Nature::TestsHeld => true,
        Nature::Changes => false,
        Nature::ChangesByHeld => false,
        Nature::TriesByHeld => false,
        Nature::Records => false,
        Nature::Mishap => false,
    }
}
