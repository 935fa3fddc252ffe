//! A statement as text.
ghost use Rattle.std.specs.{Prelude.{◌≡◌, IsTrue, IfOk}, List.{list_all, flat_map}};
ghost use Rattle.rm_lang_token.specs.Tokens.{feeds};
ghost use Rattle.rm_lang_statement.specs.IsCommand.{is_command, is_inner, is_statement};
ghost use Rattle.rm_lang.specs.Spelling.{tokens_of, inner_tokens, statement_tokens, ReadsAs};

use crate::backup::{backup, backup_from, write};
use crate::plain::{
    allocate, archive_log, backup_logs, catalog, corrupt, create_database, create_datafile, cut,
    damage, disable_thread, dump, enable_thread, list_archived, list_backup, list_copy,
    list_corruption, list_incarnation, lose_datafile, lose_log, open_database, parallelism, remove,
    rename, report_need_backup, report_obsolete, report_schema, reset_database, show, startup,
    switch_logfile, track, untrack, validate,
};
use crate::repair::block_recover;
use crate::with_parts::{
    change, crosscheck, delete_backup, delete_expired, delete_obsolete, recover, recover_copy,
    recover_test, restore, restore_datafile, retention, set_until,
};
use rm_base::{NoMemory, Seq};
use rm_lang_grammar::Spelling;
use rm_lang_statement::{Command, Inner, Statement};
use rm_lang_token::text_of as text_of_tokens;
use std::alloc::Global;

// The tokens that spell the command.
fn command(alloc: Global, command: &Command) -> Result<Spelling, NoMemory>
    requires { IsTrue (is_command command.now) }
    ensures { IfOk result (λ ts. ts ≡ tokens_of command.now) }
{
    match command {
        Command::CreateDatabase { dbid, threads, scn } => create_database(
            alloc, *dbid, *threads, *scn,
        ),
        Command::CreateDatafile { blocks } => create_datafile(alloc, *blocks),
        Command::Write(form) => write(alloc, *form),
        Command::SwitchLogfile { thread } => switch_logfile(alloc, *thread),
        Command::ArchiveLogCurrent => archive_log(alloc),
        Command::Mount => startup(alloc),
        Command::OpenPlain => open_database(alloc, false),
        Command::OpenResetlogs => open_database(alloc, true),
        Command::Tracking { on: true } => track(alloc),
        Command::Tracking { on: false } => untrack(alloc),
        Command::SwitchThread { thread, on: true } => enable_thread(alloc, *thread),
        Command::SwitchThread { thread, on: false } => disable_thread(alloc, *thread),
        Command::ResetDatabase { inc } => reset_database(alloc, *inc),
        Command::Restore { file: None, until } => restore(alloc, until, false),
        Command::Restore {
            file: Some(file),
            until,
        } => restore_datafile(alloc, *file, until),
        Command::Preview { until } => restore(alloc, until, true),
        Command::Recover { until } => recover(alloc, until),
        Command::RecoverTest { until, inc } => recover_test(alloc, until, *inc),
        Command::RecoverCopy { tag, until } => recover_copy(alloc, tag, until),
        Command::Backup(form) => backup(alloc, form),
        Command::BackupFrom { scn } => backup_from(alloc, *scn),
        Command::BackupLogs => backup_logs(alloc),
        Command::BlockRecover(form) => block_recover(alloc, form),
        Command::Crosscheck { class } => crosscheck(alloc, *class),
        Command::ValidateAll => validate(alloc),
        Command::ChangeBackup { id, to } => change(alloc, *id, *to),
        Command::DeleteObsolete => delete_obsolete(alloc),
        Command::DeleteBackup { id } => delete_backup(alloc, *id),
        Command::DeleteExpired { class } => delete_expired(alloc, *class),
        Command::ReportObsolete => report_obsolete(alloc),
        Command::ReportNeedBackup => report_need_backup(alloc),
        Command::ReportSchema => report_schema(alloc),
        Command::ListIncarnation => list_incarnation(alloc),
        Command::ListBackup => list_backup(alloc),
        Command::ListCopy => list_copy(alloc),
        Command::ListArchived => list_archived(alloc),
        Command::ListCorruption => list_corruption(alloc),
        Command::ShowAll => show(alloc),
        Command::Dump { file, block } => dump(alloc, *file, *block),
        Command::Retention(form) => retention(alloc, *form),
        Command::Parallelism { channels } => parallelism(alloc, *channels),
        Command::CatalogName { name } => catalog(alloc, name),
        Command::LoseDatafile { file } => lose_datafile(alloc, *file),
        Command::LoseLog { thread } => lose_log(alloc, *thread),
        Command::Corrupt { file, block } => corrupt(alloc, *file, *block),
        Command::Remove { name } => remove(alloc, name),
        Command::Damage { name, at } => damage(alloc, name, *at),
        Command::Cut { name, to } => cut(alloc, name, *to),
        Command::Rename { old, new_name } => rename(alloc, old, new_name),
    }
}

fn inner(alloc: Global, inner: &Inner) -> Result<Spelling, NoMemory>
    requires { IsTrue (is_inner inner.now) }
    ensures { IfOk result (λ ts. ts ≡ inner_tokens inner.now) }
{
    match inner {
        Inner::Plain(plain) => command(alloc, plain),
        Inner::SetUntil(until) => set_until(alloc, until),
        Inner::AllocateChannel => allocate(alloc),
    }
}

fn all_inner(alloc: Global, all: &[Inner]) -> Result<Spelling, NoMemory>
    requires { IsTrue (list_all is_inner all.now) }
    ensures { IfOk result (λ ts. ts ≡ flat_map inner_tokens all.now) }
{
    let mut spelling = Spelling::new(alloc);
    for one in all {
        spelling.append(inner(alloc, one)?)?;
    }
    Ok(spelling)
}

// The tokens that spell the statement.
fn statement(alloc: Global, statement: &Statement) -> Result<Spelling, NoMemory>
    requires { IsTrue (is_statement statement.now) }
    ensures { IfOk result (λ ts. ts ≡ statement_tokens statement.now) }
{
    match statement {
        Statement::Plain(plain) => command(alloc, plain),
        Statement::Run(all) => {
            let mut spelling = Spelling::new(alloc);
            spelling.word("RUN")?;
            spelling.sign(b'{')?;
            spelling.append(all_inner(alloc, all.as_slice())?)?;
            spelling.sign(b'}')?;
            Ok(spelling)
        }
    }
}

/// The statement as text: on one line, which is read back as the statement.
pub fn text_of(alloc: Global, text: &Statement) -> Result<Seq<u8>, NoMemory>
    requires { IsTrue (is_statement text.now) }
    ensures read { IfOk result (λ bytes. ReadsAs bytes text.now) }
    ensures one_line { IfOk result (λ bytes. feeds bytes ≡ 0) }
{
    let tokens = statement(alloc, text)?.into_tokens();
    text_of_tokens(alloc, tokens.as_slice())
}
