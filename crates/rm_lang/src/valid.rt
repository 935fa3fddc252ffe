//! Which statements can be spelled.
ghost use Rattle.std.specs.{Prelude.{◌≡◌, ◌↔◌, IsTrue}, List.{list_all}};
ghost use Rattle.rm_lang_grammar.specs.{Grammar.{in_range}, Spelling.{is_shown, is_capital_tag, maybe_valid}};
ghost use Rattle.rm_lang_statement.specs.{Named.{ascend_above, are_named}, Texts.{content, anything, is_new_name, is_text}};
ghost use Rattle.rm_lang_statement.specs.IsCommand.{is_until, is_until_or_none, is_write, is_backup, is_repair, is_retention, is_command, is_inner, is_statement};
ghost use Rattle.rm_lang_reading.specs.Language.{IsSpelled};

use rm_base::{Block, LAST_SCN, Text};
use rm_lang_grammar::is_capital_tag;
use rm_lang_reading::{agrees, is_new_name};
use rm_lang_statement::{
    BackupForm, Command, Inner, RepairForm, RetentionForm, Statement, Until, WriteForm,
};
use rm_lang_token::are_string_bytes;
use rm_moments::is_time;

// The content is one that a VALUE has.
fn is_value(block: Block) -> bool
    ensures { result ≡ is_shown content block.0 }
{
    are_string_bytes(block.trimmed())
}

fn is_write(form: WriteForm) -> bool
    ensures { result ≡ is_write form }
{
    is_value(form.content)
}

fn are_writes(forms: &[WriteForm]) -> bool
    ensures { result ≡ list_all is_write forms.now }
{
    for form in forms {
        if !is_write(*form) {
            return false;
        }
    }
    true
}

// The numbers ascend from above `least` on.
fn ascend_above(least: u64, numbers: &[u64]) -> bool
    ensures { result ≡ ascend_above least numbers.now }
{
    let mut last = least;
    for number in numbers {
        if *number <= last {
            return false;
        }
        last = *number;
    }
    true
}

// One number or more, ascending and each once.
fn are_named(numbers: &[u64]) -> bool
    ensures { result ≡ are_named numbers.now }
{
    match numbers {
        [first, others @ ..] => ascend_above(*first, others),
        [] => false,
    }
}

// The tag is one as it is kept, where there is one.
fn is_tag_or_none(tag: &Option<Text>) -> bool
    ensures { result ≡ maybe_valid is_capital_tag tag.now }
{
    match tag {
        Some(tag) => is_capital_tag(tag.as_bytes()),
        None => true,
    }
}

// A set may hold so many datafiles, where sets are made.
fn is_per_set_or_none(number: Option<u8>) -> bool
    ensures { result ≡ maybe_valid (in_range 1 64) number }
{
    match number {
        Some(number) => (1..=64).contains(&number),
        None => true,
    }
}

// The backup is one of a statement.
fn is_backup(form: &BackupForm) -> bool
    ensures { result ≡ is_backup form.now }
{
    form.level.is_none_or(|level| level <= 1)
        && form
            .files
            .as_ref()
            .is_none_or(|files| are_named(files.as_slice()))
        && is_per_set_or_none(form.files_per_set)
        && is_tag_or_none(&form.tag)
        && is_tag_or_none(&form.merge_tag)
        && form
            .during
            .as_ref()
            .is_none_or(|forms| are_writes(forms.as_slice()))
        && agrees(form.copy, form)
}

// The repair is one of a statement.
fn is_repair(form: &RepairForm) -> bool
    ensures { result ≡ is_repair form.now }
{
    form.blocks
        .as_ref()
        .is_none_or(|named| are_named(named.blocks.as_slice()))
        && form
            .during
            .as_ref()
            .is_none_or(|forms| are_writes(forms.as_slice()))
}

fn is_until(until: &Until) -> bool
    ensures { result ≡ is_until until.now }
{
    match until {
        Until::Scn(_) => true,
        Until::Sequence { .. } => true,
        Until::Time(text) => are_string_bytes(text.as_bytes()) && is_time(text.as_str()),
    }
}

fn is_until_or_none(until: &Option<Until>) -> bool
    ensures { result ≡ is_until_or_none until.now }
{
    match until {
        Some(until) => is_until(until),
        None => true,
    }
}

fn is_retention(form: RetentionForm) -> bool
    ensures { result ≡ is_retention form }
{
    match form {
        RetentionForm::Window(days) => days > 0,
        RetentionForm::Redundancy(count) => count > 0,
        RetentionForm::Nothing => true,
        RetentionForm::Clear => true,
    }
}

// The text can stand between quotes.
#[tactic(auto, using(crate::proofs::Strings::plain_is))]
fn is_plain(text: &Text) -> bool
    ensures { result ≡ is_text anything text.now }
{
    are_string_bytes(text.as_bytes())
}

// And it is a name that an object can be given.
fn is_name(text: &Text) -> bool
    ensures { result ≡ is_text is_new_name text.now }
{
    are_string_bytes(text.as_bytes()) && is_new_name(text.as_bytes())
}

/// Some tokens are the command. It takes no memory.
pub fn is_command(command: &Command) -> bool
    ensures { result ≡ is_command command.now }
{
    match command {
        Command::CreateDatabase { dbid, threads, scn } => {
            *dbid > 0 && *threads > 0 && (1..=LAST_SCN).contains(scn)
        }
        Command::CreateDatafile { blocks } => *blocks > 0,
        Command::Write(form) => is_write(*form),
        Command::SwitchLogfile { .. } => true,
        Command::ArchiveLogCurrent => true,
        Command::Mount => true,
        Command::OpenPlain => true,
        Command::OpenResetlogs => true,
        Command::Tracking { .. } => true,
        Command::SwitchThread { .. } => true,
        Command::ResetDatabase { .. } => true,
        Command::Restore { until, .. } => is_until_or_none(until),
        Command::Preview { until } => is_until_or_none(until),
        Command::Recover { until } => is_until_or_none(until),
        Command::RecoverTest { until, .. } => is_until_or_none(until),
        Command::RecoverCopy { tag, until } => {
            is_capital_tag(tag.as_bytes()) && is_until_or_none(until)
        }
        Command::Backup(form) => is_backup(form),
        Command::BackupFrom { .. } => true,
        Command::BackupLogs => true,
        Command::BlockRecover(form) => is_repair(form),
        Command::Crosscheck { .. } => true,
        Command::ValidateAll => true,
        Command::ChangeBackup { .. } => true,
        Command::DeleteObsolete => true,
        Command::DeleteBackup { .. } => true,
        Command::DeleteExpired { .. } => true,
        Command::ReportObsolete => true,
        Command::ReportNeedBackup => true,
        Command::ReportSchema => true,
        Command::ListIncarnation => true,
        Command::ListBackup => true,
        Command::ListCopy => true,
        Command::ListArchived => true,
        Command::ListCorruption => true,
        Command::ShowAll => true,
        Command::Dump { .. } => true,
        Command::Retention(form) => is_retention(*form),
        Command::Parallelism { channels } => *channels > 0,
        Command::CatalogName { name } => is_plain(name),
        Command::LoseDatafile { .. } => true,
        Command::LoseLog { .. } => true,
        Command::Corrupt { .. } => true,
        Command::Remove { name } => is_plain(name),
        Command::Damage { name, .. } => is_plain(name),
        Command::Cut { name, .. } => is_plain(name),
        Command::Rename { old, new_name } => is_plain(old) && is_name(new_name),
    }
}

fn is_inner(inner: &Inner) -> bool
    ensures { result ≡ is_inner inner.now }
{
    match inner {
        Inner::Plain(command) => is_command(command),
        Inner::SetUntil(until) => is_until(until),
        Inner::AllocateChannel => true,
    }
}

fn are_inner(all: &[Inner]) -> bool
    ensures { result ≡ list_all is_inner all.now }
{
    for one in all {
        if !is_inner(one) {
            return false;
        }
    }
    true
}

// The statement passes the test.
fn passes(statement: &Statement) -> bool
    ensures { result ≡ is_statement statement.now }
{
    match statement {
        Statement::Plain(command) => is_command(command),
        Statement::Run(all) => are_inner(all.as_slice()),
    }
}

/// Some tokens are the statement. It takes no memory.
pub fn is_statement(statement: &Statement) -> bool
    ensures test { result ≡ is_statement statement.now }
    ensures exact { IsTrue result ↔ IsSpelled statement.now }
{
    passes(statement)
}
