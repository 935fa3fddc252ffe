//! The tokens of the parts that statements have.
ghost use Rattle.std.specs.{Prelude.{◌≡◌, codes, IfOk, IsTrue}, Option.{option_map}};
ghost use Rattle.rm_lang_grammar.specs.{Grammar.{◌▸◌, word as word_part, end}, Spelling.{spelled, maybe_spelled, one_spelled}};
ghost use Rattle.rm_lang_reading.specs.Recovering.{scn_part, log_or_time, until_line, incarnation_line};
ghost use Rattle.rm_lang_reading.specs.{Upkeep.{copy_or_archived, withdrawing}, Settings.{policy_part}};
ghost use Rattle.rm_lang_reading.specs.Values.{until_choice, until_values, incarnation_values, class_choice, change_choice, retention_choice};
ghost use Rattle.rm_lang_statement.specs.IsCommand.{is_until, is_until_or_none};

use crate::phrases::{numbered, quoted, words};
use rm_base::{Class, NoMemory};
use rm_lang_grammar::Spelling;
use rm_lang_statement::{ChangeTo, RetentionForm, Until};
use std::alloc::Global;

/// What stands behind an UNTIL.
pub fn point(alloc: Global, until: &Until) -> Result<Spelling, NoMemory>
    requires { IsTrue (is_until until.now) }
    ensures { IfOk result (λ ts. ts ≡ one_spelled (spelled scn_part) (spelled log_or_time) (until_choice until.now)) }
{
    match until {
        Until::Scn(scn) => numbered(alloc, &["SCN"], *scn),
        Until::Sequence { sequence, thread } => {
            let mut spelling = numbered(alloc, &["SEQUENCE"], *sequence)?;
            spelling.number_or("THREAD", 1, *thread)?;
            Ok(spelling)
        }
        Until::Time(text) => quoted(alloc, &["TIME"], text),
    }
}

/// An UNTIL, or nothing.
pub fn optional_until(alloc: Global, until: &Option<Until>) -> Result<Spelling, NoMemory>
    requires { IsTrue (is_until_or_none until.now) }
    ensures { IfOk result (λ ts. ts ≡ maybe_spelled (spelled until_line) (option_map until_values until.now)) }
{
    let mut spelling = Spelling::new(alloc);
    if let Some(until) = until {
        spelling.word("UNTIL")?;
        spelling.append(point(alloc, until)?)?;
    }
    Ok(spelling)
}

/// An INCARNATION, or nothing.
pub fn optional_incarnation(alloc: Global, inc: Option<u64>) -> Result<Spelling, NoMemory>
    ensures { IfOk result (λ ts. ts ≡ maybe_spelled (spelled incarnation_line) (option_map incarnation_values inc)) }
{
    match inc {
        Some(number) => numbered(alloc, &["INCARNATION"], number),
        None => Ok(Spelling::new(alloc)),
    }
}

/// A class of records.
pub fn class(alloc: Global, class: Class) -> Result<Spelling, NoMemory>
    ensures { IfOk result (λ ts. ts ≡ one_spelled (spelled (word_part (codes "BACKUP") ▸ end)) (spelled copy_or_archived) (class_choice class)) }
{
    match class {
        Class::Backup => words(alloc, &["BACKUP"]),
        Class::Copy => words(alloc, &["COPY"]),
        Class::Archived => words(alloc, &["ARCHIVELOG", "ALL"]),
    }
}

/// What a CHANGE makes of a record.
pub fn change_to(alloc: Global, to: ChangeTo) -> Result<Spelling, NoMemory>
    ensures { IfOk result (λ ts. ts ≡ one_spelled (spelled (word_part (codes "AVAILABLE") ▸ end)) (spelled withdrawing) (change_choice to)) }
{
    match to {
        ChangeTo::Available => words(alloc, &["AVAILABLE"]),
        ChangeTo::Unavailable => words(alloc, &["UNAVAILABLE"]),
        ChangeTo::Uncatalog => words(alloc, &["UNCATALOG"]),
        ChangeTo::Keep => words(alloc, &["KEEP", "FOREVER"]),
        ChangeTo::NoKeep => words(alloc, &["NOKEEP"]),
    }
}

/// What a RETENTION POLICY asks for.
pub fn policy(alloc: Global, form: RetentionForm) -> Result<Spelling, NoMemory>
    ensures { IfOk result (λ ts. ts ≡ one_spelled (spelled policy_part) (spelled (word_part (codes "CLEAR") ▸ end)) (retention_choice form)) }
{
    match form {
        RetentionForm::Window(days) => {
            let mut spelling = numbered(alloc, &["TO", "RECOVERY", "WINDOW", "OF"], days)?;
            spelling.word("DAYS")?;
            Ok(spelling)
        }
        RetentionForm::Redundancy(count) => numbered(alloc, &["TO", "REDUNDANCY"], count),
        RetentionForm::Nothing => words(alloc, &["TO", "NONE"]),
        RetentionForm::Clear => words(alloc, &["CLEAR"]),
    }
}
