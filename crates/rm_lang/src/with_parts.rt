//! The tokens of the statements that have parts.
ghost use Rattle.std.specs.{Prelude.{◌≡◌, IfOk, IsTrue, None, true, false}, Option.{option_map}};
ghost use Rattle.rm_lang_grammar.specs.Spelling.{spelled, is_capital_tag};
ghost use Rattle.rm_lang_reading.specs.Recovering.{restore_line, restore_datafile_line, recover_line, recover_copy_line};
ghost use Rattle.rm_lang_reading.specs.{Upkeep.{crosscheck_line, change_line, delete_line}, Settings.{retention_line}};
ghost use Rattle.rm_lang_reading.specs.Language.{set_until_line};
ghost use Rattle.rm_lang_reading.specs.Values.{until_values, incarnation_values, class_choice, change_choice, deletion_choice, retention_choice};
ghost use Rattle.rm_lang_reading.specs.declared.upkeep.Deletion.TheVariants.{Obsolete, One, Expired};
ghost use Rattle.rm_lang_statement.specs.IsCommand.{is_until, is_until_or_none};

use crate::parts::{change_to, class, optional_incarnation, optional_until, point, policy};
use crate::phrases::{ended, numbered, phrase, with_part, words};
use rm_base::{Class, NoMemory, Text};
use rm_lang_grammar::Spelling;
use rm_lang_statement::{ChangeTo, RetentionForm, Until};
use std::alloc::Global;

pub fn restore(alloc: Global, until: &Option<Until>, preview: bool) -> Result<Spelling, NoMemory>
    requires { IsTrue (is_until_or_none until.now) }
    ensures { IfOk result (λ ts. ts ≡ spelled restore_line (option_map until_values until.now, (preview, tt))) }
{
    let mut spelling = words(alloc, &["RESTORE", "DATABASE"])?;
    spelling.append(optional_until(alloc, until)?)?;
    spelling.flag("PREVIEW", preview)?;
    ended(spelling)
}

pub fn restore_datafile(
    alloc: Global,
    file: u64,
    until: &Option<Until>,
) -> Result<Spelling, NoMemory>
    requires { IsTrue (is_until_or_none until.now) }
    ensures { IfOk result (λ ts. ts ≡ spelled restore_datafile_line (file, (option_map until_values until.now, tt))) }
{
    let mut spelling = numbered(alloc, &["RESTORE", "DATAFILE"], file)?;
    spelling.append(optional_until(alloc, until)?)?;
    ended(spelling)
}

pub fn recover(alloc: Global, until: &Option<Until>) -> Result<Spelling, NoMemory>
    requires { IsTrue (is_until_or_none until.now) }
    ensures { IfOk result (λ ts. ts ≡ spelled recover_line (option_map until_values until.now, (None, (false, tt)))) }
{
    with_part(
        alloc,
        &["RECOVER", "DATABASE"],
        optional_until(alloc, until)?,
    )
}

pub fn recover_test(
    alloc: Global,
    until: &Option<Until>,
    inc: Option<u64>,
) -> Result<Spelling, NoMemory>
    requires { IsTrue (is_until_or_none until.now) }
    ensures { IfOk result (λ ts. ts ≡ spelled recover_line (option_map until_values until.now, (option_map incarnation_values inc, (true, tt)))) }
{
    let mut spelling = words(alloc, &["RECOVER", "DATABASE"])?;
    spelling.append(optional_until(alloc, until)?)?;
    spelling.append(optional_incarnation(alloc, inc)?)?;
    spelling.word("TEST")?;
    ended(spelling)
}

pub fn recover_copy(alloc: Global, tag: &Text, until: &Option<Until>) -> Result<Spelling, NoMemory>
    requires tag { IsTrue (is_capital_tag tag.now) }
    requires until { IsTrue (is_until_or_none until.now) }
    ensures { IfOk result (λ ts. ts ≡ spelled recover_copy_line (tag.now, (option_map until_values until.now, tt))) }
{
    let mut spelling = words(alloc, &["RECOVER", "COPY", "OF", "DATABASE", "WITH"])?;
    spelling.tag(tag.as_bytes())?;
    spelling.append(optional_until(alloc, until)?)?;
    ended(spelling)
}

pub fn crosscheck(alloc: Global, class_of: Class) -> Result<Spelling, NoMemory>
    ensures { IfOk result (λ ts. ts ≡ spelled crosscheck_line (class_choice class_of, tt)) }
{
    with_part(alloc, &["CROSSCHECK"], class(alloc, class_of)?)
}

pub fn change(alloc: Global, id: u64, to: ChangeTo) -> Result<Spelling, NoMemory>
    ensures { IfOk result (λ ts. ts ≡ spelled change_line (id, (change_choice to, tt))) }
{
    let mut spelling = numbered(alloc, &["CHANGE", "BACKUP"], id)?;
    spelling.append(change_to(alloc, to)?)?;
    ended(spelling)
}

pub fn delete_obsolete(alloc: Global) -> Result<Spelling, NoMemory>
    ensures { IfOk result (λ ts. ts ≡ spelled delete_line (deletion_choice Obsolete, tt)) }
{
    phrase(alloc, &["DELETE", "OBSOLETE"])
}

pub fn delete_backup(alloc: Global, id: u64) -> Result<Spelling, NoMemory>
    ensures { IfOk result (λ ts. ts ≡ spelled delete_line (deletion_choice (One id), tt)) }
{
    ended(numbered(alloc, &["DELETE", "BACKUP"], id)?)
}

pub fn delete_expired(alloc: Global, class_of: Class) -> Result<Spelling, NoMemory>
    ensures { IfOk result (λ ts. ts ≡ spelled delete_line (deletion_choice (Expired class_of), tt)) }
{
    with_part(alloc, &["DELETE", "EXPIRED"], class(alloc, class_of)?)
}

pub fn retention(alloc: Global, form: RetentionForm) -> Result<Spelling, NoMemory>
    ensures { IfOk result (λ ts. ts ≡ spelled retention_line (retention_choice form, tt)) }
{
    with_part(
        alloc,
        &["CONFIGURE", "RETENTION", "POLICY"],
        policy(alloc, form)?,
    )
}

pub fn set_until(alloc: Global, until: &Until) -> Result<Spelling, NoMemory>
    requires { IsTrue (is_until until.now) }
    ensures { IfOk result (λ ts. ts ≡ spelled set_until_line (until_values until.now)) }
{
    with_part(alloc, &["SET", "UNTIL"], point(alloc, until)?)
}
