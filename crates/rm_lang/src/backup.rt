//! The tokens of a write and of a backup.
ghost use Rattle.std.specs.{Prelude.{◌≡◌, codes, IfOk, IsTrue, map}, Option.{option_map}, List.{list_all}};
ghost use Rattle.rm_lang_grammar.specs.Spelling.{spelled, maybe_spelled, one_spelled, many_spelled, is_capital_tag, maybe_valid};
ghost use Rattle.rm_lang_reading.specs.Creating.{write_part, write_line};
ghost use Rattle.rm_lang_reading.specs.Backups.{as_line, increment_line, merge_line, database_line, files_line, sets_line, tag_line, keep_line, during_line, backup_line};
ghost use Rattle.rm_lang_reading.specs.Values.{write_values, kind_values, kind_asked, increment_values, level_asked, merge_values, files_values, sets_values, tag_values, keep_values, during_values, backup_values, from_values};
ghost use Rattle.rm_lang_statement.specs.IsCommand.{is_write, is_backup};

use crate::phrases::{ended, numbered, words};
use rm_base::{NoMemory, Seq, Text};
use rm_lang_grammar::Spelling;
use rm_lang_statement::{BackupForm, WriteForm};
use std::alloc::Global;

// What stands behind the WRITE.
#[tactic(auto, using(crate::proofs::Contents::shown_string))]
fn write_part(alloc: Global, form: WriteForm) -> Result<Spelling, NoMemory>
    requires { IsTrue (is_write form) }
    ensures { IfOk result (λ ts. ts ≡ spelled write_part (write_values form)) }
{
    let mut spelling = Spelling::new(alloc);
    spelling.number_or("THREAD", 1, form.thread)?;
    spelling.word("DATAFILE")?;
    spelling.number(form.file)?;
    spelling.word("BLOCK")?;
    spelling.number(form.block)?;
    spelling.word("VALUE")?;
    spelling.string(form.content.trimmed())?;
    ended(spelling)
}

pub fn write(alloc: Global, form: WriteForm) -> Result<Spelling, NoMemory>
    requires { IsTrue (is_write form) }
    ensures { IfOk result (λ ts. ts ≡ spelled write_line (write_values form)) }
{
    let mut spelling = words(alloc, &["WRITE"])?;
    spelling.append(write_part(alloc, form)?)?;
    Ok(spelling)
}

// AS COPY, where copies are asked for.
fn kind(alloc: Global, copy: bool) -> Result<Spelling, NoMemory>
    ensures { IfOk result (λ ts. ts ≡ maybe_spelled (spelled as_line) (option_map kind_values (kind_asked copy))) }
{
    if copy {
        return words(alloc, &["AS", "COPY"]);
    }
    Ok(Spelling::new(alloc))
}

// The level, if there is one.
fn level(alloc: Global, level: Option<u8>, cumulative: bool) -> Result<Spelling, NoMemory>
    ensures { IfOk result (λ ts. ts ≡ maybe_spelled (spelled increment_line) (option_map increment_values (option_map (level_asked cumulative) level))) }
{
    let Some(level) = level else {
        return Ok(Spelling::new(alloc));
    };
    let mut spelling = numbered(alloc, &["INCREMENTAL", "LEVEL"], level as u64)?;
    spelling.flag("CUMULATIVE", cumulative)?;
    Ok(spelling)
}

// FOR RECOVER OF COPY WITH the tag, if there is one.
fn merge(alloc: Global, tag: &Option<Text>) -> Result<Spelling, NoMemory>
    requires { IsTrue (maybe_valid is_capital_tag tag.now) }
    ensures { IfOk result (λ ts. ts ≡ maybe_spelled (spelled merge_line) (option_map merge_values tag.now)) }
{
    let Some(tag) = tag else {
        return Ok(Spelling::new(alloc));
    };
    let mut spelling = words(alloc, &["FOR", "RECOVER", "OF", "COPY", "WITH"])?;
    spelling.tag(tag.as_bytes())?;
    Ok(spelling)
}

// The datafiles, or DATABASE for all of them.
fn files(alloc: Global, files: &Option<Seq<u64>>) -> Result<Spelling, NoMemory>
    ensures { IfOk result (λ ts. ts ≡ one_spelled (spelled database_line) (spelled files_line) (files_values files.now)) }
{
    let Some(files) = files else {
        return words(alloc, &["DATABASE"]);
    };
    let mut spelling = words(alloc, &["DATAFILE"])?;
    spelling.numbers(files.as_slice())?;
    Ok(spelling)
}

// FILESPERSET and how many files a set holds, where sets are made.
fn sets(alloc: Global, per_set: Option<u8>) -> Result<Spelling, NoMemory>
    ensures { IfOk result (λ ts. ts ≡ maybe_spelled (spelled sets_line) (option_map sets_values per_set)) }
{
    match per_set {
        Some(number) => numbered(alloc, &["FILESPERSET"], number as u64),
        None => Ok(Spelling::new(alloc)),
    }
}

// The tag, if there is one.
fn tag(alloc: Global, tag: &Option<Text>) -> Result<Spelling, NoMemory>
    requires { IsTrue (maybe_valid is_capital_tag tag.now) }
    ensures { IfOk result (λ ts. ts ≡ maybe_spelled (spelled tag_line) (option_map tag_values tag.now)) }
{
    let mut spelling = Spelling::new(alloc);
    if let Some(tag) = tag {
        spelling.tag(tag.as_bytes())?;
    }
    Ok(spelling)
}

// KEEP FOREVER, where it is kept.
fn keep(alloc: Global, keep: bool) -> Result<Spelling, NoMemory>
    ensures { IfOk result (λ ts. ts ≡ maybe_spelled (spelled keep_line) (keep_values keep)) }
{
    if keep {
        return words(alloc, &["KEEP", "FOREVER"]);
    }
    Ok(Spelling::new(alloc))
}

// The writes, one behind the other.
fn writes(alloc: Global, writes: &[WriteForm]) -> Result<Spelling, NoMemory>
    requires { IsTrue (list_all is_write writes.now) }
    ensures { IfOk result (λ ts. ts ≡ many_spelled (codes "WRITE") (spelled write_part) (map write_values writes.now)) }
{
    let mut spelling = Spelling::new(alloc);
    for form in writes {
        spelling.append(write(alloc, *form)?)?;
    }
    Ok(spelling)
}

/// DURING and the writes, if it stands there.
pub fn during(alloc: Global, during: &Option<Seq<WriteForm>>) -> Result<Spelling, NoMemory>
    requires { IsTrue (maybe_valid (list_all is_write) during.now) }
    ensures { IfOk result (λ ts. ts ≡ maybe_spelled (spelled during_line) (option_map during_values during.now)) }
{
    let mut spelling = Spelling::new(alloc);
    if let Some(forms) = during {
        spelling.word("DURING")?;
        spelling.sign(b'{')?;
        spelling.append(writes(alloc, forms.as_slice())?)?;
        spelling.sign(b'}')?;
    }
    Ok(spelling)
}

pub fn backup(alloc: Global, form: &BackupForm) -> Result<Spelling, NoMemory>
    requires { IsTrue (is_backup form.now) }
    ensures { IfOk result (λ ts. ts ≡ spelled backup_line (backup_values form.now)) }
{
    let mut spelling = Spelling::new(alloc);
    spelling.word("BACKUP")?;
    spelling.append(kind(alloc, form.copy)?)?;
    spelling.append(level(alloc, form.level, form.cumulative)?)?;
    spelling.append(merge(alloc, &form.merge_tag)?)?;
    spelling.append(files(alloc, &form.files)?)?;
    spelling.append(sets(alloc, form.files_per_set)?)?;
    spelling.append(tag(alloc, &form.tag)?)?;
    spelling.append(keep(alloc, form.keep)?)?;
    spelling.append(during(alloc, &form.during)?)?;
    spelling.sign(b';')?;
    Ok(spelling)
}

pub fn backup_from(alloc: Global, scn: u64) -> Result<Spelling, NoMemory>
    ensures { IfOk result (λ ts. ts ≡ spelled backup_line (from_values scn)) }
{
    let mut spelling = numbered(alloc, &["BACKUP", "INCREMENTAL", "FROM", "SCN"], scn)?;
    spelling.word("DATABASE")?;
    ended(spelling)
}
