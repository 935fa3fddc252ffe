//! The statements that make backups.
ghost use Rattle.std.specs.{Prelude.{◌≡◌, codes, map, length}, Option.{option_map}};
ghost use Rattle.rm_lang_grammar.specs.{Reading.{Gives, read, maybe, one_of, begins, begins_with, many_at}, Forms.{command_by, command_in}};
ghost use Rattle.rm_lang_statement.specs.{Named.{in_order}, Agreed.{agrees_in_level, agrees_in_merge, agrees_in_sets, agrees}};
ghost use Rattle.rm_lang_reading.specs.Backups.{as_line, is_copy, level_part, from_part, increment_line, number_of, is_cumulative, merge_line, database_line, files_line, sets_line, tag_line, keep_line, during_line, write_at, is_plain, saved, backup, backup_logs};
ghost use Rattle.rm_lang_reading.specs.Values.{write_values, kind_values, level_values, increment_choice, increment_values, merge_values, files_values, sets_values, tag_values, keep_values, during_values};
ghost use Rattle.rm_lang_reading.specs.Language.{backup_forms};

use crate::creating::write_part;
use crate::phrases::{after, phrase, words};
use crate::upkeep::upkeep;
use rm_base::{Seq, Text};
use rm_lang_grammar::Unread;
use rm_lang_grammar::reading::{
    begins_with, flag, number, number_in, numbers, semicolon, sign, tag, word,
};
use rm_lang_statement::{BackupForm, Command, WriteForm};
use rm_lang_token::Token;
use std::alloc::Global;

/// What an AS asks for.
#[derive(Clone, Copy, PartialEq, Eq)]
pub enum BackupAs {
    Copy,
    Sets,
}

/// What a LEVEL says.
#[derive(Clone, Copy, PartialEq, Eq)]
pub struct Level {
    pub number: u8,
    pub cumulative: bool,
}

/// What an INCREMENTAL says.
#[derive(Clone, Copy, PartialEq, Eq)]
pub enum Increment {
    Level(Level),
    /// From this SCN.
    From(u64),
}

// AS COPY or AS BACKUPSET, or nothing.
fn optional_kind(tokens: &[Token]) -> Result<(Option<BackupAs>, &[Token]), Unread>
    ensures { Gives (λ x. (option_map kind_values x.0, x.1.now)) result (maybe (begins as_line tokens.now) (read as_line tokens.now) tokens.now) }
{
    let Some(rest) = after(tokens, b"AS") else {
        return Ok((None, tokens));
    };
    if let Some(rest) = after(rest, b"COPY") {
        return Ok((Some(BackupAs::Copy), rest));
    }
    Ok((Some(BackupAs::Sets), word(rest, b"BACKUPSET")?))
}

// AS BACKUPSET asks for what is made anyway.
fn is_copy(kind: Option<BackupAs>) -> bool
    ensures { result ≡ is_copy kind }
{
    matches!(kind, Some(BackupAs::Copy))
}

// LEVEL n [CUMULATIVE].
fn level_part(tokens: &[Token]) -> Result<(Level, &[Token]), Unread>
    ensures { Gives (λ x. (level_values x.0, x.1.now)) result (read level_part tokens.now) }
{
    let (number, rest) = number_in(word(tokens, b"LEVEL")?, 0, 1)?;
    let (cumulative, rest) = flag(rest, b"CUMULATIVE");
    let level = Level {
        number: number as u8,
        cumulative,
    };
    Ok((level, rest))
}

// LEVEL n [CUMULATIVE], or FROM SCN n.
fn level_or_scn(tokens: &[Token]) -> Result<(Increment, &[Token]), Unread>
    ensures { Gives (λ x. (increment_choice x.0, x.1.now)) result (one_of (begins level_part tokens.now) (read level_part tokens.now) (read from_part tokens.now)) }
{
    if begins_with(tokens, b"LEVEL") {
        let (level, rest) = level_part(tokens)?;
        return Ok((Increment::Level(level), rest));
    }
    let (scn, rest) = number(words(tokens, &["FROM", "SCN"])?)?;
    Ok((Increment::From(scn), rest))
}

// INCREMENTAL and what it asks for, or nothing.
fn optional_increment(tokens: &[Token]) -> Result<(Option<Increment>, &[Token]), Unread>
    ensures { Gives (λ x. (option_map increment_values x.0, x.1.now)) result (maybe (begins increment_line tokens.now) (read increment_line tokens.now) tokens.now) }
{
    let Some(rest) = after(tokens, b"INCREMENTAL") else {
        return Ok((None, tokens));
    };
    let (increment, rest) = level_or_scn(rest)?;
    Ok((Some(increment), rest))
}

fn number_of(increment: Option<Increment>) -> Option<u8>
    ensures { result ≡ number_of increment }
{
    match increment {
        Some(Increment::Level(level)) => Some(level.number),
        Some(Increment::From(_)) | None => None,
    }
}

fn is_cumulative(increment: Option<Increment>) -> bool
    ensures { result ≡ is_cumulative increment }
{
    match increment {
        Some(Increment::Level(level)) => level.cumulative,
        Some(Increment::From(_)) | None => false,
    }
}

// FOR RECOVER OF COPY WITH TAG tag, or nothing.
fn optional_merge(alloc: Global, tokens: &[Token]) -> Result<(Option<Text>, &[Token]), Unread>
    ensures { Gives (λ x. (option_map merge_values x.0, x.1.now)) result (maybe (begins merge_line tokens.now) (read merge_line tokens.now) tokens.now) }
{
    let Some(rest) = after(tokens, b"FOR") else {
        return Ok((None, tokens));
    };
    let rest = words(rest, &["RECOVER", "OF", "COPY", "WITH"])?;
    let (name, rest) = tag(alloc, rest)?;
    Ok((Some(name), rest))
}

// DATABASE, or the datafiles as they stand.
fn named_files(alloc: Global, tokens: &[Token]) -> Result<(Option<Seq<u64>>, &[Token]), Unread>
    ensures { Gives (λ x. (files_values x.0, x.1.now)) result (one_of (begins database_line tokens.now) (read database_line tokens.now) (read files_line tokens.now)) }
{
    if let Some(rest) = after(tokens, b"DATABASE") {
        return Ok((None, rest));
    }
    let (files, rest) = numbers(alloc, word(tokens, b"DATAFILE")?)?;
    Ok((Some(files), rest))
}

/// The numbers, ascending and each once. It takes no memory.
pub fn in_order(numbers: Seq<u64>) -> Seq<u64>
    ensures { result ≡ in_order numbers }
{
    let mut numbers = numbers.into_vec();
    numbers.sort_unstable();
    numbers.dedup();
    Seq::from_vec(numbers)
}

// FILESPERSET n, or nothing.
fn optional_sets(tokens: &[Token]) -> Result<(Option<u8>, &[Token]), Unread>
    ensures { Gives (λ x. (option_map sets_values x.0, x.1.now)) result (maybe (begins sets_line tokens.now) (read sets_line tokens.now) tokens.now) }
{
    let Some(rest) = after(tokens, b"FILESPERSET") else {
        return Ok((None, tokens));
    };
    let (number, rest) = number_in(rest, 1, 64)?;
    Ok((Some(number as u8), rest))
}

// TAG tag, or nothing.
fn optional_tag(alloc: Global, tokens: &[Token]) -> Result<(Option<Text>, &[Token]), Unread>
    ensures { Gives (λ x. (option_map tag_values x.0, x.1.now)) result (maybe (begins tag_line tokens.now) (read tag_line tokens.now) tokens.now) }
{
    if !begins_with(tokens, b"TAG") {
        return Ok((None, tokens));
    }
    let (name, rest) = tag(alloc, tokens)?;
    Ok((Some(name), rest))
}

// KEEP FOREVER, or nothing.
fn optional_keep(tokens: &[Token]) -> Result<(bool, &[Token]), Unread>
    ensures { Gives (λ x. (keep_values x.0, x.1.now)) result (maybe (begins keep_line tokens.now) (read keep_line tokens.now) tokens.now) }
{
    let Some(rest) = after(tokens, b"KEEP") else {
        return Ok((false, tokens));
    };
    Ok((true, word(rest, b"FOREVER")?))
}

// WRITE and its parts.
fn one_write(tokens: &[Token]) -> Result<(WriteForm, &[Token]), Unread>
    ensures { Gives (λ x. (write_values x.0, x.1.now)) result (write_at tokens.now) }
{
    write_part(word(tokens, b"WRITE")?)
}

// The writes at the front.
fn writes(alloc: Global, tokens: &[Token]) -> Result<(Seq<WriteForm>, &[Token]), Unread>
    ensures { Gives (λ x. (map write_values x.0, x.1.now)) result (many_at (begins_with (codes "WRITE")) write_at (length tokens.now) tokens.now) }
{
    let mut writes = Vec::new(alloc);
    let mut rest = tokens;
    for _ in 0..tokens.len() {
        if !begins_with(rest, b"WRITE") {
            return Ok((Seq::from_vec(writes), rest));
        }
        match one_write(rest) {
            Ok((write, behind)) => {
                writes.push(write)?;
                rest = behind;
            }
            Err(unread) => return Err(unread),
        }
    }
    if begins_with(rest, b"WRITE") {
        return Err(Unread::Other);
    }
    Ok((Seq::from_vec(writes), rest))
}

/// DURING { {write ;}* }, or nothing.
pub fn optional_during(
    alloc: Global,
    tokens: &[Token],
) -> Result<(Option<Seq<WriteForm>>, &[Token]), Unread>
    ensures { Gives (λ x. (option_map during_values x.0, x.1.now)) result (maybe (begins during_line tokens.now) (read during_line tokens.now) tokens.now) }
{
    let Some(rest) = after(tokens, b"DURING") else {
        return Ok((None, tokens));
    };
    let (writes, rest) = writes(alloc, sign(rest, b'{')?)?;
    Ok((Some(writes), sign(rest, b'}')?))
}

// CUMULATIVE stands with LEVEL 1 only, and AS COPY without it.
fn agrees_in_level(form: &BackupForm) -> bool
    ensures { result ≡ agrees_in_level form.now }
{
    let is_level_1 = form.level.is_some_and(|level| level == 1);
    (!form.cumulative || is_level_1) && !(form.copy && is_level_1)
}

// FOR RECOVER OF COPY stands with LEVEL 1 only, and without an AS, CUMULATIVE and TAG.
fn agrees_in_merge(with_as: bool, form: &BackupForm) -> bool
    ensures { result ≡ agrees_in_merge with_as form.now }
{
    let is_level_1 = form.level.is_some_and(|level| level == 1);
    form.merge_tag.is_none() || (is_level_1 && !with_as && !form.cumulative && form.tag.is_none())
}

// FILESPERSET stands without AS COPY and FOR RECOVER OF COPY.
fn agrees_in_sets(form: &BackupForm) -> bool
    ensures { result ≡ agrees_in_sets form.now }
{
    form.files_per_set.is_none() || (!form.copy && form.merge_tag.is_none())
}

/// The parts of a backup, of which one may be an AS, can stand together.
pub fn agrees(with_as: bool, form: &BackupForm) -> bool
    ensures { result ≡ agrees with_as form.now }
{
    agrees_in_level(form) && agrees_in_merge(with_as, form) && agrees_in_sets(form)
}

// Nothing is said but that all datafiles are backed up.
fn is_plain(with_as: bool, form: &BackupForm) -> bool
    ensures { result ≡ is_plain with_as form.now }
{
    !with_as
        && form.merge_tag.is_none()
        && form.files.is_none()
        && form.files_per_set.is_none()
        && form.tag.is_none()
        && !form.keep
        && form.during.is_none()
}

// The backup, or the increment from an SCN, where its parts, of which one may be an AS, can stand together.
fn saved(increment: Option<Increment>, with_as: bool, form: BackupForm) -> Result<Command, Unread>
    ensures { Gives (λ c. c) result (saved increment with_as form) }
{
    if let Some(Increment::From(scn)) = increment {
        if !is_plain(with_as, &form) {
            return Err(Unread::Other);
        }
        return Ok(Command::BackupFrom { scn });
    }
    if !agrees(with_as, &form) {
        return Err(Unread::Other);
    }
    Ok(Command::Backup(form))
}

#[tactic(auto, using(crate::proofs::Parts::parts), unfolding(crate::specs::Backups::backup))]
fn backup(alloc: Global, tokens: &[Token]) -> Result<(Command, &[Token]), Unread>
    ensures { Gives (λ x. (x.0, x.1.now)) result (command_by backup tokens.now) }
{
    let (kind, rest) = optional_kind(word(tokens, b"BACKUP")?)?;
    let (increment, rest) = optional_increment(rest)?;
    let (merge_tag, rest) = optional_merge(alloc, rest)?;
    let (files, rest) = named_files(alloc, rest)?;
    let (files_per_set, rest) = optional_sets(rest)?;
    let (tag, rest) = optional_tag(alloc, rest)?;
    let (keep, rest) = optional_keep(rest)?;
    let (during, rest) = optional_during(alloc, rest)?;
    let rest = semicolon(rest)?;
    let form = BackupForm {
        copy: is_copy(kind),
        level: number_of(increment),
        cumulative: is_cumulative(increment),
        merge_tag,
        files: files.map(in_order),
        files_per_set,
        tag,
        keep,
        during,
    };
    Ok((saved(increment, kind.is_some(), form)?, rest))
}

#[tactic(auto, unfolding(crate::specs::Backups::backup_logs))]
fn backup_logs(tokens: &[Token]) -> Result<(Command, &[Token]), Unread>
    ensures { Gives (λ x. (x.0, x.1.now)) result (command_by backup_logs tokens.now) }
{
    let rest = phrase(tokens, &["BACKUP", "ARCHIVELOG", "ALL"])?;
    Ok((Command::BackupLogs, rest))
}

/// The command at the front by the first form of those that make backups, or of those behind, and what is behind it.
#[tactic(auto, unfolding(crate::specs::Language::backup_forms))]
pub fn saving(alloc: Global, tokens: &[Token]) -> Result<(Command, &[Token]), Unread>
    ensures { Gives (λ x. (x.0, x.1.now)) result (command_in backup_forms tokens.now) }
{
    match backup(alloc, tokens) {
        Err(Unread::Other) => {}
        found => return found,
    }
    match backup_logs(tokens) {
        Err(Unread::Other) => {}
        found => return found,
    }
    upkeep(alloc, tokens)
}
