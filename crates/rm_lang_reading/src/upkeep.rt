//! The statements that look after records.
ghost use Rattle.std.specs.Prelude.{◌≡◌, codes};
ghost use Rattle.rm_lang_grammar.specs.{Reading.{Gives, read, one_of, begins}, Forms.{command_by, command_in}};
ghost use Rattle.rm_lang_grammar.specs.Grammar.{◌▸◌, word as word_part, end};
ghost use Rattle.rm_lang_reading.specs.Upkeep.{copy_or_archived, withdrawing, one_or_expired, crosscheck, validate, change, deleting, delete};
ghost use Rattle.rm_lang_reading.specs.{Values.{class_choice, change_choice, deletion_choice}, Language.{upkeep_forms}};

use crate::asking::asking;
use crate::phrases::{after, phrase, words};
use rm_base::Class;
use rm_lang_grammar::Unread;
use rm_lang_grammar::reading::{noise, number, semicolon, word};
use rm_lang_statement::{ChangeTo, Command};
use rm_lang_token::Token;
use std::alloc::Global;

/// What a DELETE names.
#[derive(Clone, Copy, PartialEq, Eq)]
pub enum Deletion {
    Obsolete,
    One(u64),
    Expired(Class),
}

// BACKUP, COPY or ARCHIVELOG ALL.
fn class(tokens: &[Token]) -> Result<(Class, &[Token]), Unread>
    ensures { Gives (λ x. (class_choice x.0, x.1.now)) result (one_of (begins (word_part (codes "BACKUP") ▸ end) tokens.now) (read (word_part (codes "BACKUP") ▸ end) tokens.now) (read copy_or_archived tokens.now)) }
{
    if let Some(rest) = after(tokens, b"BACKUP") {
        return Ok((Class::Backup, rest));
    }
    if let Some(rest) = after(tokens, b"COPY") {
        return Ok((Class::Copy, rest));
    }
    Ok((Class::Archived, words(tokens, &["ARCHIVELOG", "ALL"])?))
}

#[tactic(auto, using(crate::proofs::Parts::parts), unfolding(crate::specs::Upkeep::crosscheck))]
fn crosscheck(tokens: &[Token]) -> Result<(Command, &[Token]), Unread>
    ensures { Gives (λ x. (x.0, x.1.now)) result (command_by crosscheck tokens.now) }
{
    let (class, rest) = class(word(tokens, b"CROSSCHECK")?)?;
    let rest = semicolon(rest)?;
    Ok((Command::Crosscheck { class }, rest))
}

#[tactic(auto, unfolding(crate::specs::Upkeep::validate))]
fn validate(tokens: &[Token]) -> Result<(Command, &[Token]), Unread>
    ensures { Gives (λ x. (x.0, x.1.now)) result (command_by validate tokens.now) }
{
    let rest = phrase(tokens, &["VALIDATE", "ALL"])?;
    Ok((Command::ValidateAll, rest))
}

// AVAILABLE, UNAVAILABLE, UNCATALOG, KEEP FOREVER or NOKEEP.
fn change_to(tokens: &[Token]) -> Result<(ChangeTo, &[Token]), Unread>
    ensures { Gives (λ x. (change_choice x.0, x.1.now)) result (one_of (begins (word_part (codes "AVAILABLE") ▸ end) tokens.now) (read (word_part (codes "AVAILABLE") ▸ end) tokens.now) (read withdrawing tokens.now)) }
{
    if let Some(rest) = after(tokens, b"AVAILABLE") {
        return Ok((ChangeTo::Available, rest));
    }
    if let Some(rest) = after(tokens, b"UNAVAILABLE") {
        return Ok((ChangeTo::Unavailable, rest));
    }
    if let Some(rest) = after(tokens, b"UNCATALOG") {
        return Ok((ChangeTo::Uncatalog, rest));
    }
    if let Some(rest) = after(tokens, b"KEEP") {
        return Ok((ChangeTo::Keep, word(rest, b"FOREVER")?));
    }
    Ok((ChangeTo::NoKeep, word(tokens, b"NOKEEP")?))
}

#[tactic(auto, using(crate::proofs::Parts::parts), unfolding(crate::specs::Upkeep::change))]
fn change(tokens: &[Token]) -> Result<(Command, &[Token]), Unread>
    ensures { Gives (λ x. (x.0, x.1.now)) result (command_by change tokens.now) }
{
    let (id, rest) = number(words(tokens, &["CHANGE", "BACKUP"])?)?;
    let (to, rest) = change_to(rest)?;
    let rest = semicolon(rest)?;
    Ok((Command::ChangeBackup { id, to }, rest))
}

// OBSOLETE, BACKUP n or EXPIRED and a class.
fn what_to_delete(tokens: &[Token]) -> Result<(Deletion, &[Token]), Unread>
    ensures { Gives (λ x. (deletion_choice x.0, x.1.now)) result (one_of (begins (word_part (codes "OBSOLETE") ▸ end) tokens.now) (read (word_part (codes "OBSOLETE") ▸ end) tokens.now) (read one_or_expired tokens.now)) }
{
    if let Some(rest) = after(tokens, b"OBSOLETE") {
        return Ok((Deletion::Obsolete, rest));
    }
    if let Some(rest) = after(tokens, b"BACKUP") {
        let (id, rest) = number(rest)?;
        return Ok((Deletion::One(id), rest));
    }
    let (class, rest) = class(word(tokens, b"EXPIRED")?)?;
    Ok((Deletion::Expired(class), rest))
}

fn deleting(deletion: Deletion) -> Command
    ensures { result ≡ deleting deletion }
{
    match deletion {
        Deletion::Obsolete => Command::DeleteObsolete,
        Deletion::One(id) => Command::DeleteBackup { id },
        Deletion::Expired(class) => Command::DeleteExpired { class },
    }
}

#[tactic(auto, using(crate::proofs::Parts::parts), unfolding(crate::specs::Upkeep::delete))]
fn delete(tokens: &[Token]) -> Result<(Command, &[Token]), Unread>
    ensures { Gives (λ x. (x.0, x.1.now)) result (command_by delete tokens.now) }
{
    let rest = noise(word(tokens, b"DELETE")?, b"NOPROMPT");
    let (deletion, rest) = what_to_delete(rest)?;
    let rest = semicolon(rest)?;
    Ok((deleting(deletion), rest))
}

/// The command at the front by the first form of those that look after records, or of those behind, and what is behind it.
#[tactic(auto, unfolding(crate::specs::Language::upkeep_forms))]
pub fn upkeep(alloc: Global, tokens: &[Token]) -> Result<(Command, &[Token]), Unread>
    ensures { Gives (λ x. (x.0, x.1.now)) result (command_in upkeep_forms tokens.now) }
{
    match crosscheck(tokens) {
        Err(Unread::Other) => {}
        found => return found,
    }
    match validate(tokens) {
        Err(Unread::Other) => {}
        found => return found,
    }
    match change(tokens) {
        Err(Unread::Other) => {}
        found => return found,
    }
    match delete(tokens) {
        Err(Unread::Other) => {}
        found => return found,
    }
    asking(alloc, tokens)
}
