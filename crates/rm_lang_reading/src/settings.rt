//! The statements that set something.
ghost use Rattle.rm_lang_grammar.specs.{Reading.{Gives, begins, read, one_of}, Forms.{command_by, command_in}};
ghost use Rattle.rm_lang_grammar.specs.Grammar.{◌▸◌, word as word_part, end};
ghost use Rattle.rm_lang_reading.specs.{Settings.{policy_part, retention, parallelism, catalog}, Values.{retention_choice}};
ghost use Rattle.rm_lang_reading.specs.Language.{setting_forms};
ghost use Rattle.std.specs.Prelude.{codes};

use crate::mishaps::mishap;
use crate::phrases::{after, counted, words};
use crate::texts::plain;
use rm_lang_grammar::Unread;
use rm_lang_grammar::reading::{number_in, semicolon, word};
use rm_lang_statement::{Command, RetentionForm};
use rm_lang_token::Token;
use std::alloc::Global;

// TO RECOVERY WINDOW OF n DAYS, TO REDUNDANCY n, TO NONE or CLEAR.
fn policy(tokens: &[Token]) -> Result<(RetentionForm, &[Token]), Unread>
    ensures { Gives (λ x. (retention_choice x.0, x.1.now)) result (one_of (begins policy_part tokens.now) (read policy_part tokens.now) (read (word_part (codes "CLEAR") ▸ end) tokens.now)) }
{
    let Some(rest) = after(tokens, b"TO") else {
        return Ok((RetentionForm::Clear, word(tokens, b"CLEAR")?));
    };
    if let Some(rest) = after(rest, b"RECOVERY") {
        let (days, rest) = number_in(words(rest, &["WINDOW", "OF"])?, 1, u64::MAX)?;
        return Ok((RetentionForm::Window(days), word(rest, b"DAYS")?));
    }
    if let Some(rest) = after(rest, b"REDUNDANCY") {
        let (count, rest) = number_in(rest, 1, u64::MAX)?;
        return Ok((RetentionForm::Redundancy(count), rest));
    }
    Ok((RetentionForm::Nothing, word(rest, b"NONE")?))
}

#[tactic(auto, using(crate::proofs::Parts::parts), unfolding(crate::specs::Settings::retention))]
fn retention(tokens: &[Token]) -> Result<(Command, &[Token]), Unread>
    ensures { Gives (λ x. (x.0, x.1.now)) result (command_by retention tokens.now) }
{
    let rest = words(tokens, &["CONFIGURE", "RETENTION", "POLICY"])?;
    let (form, rest) = policy(rest)?;
    let rest = semicolon(rest)?;
    Ok((Command::Retention(form), rest))
}

#[tactic(auto, unfolding(crate::specs::Settings::parallelism))]
fn parallelism(tokens: &[Token]) -> Result<(Command, &[Token]), Unread>
    ensures { Gives (λ x. (x.0, x.1.now)) result (command_by parallelism tokens.now) }
{
    let (channels, rest) = counted(
        tokens,
        &["CONFIGURE", "DEVICE", "TYPE", "DISK", "PARALLELISM"],
    )?;
    Ok((Command::Parallelism { channels }, rest))
}

#[tactic(auto, unfolding(crate::specs::Settings::catalog))]
fn catalog(alloc: Global, tokens: &[Token]) -> Result<(Command, &[Token]), Unread>
    ensures { Gives (λ x. (x.0, x.1.now)) result (command_by catalog tokens.now) }
{
    let (name, rest) = plain(alloc, word(tokens, b"CATALOG")?)?;
    let rest = semicolon(rest)?;
    Ok((Command::CatalogName { name }, rest))
}

/// The command at the front by the first form of those that set something, or of those behind, and what is behind it.
#[tactic(auto, unfolding(crate::specs::Language::setting_forms))]
pub fn setting(alloc: Global, tokens: &[Token]) -> Result<(Command, &[Token]), Unread>
    ensures { Gives (λ x. (x.0, x.1.now)) result (command_in setting_forms tokens.now) }
{
    match retention(tokens) {
        Err(Unread::Other) => {}
        found => return found,
    }
    match parallelism(tokens) {
        Err(Unread::Other) => {}
        found => return found,
    }
    match catalog(alloc, tokens) {
        Err(Unread::Other) => {}
        found => return found,
    }
    mishap(alloc, tokens)
}
