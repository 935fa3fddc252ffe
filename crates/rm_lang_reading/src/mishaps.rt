//! The statements that stand for what may befall the devices.
ghost use Rattle.rm_lang_grammar.specs.{Reading.{Gives}, Forms.{command_by, command_in}};
ghost use Rattle.rm_lang_reading.specs.{Mishaps.{lose_datafile, lose_log, corrupt, remove, damage, cut, rename}, Language.{mishap_forms}};

use crate::phrases::{block, numbered, words};
use crate::texts::{new_name, plain};
use rm_lang_grammar::Unread;
use rm_lang_grammar::reading::{number, semicolon, word};
use rm_lang_statement::Command;
use rm_lang_token::Token;
use std::alloc::Global;

#[tactic(auto, unfolding(crate::specs::Mishaps::lose_datafile))]
fn lose_datafile(tokens: &[Token]) -> Result<(Command, &[Token]), Unread>
    ensures { Gives (λ x. (x.0, x.1.now)) result (command_by lose_datafile tokens.now) }
{
    let (file, rest) = numbered(tokens, &["HOST", "LOSE", "DATAFILE"])?;
    Ok((Command::LoseDatafile { file }, rest))
}

#[tactic(auto, unfolding(crate::specs::Mishaps::lose_log))]
fn lose_log(tokens: &[Token]) -> Result<(Command, &[Token]), Unread>
    ensures { Gives (λ x. (x.0, x.1.now)) result (command_by lose_log tokens.now) }
{
    let (thread, rest) = numbered(tokens, &["HOST", "LOSE", "LOG", "THREAD"])?;
    Ok((Command::LoseLog { thread }, rest))
}

#[tactic(auto, unfolding(crate::specs::Mishaps::corrupt))]
fn corrupt(tokens: &[Token]) -> Result<(Command, &[Token]), Unread>
    ensures { Gives (λ x. (x.0, x.1.now)) result (command_by corrupt tokens.now) }
{
    let ((file, block), rest) = block(tokens, &["HOST", "CORRUPT", "DATAFILE"])?;
    Ok((Command::Corrupt { file, block }, rest))
}

#[tactic(auto, unfolding(crate::specs::Mishaps::remove))]
fn remove(alloc: Global, tokens: &[Token]) -> Result<(Command, &[Token]), Unread>
    ensures { Gives (λ x. (x.0, x.1.now)) result (command_by remove tokens.now) }
{
    let (name, rest) = plain(alloc, words(tokens, &["HOST", "REMOVE"])?)?;
    let rest = semicolon(rest)?;
    Ok((Command::Remove { name }, rest))
}

#[tactic(auto, unfolding(crate::specs::Mishaps::damage))]
fn damage(alloc: Global, tokens: &[Token]) -> Result<(Command, &[Token]), Unread>
    ensures { Gives (λ x. (x.0, x.1.now)) result (command_by damage tokens.now) }
{
    let (name, rest) = plain(alloc, words(tokens, &["HOST", "DAMAGE"])?)?;
    let (at, rest) = number(word(rest, b"AT")?)?;
    let rest = semicolon(rest)?;
    Ok((Command::Damage { name, at }, rest))
}

#[tactic(auto, unfolding(crate::specs::Mishaps::cut))]
fn cut(alloc: Global, tokens: &[Token]) -> Result<(Command, &[Token]), Unread>
    ensures { Gives (λ x. (x.0, x.1.now)) result (command_by cut tokens.now) }
{
    let (name, rest) = plain(alloc, words(tokens, &["HOST", "CUT"])?)?;
    let (to, rest) = number(word(rest, b"TO")?)?;
    let rest = semicolon(rest)?;
    Ok((Command::Cut { name, to }, rest))
}

#[tactic(auto, unfolding(crate::specs::Mishaps::rename))]
fn rename(alloc: Global, tokens: &[Token]) -> Result<(Command, &[Token]), Unread>
    ensures { Gives (λ x. (x.0, x.1.now)) result (command_by rename tokens.now) }
{
    let (old, rest) = plain(alloc, words(tokens, &["HOST", "RENAME"])?)?;
    let (new_name, rest) = new_name(alloc, word(rest, b"TO")?)?;
    let rest = semicolon(rest)?;
    Ok((Command::Rename { old, new_name }, rest))
}

/// The command at the front by the first form of those that stand for what may befall the devices, and what is behind it.
#[tactic(auto, unfolding(crate::specs::Language::mishap_forms))]
pub fn mishap(alloc: Global, tokens: &[Token]) -> Result<(Command, &[Token]), Unread>
    ensures { Gives (λ x. (x.0, x.1.now)) result (command_in mishap_forms tokens.now) }
{
    match lose_datafile(tokens) {
        Err(Unread::Other) => {}
        found => return found,
    }
    match lose_log(tokens) {
        Err(Unread::Other) => {}
        found => return found,
    }
    match corrupt(tokens) {
        Err(Unread::Other) => {}
        found => return found,
    }
    match remove(alloc, tokens) {
        Err(Unread::Other) => {}
        found => return found,
    }
    match damage(alloc, tokens) {
        Err(Unread::Other) => {}
        found => return found,
    }
    match cut(alloc, tokens) {
        Err(Unread::Other) => {}
        found => return found,
    }
    rename(alloc, tokens)
}
