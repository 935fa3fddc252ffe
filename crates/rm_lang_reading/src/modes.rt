//! The statements that change the mode.
ghost use Rattle.std.specs.Prelude.{◌≡◌};
ghost use Rattle.rm_lang_grammar.specs.{Reading.{Gives}, Forms.{command_by, command_in}};
ghost use Rattle.rm_lang_reading.specs.{Modes.{shutdown, startup, reset_database, open_database, open_command}, Language.{mode_forms}};

use crate::phrases::{numbered, words};
use crate::recovering::recovering;
use rm_lang_grammar::Unread;
use rm_lang_grammar::reading::{flag, noise, semicolon, word};
use rm_lang_statement::Command;
use rm_lang_token::Token;
use std::alloc::Global;

#[tactic(auto, unfolding(crate::specs::Modes::shutdown))]
fn shutdown(tokens: &[Token]) -> Result<(Command, &[Token]), Unread>
    ensures { Gives (λ x. (x.0, x.1.now)) result (command_by shutdown tokens.now) }
{
    let rest = noise(word(tokens, b"SHUTDOWN")?, b"IMMEDIATE");
    let rest = semicolon(rest)?;
    Ok((Command::Mount, rest))
}

#[tactic(auto, unfolding(crate::specs::Modes::startup))]
fn startup(tokens: &[Token]) -> Result<(Command, &[Token]), Unread>
    ensures { Gives (λ x. (x.0, x.1.now)) result (command_by startup tokens.now) }
{
    let rest = noise(word(tokens, b"STARTUP")?, b"FORCE");
    let rest = semicolon(word(rest, b"MOUNT")?)?;
    Ok((Command::Mount, rest))
}

#[tactic(auto, unfolding(crate::specs::Modes::reset_database))]
fn reset_database(tokens: &[Token]) -> Result<(Command, &[Token]), Unread>
    ensures { Gives (λ x. (x.0, x.1.now)) result (command_by reset_database tokens.now) }
{
    let (inc, rest) = numbered(tokens, &["RESET", "DATABASE", "TO", "INCARNATION"])?;
    Ok((Command::ResetDatabase { inc }, rest))
}

// The open_command with or without RESETLOGS.
fn open_command(resetlogs: bool) -> Command
    ensures { result ≡ open_command resetlogs }
{
    if resetlogs {
        Command::OpenResetlogs
    } else {
        Command::OpenPlain
    }
}

#[tactic(auto, unfolding(crate::specs::Modes::open_database))]
fn open_database(tokens: &[Token]) -> Result<(Command, &[Token]), Unread>
    ensures { Gives (λ x. (x.0, x.1.now)) result (command_by open_database tokens.now) }
{
    let rest = words(tokens, &["ALTER", "DATABASE", "OPEN"])?;
    let (resetlogs, rest) = flag(rest, b"RESETLOGS");
    let rest = semicolon(rest)?;
    Ok((open_command(resetlogs), rest))
}

/// The command at the front by the first form of those of modes, or of those behind, and what is behind it.
#[tactic(auto, unfolding(crate::specs::Language::mode_forms))]
pub fn mode(alloc: Global, tokens: &[Token]) -> Result<(Command, &[Token]), Unread>
    ensures { Gives (λ x. (x.0, x.1.now)) result (command_in mode_forms tokens.now) }
{
    match shutdown(tokens) {
        Err(Unread::Other) => {}
        found => return found,
    }
    match startup(tokens) {
        Err(Unread::Other) => {}
        found => return found,
    }
    match reset_database(tokens) {
        Err(Unread::Other) => {}
        found => return found,
    }
    match open_database(tokens) {
        Err(Unread::Other) => {}
        found => return found,
    }
    recovering(alloc, tokens)
}
