//! The statements that restore and recover.
ghost use Rattle.std.specs.{Prelude.{◌≡◌}, Option.{option_map}};
ghost use Rattle.rm_lang_grammar.specs.{Reading.{Gives, read, maybe, one_of, begins}, Forms.{command_by, command_in}};
ghost use Rattle.rm_lang_reading.specs.Recovering.{scn_part, log_or_time, until_line, incarnation_line, restoring, restore, restore_datafile, recovery, recover, recover_copy};
ghost use Rattle.rm_lang_reading.specs.{Values.{until_choice, until_values, incarnation_values}, Language.{recovery_forms}};

use crate::phrases::{after, words};
use crate::repairs::repairing;
use crate::texts::time;
use rm_lang_grammar::Unread;
use rm_lang_grammar::reading::{flag, number, number_or, semicolon, tag, word};
use rm_lang_statement::{Command, Until};
use rm_lang_token::Token;
use std::alloc::Global;

/// What stands behind the UNTIL: SCN n, SEQUENCE n [THREAD n] or TIME 't'.
pub fn point(alloc: Global, tokens: &[Token]) -> Result<(Until, &[Token]), Unread>
    ensures { Gives (λ x. (until_choice x.0, x.1.now)) result (one_of (begins scn_part tokens.now) (read scn_part tokens.now) (read log_or_time tokens.now)) }
{
    if let Some(rest) = after(tokens, b"SCN") {
        let (scn, rest) = number(rest)?;
        return Ok((Until::Scn(scn), rest));
    }
    if let Some(rest) = after(tokens, b"SEQUENCE") {
        let (sequence, rest) = number(rest)?;
        let (thread, rest) = number_or(rest, b"THREAD", 1)?;
        return Ok((Until::Sequence { sequence, thread }, rest));
    }
    let (text, rest) = time(alloc, word(tokens, b"TIME")?)?;
    Ok((Until::Time(text), rest))
}

// An UNTIL, or nothing.
fn optional_until(alloc: Global, tokens: &[Token]) -> Result<(Option<Until>, &[Token]), Unread>
    ensures { Gives (λ x. (option_map until_values x.0, x.1.now)) result (maybe (begins until_line tokens.now) (read until_line tokens.now) tokens.now) }
{
    let Some(rest) = after(tokens, b"UNTIL") else {
        return Ok((None, tokens));
    };
    let (until, rest) = point(alloc, rest)?;
    Ok((Some(until), rest))
}

// The restoring of the database, or its preview.
fn restoring(until: Option<Until>, preview: bool) -> Command
    ensures { result ≡ restoring until preview }
{
    if preview {
        Command::Preview { until }
    } else {
        Command::Restore { file: None, until }
    }
}

#[tactic(auto, using(crate::proofs::Parts::parts), unfolding(crate::specs::Recovering::restore))]
fn restore(alloc: Global, tokens: &[Token]) -> Result<(Command, &[Token]), Unread>
    ensures { Gives (λ x. (x.0, x.1.now)) result (command_by restore tokens.now) }
{
    let rest = words(tokens, &["RESTORE", "DATABASE"])?;
    let (until, rest) = optional_until(alloc, rest)?;
    let (preview, rest) = flag(rest, b"PREVIEW");
    let rest = semicolon(rest)?;
    Ok((restoring(until, preview), rest))
}

#[tactic(auto, using(crate::proofs::Parts::parts), unfolding(crate::specs::Recovering::restore_datafile))]
fn restore_datafile(alloc: Global, tokens: &[Token]) -> Result<(Command, &[Token]), Unread>
    ensures { Gives (λ x. (x.0, x.1.now)) result (command_by restore_datafile tokens.now) }
{
    let (file, rest) = number(words(tokens, &["RESTORE", "DATAFILE"])?)?;
    let (until, rest) = optional_until(alloc, rest)?;
    let rest = semicolon(rest)?;
    let command = Command::Restore {
        file: Some(file),
        until,
    };
    Ok((command, rest))
}

// INCARNATION n, or nothing.
fn optional_incarnation(tokens: &[Token]) -> Result<(Option<u64>, &[Token]), Unread>
    ensures { Gives (λ x. (option_map incarnation_values x.0, x.1.now)) result (maybe (begins incarnation_line tokens.now) (read incarnation_line tokens.now) tokens.now) }
{
    let Some(rest) = after(tokens, b"INCARNATION") else {
        return Ok((None, tokens));
    };
    let (inc, rest) = number(rest)?;
    Ok((Some(inc), rest))
}

// An incarnation stands with TEST only.
fn recovery(until: Option<Until>, inc: Option<u64>, test: bool) -> Result<Command, Unread>
    ensures { Gives (λ x. x) result (recovery until inc test) }
{
    if test {
        return Ok(Command::RecoverTest { until, inc });
    }
    match inc {
        None => Ok(Command::Recover { until }),
        Some(_) => Err(Unread::Other),
    }
}

#[tactic(auto, using(crate::proofs::Parts::parts), unfolding(crate::specs::Recovering::recover))]
fn recover(alloc: Global, tokens: &[Token]) -> Result<(Command, &[Token]), Unread>
    ensures { Gives (λ x. (x.0, x.1.now)) result (command_by recover tokens.now) }
{
    let rest = words(tokens, &["RECOVER", "DATABASE"])?;
    let (until, rest) = optional_until(alloc, rest)?;
    let (inc, rest) = optional_incarnation(rest)?;
    let (test, rest) = flag(rest, b"TEST");
    let rest = semicolon(rest)?;
    Ok((recovery(until, inc, test)?, rest))
}

#[tactic(auto, using(crate::proofs::Parts::parts), unfolding(crate::specs::Recovering::recover_copy))]
fn recover_copy(alloc: Global, tokens: &[Token]) -> Result<(Command, &[Token]), Unread>
    ensures { Gives (λ x. (x.0, x.1.now)) result (command_by recover_copy tokens.now) }
{
    let rest = words(tokens, &["RECOVER", "COPY", "OF", "DATABASE", "WITH"])?;
    let (tag, rest) = tag(alloc, rest)?;
    let (until, rest) = optional_until(alloc, rest)?;
    let rest = semicolon(rest)?;
    Ok((Command::RecoverCopy { tag, until }, rest))
}

/// The command at the front by the first form of those that restore and recover, or of those behind, and what is behind it.
#[tactic(auto, unfolding(crate::specs::Language::recovery_forms))]
pub fn recovering(alloc: Global, tokens: &[Token]) -> Result<(Command, &[Token]), Unread>
    ensures { Gives (λ x. (x.0, x.1.now)) result (command_in recovery_forms tokens.now) }
{
    match restore(alloc, tokens) {
        Err(Unread::Other) => {}
        found => return found,
    }
    match restore_datafile(alloc, tokens) {
        Err(Unread::Other) => {}
        found => return found,
    }
    match recover(alloc, tokens) {
        Err(Unread::Other) => {}
        found => return found,
    }
    match recover_copy(alloc, tokens) {
        Err(Unread::Other) => {}
        found => return found,
    }
    repairing(alloc, tokens)
}
