//! The statements that make a database and change it.
ghost use Rattle.rm_lang_grammar.specs.{Reading.{Gives, read}, Forms.{command_by, command_in}};
ghost use Rattle.rm_lang_reading.specs.Creating.{create_database, write_part, write, create_datafile, switch_logfile, archive_log, track, untrack, enable_thread, disable_thread};
ghost use Rattle.rm_lang_reading.specs.{Values.{write_values}, Language.{switch_forms, forms}};

use crate::modes::mode;
use crate::phrases::{counted, numbered, phrase, words};
use rm_base::{Block, LAST_SCN};
use rm_lang_grammar::Unread;
use rm_lang_grammar::reading::{number, number_in_or, number_or, semicolon, string, word};
use rm_lang_statement::{Command, WriteForm};
use rm_lang_token::Token;
use std::alloc::Global;

#[tactic(auto, unfolding(crate::specs::Creating::create_database))]
fn create_database(tokens: &[Token]) -> Result<(Command, &[Token]), Unread>
    ensures { Gives (λ x. (x.0, x.1.now)) result (command_by create_database tokens.now) }
{
    let rest = words(tokens, &["CREATE", "DATABASE"])?;
    let (dbid, rest) = number_in_or(rest, b"DBID", 1, 1, u32::MAX as u64)?;
    let (threads, rest) = number_in_or(rest, b"THREADS", 1, 1, u64::MAX)?;
    let (scn, rest) = number_in_or(rest, b"SCN", 1, 1, LAST_SCN)?;
    let rest = semicolon(rest)?;
    let command = Command::CreateDatabase {
        dbid: dbid as u32,
        threads,
        scn,
    };
    Ok((command, rest))
}

/// What stands behind the WRITE.
pub fn write_part(tokens: &[Token]) -> Result<(WriteForm, &[Token]), Unread>
    ensures { Gives (λ x. (write_values x.0, x.1.now)) result (read write_part tokens.now) }
{
    let (thread, rest) = number_or(tokens, b"THREAD", 1)?;
    let (file, rest) = number(word(rest, b"DATAFILE")?)?;
    let (block, rest) = number(word(rest, b"BLOCK")?)?;
    let (text, rest) = string(word(rest, b"VALUE")?)?;
    let rest = semicolon(rest)?;
    let form = WriteForm {
        thread,
        file,
        block,
        content: Block::padded(text),
    };
    Ok((form, rest))
}

#[tactic(auto, unfolding(crate::specs::Creating::write))]
fn write(tokens: &[Token]) -> Result<(Command, &[Token]), Unread>
    ensures { Gives (λ x. (x.0, x.1.now)) result (command_by write tokens.now) }
{
    let (form, rest) = write_part(word(tokens, b"WRITE")?)?;
    Ok((Command::Write(form), rest))
}

#[tactic(auto, unfolding(crate::specs::Creating::create_datafile))]
fn create_datafile(tokens: &[Token]) -> Result<(Command, &[Token]), Unread>
    ensures { Gives (λ x. (x.0, x.1.now)) result (command_by create_datafile tokens.now) }
{
    let (blocks, rest) = counted(tokens, &["CREATE", "DATAFILE", "BLOCKS"])?;
    Ok((Command::CreateDatafile { blocks }, rest))
}

#[tactic(auto, unfolding(crate::specs::Creating::switch_logfile))]
fn switch_logfile(tokens: &[Token]) -> Result<(Command, &[Token]), Unread>
    ensures { Gives (λ x. (x.0, x.1.now)) result (command_by switch_logfile tokens.now) }
{
    let rest = words(tokens, &["ALTER", "SYSTEM", "SWITCH", "LOGFILE"])?;
    let (thread, rest) = number_or(rest, b"THREAD", 1)?;
    let rest = semicolon(rest)?;
    Ok((Command::SwitchLogfile { thread }, rest))
}

#[tactic(auto, unfolding(crate::specs::Creating::archive_log))]
fn archive_log(tokens: &[Token]) -> Result<(Command, &[Token]), Unread>
    ensures { Gives (λ x. (x.0, x.1.now)) result (command_by archive_log tokens.now) }
{
    let rest = phrase(tokens, &["ALTER", "SYSTEM", "ARCHIVE", "LOG", "CURRENT"])?;
    Ok((Command::ArchiveLogCurrent, rest))
}

#[tactic(auto, unfolding(crate::specs::Creating::track))]
fn track(tokens: &[Token]) -> Result<(Command, &[Token]), Unread>
    ensures { Gives (λ x. (x.0, x.1.now)) result (command_by track tokens.now) }
{
    let rest = phrase(
        tokens,
        &["ALTER", "DATABASE", "ENABLE", "BLOCK", "CHANGE", "TRACKING"],
    )?;
    Ok((Command::Tracking { on: true }, rest))
}

#[tactic(auto, unfolding(crate::specs::Creating::untrack))]
fn untrack(tokens: &[Token]) -> Result<(Command, &[Token]), Unread>
    ensures { Gives (λ x. (x.0, x.1.now)) result (command_by untrack tokens.now) }
{
    let rest = phrase(
        tokens,
        &[
            "ALTER", "DATABASE", "DISABLE", "BLOCK", "CHANGE", "TRACKING",
        ],
    )?;
    Ok((Command::Tracking { on: false }, rest))
}

#[tactic(auto, unfolding(crate::specs::Creating::enable_thread))]
fn enable_thread(tokens: &[Token]) -> Result<(Command, &[Token]), Unread>
    ensures { Gives (λ x. (x.0, x.1.now)) result (command_by enable_thread tokens.now) }
{
    let (thread, rest) = numbered(tokens, &["ALTER", "DATABASE", "ENABLE", "THREAD"])?;
    Ok((Command::SwitchThread { thread, on: true }, rest))
}

#[tactic(auto, unfolding(crate::specs::Creating::disable_thread))]
fn disable_thread(tokens: &[Token]) -> Result<(Command, &[Token]), Unread>
    ensures { Gives (λ x. (x.0, x.1.now)) result (command_by disable_thread tokens.now) }
{
    let (thread, rest) = numbered(tokens, &["ALTER", "DATABASE", "DISABLE", "THREAD"])?;
    Ok((Command::SwitchThread { thread, on: false }, rest))
}

// The command at the front by the first form of those that switch something on or off, or of those behind, and what is behind it.
#[tactic(auto, unfolding(crate::specs::Language::switch_forms))]
fn switching(alloc: Global, tokens: &[Token]) -> Result<(Command, &[Token]), Unread>
    ensures { Gives (λ x. (x.0, x.1.now)) result (command_in switch_forms tokens.now) }
{
    match track(tokens) {
        Err(Unread::Other) => {}
        found => return found,
    }
    match untrack(tokens) {
        Err(Unread::Other) => {}
        found => return found,
    }
    match enable_thread(tokens) {
        Err(Unread::Other) => {}
        found => return found,
    }
    match disable_thread(tokens) {
        Err(Unread::Other) => {}
        found => return found,
    }
    mode(alloc, tokens)
}

/// The command at the front by the first form of those that create and write, or of those behind, and what is behind it.
#[tactic(auto, unfolding(crate::specs::Language::forms))]
pub fn creating(alloc: Global, tokens: &[Token]) -> Result<(Command, &[Token]), Unread>
    ensures { Gives (λ x. (x.0, x.1.now)) result (command_in forms tokens.now) }
{
    match create_database(tokens) {
        Err(Unread::Other) => {}
        found => return found,
    }
    match write(tokens) {
        Err(Unread::Other) => {}
        found => return found,
    }
    match create_datafile(tokens) {
        Err(Unread::Other) => {}
        found => return found,
    }
    match switch_logfile(tokens) {
        Err(Unread::Other) => {}
        found => return found,
    }
    match archive_log(tokens) {
        Err(Unread::Other) => {}
        found => return found,
    }
    switching(alloc, tokens)
}
