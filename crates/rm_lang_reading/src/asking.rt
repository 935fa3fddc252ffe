//! The statements that ask and answer.
ghost use Rattle.rm_lang_grammar.specs.{Reading.{Gives}, Forms.{command_by, command_in}};
ghost use Rattle.rm_lang_reading.specs.Asking.{report_obsolete, report_need_backup, report_schema, list_incarnation, list_backup, list_copy, list_archived, list_corruption, show, dump};
ghost use Rattle.rm_lang_reading.specs.Language.{asking_forms};

use crate::phrases::{block, phrase};
use crate::settings::setting;
use rm_lang_grammar::Unread;
use rm_lang_statement::Command;
use rm_lang_token::Token;
use std::alloc::Global;

#[tactic(auto, unfolding(crate::specs::Asking::report_obsolete))]
fn report_obsolete(tokens: &[Token]) -> Result<(Command, &[Token]), Unread>
    ensures { Gives (λ x. (x.0, x.1.now)) result (command_by report_obsolete tokens.now) }
{
    let rest = phrase(tokens, &["REPORT", "OBSOLETE"])?;
    Ok((Command::ReportObsolete, rest))
}

#[tactic(auto, unfolding(crate::specs::Asking::report_need_backup))]
fn report_need_backup(tokens: &[Token]) -> Result<(Command, &[Token]), Unread>
    ensures { Gives (λ x. (x.0, x.1.now)) result (command_by report_need_backup tokens.now) }
{
    let rest = phrase(tokens, &["REPORT", "NEED", "BACKUP"])?;
    Ok((Command::ReportNeedBackup, rest))
}

#[tactic(auto, unfolding(crate::specs::Asking::report_schema))]
fn report_schema(tokens: &[Token]) -> Result<(Command, &[Token]), Unread>
    ensures { Gives (λ x. (x.0, x.1.now)) result (command_by report_schema tokens.now) }
{
    let rest = phrase(tokens, &["REPORT", "SCHEMA"])?;
    Ok((Command::ReportSchema, rest))
}

#[tactic(auto, unfolding(crate::specs::Asking::list_incarnation))]
fn list_incarnation(tokens: &[Token]) -> Result<(Command, &[Token]), Unread>
    ensures { Gives (λ x. (x.0, x.1.now)) result (command_by list_incarnation tokens.now) }
{
    let rest = phrase(tokens, &["LIST", "INCARNATION"])?;
    Ok((Command::ListIncarnation, rest))
}

#[tactic(auto, unfolding(crate::specs::Asking::list_backup))]
fn list_backup(tokens: &[Token]) -> Result<(Command, &[Token]), Unread>
    ensures { Gives (λ x. (x.0, x.1.now)) result (command_by list_backup tokens.now) }
{
    let rest = phrase(tokens, &["LIST", "BACKUP"])?;
    Ok((Command::ListBackup, rest))
}

#[tactic(auto, unfolding(crate::specs::Asking::list_copy))]
fn list_copy(tokens: &[Token]) -> Result<(Command, &[Token]), Unread>
    ensures { Gives (λ x. (x.0, x.1.now)) result (command_by list_copy tokens.now) }
{
    let rest = phrase(tokens, &["LIST", "COPY"])?;
    Ok((Command::ListCopy, rest))
}

#[tactic(auto, unfolding(crate::specs::Asking::list_archived))]
fn list_archived(tokens: &[Token]) -> Result<(Command, &[Token]), Unread>
    ensures { Gives (λ x. (x.0, x.1.now)) result (command_by list_archived tokens.now) }
{
    let rest = phrase(tokens, &["LIST", "ARCHIVELOG", "ALL"])?;
    Ok((Command::ListArchived, rest))
}

#[tactic(auto, unfolding(crate::specs::Asking::list_corruption))]
fn list_corruption(tokens: &[Token]) -> Result<(Command, &[Token]), Unread>
    ensures { Gives (λ x. (x.0, x.1.now)) result (command_by list_corruption tokens.now) }
{
    let rest = phrase(tokens, &["LIST", "CORRUPTION"])?;
    Ok((Command::ListCorruption, rest))
}

#[tactic(auto, unfolding(crate::specs::Asking::show))]
fn show(tokens: &[Token]) -> Result<(Command, &[Token]), Unread>
    ensures { Gives (λ x. (x.0, x.1.now)) result (command_by show tokens.now) }
{
    let rest = phrase(tokens, &["SHOW", "ALL"])?;
    Ok((Command::ShowAll, rest))
}

#[tactic(auto, unfolding(crate::specs::Asking::dump))]
fn dump(tokens: &[Token]) -> Result<(Command, &[Token]), Unread>
    ensures { Gives (λ x. (x.0, x.1.now)) result (command_by dump tokens.now) }
{
    let ((file, block), rest) = block(tokens, &["DUMP", "DATAFILE"])?;
    Ok((Command::Dump { file, block }, rest))
}

/// The command at the front by the first form of those that ask and answer, or of those behind, and what is behind it.
#[tactic(auto, unfolding(crate::specs::Language::asking_forms))]
pub fn asking(alloc: Global, tokens: &[Token]) -> Result<(Command, &[Token]), Unread>
    ensures { Gives (λ x. (x.0, x.1.now)) result (command_in asking_forms tokens.now) }
{
    match report_obsolete(tokens) {
        Err(Unread::Other) => {}
        found => return found,
    }
    match report_need_backup(tokens) {
        Err(Unread::Other) => {}
        found => return found,
    }
    match report_schema(tokens) {
        Err(Unread::Other) => {}
        found => return found,
    }
    match list_incarnation(tokens) {
        Err(Unread::Other) => {}
        found => return found,
    }
    match list_backup(tokens) {
        Err(Unread::Other) => {}
        found => return found,
    }
    match list_copy(tokens) {
        Err(Unread::Other) => {}
        found => return found,
    }
    match list_archived(tokens) {
        Err(Unread::Other) => {}
        found => return found,
    }
    match list_corruption(tokens) {
        Err(Unread::Other) => {}
        found => return found,
    }
    match show(tokens) {
        Err(Unread::Other) => {}
        found => return found,
    }
    match dump(tokens) {
        Err(Unread::Other) => {}
        found => return found,
    }
    setting(alloc, tokens)
}
