//! Why RECOVER COPY is refused by the state alone.
ghost use Rattle.std.specs.{Prelude.{◌≡◌, IfOk}, List.{list_any}};
ghost use Rattle.rm_machine.specs.RecoverCopy.{copy_refusal_at, is_copy_with, recover_copy_refusal, tag_refusal, targetless_refusal};
ghost use Rattle.rm_machine.specs.{Sound.{IsSound}, State.{ledger}};

use rm_base::{NoMemory, Refusal, Scn, Status, Text, Unknown};
use rm_catalog::PieceEntry;
use rm_lang_statement::Until;
use rm_machine::State;
use rm_machine::room::ids_refusal;
use rm_machine::until::{nowhere_refusal, range_refusal, recover_target, thread_refusal};
use std::alloc::Global;

// Whether the record is one of an image copy with the tag that counts as available.
fn is_copy_with(tag: &str, piece: &PieceEntry) -> bool
    ensures { result ≡ is_copy_with tag.now piece.now }
{
    piece.copy && piece.tag.as_str() == tag && piece.status == Status::Available
}

// Whether such a record is there.
fn has_copy_with(state: &State, tag: &str) -> bool
    ensures { result ≡ list_any (is_copy_with tag.now) (ledger state.now).pieces }
{
    let pieces = state.catalog.pieces();
    pieces.iter().any(|piece| is_copy_with(tag, piece))
}

// Why a tag is refused that no such record has: too few ids are left, or since it has none.
fn tag_refusal(alloc: Global, state: &State, tag: &str) -> Result<Option<Refusal>, NoMemory>
    requires sound { IsSound state.now }
    ensures { IfOk result (λ o. o ≡ tag_refusal state.now tag.now) }
{
    if has_copy_with(state, tag) {
        return Ok(None);
    }
    if let Some(refusal) = ids_refusal(state) {
        return Ok(Some(refusal));
    }
    let tag = Text::from_string(String::from_str(alloc, tag)?);
    Ok(Some(Refusal::Rm12(Unknown::Tag(tag))))
}

// Why it is refused without a target, before that is told: too few ids are left, or by the tag.
fn targetless_refusal(alloc: Global, state: &State, tag: &str) -> Result<Option<Refusal>, NoMemory>
    requires sound { IsSound state.now }
    ensures { IfOk result (λ o. o ≡ targetless_refusal state.now tag.now) }
{
    match ids_refusal(state) {
        Some(refusal) => Ok(Some(refusal)),
        None => tag_refusal(alloc, state, tag),
    }
}

// Why a target is refused: it is out of range, or by the tag.
fn copy_refusal_at(
    alloc: Global,
    state: &State,
    tag: &str,
    at: Scn,
) -> Result<Option<Refusal>, NoMemory>
    requires sound { IsSound state.now }
    ensures { IfOk result (λ o. o ≡ copy_refusal_at state.now tag.now at) }
{
    match range_refusal(state.catalog.tree(), state.catalog.base().current, at) {
        Some(refusal) => Ok(Some(refusal)),
        None => tag_refusal(alloc, state, tag),
    }
}

/// Why RECOVER COPY is refused by the state alone, if it is: the redo thread of its UNTIL is not there (RM-05), its
/// target is out of the range of the current incarnation (RM-06), no record of an image copy with the tag counts as
/// available (RM-12), or its UNTIL leads nowhere (RM-12, RM-14). Where one of the last two is so, too few object ids
/// (RM-11) come before it; else the copies that change say what limit is passed. An error is want of memory.
pub fn recover_copy_refusal(
    alloc: Global,
    state: &State,
    tag: &str,
    until: &Option<Until>,
) -> Result<Option<Refusal>, NoMemory>
    requires sound { IsSound state.now }
    ensures value { IfOk result (λ o. o ≡ recover_copy_refusal state.now tag.now until.now) }
{
    if let Some(refusal) = thread_refusal(state, until) {
        return Ok(Some(refusal));
    }
    if let Some(at) = recover_target(state, until) {
        return copy_refusal_at(alloc, state, tag, at);
    }
    match targetless_refusal(alloc, state, tag)? {
        Some(refusal) => Ok(Some(refusal)),
        None => Ok(nowhere_refusal(state, until)),
    }
}
