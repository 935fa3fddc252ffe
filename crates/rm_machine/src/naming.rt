//! The names of the objects of records.
ghost use Rattle.std.specs.Prelude.{◌≡◌, ◌==◌, ◌++◌, OnOk, filter, map};
ghost use Rattle.rm_evidence.specs.Names.{log_name, piece_name, set_name};
ghost use Rattle.rm_machine.specs.{Sound.{IsSound}, State.{ledger}, Upkeep.{names_at}};

use crate::state::State;
use rm_base::{NoMemory, Seq, Text};
use rm_evidence::{log_name, piece_name, set_name};
use std::alloc::Global;

// Adds the name of the log of an id, if there is one.
fn push_log_name(
    alloc: Global,
    state: &State,
    id: u32,
    names: &mut Seq<Text>,
) -> Result<(), NoMemory>
    requires sound { IsSound state.now }
    ensures { OnOk result (names.new ≡ names.old ++ map (λ e. log_name e.id) (filter (λ e. e.id == id) (ledger state.now).logs)) }
{
    match state.catalog.log(id) {
        Some(log) => names.push(log_name(alloc, log.id)?),
        None => Ok(()),
    }
}

// Adds the name of the piece of an id, if there is one.
fn push_piece_name(
    alloc: Global,
    state: &State,
    id: u32,
    names: &mut Seq<Text>,
) -> Result<(), NoMemory>
    requires sound { IsSound state.now }
    ensures { OnOk result (names.new ≡ names.old ++ map (λ p. piece_name p.copy p.id) (filter (λ p. p.id == id) (ledger state.now).pieces)) }
{
    match state.catalog.piece(id) {
        Some(piece) => names.push(piece_name(alloc, piece.copy, piece.id)?),
        None => Ok(()),
    }
}

// Adds the name of the set of an id, if there is one.
fn push_set_name(
    alloc: Global,
    state: &State,
    id: u32,
    names: &mut Seq<Text>,
) -> Result<(), NoMemory>
    requires sound { IsSound state.now }
    ensures { OnOk result (names.new ≡ names.old ++ map (λ e. set_name e.id) (filter (λ e. e.id == id) (ledger state.now).sets)) }
{
    match state.catalog.set(id) {
        Some(set) => names.push(set_name(alloc, set.id)?),
        None => Ok(()),
    }
}

/// Adds the name of the object of the record of an id, if there is one.
pub fn push_name(
    alloc: Global,
    state: &State,
    id: u32,
    names: &mut Seq<Text>,
) -> Result<(), NoMemory>
    requires sound { IsSound state.now }
    ensures { OnOk result (names.new ≡ names.old ++ names_at id state.now.catalog) }
{
    push_log_name(alloc, state, id, names)?;
    push_piece_name(alloc, state, id, names)?;
    push_set_name(alloc, state, id, names)
}
