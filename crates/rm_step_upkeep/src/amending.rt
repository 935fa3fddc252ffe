//! The record of a log, a piece or a set gets another status, or is kept forever or not.
ghost use Rattle.std.specs.Prelude.{◌≡◌, OnOk};
ghost use Rattle.rm_machine.specs.{Sound.{IsSound}, Upkeep.{log_changed, piece_changed, set_changed, with_catalog}};
ghost use Rattle.rm_catalog_typed.specs.Changes.{EditsFollow};
ghost use Rattle.rm_step_upkeep.specs.Amended.{amended, log_by, piece_by, set_by};

use rm_base::{NoMemory, Status};
use rm_catalog::{Edit, LogEntry, PieceEntry, SetEntry};
use rm_machine::State;
use std::alloc::Global;

/// What changes of a record.
#[derive(Clone, Copy)]
pub(crate) enum Amendment {
    /// Its status.
    Status(Status),
    /// Whether it is kept forever.
    Keep(bool),
}

// The log, changed so.
fn log_by(by: Amendment, log: LogEntry) -> LogEntry
    ensures { result ≡ log_by by log }
{
    match by {
        Amendment::Status(status) => LogEntry { status, ..log },
        Amendment::Keep(keep) => LogEntry { keep, ..log },
    }
}

// The piece, changed so.
fn piece_by(by: Amendment, piece: PieceEntry) -> PieceEntry
    ensures { result ≡ piece_by by piece }
{
    match by {
        Amendment::Status(status) => PieceEntry { status, ..piece },
        Amendment::Keep(keep) => PieceEntry { keep, ..piece },
    }
}

// The set, changed so.
fn set_by(by: Amendment, set: SetEntry) -> SetEntry
    ensures { result ≡ set_by by set }
{
    match by {
        Amendment::Status(status) => SetEntry { status, ..set },
        Amendment::Keep(keep) => SetEntry { keep, ..set },
    }
}

// Changes the log of an id so, if there is one.
fn amend_log(
    state: &mut State,
    edits: &mut Vec<Edit>,
    id: u32,
    by: Amendment,
) -> Result<(), NoMemory>
    requires sound { IsSound state.old }
    ensures value { OnOk result (state.new ≡ with_catalog state.old (log_changed (log_by by) id state.old.catalog)) }
    ensures edits { OnOk result (EditsFollow edits.old.items edits.new.items state.old.catalog state.new.catalog) }
{
    let Some(log) = state.catalog.log(id) else {
        return Ok(());
    };
    let log = log_by(by, *log);
    state.catalog.put_log(edits, log)
}

// Changes the piece of an id so, if there is one.
fn amend_piece(
    alloc: Global,
    state: &mut State,
    edits: &mut Vec<Edit>,
    id: u32,
    by: Amendment,
) -> Result<(), NoMemory>
    requires sound { IsSound state.old }
    ensures value { OnOk result (state.new ≡ with_catalog state.old (piece_changed (piece_by by) id state.old.catalog)) }
    ensures edits { OnOk result (EditsFollow edits.old.items edits.new.items state.old.catalog state.new.catalog) }
{
    let Some(piece) = state.catalog.piece(id) else {
        return Ok(());
    };
    let piece = piece_by(by, piece.copy(alloc)?);
    state.catalog.put_piece(alloc, edits, piece)
}

// Changes the set of an id so, if there is one.
fn amend_set(
    alloc: Global,
    state: &mut State,
    edits: &mut Vec<Edit>,
    id: u32,
    by: Amendment,
) -> Result<(), NoMemory>
    requires sound { IsSound state.old }
    ensures value { OnOk result (state.new ≡ with_catalog state.old (set_changed (set_by by) id state.old.catalog)) }
    ensures edits { OnOk result (EditsFollow edits.old.items edits.new.items state.old.catalog state.new.catalog) }
{
    let Some(set) = state.catalog.set(id) else {
        return Ok(());
    };
    let set = set_by(by, set.copy(alloc)?);
    state.catalog.put_set(alloc, edits, set)
}

/// Changes the record of an id so: a log, a piece or a set, if there is one.
pub(crate) fn amend(
    alloc: Global,
    state: &mut State,
    edits: &mut Vec<Edit>,
    id: u32,
    by: Amendment,
) -> Result<(), NoMemory>
    requires sound { IsSound state.old }
    ensures value { OnOk result (state.new ≡ with_catalog state.old (amended by id state.old.catalog)) }
    ensures edits { OnOk result (EditsFollow edits.old.items edits.new.items state.old.catalog state.new.catalog) }
    ensures sound { OnOk result (IsSound state.new) }
{
    amend_log(state, edits, id, by)?;
    amend_piece(alloc, state, edits, id, by)?;
    amend_set(alloc, state, edits, id, by)
}
