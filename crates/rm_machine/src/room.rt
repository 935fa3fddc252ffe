//! The room for records, bytes and object ids.
ghost use Rattle.std.specs.Prelude.{◌≡◌, ◌≤◌, ◌<◌, ◌+◌, ◌*◌, ◌^◌, All, length, map, sum_by};
ghost use Rattle.rm_history.specs.World.{blocks_of};
ghost use Rattle.rm_catalog_typed.specs.Ledger.{ledger_records};
ghost use Rattle.rm_machine.specs.{Marks.{bytes_in, ids_refusal, lacks_bytes, lacks_ids, lacks_room, set_bytes}, Sound.{IsSound}};
ghost use Rattle.rm_machine.specs.State.{ledger, world};

use crate::facts::blocks_of;
use crate::state::State;
use rm_base::{Limit, Refusal};
use rm_catalog::{LogEntry, MOST_BYTES, MOST_RECORDS, PieceEntry, SetEntry, SetPart};

// How many records the database has, a saved site left aside.
fn record_count(state: &State) -> u64
    requires { IsSound state.now }
    ensures value { result ≡ length (ledger_records (ledger state.now)) }
    ensures most { result ≤ 65536 }
{
    let catalog = &state.catalog;
    let numbered = u64::from(catalog.tree().count()) + catalog.files().len() as u64;
    let backups = catalog.pieces().len() as u64 + catalog.sets().len() as u64;
    let objects = catalog.logs().len() as u64 + backups;
    let steps = catalog.marks().len() as u64 + catalog.switches().len() as u64;
    1 + numbered + objects + steps
}

/// Whether `count` records more would be too many.
pub fn lacks_room(state: &State, count: u64) -> bool
    requires sound { IsSound state.now }
    ensures value { result ≡ lacks_room state.now count }
{
    count > MOST_RECORDS - record_count(state)
}

// The bytes of these logs.
fn log_bytes(logs: &[LogEntry]) -> u64
    requires { sum_by (λ e. e.size) logs.now ≤ 2 ^ 44 }
    ensures { result ≡ sum_by (λ e. e.size) logs.now }
{
    logs.iter().map(|log| log.size).sum()
}

// The bytes of these pieces.
fn piece_bytes(pieces: &[PieceEntry]) -> u64
    requires { sum_by (λ p. p.size) pieces.now ≤ 2 ^ 44 }
    ensures { result ≡ sum_by (λ p. p.size) pieces.now }
{
    pieces.iter().map(|piece| piece.size).sum()
}

// How many blocks the datafiles of these parts have together.
fn blocks_in(state: &State, parts: &[SetPart]) -> u64
    requires sound { IsSound state.now }
    requires few { length parts.now ≤ 64 }
    ensures value { result ≡ sum_by (λ p. blocks_of (world state.now) p.file) parts.now }
    ensures most { result ≤ 65536 * length parts.now }
{
    let mut blocks = 0;
    for part in parts {
        blocks += u64::from(blocks_of(state, part.file));
    }
    blocks
}

/// What so many sets of so many datafiles with so many blocks count as: 57 bytes for each set, 37 for each datafile and 76 for each block.
pub fn sets_bytes(sets: u64, files: u64, blocks: u64) -> u64
    requires few { (sets ≤ 2 ^ 32) × (files ≤ 2 ^ 32) × (blocks ≤ 2 ^ 32) }
    ensures { result ≡ 57 * sets + 37 * files + 76 * blocks }
{
    57 * sets + 37 * files + 76 * blocks
}

// What a set of these parts counts as.
fn part_bytes(state: &State, parts: &[SetPart]) -> u64
    requires sound { IsSound state.now }
    requires few { length parts.now ≤ 64 }
    ensures value { result ≡ set_bytes (world state.now) (map (λ p. p.file) parts.now) }
    ensures most { result ≤ 2 ^ 29 }
{
    sets_bytes(1, parts.len() as u64, blocks_in(state, parts))
}

// What these sets count as.
fn set_bytes(state: &State, sets: &[SetEntry]) -> u64
    requires sound { IsSound state.now }
    requires few { length sets.now ≤ 65536 }
    requires parts { All (λ e. length e.parts ≤ 64) sets.now }
    ensures value { result ≡ sum_by (λ e. set_bytes (world state.now) (map (λ p. p.file) e.parts)) sets.now }
    ensures most { result ≤ 2 ^ 45 }
{
    let mut bytes = 0;
    for set in sets {
        bytes += part_bytes(state, set.parts.as_slice());
    }
    bytes
}

// What the recorded objects count as.
fn recorded_bytes(state: &State) -> u64
    requires { IsSound state.now }
    ensures value { result ≡ bytes_in (ledger state.now) }
    ensures most { result ≤ 2 ^ 46 }
{
    let catalog = &state.catalog;
    log_bytes(catalog.logs()) + piece_bytes(catalog.pieces()) + set_bytes(state, catalog.sets())
}

/// Whether `count` bytes of objects more would be too many.
pub fn lacks_bytes(state: &State, count: u64) -> bool
    requires sound { IsSound state.now }
    ensures value { result ≡ lacks_bytes state.now count }
{
    count > 0 && recorded_bytes(state).saturating_add(count) > MOST_BYTES
}

/// Whether too few object ids are left for `count` objects more: a save may draw 68 besides.
pub fn lacks_ids(state: &State, count: u64) -> bool
    requires sound { IsSound state.now }
    ensures value { result ≡ lacks_ids state.now count }
{
    let next = u64::from(state.catalog.base().next_id);
    (next + 68).saturating_add(count) > u64::from(u32::MAX)
}

/// Why a statement that changes something is refused, where too few ids are left for a save.
pub fn ids_refusal(state: &State) -> Option<Refusal>
    requires sound { IsSound state.now }
    ensures value { result ≡ ids_refusal state.now }
{
    if lacks_ids(state, 0) {
        Some(Refusal::Rm11(Limit::ObjectIds))
    } else {
        None
    }
}
