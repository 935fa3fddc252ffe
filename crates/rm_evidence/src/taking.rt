//! What one record adds to the evidence.
ghost use Rattle.std.specs.Prelude.{◌≡◌, ◌≤◌, ◌∷◌, [], OnOk, IsErrOf, map};
ghost use Rattle.rm_base.specs.Outside.{Rose};
ghost use Rattle.rm_evidence.specs.{Database.{database_in}, Seen.{IsSeen}, Taking.{Adds, with_piece, with_pieces}};
ghost use Rattle.rm_evidence.specs.Telling.{with_artefact, with_told};

use crate::evidence::Evidence;
use crate::gathering::EvidenceFault;
use crate::naming::object_id;
use crate::telling::{Told, get_one, told_of};
use rm_base::{Kind, NoMemory, Seq, Store};
use rm_catalog::{Catalog, Record};
use rm_piece::{Piece, SetFile};
use std::alloc::Global;

// Adds a piece to those of its kind.
fn add_piece(evidence: &mut Evidence, id: u32, piece: Piece) -> Result<(), NoMemory>
    ensures { OnOk result (evidence.new ≡ with_piece evidence.old id piece) }
{
    if piece.kind == Kind::Level1 {
        evidence.level1s.push((id, piece))
    } else {
        evidence.bases.push((id, piece))
    }
}

// Adds the pieces of a set, each to those of its kind.
fn add_members(evidence: &mut Evidence, id: u32, members: Seq<SetFile>) -> Result<(), NoMemory>
    ensures { OnOk result (evidence.new ≡ with_pieces evidence.old id (map (λ m. m.piece) members)) }
{
    for member in members.into_vec() {
        add_piece(evidence, id, member.piece)?;
    }
    Ok(())
}

// Adds the artefact of this id, or why it is skipped.
fn add_told(evidence: &mut Evidence, id: u32, told: Told) -> Result<(), NoMemory>
    ensures { OnOk result (evidence.new ≡ with_artefact evidence.old id told) }
{
    match told {
        Told::Nothing => Ok(()),
        Told::OfLog(Ok(log)) => evidence.logs.push((id, log)),
        Told::OfPiece(Ok(piece)) => add_piece(evidence, id, piece),
        Told::OfSet(Ok(set)) => add_members(evidence, id, set.members),
        Told::OfLog(Err(bad)) => evidence.skipped.push((id, bad)),
        Told::OfPiece(Err(bad)) => evidence.skipped.push((id, bad)),
        Told::OfSet(Err(bad)) => evidence.skipped.push((id, bad)),
    }
}

/// Adds what the record tells.
pub(crate) fn put_told(evidence: &mut Evidence, row: &Record, told: Told) -> Result<(), NoMemory>
    ensures { OnOk result (evidence.new ≡ with_told evidence.old row.now told) }
{
    match object_id(row) {
        Some(id) => add_told(evidence, id, told),
        None => Ok(()),
    }
}

/// Adds the artefacts of the record, or why it is skipped, where the record counts as available.
pub(crate) fn take_record<D: Store>(
    alloc: Global,
    catalog: &Catalog,
    store: &mut D,
    row: &Record,
    evidence: &mut Evidence,
) -> Result<(), EvidenceFault>
    ensures adds { OnOk result (IsSeen (D.held store.old) (λ h. Adds h (database_in catalog.now) (row.now ∷ []) evidence.old evidence.new)) }
    ensures same { D.held store.new ≡ D.held store.old }
    ensures failed { IsErrOf result EvidenceFault.StoreFault → Rose (D.faults store.old) (D.faults store.new) }
    ensures never_falls { D.faults store.old ≤ D.faults store.new }
{
    let stands = get_one(alloc, store, row)?;
    let told = told_of(alloc, catalog, row, &stands)?;
    put_told(evidence, row, told)?;
    Ok(())
}
