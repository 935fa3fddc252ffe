//! What a duplicate puts and records, carried out over a number of a shelf.
ghost use Rattle.std.specs.Prelude.{◌≡◌, ◌≤◌, All, IfOk, IsErrOf, OnErr, OnOk, Some, map};
ghost use Rattle.rm_base.specs.Outside.{Rose};
ghost use Rattle.rm_catalog.specs.declared.record.Edit.TheVariants.{Put};
ghost use Rattle.rm_commit.specs.Carrying.{Carried, Halted};
ghost use Rattle.rm_piece.specs.Valid.{IsPiece};
ghost use Rattle.rm_shelf.specs.Shelved.{OthersStay, under};
ghost use Rattle.rm_tool_duplicate.specs.Duplicated.{commit_for, object_of as the_object_of};

use rm_base::{NoMemory, Seq, Store};
use rm_catalog::{Edit, Record};
use rm_commit::{Commit, Object, Stop, carry_out};
use rm_evidence::piece_name;
use rm_piece::{Piece, encode_piece};
use rm_shelf::{Desk, Noted, Shelf};
use std::alloc::Global;
use std::marker::Brand;

// The object of a copy.
fn object_of(alloc: Global, piece: &Piece) -> Result<Object, NoMemory>
    requires valid { IsPiece piece.now }
    ensures { IfOk result (λ object. object ≡ the_object_of piece.now) }
{
    Ok(Object {
        name: piece_name(alloc, true, piece.file)?,
        bytes: encode_piece(alloc, piece)?,
    })
}

// The objects of the copies.
fn objects_of(alloc: Global, pieces: &[Piece]) -> Result<Seq<Object>, NoMemory>
    requires valid { All IsPiece pieces.now }
    ensures { IfOk result (λ objects. objects ≡ map the_object_of pieces.now) }
{
    let mut objects = Seq::new(alloc);
    for piece in pieces {
        objects.push(object_of(alloc, piece)?)?;
    }
    Ok(objects)
}

// A put of each record.
fn puts_of(alloc: Global, records: Seq<Record>) -> Result<Seq<Edit>, NoMemory>
    ensures { IfOk result (λ edits. edits ≡ map Put records) }
{
    let mut edits = Seq::new(alloc);
    for entry in records.into_vec() {
        edits.push(Edit::Put(entry))?;
    }
    Ok(edits)
}

/// What a duplicate of these copies and records changes outside: the copies are put, then the records, and nothing goes.
pub(crate) fn commit_for(
    alloc: Global,
    pieces: &[Piece],
    records: Seq<Record>,
) -> Result<Commit, NoMemory>
    requires valid { All IsPiece pieces.now }
    ensures { IfOk result (λ change. change ≡ commit_for pieces.now records) }
{
    Ok(Commit {
        objects: objects_of(alloc, pieces)?,
        edits: puts_of(alloc, records)?,
        removes: Seq::new(alloc),
    })
}

// The same, where it is noted what the shelf tells of the other numbers.
fn carry_noted<E: Store, H: Shelf + Drop, B: Noted>(
    to: &mut E,
    shelf: H,
    number: u32,
    change: &Commit,
) -> (Result<(), Stop>, H)
    requires noted { B.noted ≡ Some (number, H.shelved shelf) }
    ensures others { OthersStay number (H.shelved shelf) (H.shelved result.1) }
    ensures carried { OnOk result.0 (Carried change.now (E.held to.old) (under number (H.shelved shelf)) (E.held to.new) (under number
        (H.shelved result.1))) }
    ensures stopped { OnErr result.0 (Halted change.now (E.held to.old) (under number (H.shelved shelf)) (E.held to.new) (under number
        (H.shelved result.1))) }
    ensures store { IsErrOf result.0 Stop.StoreFault → Rose (E.faults to.old) (E.faults to.new) }
    ensures shelf { IsErrOf result.0 Stop.KeeperFault → Rose (H.faults shelf) (H.faults result.1) }
    ensures none_falls { (E.faults to.old ≤ E.faults to.new) × (H.faults shelf ≤ H.faults result.1) }
{
    let mut desk: Desk<H, B> = Desk::new(shelf, number);
    let carried = carry_out(to, &mut desk, change);
    (carried, desk.close())
}

/// Carries a change out over the store and this number of the shelf, which is handed back; all other numbers stay.
pub(crate) fn carry<E: Store, H: Shelf + Drop>(
    to: &mut E,
    shelf: H,
    number: u32,
    change: &Commit,
) -> (Result<(), Stop>, H)
    ensures others { OthersStay number (H.shelved shelf) (H.shelved result.1) }
    ensures carried { OnOk result.0 (Carried change.now (E.held to.old) (under number (H.shelved shelf)) (E.held to.new) (under number
        (H.shelved result.1))) }
    ensures stopped { OnErr result.0 (Halted change.now (E.held to.old) (under number (H.shelved shelf)) (E.held to.new) (under number
        (H.shelved result.1))) }
    ensures store { IsErrOf result.0 Stop.StoreFault → Rose (E.faults to.old) (E.faults to.new) }
    ensures shelf { IsErrOf result.0 Stop.KeeperFault → Rose (H.faults shelf) (H.faults result.1) }
    ensures none_falls { (E.faults to.old ≤ E.faults to.new) × (H.faults shelf ≤ H.faults result.1) }
{
    carry_noted::<E, H, Brand>(to, shelf, number, change)
}
