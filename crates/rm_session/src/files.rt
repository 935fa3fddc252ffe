//! The datafiles of a saved site.
ghost use Rattle.std.specs.{Prelude.{◌≡◌, ◌↔◌, ◌≤◌, IfOk, IfSome, IsErrOf, IsTrue, length}, Option.{option_copied}};
ghost use Rattle.rm_base.specs.{Outside.{Rose}, declared.kinds.Kind.TheVariants.{Place}};
ghost use Rattle.rm_history.specs.Tree.{end_of};
ghost use Rattle.rm_machine.specs.{Loading.{IsLoadedFile, IsTheOne, file_in}, Saved.{FitsInPlace, IsGoodFile, file_part}};
ghost use Rattle.rm_piece.specs.Valid.{IsPiece};
ghost use Rattle.rm_catalog_typed.specs.Facts.{IsTypedCatalog};
ghost use Rattle.rm_session.specs.Fit.{AllAt, FitsAt, IsFitFile, IsFitPiece, IsLoadedAt, IsWhereFits};

use crate::parts::load_piece;
use rm_base::{FileNo, Kind, Seq, Store};
use rm_blocks::DataFile;
use rm_catalog::PartEntry;
use rm_catalog_typed::{Saved, TypedCatalog};
use rm_evidence::EvidenceFault;
use rm_history::Datafile;
use rm_piece::Piece;
use std::alloc::Global;

// Whether the piece is of the current incarnation, at its end.
fn is_now(catalog: &TypedCatalog, piece: &Piece) -> bool
    ensures { IsTrue result ↔ ((piece.now.inc ≡ catalog.now.ledger.base.current) × (piece.now.checkpoint ≡ end_of catalog.now.ledger.tree catalog.now.ledger.base.current)) }
{
    let current = catalog.base().current;
    piece.inc == current && piece.checkpoint == catalog.tree().end_of(current)
}

// Whether the piece could stand in place of the datafile of this number.
fn fits_in_place(
    catalog: &TypedCatalog,
    opened: bool,
    number: FileNo,
    datafile: &Datafile,
    piece: &Piece,
) -> bool
    ensures { IsTrue result ↔ FitsInPlace catalog.now.ledger opened number datafile.now piece.now }
{
    let Some(node) = catalog.tree().get(piece.inc) else {
        return false;
    };
    piece.kind == Kind::Place
        && piece.dbid == catalog.base().dbid
        && piece.file == number
        && piece.blocks == datafile.blocks
        && piece.high <= node.end
        && (!opened || is_now(catalog, piece))
}

// The part of the datafile of this number.
fn file_part(site: &Saved, number: FileNo) -> Option<&PartEntry>
    ensures { option_copied result ≡ file_part site.now number }
{
    site.parts().iter().find(|part| part.file == number)
}

// The piece, where it could stand in place of the datafile of this number.
fn where_fits(
    catalog: &TypedCatalog,
    opened: bool,
    number: FileNo,
    datafile: &Datafile,
    piece: Option<Piece>,
) -> Option<Piece>
    ensures { IsWhereFits catalog.now.ledger opened number datafile.now piece result }
{
    let piece = piece?;
    if fits_in_place(catalog, opened, number, datafile, &piece) {
        Some(piece)
    } else {
        None
    }
}

// The piece of the datafile of this number, where its part is good.
fn good_piece<D: Store>(
    alloc: Global,
    store: &mut D,
    catalog: &TypedCatalog,
    site: &Saved,
    number: FileNo,
    datafile: &Datafile,
) -> Result<Option<Piece>, EvidenceFault>
    ensures told { IfOk result (λ found. IfSome (D.held store.old) (λ h. IsTheOne (IsGoodFile h catalog.now.ledger site.now number datafile.now) found)) }
    ensures fits { IfOk result (λ found. IfSome found (IsFitPiece catalog.now.ledger site.now.head.opened number datafile.now)) }
    ensures same { D.held store.new ≡ D.held store.old }
    ensures failed { IsErrOf result EvidenceFault.StoreFault → Rose (D.faults store.old) (D.faults store.new) }
    ensures never_falls { D.faults store.old ≤ D.faults store.new }
{
    let Some(part) = file_part(site, number) else {
        return Ok(None);
    };
    let piece = load_piece(alloc, store, part)?;
    Ok(where_fits(catalog, site.head().opened, number, datafile, piece))
}

// The piece as what stands in place of its datafile.
fn file_in(piece: Piece) -> DataFile
    requires valid { IsPiece piece }
    requires place { piece.kind ≡ Place }
    ensures { result ≡ file_in piece }
{
    DataFile::from_rows(piece.file, piece.inc, piece.checkpoint, piece.rows)
}

// What is loaded of the datafile of this number.
fn load_file<D: Store>(
    alloc: Global,
    store: &mut D,
    catalog: &TypedCatalog,
    site: &Saved,
    number: FileNo,
    datafile: &Datafile,
) -> Result<Option<DataFile>, EvidenceFault>
    ensures told { IfOk result (λ x. IfSome (D.held store.old) (λ h. IsLoadedFile h catalog.now.ledger site.now number datafile.now x)) }
    ensures fits { IfOk result (λ x. IfSome x (IsFitFile catalog.now.ledger site.now.head.opened number datafile.now)) }
    ensures same { D.held store.new ≡ D.held store.old }
    ensures failed { IsErrOf result EvidenceFault.StoreFault → Rose (D.faults store.old) (D.faults store.new) }
    ensures never_falls { D.faults store.old ≤ D.faults store.new }
{
    match good_piece(alloc, store, catalog, site, number, datafile)? {
        Some(piece) => Ok(Some(file_in(piece))),
        None => Ok(None),
    }
}

/// What stands in place of datafiles 1, 2, 3 and so on: each whose part is good. An error is a fault of the store, which is
/// counted, or want of memory.
pub(crate) fn load_files<D: Store>(
    alloc: Global,
    store: &mut D,
    catalog: &TypedCatalog,
    site: &Saved,
) -> Result<Seq<Option<DataFile>>, EvidenceFault>
    requires { IsTypedCatalog catalog.now }
    ensures many { IfOk result (λ place. length place ≡ length catalog.now.ledger.files) }
    ensures told { IfOk result (λ place. IfSome (D.held store.old) (λ h. AllAt (IsLoadedAt h catalog.now.ledger site.now) place)) }
    ensures fits { IfOk result (λ place. AllAt (FitsAt catalog.now.ledger site.now.head.opened) place) }
    ensures same { D.held store.new ≡ D.held store.old }
    ensures failed { IsErrOf result EvidenceFault.StoreFault → Rose (D.faults store.old) (D.faults store.new) }
    ensures never_falls { D.faults store.old ≤ D.faults store.new }
{
    let mut place = Seq::new(alloc);
    for (index, datafile) in catalog.files().iter().enumerate() {
        let number = index as FileNo + 1;
        let file = load_file(alloc, store, catalog, site, number, datafile)?;
        place.push(file)?;
    }
    Ok(place)
}
