//! What the store has of several records, looked at side by side.
ghost use Rattle.std.specs.Prelude.{◌≡◌, ◌≤◌, ◌<◌, ◌++◌, IfOk, IfSome, IsErrOf, OnOk, length, map};
ghost use Rattle.rm_base.specs.Outside.{Rose};
ghost use Rattle.rm_evidence.specs.{Database.{database_in}, Telling.{AreTold, StandUnder, StandsUnder, TellAll, Tells, TellsAt}};

use crate::gathering::EvidenceFault;
use crate::looking::{log_told, piece_told, set_told};
use crate::naming::{log_name, piece_name, set_name};
use rm_base::{Bad, NoMemory, Seq, Status, Store};
use rm_catalog::{Catalog, Record};
use rm_piece::{Piece, Set};
use rm_redo::LogFile;
use std::alloc::Global;
use std::thread;
use std::thread::Threads;

/// What a record that counts as available tells: its artefact, or why it can't be used. Of others nothing is told.
#[derive(Drop)]
pub enum Told {
    Nothing,
    OfLog(Result<LogFile, Bad>),
    OfPiece(Result<Piece, Bad>),
    OfSet(Result<Set, Bad>),
}

/// What stands under the name of the record's object, where it counts as available.
pub(crate) fn get_one<D: Store>(
    alloc: Global,
    store: &mut D,
    row: &Record,
) -> Result<Option<Seq<u8>>, EvidenceFault>
    ensures stands { IfOk result (λ stands. IfSome (D.held store.old) (λ h. StandsUnder h row.now stands)) }
    ensures same { D.held store.new ≡ D.held store.old }
    ensures failed { IsErrOf result EvidenceFault.StoreFault → Rose (D.faults store.old) (D.faults store.new) }
    ensures never_falls { D.faults store.old ≤ D.faults store.new }
{
    let name = match row {
        Record::Log(entry) if entry.status == Status::Available => log_name(alloc, entry.id)?,
        Record::Piece(entry) if entry.status == Status::Available => {
            piece_name(alloc, entry.copy, entry.id)?
        }
        Record::Set(entry) if entry.status == Status::Available => set_name(alloc, entry.id)?,
        _ => return Ok(None),
    };
    Ok(store.get(name.as_str())?)
}

// The same for each of these records.
fn get_each<D: Store>(
    alloc: Global,
    store: &mut D,
    rows: &[(u32, &Record)],
) -> Result<Seq<Option<Seq<u8>>>, EvidenceFault>
    ensures stand { IfOk result (StandUnder (D.held store.old) (map (λ x. x.1.now) rows.now)) }
    ensures many { IfOk result (λ stand. length stand ≡ length rows.now) }
    ensures same { D.held store.new ≡ D.held store.old }
    ensures failed { IsErrOf result EvidenceFault.StoreFault → Rose (D.faults store.old) (D.faults store.new) }
    ensures never_falls { D.faults store.old ≤ D.faults store.new }
{
    let mut stand = Seq::new(alloc);
    for row in rows {
        stand.push(get_one(alloc, store, row.1)?)?;
    }
    Ok(stand)
}

/// What the record tells by what stands under the name of its object.
pub(crate) fn told_of(
    alloc: Global,
    catalog: &Catalog,
    row: &Record,
    stands: &Option<Seq<u8>>,
) -> Result<Told, NoMemory>
    ensures { IfOk result (Tells (database_in catalog.now) row.now stands.now) }
{
    match row {
        Record::Log(entry) if entry.status == Status::Available => {
            Ok(Told::OfLog(log_told(alloc, entry, stands)?))
        }
        Record::Piece(entry) if entry.status == Status::Available => {
            Ok(Told::OfPiece(piece_told(alloc, entry, stands)?))
        }
        Record::Set(entry) if entry.status == Status::Available => {
            Ok(Told::OfSet(set_told(alloc, catalog, entry, stands)?))
        }
        _ => Ok(Told::Nothing),
    }
}

// What each of these records tells: each is looked at in a thread of its own.
fn told_of_each<R: Threads + Sync>(
    rt: &R,
    alloc: Global,
    catalog: &Catalog,
    rows: &[(u32, &Record)],
    stand: &[Option<Seq<u8>>],
) -> Result<Seq<Told>, NoMemory>
    requires many { length stand.now ≡ length rows.now }
    ensures { IfOk result (TellAll (database_in catalog.now) (map (λ x. x.1.now) rows.now) stand.now) }
{
    let looked = thread::map_indices(
        rt,
        alloc,
        rows.len(),
        &|i: usize| -> Result<Told, NoMemory>
            requires { (i < length rows.now) × (length stand.now ≡ length rows.now) }
            ensures { IfOk result (TellsAt (database_in catalog.entry.now) (λ x. x.1.now) rows.entry.now stand.entry.now i) }
        { told_of(alloc, catalog, rows[i].1, &stand[i]) },
    )?;
    let mut all = Seq::new(alloc);
    for told in looked {
        all.push(told?)?;
    }
    Ok(all)
}

/// What each of these records tells: its artefact, or why it can't be used, where it counts as available. Their objects
/// are got from the store one after the other, and then looked at side by side, each in a thread of its own; the bytes of
/// all of them are held until then. An error is a fault of the store, which is counted, or want of memory.
pub fn tell_each<R: Threads + Sync, D: Store>(
    rt: &R,
    alloc: Global,
    catalog: &Catalog,
    store: &mut D,
    rows: &[(u32, &Record)],
) -> Result<Seq<Told>, EvidenceFault>
    ensures told { IfOk result (AreTold (D.held store.old) (database_in catalog.now) (map (λ x. x.1.now) rows.now)) }
    ensures same { D.held store.new ≡ D.held store.old }
    ensures failed { IsErrOf result EvidenceFault.StoreFault → Rose (D.faults store.old) (D.faults store.new) }
    ensures never_falls { D.faults store.old ≤ D.faults store.new }
{
    let stand = get_each(alloc, store, rows)?;
    Ok(told_of_each(rt, alloc, catalog, rows, stand.as_slice())?)
}

// Adds what more is told.
fn add_all(all: &mut Vec<Told>, more: Seq<Told>) -> Result<(), NoMemory>
    ensures { OnOk result (all.new.items ≡ all.old.items ++ more) }
{
    let mut more = more.into_vec();
    all.append(&mut more)?;
    Ok(())
}

/// The same for more records: the objects of so many, at least of one, are held at a time.
pub(crate) fn tell_by<R: Threads + Sync, D: Store>(
    rt: &R,
    alloc: Global,
    catalog: &Catalog,
    store: &mut D,
    rows: &[(u32, &Record)],
    channels: u32,
) -> Result<Seq<Told>, EvidenceFault>
    ensures told { IfOk result (AreTold (D.held store.old) (database_in catalog.now) (map (λ x. x.1.now) rows.now)) }
    ensures same { D.held store.new ≡ D.held store.old }
    ensures failed { IsErrOf result EvidenceFault.StoreFault → Rose (D.faults store.old) (D.faults store.new) }
    ensures never_falls { D.faults store.old ≤ D.faults store.new }
{
    let mut all = Vec::new(alloc);
    for part in rows.chunks(channels.max(1) as usize) {
        let told = tell_each(rt, alloc, catalog, store, part)?;
        add_all(&mut all, told)?;
    }
    Ok(Seq::from_vec(all))
}
