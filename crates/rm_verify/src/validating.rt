//! Validation: the records that count as available, but whose objects can't be used.
ghost use Rattle.std.specs.Prelude.{◌≡◌, ◌≤◌, All, [], IfOk, IsErrOf, OnOk, map};
ghost use Rattle.rm_base.specs.{Outside.{Rose}, declared.kinds.Bad.{Bad as BadOf}};
ghost use Rattle.rm_evidence.specs.{Available.{IsSkipped}, Gathered.{Lists}, Seen.{IsSeen}, Taking.{HasId}};
ghost use Rattle.rm_verify.specs.Told.{reason, with_bad};

use crate::found::add;
use rm_base::{Bad, NoMemory, Seq, Store};
use rm_catalog::{Catalog, Record};
use rm_evidence::order::objects;
use rm_evidence::{EvidenceFault, Told, id_fits, tell_each};
use std::alloc::Global;
use std::thread::Threads;

// Why the object of a record can't be used, where that is told.
fn reason(told: &Told) -> Option<Bad>
    ensures { result ≡ reason told.now }
{
    match told {
        Told::OfLog(Err(bad)) | Told::OfPiece(Err(bad)) | Told::OfSet(Err(bad)) => Some(*bad),
        _ => None,
    }
}

// The ids of these records are of four bytes each. Nothing is done.
fn ids_fit(rows: &[(u32, &Record)])
    ensures { All (λ x. HasId x.1.now) rows.now }
{
    for row in rows {
        id_fits(row.1);
    }
}

// Adds the id of each of these records whose object can't be used by what is told of it, and why.
fn add_bad(
    list: &mut Seq<(u32, Bad)>,
    rows: &[(u32, &Record)],
    told: &[Told],
) -> Result<(), NoMemory>
    ensures bad { OnOk result (list.new ≡ with_bad list.old (map (λ x. x.0) rows.now) told.now) }
{
    for ((id, _), told) in rows.iter().zip(told) {
        add(list, reason(told).map(|bad| (*id, bad)))?;
    }
    Ok(())
}

/// The id of each record that counts as available and whose object is missing or damaged, and which of the two,
/// ascending by id. An object is damaged where its bytes have not the size and the SHA-256 of the record, or spell
/// nothing with the record's fields; a set's members are also to be of the catalog's datafiles. Where the store tells
/// nothing of what it holds, it is so by some bytes under each name. The objects are read and let go by so many channels, at
/// least one, which hold as many at a time; each number gives the same. `StoreFault` where the store failed, and counted it.
pub fn validate<R: Threads + Sync, D: Store>(
    rt: &R,
    alloc: Global,
    catalog: &Catalog,
    store: &mut D,
    channels: u32,
) -> Result<Seq<(u32, Bad)>, EvidenceFault>
    ensures bad { IfOk result (λ list. IsSeen (D.held store.old) (λ h. Lists BadOf [] (IsSkipped h catalog.now) list)) }
    ensures same { D.held store.new ≡ D.held store.old }
    ensures failed { IsErrOf result EvidenceFault.StoreFault → Rose (D.faults store.old) (D.faults store.new) }
    ensures never_falls { D.faults store.old ≤ D.faults store.new }
{
    let mut list = Seq::new(alloc);
    let objects = objects(alloc, catalog.records())?;
    for part in objects.as_slice().chunks(channels.max(1) as usize) {
        ids_fit(part);
        let told = tell_each(rt, alloc, catalog, store, part)?;
        add_bad(&mut list, part, told.as_slice())?;
    }
    Ok(list)
}
