//! The database of which the records of a catalog tell.
ghost use Rattle.std.specs.Prelude.{◌≡◌, ◌↔◌, ◌++◌, IfOk, IsTrue, OnOk, option_to_list};
ghost use Rattle.rm_catalog.specs.{Keys.{base, datafile as entry_of}, Rules.{HasDatabase}, Trees.{nodes}, Switches.{began_with, switches}};
ghost use Rattle.rm_history.specs.{Tree.{IsThere}, World.{file_of}};
ghost use Rattle.rm_evidence.specs.Database.{current_in, dbid_in, world_of};

use rm_base::{FileNo, IncNo, NoMemory, ThreadNo};
use rm_catalog::switches::told_by;
use rm_catalog::{BaseEntry, Catalog, DatafileEntry, Key, Record};
use rm_history::{Datafile, Switch};
use std::alloc::Global;

/// Whether there is a database.
pub fn has_database(catalog: &Catalog) -> bool
    ensures { IsTrue result ↔ HasDatabase catalog.now }
{
    catalog.find(Key { kind: 1, id: 0 }).is_some()
}

/// The base facts. None without a database.
pub fn base_of(catalog: &Catalog) -> Option<BaseEntry>
    ensures { result ≡ base catalog.now }
{
    match catalog.find(Key { kind: 1, id: 0 }) {
        Some(Record::Base(entry)) => Some(*entry),
        _ => None,
    }
}

// What the record of a datafile says, where it is there.
fn datafile_entry(catalog: &Catalog, file: FileNo) -> Option<DatafileEntry>
    ensures { result ≡ entry_of file catalog.now }
{
    match catalog.find(Key { kind: 3, id: file }) {
        Some(Record::Datafile(entry)) => Some(*entry),
        _ => None,
    }
}

/// The datafile of this number, as it was created. None where it is not there.
pub fn datafile(catalog: &Catalog, file: FileNo) -> Option<Datafile>
    ensures { result ≡ file_of (world_of catalog.now) file }
{
    // They are a catalog's, so the datafiles have the numbers 1, 2, 3 and so on.
    let _ = catalog.records();
    let entry = datafile_entry(catalog, file)?;
    Some(Datafile {
        inc: entry.inc,
        creation: entry.creation,
        blocks: entry.blocks,
    })
}

// The number of the database; 0 without one.
pub(crate) fn dbid_of(catalog: &Catalog) -> u32
    ensures { result ≡ dbid_in catalog.now }
{
    match base_of(catalog) {
        Some(base) => base.dbid,
        None => 0,
    }
}

/// How many redo threads the database began with; 0 without one.
pub fn threads(catalog: &Catalog) -> ThreadNo
    ensures { result ≡ began_with catalog.now }
{
    match base_of(catalog) {
        Some(base) => base.threads,
        None => 0,
    }
}

// Adds what is told, if it is.
fn add_told(found: &mut Vec<Switch>, told: Option<Switch>) -> Result<(), NoMemory>
    ensures { OnOk result (found.new.items ≡ found.old.items ++ option_to_list told) }
{
    if let Some(switch) = told {
        found.push(switch)?;
    }
    Ok(())
}

/// The switches of redo threads, in the order of their numbers.
pub fn switches(alloc: Global, catalog: &Catalog) -> Result<Vec<Switch>, NoMemory>
    ensures { IfOk result (λ xs. xs.items ≡ switches catalog.now) }
{
    let mut found = Vec::new(alloc);
    for row in catalog.records() {
        add_told(&mut found, told_by(row))?;
    }
    Ok(found)
}

/// The current incarnation.
pub fn current_of(catalog: &Catalog) -> IncNo
    requires database { HasDatabase catalog.now }
    ensures is { result ≡ current_in catalog.now }
    ensures there { IsThere (nodes catalog.now) result }
{
    // They are a catalog's, so their current incarnation is there.
    let _ = catalog.records();
    match base_of(catalog) {
        Some(base) => base.current,
        None => unreachable!(),
    }
}
