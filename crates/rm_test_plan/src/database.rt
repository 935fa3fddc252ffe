//! The database of which a catalog tells.
use crate::gathering::{BASE, catalog};
use crate::made::{catalog_of, switch_entry};
use rm_base::Seq;
use rm_catalog::{Catalog, DatafileEntry, Record};
use rm_evidence::{base_of, datafile, has_database, switches, threads};
use rm_history::{Datafile, Switch};
use rm_test_harness::Fault;
use std::alloc::Global;

const SECOND: Datafile = Datafile {
    inc: 1,
    creation: 12,
    blocks: 8,
};

const OFF: Switch = Switch {
    thread: 2,
    inc: 1,
    scn: 15,
    on: false,
};

// Datafile 2.
fn second() -> Record {
    Record::Datafile(DatafileEntry {
        file: 2,
        inc: SECOND.inc,
        creation: SECOND.creation,
        blocks: SECOND.blocks,
    })
}

fn is_told(catalog: &Catalog) -> bool {
    let is_base = has_database(catalog) && base_of(catalog) == Some(BASE);
    let others = [datafile(catalog, 0), datafile(catalog, 3)];
    let are_files = datafile(catalog, 2) == Some(SECOND) && others == [None, None];
    is_base && threads(catalog) == 2 && are_files
}

/// A catalog tells the database.
pub fn told(alloc: Global) -> Result<bool, Fault> {
    let records = Vec::from_array(alloc, [second(), switch_entry(1, OFF)])?;
    let catalog = catalog(alloc, Seq::from_vec(records))?;
    let off = switches(alloc, &catalog)?;
    Ok(is_told(&catalog) && off.as_slice() == [OFF].as_slice())
}

/// No record tells no database.
pub fn none(alloc: Global) -> Result<bool, Fault> {
    let catalog = catalog_of(alloc, Seq::new(alloc))?;
    Ok(!has_database(&catalog) && base_of(&catalog).is_none() && threads(&catalog) == 0)
}
