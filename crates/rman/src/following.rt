//! Whether a catalog may follow a control file: its records are then made equal to those of that.
use rm_base::{NoMemory, Seq};
use rm_catalog::{Catalog, CatalogFault, Record, in_order};

// Whether a database that has the old record may have the new one under the same key later. Only what no statement takes back or
// away is asked: whose the records are, how far the ids and the clock were, the incarnations, the datafiles and the marks.
fn may_become(old: &Record, new: &Record) -> bool {
    match (old, new) {
        (Record::Base(old), Record::Base(new)) => {
            old.dbid == new.dbid && old.next_id <= new.next_id && old.moment <= new.moment
        }
        (Record::Incarnation(old), Record::Incarnation(new)) => {
            old.inc == new.inc
                && old.parent == new.parent
                && old.reset == new.reset
                && old.end <= new.end
        }
        (Record::Datafile(old), Record::Datafile(new)) => old == new,
        (Record::Mark(old), Record::Mark(new)) => old == new,
        _ => false,
    }
}

// Whether the record is one that no statement takes away.
fn stays(record: &Record) -> bool {
    matches!(
        record,
        Record::Base(_) | Record::Incarnation(_) | Record::Datafile(_) | Record::Mark(_)
    )
}

// Whether a record, if it is one that stays, goes on in these, which are in order.
fn goes_on(old: &Record, records: &[Record]) -> bool {
    let place = old.place();
    match records.binary_search_by_key(&place, |record| record.place()) {
        Ok(at) => !stays(old) || records.get(at).is_some_and(|new| may_become(old, new)),
        Err(_) => !stays(old),
    }
}

/// Why a catalog of these records must not be made equal to a control file of those, if it must not: a record there breaks a rule,
/// or they can't have come of the catalog's, so that these would be lost.
pub fn why_not(
    control: Seq<Record>,
    catalog: Seq<Record>,
) -> Result<Option<&'static str>, NoMemory> {
    let near = in_order(control.into_vec());
    let far = in_order(catalog.into_vec());
    if !far.iter().all(|record| goes_on(record, &near)) {
        return Ok(Some(
            "it does not go on from the catalog's records: it is empty, older, or another database's",
        ));
    }
    match Catalog::from_records(Seq::from_vec(near)) {
        Ok(_) => Ok(None),
        Err(CatalogFault::BadRow(_, _)) => Ok(Some(
            "it has a record that breaks a rule: a session over it alone tells which",
        )),
        Err(CatalogFault::NoMemory) => Err(NoMemory),
    }
}
