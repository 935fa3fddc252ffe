//! The crosscheck: which status each record of a class gets.
ghost use Rattle.std.specs.Prelude.{◌≡◌, ◌≤◌, [], IfOk, IsErrOf};
ghost use Rattle.rm_base.specs.{Outside.{Rose}, Store.{Ascends}, declared.kinds.Status.{Status as StatusOf}};
ghost use Rattle.rm_evidence.specs.{Gathered.{Lists}, Seen.{IsSeen}};
ghost use Rattle.rm_verify.specs.Crosscheck.{IsChecked, checked, is_among, stands_in, status_after};

use crate::found::add;
use crate::object::{is_of, object_in};
use rm_base::{Class, NoMemory, Seq, Status, Store, Text};
use rm_catalog::{Catalog, Record};
use rm_evidence::{EvidenceFault, by_id};
use std::alloc::Global;

// The status that one gets, by whether an object stands under its name.
fn status_after(status: Status, stands: bool) -> Status
    ensures { result ≡ status_after status stands }
{
    match status {
        Status::Unavailable => Status::Unavailable,
        _ => {
            if stands {
                Status::Available
            } else {
                Status::Expired
            }
        }
    }
}

// Whether the name is one of these.
fn is_among(names: &[Text], name: &str) -> bool
    requires { Ascends names.now }
    ensures { result ≡ is_among names.now name.now }
{
    names
        .binary_search_by(|other| other.as_str().cmp(name))
        .is_ok()
}

// The id of the record and the status that it gets, where it is of the class.
fn check(
    alloc: Global,
    names: &[Text],
    class: Class,
    row: &Record,
) -> Result<Option<(u32, Status)>, NoMemory>
    requires { Ascends names.now }
    ensures { IfOk result (λ found. found ≡ checked (is_among names.now) class row.now) }
{
    if !is_of(class, row) {
        return Ok(None);
    }
    let Some(object) = object_in(alloc, row)? else {
        return Ok(None);
    };
    let stands = is_among(names, object.name.as_str());
    Ok(Some((object.id, status_after(object.status, stands))))
}

// The statuses by the names of what stands in the store.
fn statuses(
    alloc: Global,
    catalog: &Catalog,
    names: &[Text],
    class: Class,
) -> Result<Seq<(u32, Status)>, NoMemory>
    requires { Ascends names.now }
    ensures { IfOk result (λ list. Lists StatusOf [] (IsChecked (is_among names.now) catalog.now class) list) }
{
    let mut list = Seq::new(alloc);
    let records = catalog.records();
    for row in records {
        let found = check(alloc, names, class, row)?;
        add(&mut list, found)?;
    }
    Ok(by_id(list))
}

/// Of each record of the class its id and the status that it gets, ascending by id: UNAVAILABLE stays so; else it is
/// AVAILABLE where an object stands under its name, and EXPIRED where none does. A backup is a piece that is no image
/// copy, a set, or a backup of a log. Where the store tells nothing of what it holds, it is so by some bytes under each
/// name. The store is asked for its names once, and no object is read. `StoreFault` where it failed, and counted it.
pub fn crosscheck<D: Store>(
    alloc: Global,
    catalog: &Catalog,
    store: &mut D,
    class: Class,
) -> Result<Seq<(u32, Status)>, EvidenceFault>
    ensures checked { IfOk result (λ list. IsSeen (D.held store.old) (λ h. Lists StatusOf [] (IsChecked (stands_in h) catalog.now class) list)) }
    ensures same { D.held store.new ≡ D.held store.old }
    ensures failed { IsErrOf result EvidenceFault.StoreFault → Rose (D.faults store.old) (D.faults store.new) }
    ensures never_falls { D.faults store.old ≤ D.faults store.new }
{
    let names = store.names()?;
    Ok(statuses(alloc, catalog, names.as_slice(), class)?)
}
