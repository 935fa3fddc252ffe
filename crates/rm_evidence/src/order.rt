//! Lists by id.
ghost use Rattle.std.specs.Prelude.{◌≡◌, ◌≢◌, ◌<◌, AllPairs, IfOk, IsPermutation, OnOk, map};
ghost use Rattle.rm_catalog.specs.Rules.{IsCatalog};
ghost use Rattle.rm_evidence.specs.Taking.{AreObjects, with_object};

use crate::naming::object_id;
use rm_base::{NoMemory, Seq};
use rm_catalog::Record;
use std::alloc::Global;

/// The same list, ascending by id where no two items have one id. It takes no memory.
pub fn by_id<T>(list: Seq<(u32, T)>) -> Seq<(u32, T)>
    ensures same { IsPermutation list result }
    ensures ascends { AllPairs (λ x y. x.0 ≢ y.0) list → AllPairs (λ x y. x.0 < y.0) result }
{
    let mut list = list.into_vec();
    list.sort_unstable_by_key(|x| x.0);
    Seq::from_vec(list)
}

// Adds the record, where it is one of an object.
fn add_object<'a>(list: &mut Seq<(u32, &'a Record)>, row: &'a Record) -> Result<(), NoMemory>
    ensures { OnOk result (map (λ x. (x.0, x.1.now)) list.new ≡ with_object (map (λ x. (x.0, x.1.now)) list.old) row.now) }
{
    match object_id(row) {
        Some(id) => list.push((id, row)),
        None => Ok(()),
    }
}

/// The records of objects, each with its id, ascending by id.
pub fn objects(alloc: Global, records: &[Record]) -> Result<Seq<(u32, &Record)>, NoMemory>
    requires { IsCatalog records.now }
    ensures { IfOk result (λ objects. AreObjects records.now (map (λ x. (x.0, x.1.now)) objects)) }
{
    let mut list = Seq::new(alloc);
    for row in records {
        add_object(&mut list, row)?;
    }
    Ok(by_id(list))
}
