//! The datafiles that exist at an SCN on the path of an incarnation.
ghost use Rattle.std.specs.Prelude.{◌↔◌, All, IfNone, IfOk, IfSome, IsTrue, map};
ghost use Rattle.rm_catalog.specs.{Rules.{HasDatabase}, Trees.{nodes}};
ghost use Rattle.rm_history.specs.Tree.{IsThere};
ghost use Rattle.rm_evidence.specs.Database.{world_of};
ghost use Rattle.rm_plan.specs.Plan.{IsFileTarget};
ghost use Rattle.rm_apply.specs.Files.{AreExactly, IsCreatedSo, IsNamed, IsTargetFile, IsAsked};

use rm_base::{FileNo, IncNo, NoMemory, Scn, Seq};
use rm_catalog::Catalog;
use rm_evidence::datafile;
use rm_history::Datafile;
use std::alloc::Global;

/// A datafile, by its number and as it was created.
#[derive(Clone, Copy)]
pub struct TargetFile {
    pub number: FileNo,
    pub datafile: Datafile,
}

// The greatest number of a datafile.
const LAST_FILE: FileNo = 64;

// The datafile of this number, where it exists at (i, s).
fn target(catalog: &Catalog, i: IncNo, s: Scn, number: FileNo) -> Option<Datafile>
    requires database { HasDatabase catalog.now }
    requires there { IsThere (nodes catalog.now) i }
    ensures some { IfSome result (IsCreatedSo (world_of catalog.now) i s number) }
    ensures none { IfNone result (¬ IsFileTarget (world_of catalog.now) i s number) }
{
    // They are a catalog's, so each datafile was created at 1 or later.
    let _ = catalog.records();
    match datafile(catalog, number) {
        Some(found) if catalog.tree().exists(i, s, &found) => Some(found),
        _ => None,
    }
}

// Whether this number is the one that is named, if one is.
fn is_named(only: Option<FileNo>, number: FileNo) -> bool
    ensures { IsTrue result ↔ IsNamed only number }
{
    match only {
        Some(named) => named == number,
        None => true,
    }
}

// The datafile of this number, where it exists at (i, s) and is the one that is named, if one is.
fn asked(
    catalog: &Catalog,
    i: IncNo,
    s: Scn,
    only: Option<FileNo>,
    number: FileNo,
) -> Option<Datafile>
    requires database { HasDatabase catalog.now }
    requires there { IsThere (nodes catalog.now) i }
    ensures some { IfSome result (λ d. IsCreatedSo (world_of catalog.now) i s number d × IsNamed only number) }
    ensures none { IfNone result (¬ IsAsked (world_of catalog.now) i s only number) }
{
    if is_named(only, number) {
        target(catalog, i, s, number)
    } else {
        None
    }
}

/// The datafiles that exist at SCN `s` on the path of incarnation `i`, or of these the one that is named,
/// ascending by number.
pub fn datafiles_at(
    alloc: Global,
    catalog: &Catalog,
    i: IncNo,
    s: Scn,
    only: Option<FileNo>,
) -> Result<Seq<TargetFile>, NoMemory>
    requires database { HasDatabase catalog.now }
    requires there { IsThere (nodes catalog.now) i }
    ensures numbers { IfOk result (λ xs. AreExactly (IsAsked (world_of catalog.now) i s only) (map (λ x. x.number) xs)) }
    ensures each { IfOk result (All (IsTargetFile (world_of catalog.now) i s)) }
{
    // They are a catalog's, so no datafile has a greater number.
    let _ = catalog.records();
    let mut found = Seq::new(alloc);
    for number in 1..LAST_FILE + 1 {
        if let Some(datafile) = asked(catalog, i, s, only, number) {
            found.push(TargetFile { number, datafile })?;
        }
    }
    Ok(found)
}
