//! Recovery from all that is at hand.
ghost use Rattle.std.specs.Prelude.{◌≡◌, ◌≤◌, IfErr, IfOk, IsErrOf, length};
ghost use Rattle.rm_base.specs.Outside.{Rose};
ghost use Rattle.rm_catalog.specs.{Rules.{HasDatabase}, Trees.{nodes}};
ghost use Rattle.rm_evidence.specs.{Known.{FitsTree, known_of}, Place.{FitsPlace}, Database.{world_of}};
ghost use Rattle.rm_history.specs.Tree.{IsThere};
ghost use Rattle.rm_apply.specs.{Recover.{FindsGap, IfGap, TellsAll, outside, until_of}, Told.{AreFilesAt, IsFaultOfAll}};

use crate::applying::{apply_all, room};
use crate::fault::RecoverFault;
use crate::plans::plans;
use crate::range::outside;
use crate::targets::datafiles_at;
use rm_base::{Bad, IncNo, Scn, Seq, Store};
use rm_blocks::DataFile;
use rm_catalog::Catalog;
use rm_evidence::{Evidence, InPlace, gather_by};
use rm_plan::PlanFault;
use std::alloc::Global;
use std::thread::Threads;

/// What is brought back, ascending by number, and the records that count as available but whose objects are
/// missing or damaged, ascending by id.
#[derive(Drop)]
pub struct Recovered {
    pub files: Seq<DataFile>,
    pub skipped: Seq<(u32, Bad)>,
}

// The datafiles that exist at (i, s), by so many channels. All memory is taken before the first part is applied.
fn recover_files<R: Threads + Sync>(
    rt: &R,
    alloc: Global,
    evidence: &Evidence,
    catalog: &Catalog,
    i: IncNo,
    s: Scn,
    channels: u32,
) -> Result<Seq<DataFile>, PlanFault>
    requires database { HasDatabase catalog.now }
    requires fits { FitsTree (nodes catalog.now) evidence.now }
    requires there { IsThere (nodes catalog.now) i }
    ensures files { IfOk result (AreFilesAt (world_of catalog.now) (known_of evidence.now) i s) }
    ensures few { IfOk result (λ files. length files ≤ 64) }
    ensures gap { IfErr result (IsFaultOfAll (world_of catalog.now) (known_of evidence.now) i s) }
{
    // They are a catalog's, so there are at most 64.
    let _ = catalog.records();
    let targets = datafiles_at(alloc, catalog, i, s, None)?;
    let plans = plans(
        rt,
        alloc,
        evidence,
        catalog,
        i,
        s,
        targets.as_slice(),
        channels,
    )?;
    let files = room(alloc, plans.len())?;
    let plans = plans.into_vec();
    Ok(Seq::from_vec(apply_all(rt, plans, files, i, s, channels)))
}

/// The datafiles that `recover` gives. What is in place is moved into what is at hand: no row of it is copied.
pub fn recover_from<R: Threads + Sync, D: Store>(
    rt: &R,
    alloc: Global,
    catalog: &Catalog,
    store: &mut D,
    place: InPlace,
    i: IncNo,
    s: Scn,
    channels: u32,
) -> Result<Recovered, RecoverFault>
    requires database { HasDatabase catalog.now }
    requires place { FitsPlace catalog.now place }
    requires there { IsThere (nodes catalog.now) i }
    ensures until { until_of result ≡ outside (nodes catalog.now) i s }
    ensures files { IfOk result (TellsAll (D.held store.old) catalog.now place i s) }
    ensures few { IfOk result (λ recovered. length recovered.files ≤ 64) }
    ensures gap { IfErr result (λ x. IfGap x (FindsGap (D.held store.old) catalog.now place i s)) }
    ensures same { D.held store.new ≡ D.held store.old }
    ensures failed { IsErrOf result RecoverFault.StoreFault → Rose (D.faults store.old) (D.faults store.new) }
    ensures never_falls { D.faults store.old ≤ D.faults store.new }
{
    if let Some((low, high)) = outside(catalog.tree(), i, s) {
        return Err(RecoverFault::Until(low, high));
    }
    let evidence = gather_by(rt, alloc, catalog, store, place, channels)?;
    let files = recover_files(rt, alloc, &evidence, catalog, i, s, channels)?;
    Ok(Recovered {
        files,
        skipped: evidence.skipped,
    })
}
