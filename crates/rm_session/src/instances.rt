//! What runs, as it is loaded, its point left aside.
ghost use Rattle.std.specs.Prelude.{◌≡◌, ◌≤◌, ◌&&◌, None, IfOk, IfSome, IsErrOf, not, replicate};
ghost use Rattle.rm_base.specs.Outside.{Rose};
ghost use Rattle.rm_machine.specs.{Loading.{lost_instance}, State.{has_lost}};
ghost use Rattle.rm_catalog_typed.specs.Facts.{IsTypedCatalog};
ghost use Rattle.rm_session.specs.Fit.{IsFit, IsHad};

use crate::files::load_files;
use crate::threads::{load_logs, online_of};
use rm_base::{NoMemory, Seq, Store};
use rm_catalog_typed::{Saved, TypedCatalog};
use rm_evidence::EvidenceFault;
use rm_machine::Instance;
use rm_machine::facts::has_lost;
use rm_machine::tracking::first_tracker;
use rm_redo::OnlineLogs;
use rm_track::Tracker;
use std::alloc::Global;

// So many that are lost.
fn all_lost<T: Drop>(alloc: Global, many: usize) -> Result<Seq<Option<T>>, NoMemory>
    ensures { IfOk result (λ lost. lost ≡ replicate many None) }
{
    let mut lost = Vec::new(alloc);
    for _ in 0..many {
        lost.push(None)?;
    }
    Ok(Seq::from_vec(lost))
}

/// What runs of a database of which all is lost.
pub(crate) fn lost_instance(alloc: Global, catalog: &TypedCatalog) -> Result<Instance, NoMemory>
    requires { IsTypedCatalog catalog.now }
    ensures { IfOk result (λ i. i ≡ lost_instance catalog.now.ledger) }
{
    let base = catalog.base();
    let place = all_lost(alloc, catalog.files().len())?;
    let enabled = catalog.enabled_at(base.current, catalog.tree().end_of(base.current));
    let logs = OnlineLogs::from_logs(alloc, base.dbid, base.current, enabled, all_lost(alloc, 4)?)?;
    Ok(Instance {
        is_open: false,
        point: None,
        place,
        logs,
        damaged: Seq::new(alloc),
        tracker: Tracker::new(alloc),
    })
}

// Whether the database of a saved site is open with these logs: it was, and none of them is lost.
fn stays_open(site: &Saved, logs: &OnlineLogs) -> bool
    ensures { result ≡ (site.now.head.opened && not (has_lost logs.now)) }
{
    site.head().opened && !has_lost(logs)
}

/// What runs, as it is loaded of a saved site, without a point. An error is a fault of the store, which is counted, or want
/// of memory.
pub(crate) fn load_instance<D: Store>(
    alloc: Global,
    store: &mut D,
    catalog: &TypedCatalog,
    site: &Saved,
) -> Result<Instance, EvidenceFault>
    requires { IsTypedCatalog catalog.now }
    ensures told { IfOk result (λ i. IfSome (D.held store.old) (λ h. IsHad h catalog.now.ledger site.now i)) }
    ensures fits { IfOk result (λ i. IsFit catalog.now.ledger site.now i) }
    ensures same { D.held store.new ≡ D.held store.old }
    ensures failed { IsErrOf result EvidenceFault.StoreFault → Rose (D.faults store.old) (D.faults store.new) }
    ensures never_falls { D.faults store.old ≤ D.faults store.new }
{
    let place = load_files(alloc, store, catalog, site)?;
    let parts = load_logs(alloc, store, catalog, site)?;
    let logs = online_of(alloc, catalog, parts)?;
    let is_open = stays_open(site, &logs);
    let tracker = first_tracker(alloc, catalog, is_open)?;
    Ok(Instance {
        is_open,
        point: None,
        place,
        logs,
        damaged: Seq::new(alloc),
        tracker,
    })
}
