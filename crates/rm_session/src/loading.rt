//! A saved site is loaded.
ghost use Rattle.std.specs.Prelude.{◌≡◌, ◌<◌, ◌≤◌, ◌^◌, IfOk, IfSome, IsErrOf};
ghost use Rattle.rm_base.specs.Outside.{Rose};
ghost use Rattle.rm_machine.specs.{Loading.{IsLoaded}, Sound.{IsSound}};
ghost use Rattle.rm_catalog_typed.specs.Facts.{IsTypedCatalog};
ghost use Rattle.rm_session.specs.Fit.{IsFitBy, IsHadBy};

use crate::instances::{load_instance, lost_instance};
use crate::point::point_of;
use rm_base::Store;
use rm_catalog_typed::TypedCatalog;
use rm_evidence::EvidenceFault;
use rm_machine::{Instance, State};
use std::alloc::Global;

// What runs of the database of this catalog, without a point.
fn instance_of<D: Store>(
    alloc: Global,
    store: &mut D,
    catalog: &TypedCatalog,
) -> Result<Instance, EvidenceFault>
    ensures rules { IsTypedCatalog catalog.now }
    ensures dbid { catalog.now.ledger.base.dbid < 2 ^ 32 }
    ensures told { IfOk result (λ i. IfSome (D.held store.old) (λ h. IsHadBy h catalog.now.ledger catalog.now.saved i)) }
    ensures fits { IfOk result (λ i. IsFitBy catalog.now.ledger catalog.now.saved i) }
    ensures same { D.held store.new ≡ D.held store.old }
    ensures failed { IsErrOf result EvidenceFault.StoreFault → Rose (D.faults store.old) (D.faults store.new) }
    ensures never_falls { D.faults store.old ≤ D.faults store.new }
{
    let _dbid = catalog.base().dbid;
    match catalog.saved() {
        Some(site) => load_instance(alloc, store, catalog, site),
        None => Ok(lost_instance(alloc, catalog)?),
    }
}

/// The database of this catalog, where what runs is loaded of its saved site: each part that is good stands in place, and
/// all else is lost. Without a saved site all is lost. Whatever the store holds, the database is sound. An error is a
/// fault of the store, which is counted, or want of memory.
pub fn load_place<D: Store>(
    alloc: Global,
    store: &mut D,
    catalog: TypedCatalog,
) -> Result<State, EvidenceFault>
    ensures catalog { IfOk result (λ s. s.catalog ≡ catalog) }
    ensures loaded { IfOk result (λ s. IfSome (D.held store.old) (λ h. IsLoaded h s)) }
    ensures sound { IfOk result IsSound }
    ensures same { D.held store.new ≡ D.held store.old }
    ensures failed { IsErrOf result EvidenceFault.StoreFault → Rose (D.faults store.old) (D.faults store.new) }
    ensures never_falls { D.faults store.old ≤ D.faults store.new }
{
    let instance = instance_of(alloc, store, &catalog)?;
    let mut state = State { catalog, instance };
    let point = point_of(&state);
    state.instance.point = point;
    Ok(state)
}
