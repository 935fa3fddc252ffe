//! A site is opened over a store and a keeper.
ghost use Rattle.std.specs.Prelude.{◌≡◌, ◌≤◌, true, false, IfOk, IfErr, IfSome, IsErrOf};
ghost use Rattle.rm_base.specs.Outside.{Rose};
ghost use Rattle.rm_site.specs.{Faults.{IsBadFirst}, Opens.{AreValid, Opens, Shows}};

use crate::site::Site;
use rm_base::{NoMemory, Store};
use rm_catalog::{CatalogFault, Keeper, KeeperFail};
use rm_catalog_typed::TypedCatalog;
use rm_evidence::EvidenceFault;
use rm_session::load_place;
use std::alloc::Global;

/// Why a site could not be opened.
#[derive(Clone, Copy, PartialEq, Eq)]
pub enum OpenFault {
    /// The kind and the id of the first record, by kind and then by id, that breaks a rule.
    BadRow(u8, u32),
    /// The store failed, and counted it.
    StoreFault,
    /// The keeper failed, and counted it.
    KeeperFault,
    NoMemory,
}

impl From<KeeperFail> for OpenFault {
    ghost use Rattle.rm_site.specs.Faults.{fault_of};

    ghost from_gives = { λ fail e. e ≡ fault_of fail };

    fn from(fail: KeeperFail) -> Self {
        match fail {
            KeeperFail::Failed => OpenFault::KeeperFault,
            KeeperFail::NoMemory => OpenFault::NoMemory,
        }
    }
}

impl From<CatalogFault> for OpenFault {
    ghost use Rattle.rm_site.specs.Faults.{fault_at};

    ghost from_gives = { λ fault e. e ≡ fault_at fault };

    fn from(fault: CatalogFault) -> Self {
        match fault {
            CatalogFault::BadRow(kind, id) => OpenFault::BadRow(kind, id),
            CatalogFault::NoMemory => OpenFault::NoMemory,
        }
    }
}

impl From<EvidenceFault> for OpenFault {
    ghost use Rattle.rm_site.specs.Faults.{fault_in};

    ghost from_gives = { λ fault e. e ≡ fault_in fault };

    fn from(fault: EvidenceFault) -> Self {
        match fault {
            EvidenceFault::StoreFault => OpenFault::StoreFault,
            EvidenceFault::NoMemory => OpenFault::NoMemory,
        }
    }
}

impl Site {
    /// Opens the site over a store and a keeper. Without a record there is no database yet; else what runs is loaded of the
    /// saved site, and what was not saved is lost. `BadRow` exactly where the records are not valid.
    pub fn open<D: Store, C: Keeper>(
        alloc: Global,
        store: &mut D,
        keeper: &mut C,
    ) -> Result<Site, OpenFault>
        ensures opened { IfOk result (Opens (D.held store.old) (C.kept keeper.old)) }
        ensures shows { IfOk result (Shows (D.held store.old) (C.kept keeper.old)) }
        ensures live { IfOk result (λ site. site.live ≡ true) }
        ensures applied { IfOk result (λ site. site.applied ≡ false) }
        ensures valid { IfOk result (λ _. IfSome (C.kept keeper.old) AreValid) }
        ensures bad { IfErr result (λ fault. IfSome (C.kept keeper.old) (IsBadFirst fault)) }
        ensures held { D.held store.new ≡ D.held store.old }
        ensures kept { C.kept keeper.new ≡ C.kept keeper.old }
        ensures store { IsErrOf result OpenFault.StoreFault → Rose (D.faults store.old) (D.faults store.new) }
        ensures keeper { IsErrOf result OpenFault.KeeperFault → Rose (C.faults keeper.old) (C.faults keeper.new) }
        ensures none_falls { (D.faults store.old ≤ D.faults store.new) × (C.faults keeper.old ≤ C.faults keeper.new) }
    {
        let records = keeper.load()?;
        let state = match TypedCatalog::from_records(records)? {
            Some(catalog) => Some(load_place(alloc, store, catalog)?),
            None => None,
        };
        Ok(Site {
            alloc,
            state,
            live: true,
            applied: false,
        })
    }
}
