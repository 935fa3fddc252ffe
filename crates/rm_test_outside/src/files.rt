//! What opens catalogs and folders. What is tried of them stands over whatever opens them, so that no proof of it looks
//! into a connection to files, or into a folder.
use rm_base::Store;
use rm_catalog::{Keeper, KeeperFail};
use rm_keeper_sql::CatalogFile;
use rm_store_dir::{Dir, DirStore, Failure, Last};
use sqlite::{Alter, File, FileStore};
use std::io;

/// A catalog, beside what a keeper does.
pub trait Fails {
    /// Whether it has failed, where memory was left for the words of why.
    fn has_failed(&self) -> bool;
}

impl<S: Alter + Drop> Fails for CatalogFile<S> {
    fn has_failed(&self) -> bool {
        self.last_fault().is_some()
    }
}

/// Opens catalogs by their paths.
pub trait Catalogs {
    type Catalog: Keeper + Fails + Drop;

    fn open_catalog(&self, path: &str) -> Self::Catalog;

    fn close_catalog(&self, catalog: Self::Catalog) -> Result<(), KeeperFail>;
}

/// A folder of objects, beside what a store does.
pub trait Owned {
    /// What failed last.
    fn fault(&self) -> Option<&Failure>;

    /// Whose the folder was last, asked by the database of this number in this catalog.
    fn last_used(&self, catalog: &str, number: u32) -> Last;

    /// From now on it is the folder of that database.
    fn claim(&self, catalog: &str, number: u32) -> io::Result<()>;
}

impl Owned for DirStore<Dir<'_>> {
    fn fault(&self) -> Option<&Failure> {
        self.last_failure()
    }

    fn last_used(&self, catalog: &str, number: u32) -> Last {
        DirStore::last_used(self, catalog, number)
    }

    fn claim(&self, catalog: &str, number: u32) -> io::Result<()> {
        DirStore::claim(self, catalog, number)
    }
}

/// Opens folders of objects by their paths.
pub trait Folders {
    type Folder: Store + Owned + Drop;

    /// The store of a folder, which is made where it may be and is missing, without what stopped runs left in it.
    fn open_folder(&self, path: &str, may_make: bool) -> io::Result<Self::Folder>;
}

/// The files of this machine.
#[derive(Clone, Copy)]
pub struct Machine<'a> {
    pub rt: &'a HostRuntime,
}

impl Catalogs for Machine<'_> {
    type Catalog = CatalogFile<FileStore<File>>;

    fn open_catalog(&self, path: &str) -> CatalogFile<FileStore<File>> {
        CatalogFile::open(self.rt, path)
    }

    fn close_catalog(&self, catalog: CatalogFile<FileStore<File>>) -> Result<(), KeeperFail> {
        catalog.close()
    }
}

impl<'a> Folders for Machine<'a> {
    type Folder = DirStore<Dir<'a>>;

    fn open_folder(&self, path: &str, may_make: bool) -> io::Result<DirStore<Dir<'a>>> {
        let mut store = DirStore::open(self.rt, String::from_str(self.rt.alloc(), path)?);
        if may_make {
            store.make();
        }
        store.clear();
        Ok(store)
    }
}
