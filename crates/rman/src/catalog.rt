//! A file of records: the catalog file, or a control file. What is done with one is said over any store below it, and over whatever opens
//! it, so that one call alone is about files of the machine.
use crate::place::is_under_objects_name;
use rm_base::{NoMemory, Seq};
use rm_catalog::{Keeper, KeeperFail, Record};
use rm_keeper_sql::{CatalogFile, Shelf, Unopened};
use sqlite::{Alter, File, FileStore};
use std::alloc::Global;

/// A file of records, beside what a keeper and a shelf do.
pub trait RecordFile {
    /// Stands in place of a file that can't be used, and fails for this cause.
    fn unusable(alloc: Global, why: Option<&str>) -> Self;

    /// Why it failed last.
    fn why(&self) -> Option<&str>;

    /// From now on it keeps the records of the database of this number.
    fn choose(&mut self, number: u32);
}

impl<S: Alter + Drop> RecordFile for CatalogFile<S> {
    fn unusable(alloc: Global, why: Option<&str>) -> Self {
        let words = match why {
            Some(why) => String::from_str(alloc, why).ok(),
            None => None,
        };
        CatalogFile::NotOpened(Unopened::new(KeeperFail::Failed, words))
    }

    fn why(&self) -> Option<&str> {
        self.last_fault()
    }

    fn choose(&mut self, number: u32) {
        if let CatalogFile::Opened(keeper) = self {
            keeper.choose(number);
        }
    }
}

/// Opens and closes files of records.
pub trait Opens {
    type Opened: Keeper + Shelf + RecordFile + Drop;

    /// The file of this path, which is made where it is missing.
    fn open(&self, path: &str) -> Self::Opened;

    /// Closes it. What was applied is durable without it.
    fn close(&self, file: Self::Opened);
}

/// The files of the machine.
#[derive(Clone, Copy)]
pub struct Machine<'a> {
    pub rt: &'a HostRuntime,
}

impl Opens for Machine<'_> {
    type Opened = CatalogFile<FileStore<File>>;

    fn open(&self, path: &str) -> CatalogFile<FileStore<File>> {
        CatalogFile::open(self.rt, path)
    }

    fn close(&self, file: CatalogFile<FileStore<File>>) {
        let _ = file.close();
    }
}

/// A file of records, as it is told of on standard error, and why it failed last.
#[derive(Clone, Copy)]
pub struct Fault<'a> {
    pub name: &'static str,
    pub path: &'a str,
    pub why: Option<&'a str>,
}

/// The file of this path, beside these folders. One that lies in one of them where an object would replace it is not opened.
pub fn open<O: Opens>(
    rt: &HostRuntime,
    opens: &O,
    file: &str,
    folders: &[&str],
) -> Result<O::Opened, NoMemory> {
    for folder in folders {
        if is_under_objects_name(rt, folder, file)? {
            let why = "it lies in the folder under the name of an object";
            return Ok(RecordFile::unusable(rt.alloc(), Some(why)));
        }
    }
    Ok(opens.open(file))
}

/// The records of the database of this number; nothing where they can't be read. Then the file is never read again: a second load
/// that succeeds would find no folder beside it.
pub fn load<C: Shelf + RecordFile + Drop>(
    alloc: Global,
    catalog: &mut C,
    number: u32,
) -> Result<Option<Seq<Record>>, NoMemory> {
    match catalog.load_of(number) {
        Ok(records) => Ok(Some(records)),
        Err(KeeperFail::Failed) => {
            let unread = RecordFile::unusable(alloc, catalog.why());
            *catalog = unread;
            Ok(None)
        }
        Err(KeeperFail::NoMemory) => Err(NoMemory),
    }
}

/// Whether the database of this number has records; nothing where they can't be read.
pub fn has_records<C: Shelf + RecordFile + Drop>(
    alloc: Global,
    catalog: &mut C,
    number: u32,
) -> Result<Option<bool>, NoMemory> {
    match load(alloc, catalog, number)? {
        Some(records) => Ok(Some(!records.is_empty())),
        None => Ok(None),
    }
}
