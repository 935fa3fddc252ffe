//! A folder beside a catalog, before anything is put in it.
use crate::place::is_standby;
use crate::told;
use rm_base::Store;
use rm_store_dir::{Dir, DirStore, Last};
use std::fs;
use std::io::{self, ErrorKind};

/// A database: the path of its catalog, and its number there.
#[derive(Clone, Copy)]
pub struct Owner<'a> {
    pub file: &'a str,
    pub number: u32,
}

/// A folder before a task uses it.
#[derive(Drop)]
pub struct Folder<'a> {
    pub store: DirStore<Dir<'a>>,
    /// Which other database of the same catalog had it last, where it is refused for that.
    pub had_by: Option<u32>,
    // Whether one of another catalog had it last.
    is_others: bool,
}

impl<'a> Folder<'a> {
    // The folder of this path, if it is there.
    fn open(rt: &'a HostRuntime, path: String) -> Self {
        Folder {
            store: DirStore::open(rt, path),
            had_by: None,
            is_others: false,
        }
    }

    /// One that is not open. It is asked for nothing, or each call fails.
    pub fn none(rt: &'a HostRuntime) -> Self {
        Folder::open(rt, String::new(rt.alloc()))
    }

    /// Whether it can't be used.
    pub fn is_unusable(&self) -> bool {
        self.store.unopened().is_some()
    }

    /// Whether it can't be used, or a call failed.
    pub fn has_failed(&self) -> bool {
        self.is_unusable() || self.store.last_failure().is_some()
    }

    // Whether it has objects of a database, of which a standby is none; nothing where it can't be listed, which is told as a fault.
    fn has_objects(&mut self) -> Option<bool> {
        let Ok(names) = self.store.names() else {
            return None;
        };
        let mut names = names.as_slice().iter();
        Some(names.any(|name| !is_standby(name.as_str())))
    }

    /// From now on each call fails for this cause.
    pub fn refuse(&mut self, why: &'static str) {
        self.store
            .refuse(io::Error::new(ErrorKind::InvalidInput, why));
    }

    // It is the one of this number in the same catalog: that two databases have one folder is never meant.
    fn refuse_for(&mut self, number: u32) {
        self.refuse("another database of this catalog had it last");
        self.had_by = Some(number);
    }

    // A folder that no catalog had and that has no object is not that of records that are there: the path is wrong.
    fn refuse_unknown(&mut self) {
        if self.has_objects() == Some(false) {
            self.refuse("it has no object and was no catalog's yet, and this catalog has records");
        }
    }

    // From now on it is this database's, also after a stop. Where that can't be kept nothing may be recorded: without it and
    // without an object the folder would be none of these records.
    fn claim_for_new(&mut self, owner: Owner<'_>) {
        if let Err(error) = self.store.claim(owner.file, owner.number) {
            self.store.refuse(error);
        }
    }

    // One of another catalog had it last, which is warned of.
    fn warn(&mut self, rt: &HostRuntime, other: &str) {
        told::other_catalog(rt, self.store.path(), other);
        self.is_others = true;
    }

    /// From now on it is this database's, whose records are there. That this can't be kept leaves it to the next session, which
    /// goes by the objects.
    pub fn claim(&mut self, owner: Owner<'_>) {
        let _ = self.store.claim(owner.file, owner.number);
    }
}

/// The folder of a database that is to come: it is made where it is missing. Objects that a new database would replace are warned of.
/// It stays whose it is.
pub fn to_come<'a>(rt: &'a HostRuntime, path: String, owner: Owner<'_>) -> Folder<'a> {
    let mut folder = Folder::open(rt, path);
    folder.store.make();
    match folder.store.last_used(owner.file, owner.number) {
        Last::Number(number) => folder.refuse_for(number),
        Last::Other(other) => folder.warn(rt, other.as_str()),
        Last::Nobody | Last::This => {
            if folder.has_objects() == Some(true) {
                told::used_folder(rt, folder.store.path());
            }
        }
    }
    folder
}

/// The folder of a database without records, which is this database's from now on, but where one of another catalog had it last.
pub fn of_new<'a>(rt: &'a HostRuntime, path: String, owner: Owner<'_>) -> Folder<'a> {
    let mut folder = to_come(rt, path, owner);
    if !folder.is_others {
        folder.claim_for_new(owner);
    }
    folder.store.clear();
    folder
}

/// The folder of a database with records: one that is missing is not made, since all objects would be missing. That one of another
/// catalog had it last is warned of, and it is this database's from now on.
pub fn of_records<'a>(rt: &'a HostRuntime, path: String, owner: Owner<'_>) -> Folder<'a> {
    let mut folder = Folder::open(rt, path);
    match folder.store.last_used(owner.file, owner.number) {
        Last::This => {}
        Last::Number(number) => folder.refuse_for(number),
        Last::Other(other) => {
            folder.warn(rt, other.as_str());
            folder.claim(owner);
        }
        Last::Nobody => {
            folder.refuse_unknown();
            folder.claim(owner);
        }
    }
    folder.store.clear();
    folder
}

/// The folder of a database with records as one that is read: nothing in it changes, and it stays whose it is.
pub fn to_read<'a>(rt: &'a HostRuntime, path: String, owner: Owner<'_>) -> Folder<'a> {
    let mut folder = Folder::open(rt, path);
    match folder.store.last_used(owner.file, owner.number) {
        Last::This => {}
        Last::Number(number) => folder.refuse_for(number),
        Last::Other(other) => folder.warn(rt, other.as_str()),
        Last::Nobody => folder.refuse_unknown(),
    }
    folder
}

/// The folder of a standby, which is no database's and stays so: one that a database of the same catalog had last is refused. It is
/// made where it is missing and a standby is to be made there.
pub fn of_standby<'a>(
    rt: &'a HostRuntime,
    path: String,
    owner: Owner<'_>,
    is_made: bool,
) -> Folder<'a> {
    let mut folder = Folder::open(rt, path);
    if is_made {
        folder.store.make();
    }
    if folder.is_unusable() {
        return folder;
    }
    match folder.store.last_used(owner.file, owner.number) {
        Last::This => folder.refuse_for(owner.number),
        Last::Number(number) => folder.refuse_for(number),
        Last::Other(other) => folder.warn(rt, other.as_str()),
        Last::Nobody => {}
    }
    folder.store.clear();
    folder
}

/// In place of a folder that two tasks would share, which is refused for this.
pub fn shared<'a>(rt: &'a HostRuntime, why: &'static str) -> Folder<'a> {
    let mut folder = Folder::none(rt);
    folder.refuse(why);
    folder
}

/// Whether two paths are those of one folder.
pub fn are_one(rt: &HostRuntime, one: &str, other: &str) -> bool {
    match (fs::canonicalize(rt, one), fs::canonicalize(rt, other)) {
        (Ok(one), Ok(other)) => one.as_str() == other.as_str(),
        _ => false,
    }
}
