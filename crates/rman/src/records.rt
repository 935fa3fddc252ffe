//! The files of records: the catalog file alone, or a control file that the catalog follows.
use crate::catalog::{self, Fault, Opens, RecordFile};
use crate::folder::are_one;
use crate::following::why_not;
use rm_base::NoMemory;
use rm_catalog::{Keeper, KeeperFail};
use rm_control::Control;
use rm_keeper_sql::Shelf;
use std::alloc::Global;

// How many lists of edits may wait for the catalog in a session.
const KEEP: u32 = 100;

/// The paths of the files.
#[derive(Clone, Copy)]
pub struct Paths<'a> {
    pub catalog: &'a str,
    pub control: Option<&'a str>,
}

impl<'a> Paths<'a> {
    /// The file whose records are read: the control file, or else the catalog file.
    pub fn read(self) -> &'a str {
        self.control.unwrap_or(self.catalog)
    }
}

/// The catalog file, and before it the control file, where there is one.
#[derive(Drop)]
pub struct Files<C> {
    pub catalog: C,
    pub control: Option<C>,
}

// The catalog file of a control file, which can't be that file itself.
fn open_far<O: Opens>(
    rt: &HostRuntime,
    opens: &O,
    paths: Paths<'_>,
    control: &str,
    folders: &[&str],
) -> Result<O::Opened, NoMemory> {
    if are_one(rt, control, paths.catalog) {
        let why = "it is the control file";
        return Ok(RecordFile::unusable(rt.alloc(), Some(why)));
    }
    catalog::open(rt, opens, paths.catalog, folders)
}

/// The files of these paths, beside these folders. Each is made where it is missing.
pub fn open<O: Opens>(
    rt: &HostRuntime,
    opens: &O,
    paths: Paths<'_>,
    folders: &[&str],
) -> Result<Files<O::Opened>, NoMemory> {
    match paths.control {
        None => Ok(Files::alone(catalog::open(rt, opens, paths.catalog, folders)?)),
        Some(path) => {
            let control = catalog::open(rt, opens, path, folders)?;
            let catalog = open_far(rt, opens, paths, path, folders)?;
            Ok(Files::both(control, catalog))
        }
    }
}

// Whether the database of this number has records, by both files. A control file to whose records the catalog's must not be made
// equal is refused.
fn have_records<C: Shelf + RecordFile + Drop>(
    alloc: Global,
    control: &mut C,
    catalog: &mut C,
    number: u32,
) -> Result<Option<bool>, NoMemory> {
    let Some(near) = catalog::load(alloc, control, number)? else {
        return Ok(None);
    };
    let Some(far) = catalog::load(alloc, catalog, number)? else {
        return Ok(None);
    };
    let has_records = !near.is_empty();
    match why_not(near, far)? {
        Some(why) => {
            *control = RecordFile::unusable(alloc, Some(why));
            Ok(None)
        }
        None => Ok(Some(has_records)),
    }
}

impl<C> Files<C> {
    /// The catalog file alone.
    pub fn alone(catalog: C) -> Self {
        Files {
            catalog,
            control: None,
        }
    }

    /// A control file, and the catalog file behind it.
    pub fn both(control: C, catalog: C) -> Self {
        Files {
            catalog,
            control: Some(control),
        }
    }
}

impl<C: Shelf + RecordFile + Drop> Files<C> {
    /// Whether the database of this number has records; nothing where those of one of the files can't be read, or must not be followed.
    pub fn have_records(&mut self, alloc: Global, number: u32) -> Result<Option<bool>, NoMemory> {
        match &mut self.control {
            None => catalog::has_records(alloc, &mut self.catalog, number),
            Some(control) => have_records(alloc, control, &mut self.catalog, number),
        }
    }

    /// From now on they keep the records of the database of this number.
    pub fn choose(&mut self, number: u32) {
        self.catalog.choose(number);
        if let Some(control) = &mut self.control {
            control.choose(number);
        }
    }

    /// The file that failed, as it is told of. Where none did it is the one whose records are read.
    pub fn fault<'a>(&'a self, paths: Paths<'a>) -> Fault<'a> {
        let of_catalog = Fault {
            name: "catalog",
            path: paths.catalog,
            why: self.catalog.why(),
        };
        match (&self.control, paths.control) {
            (Some(control), Some(path)) if of_catalog.why.is_none() => Fault {
                name: "control",
                path,
                why: control.why(),
            },
            _ => of_catalog,
        }
    }
}

/// Closes them. What was applied is durable without it.
pub fn close<O: Opens>(opens: &O, files: Files<O::Opened>) {
    let Files { catalog, control } = files;
    opens.close(catalog);
    if let Some(control) = control {
        opens.close(control);
    }
}

/// A control file that the catalog follows, or both as they are and why the catalog can't be made equal to it.
pub fn follow<C: Keeper + Drop>(
    alloc: Global,
    control: C,
    catalog: C,
) -> Result<Control<C, C>, (C, C, KeeperFail)> {
    Control::open(alloc, control, catalog, KEEP)
}
