//! The lock on a directory, which tells too of which database it is.
use crate::names::is_beside;
use std::alloc::{AllocError, Global};
use std::fs::{self, DirBuilder, DirEntry, File, OpenOptions, TryLockError};
use std::io::{self, ErrorKind, Read};
use std::os::unix::fs::{DirBuilderExt, FileExt, OpenOptionsExt};

// The name of the file that is locked, which no object has.
const LOCK: &str = ".rman-lock";

fn join(alloc: Global, path: &str, name: &str) -> Result<String, AllocError> {
    let mut joined = String::from_str(alloc, path)?;
    joined.push_str("/")?;
    joined.push_str(name)?;
    Ok(joined)
}

/// Makes the directory where it is missing, for its owner alone, and that durable.
pub(crate) fn make(rt: &HostRuntime, path: &str) -> io::Result<()> {
    match DirBuilder::new().mode(0o700).create(rt, path) {
        Ok(()) => {
            let parent = join(rt.alloc(), path, "..")?;
            File::open(rt, parent.as_str())?.sync_all()
        }
        Err(error) if error.kind() == ErrorKind::AlreadyExists => Ok(()),
        Err(error) => Err(error),
    }
}

// Whether a call was refused the right to write.
fn wants_rights(error: &io::Error) -> bool {
    error.kind() == ErrorKind::PermissionDenied || error.kind() == ErrorKind::ReadOnlyFilesystem
}

// Opens the file that is locked, and makes it where it is missing, for its owner alone. Where it can't be written it is
// opened to be read. No link is followed.
fn open_lock(rt: &HostRuntime, path: &str) -> io::Result<File> {
    if let Ok(found) = fs::symlink_metadata(rt, path) {
        if !found.is_file() {
            return Err(io::Error::new(ErrorKind::InvalidFilename, "its .rman-lock is no file"));
        }
    }
    let opened = OpenOptions::new()
        .read(true)
        .write(true)
        .create(true)
        .mode(0o600)
        .open(rt, path);
    match opened {
        // The first error is told.
        Err(error) if wants_rights(&error) => File::open(rt, path).or(Err(error)),
        opened => opened,
    }
}

// The lock on the directory, for which nobody is waited.
fn lock(rt: &HostRuntime, path: &str) -> io::Result<File> {
    let path = join(rt.alloc(), path, LOCK)?;
    let file = open_lock(rt, path.as_str())?;
    match file.try_lock() {
        Ok(()) => Ok(file),
        Err(TryLockError::WouldBlock) => Err(io::Error::new(
            ErrorKind::ResourceBusy,
            "another process uses this folder",
        )),
        Err(TryLockError::Error(error)) => Err(error),
    }
}

// Takes the entry away if it is what a stopped run left beside the objects.
fn clear_entry(rt: &HostRuntime, entry: &DirEntry<HostRuntime>) -> io::Result<()> {
    if is_beside(entry.file_name()) && entry.file_type()?.is_file() {
        return fs::remove_file(rt, entry.path());
    }
    Ok(())
}

fn clear_entries(rt: &HostRuntime, path: &str) -> io::Result<()> {
    for entry in fs::read_dir(rt, path)? {
        if let Ok(entry) = entry {
            clear_entry(rt, &entry)?;
        }
    }
    Ok(())
}

/// Takes away what stopped runs left beside the objects of the directory of this path. What can't be taken away is met by the put
/// that wants its name.
pub(crate) fn clear(rt: &HostRuntime, path: &str) {
    let _ = clear_entries(rt, path);
}

/// Takes the lock of the directory of this path, which goes with the file.
pub(crate) fn hold(rt: &HostRuntime, path: &str) -> io::Result<File> {
    if path.is_empty() {
        return Err(io::Error::new(ErrorKind::InvalidInput, "its path is empty"));
    }
    lock(rt, path)
}

/// Whose the directory was last, by what its lock says.
#[derive(Drop)]
pub enum Last {
    /// No database had it.
    Nobody,
    /// That of the database that is asked about.
    This,
    /// That of the database of this other number in the same catalog.
    Number(u32),
    /// That of a database in another catalog, of this path and number.
    Other(String),
}

// What stands between the path of a catalog and a number that is not 0.
const NUMBER: &str = " database ";

// What the lock says of a database: the path of its catalog without links, and behind it its number there, if that is not 0.
fn mark_of(rt: &HostRuntime, catalog: &str, number: u32) -> io::Result<String> {
    let path = fs::canonicalize(rt, catalog)?;
    if number == 0 {
        return Ok(path.into_string());
    }
    Ok(format!(in rt.alloc(); "{}{NUMBER}{number}", path.as_str())?)
}

// The number that a mark says, if it is one of the catalog of this path.
fn number_in(mark: &str, path: &str) -> Option<u32> {
    let behind = mark.strip_prefix(path)?;
    if behind.is_empty() {
        return Some(0);
    }
    behind.strip_prefix(NUMBER)?.parse::<u32>().ok()
}

/// Whose the directory of this lock was last, asked by the database of this number in this catalog.
pub(crate) fn last_used(rt: &HostRuntime, mut file: &File, catalog: &str, number: u32) -> Last {
    let mut last = String::new(rt.alloc());
    let _ = file.read_to_string(&mut last);
    if last.is_empty() {
        return Last::Nobody;
    }
    let found = match fs::canonicalize(rt, catalog) {
        Ok(path) => number_in(last.as_str(), path.as_str()),
        Err(_) => None,
    };
    match found {
        Some(found) if found == number => Last::This,
        Some(found) => Last::Number(found),
        None => Last::Other(last),
    }
}

// (What stood there is cut only behind what is written.)
fn write_claim(file: &File, mark: &str) -> io::Result<()> {
    file.write_all_at(mark.as_bytes(), 0)?;
    file.set_len(mark.len() as u64)
}

/// Writes into the file that is locked of which database the directory of this path is from now on, durably. A catalog
/// that is no file is not told.
pub(crate) fn claim(
    rt: &HostRuntime,
    path: &str,
    file: &File,
    catalog: &str,
    number: u32,
) -> io::Result<()> {
    let mark = match mark_of(rt, catalog, number) {
        Ok(mark) => mark,
        Err(error) if error.kind() == ErrorKind::OutOfMemory => return Err(error),
        Err(_) => return Ok(()),
    };
    write_claim(file, mark.as_str())?;
    file.sync_all()?;
    File::open(rt, path)?.sync_all()
}
