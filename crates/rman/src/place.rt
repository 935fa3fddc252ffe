//! Where the catalog file lies.
use rm_base::NoMemory;
use std::fs;
use std::io::{self, ErrorKind};
use std::path::{Path, PathBuf};

// What the names of standbys begin with.
const STANDBY: &str = "standby_";

// What the names begin with under which statements put and remove objects; behind it stands a number.
const KINDS: [&str; 7] = ["log_", "piece_", "copy_", "set_", "site_", "roll_", STANDBY];

fn are_digits(bytes: &[u8]) -> bool {
    bytes.iter().all(|byte| byte.is_ascii_digit())
}

fn is_of_kind(name: &str, kind: &str) -> bool {
    match name.strip_prefix(kind) {
        Some(number) => !number.is_empty() && are_digits(number.as_bytes()),
        None => false,
    }
}

/// Whether an object of this name may be a standby.
pub fn is_standby(name: &str) -> bool {
    is_of_kind(name, STANDBY)
}

// Whether a statement may put or remove an object of this name, or the folder has such a file for itself.
fn is_taken(name: &str) -> bool {
    name.starts_with(".rman-") || KINDS.iter().any(|kind| is_of_kind(name, kind))
}

// The path without links of a file that is not there, but its folder is.
fn path_of_new(rt: &HostRuntime, file: &str) -> io::Result<PathBuf> {
    let path = Path::new(file);
    let (Some(parent), Some(name)) = (path.parent(), path.file_name()) else {
        return Err(io::Error::from(ErrorKind::NotFound));
    };
    let parent = if parent.as_str().is_empty() {
        "."
    } else {
        parent.as_str()
    };
    let mut found = fs::canonicalize(rt, parent)?;
    found.push(name)?;
    Ok(found)
}

// The path without links of a file, whether it is there or not.
fn path_of(rt: &HostRuntime, file: &str) -> io::Result<PathBuf> {
    match fs::canonicalize(rt, file) {
        Err(error) if error.kind() == ErrorKind::NotFound => path_of_new(rt, file),
        found => found,
    }
}

fn find(rt: &HostRuntime, folder: &str, file: &str) -> io::Result<bool> {
    let folder = fs::canonicalize(rt, folder)?;
    let path = path_of(rt, file)?;
    let (Some(parent), Some(name)) = (path.parent(), path.file_name()) else {
        return Ok(false);
    };
    Ok(parent.as_str() == folder.as_str() && is_taken(name))
}

/// Whether this file lies in this folder under a name that statements put or remove there, so that an object would replace it. Where
/// one of the two paths can't be told it does not: then opening it tells why. An error is want of memory.
pub fn is_under_objects_name(rt: &HostRuntime, folder: &str, file: &str) -> Result<bool, NoMemory> {
    match find(rt, folder, file) {
        Ok(lies) => Ok(lies),
        Err(error) if error.kind() == ErrorKind::OutOfMemory => Err(NoMemory),
        Err(_) => Ok(false),
    }
}
