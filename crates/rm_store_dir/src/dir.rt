//! A directory of the machine. Contracts see nothing of its files.
ghost use Rattle.std.specs.Prelude.{IfOk};
ghost use Rattle.rm_base.specs.Store.{Ascends};

use crate::folder::Folder;
use crate::lock::{Last, claim, clear, hold, last_used, make};
use crate::names::is_object;
use rm_base::{MOST_BYTES, Seq, Text};
use std::alloc::AllocError;
use std::collections::BTreeMap;
use std::fs::{self, DirEntry, File, Metadata, OpenOptions};
use std::io::{self, ErrorKind, Read, Write};
use std::os::unix::fs::OpenOptionsExt;

/// The files of a directory, which no other process has meanwhile.
#[derive(Drop)]
pub struct Dir<'a> {
    rt: &'a HostRuntime,
    path: String,
    // The lock on it, or why it is not open.
    lock: io::Result<File>,
}

impl<'a> Dir<'a> {
    /// The directory of this path, with its lock. One that can't be opened or locked fails at each call for the
    /// same cause.
    pub fn open(rt: &'a HostRuntime, path: String) -> Self {
        let lock = hold(rt, path.as_str());
        Dir { rt, path, lock }
    }

    /// Takes away what stopped runs left beside the objects. Nothing is done where it is not open.
    pub fn clear(&self) {
        if self.lock.is_ok() {
            clear(self.rt, self.path.as_str());
        }
    }

    /// Whether it is not open since nothing stands at its path.
    pub fn is_missing(&self) -> bool {
        match &self.lock {
            Ok(_) => false,
            Err(error) => error.kind() == ErrorKind::NotFound,
        }
    }

    /// Makes it where it is missing and its parent is there, for its owner alone, and opens it.
    pub fn make(&mut self) {
        if self.is_missing() {
            self.lock = match make(self.rt, self.path.as_str()) {
                Ok(()) => hold(self.rt, self.path.as_str()),
                Err(error) => Err(error),
            };
        }
    }

    /// Its path, as it was given.
    pub fn given_path(&self) -> &str {
        self.path.as_str()
    }

    /// Why it is not open.
    pub fn unopened(&self) -> Option<io::Error> {
        match &self.lock {
            Ok(_) => None,
            Err(error) => Some(*error),
        }
    }

    /// Whose it was last, asked by the database of this number in this catalog. One that is not open is as if it were this one's.
    pub fn last_used(&self, catalog: &str, number: u32) -> Last {
        match &self.lock {
            Ok(lock) => last_used(self.rt, lock, catalog, number),
            Err(_) => Last::This,
        }
    }

    /// From now on it is the directory of the database of this number in this catalog, also after a stop. Nothing is done where
    /// it is not open.
    pub fn claim(&self, catalog: &str, number: u32) -> io::Result<()> {
        match &self.lock {
            Ok(lock) => claim(self.rt, self.path.as_str(), lock, catalog, number),
            Err(_) => Ok(()),
        }
    }

    /// From now on each call fails for this cause.
    pub fn refuse(&mut self, cause: io::Error) {
        self.lock = Err(cause);
    }

    // Its path, if it is open.
    fn path(&self) -> io::Result<&str> {
        match &self.lock {
            Ok(_) => Ok(self.path.as_str()),
            Err(error) => Err(*error),
        }
    }

    fn path_of(&self, name: &str) -> io::Result<String> {
        let mut path = String::from_str(self.rt.alloc(), self.path()?)?;
        path.push_str("/")?;
        path.push_str(name)?;
        Ok(path)
    }

    // Nothing stands there, if the directory is there.
    fn nothing(&self) -> io::Result<Place> {
        let _ = fs::metadata(self.rt, self.path.as_str())?;
        Ok(Place::Nothing)
    }

    // What stands under this path. No link is followed.
    fn place(&self, path: &str) -> io::Result<Place> {
        match fs::symlink_metadata(self.rt, path) {
            Ok(found) if is_whole(&found) => Ok(Place::File(found.len())),
            Ok(_) => Ok(Place::Other),
            Err(error) if error.kind() == ErrorKind::NotFound => self.nothing(),
            Err(error) => Err(error),
        }
    }
}

// What stands under a path.
#[derive(Clone, Copy)]
enum Place {
    Nothing,
    /// A file of so many bytes, which an object may be.
    File(u64),
    /// A directory, a link, a device, or a file that is longer than an object.
    Other,
}

// Whether it is a file that an object may be.
fn is_whole(found: &Metadata) -> bool {
    found.is_file() && found.len() <= MOST_BYTES
}

// The name of an entry that is an object.
fn listed(
    rt: &HostRuntime,
    entry: io::Result<DirEntry<HostRuntime>>,
) -> io::Result<Option<String>> {
    let entry = match entry {
        Ok(entry) => entry,
        // Its name is no text.
        Err(error) if error.kind() == ErrorKind::InvalidFilename => return Ok(None),
        Err(error) => return Err(error),
    };
    if is_object(entry.file_name().as_bytes()) && is_whole(&entry.metadata()?) {
        return Ok(Some(String::from_str(rt.alloc(), entry.file_name())?));
    }
    Ok(None)
}

// The keys of the map.
fn texts(rt: &HostRuntime, names: &BTreeMap<String, ()>) -> Result<Seq<Text>, AllocError>
    ensures { IfOk result (λ names. Ascends names) }
{
    let mut texts = Vec::new(rt.alloc());
    for name in names.keys() {
        texts.push(Text::from_string(name.clone()?))?;
    }
    Ok(Seq::from_vec(texts))
}

fn sorted_names(rt: &HostRuntime, path: &str) -> io::Result<Seq<Text>>
    ensures { IfOk result (λ names. Ascends names) }
{
    let mut names = BTreeMap::new(rt.alloc());
    for entry in fs::read_dir(rt, path)? {
        if let Some(name) = listed(rt, entry)? {
            names.insert(name, ())?;
        }
    }
    Ok(texts(rt, &names)?)
}

impl Folder for Dir<'_> {
    ghost use Rattle.std.specs.Prelude.{None, false, []};

    ghost files = { λ _. None };

    ghost blocked = { λ _ _. false };

    ghost keeps = { λ _ _. [] };

    fn read(&self, name: &str) -> io::Result<Option<Seq<u8>>> {
        let path = self.path_of(name)?;
        let Place::File(len) = self.place(path.as_str())? else {
            return Ok(None);
        };
        let len = usize::try_from(len).unwrap_or(0);
        let mut bytes = Vec::with_capacity(self.rt.alloc(), len)?;
        File::open(self.rt, path.as_str())?.read_to_end(&mut bytes)?;
        Ok(Some(Seq::from_vec(bytes)))
    }

    fn is_blocked(&self, name: &str) -> io::Result<bool> {
        let path = self.path_of(name)?;
        Ok(matches!(self.place(path.as_str())?, Place::Other))
    }

    fn names(&self) -> io::Result<Seq<Text>> {
        sorted_names(self.rt, self.path()?)
    }

    // The file is its owner's alone. That it is new leaves no stale one, whose rights it would have, and
    // follows no link.
    fn write_new(&mut self, name: &str, bytes: &[u8]) -> io::Result<()> {
        let path = self.path_of(name)?;
        let mut file = OpenOptions::new()
            .write(true)
            .create_new(true)
            .mode(0o600)
            .open(self.rt, path.as_str())?;
        file.write_all(bytes)?;
        file.sync_all()
    }

    fn rename(&mut self, from: &str, to: &str) -> io::Result<()> {
        let from = self.path_of(from)?;
        let to = self.path_of(to)?;
        fs::rename(self.rt, from.as_str(), to.as_str())
    }

    fn remove(&mut self, name: &str) -> io::Result<()> {
        let path = self.path_of(name)?;
        let Place::File(_) = self.place(path.as_str())? else {
            return Ok(());
        };
        fs::remove_file(self.rt, path.as_str())
    }

    fn sync(&mut self) -> io::Result<()> {
        File::open(self.rt, self.path()?)?.sync_all()
    }
}
