//! The objects of a folder.
ghost use Rattle.std.specs.{IoError.{error_kind}, declared.io.ErrorKind.TheVariants.{OutOfMemory}};
ghost use Rattle.std.specs.Prelude.{◌≡◌, ◌≢◌, ◌<◌, ◌≤◌, ◌↔◌, ◌∷◌, [], true, length, IsTrue, IsErr, Some, None, IfOk, IfSome, OnOk, IsErrOf};
ghost use Rattle.rm_base.specs.{Outside.{Rose}, Store.{Both, HasNow}, Numbers.{most_bytes}, declared.store.StoreFail.TheVariants.{Failed, NoMemory as WantOfMemory}};
ghost use Rattle.rm_store_dir.specs.{DirStore.{is_object, objects_of, KeepsOthers}, Folder.{MayHave}};

use crate::dir::Dir;
use crate::folder::{Folder, put_whole, remove_whole};
use crate::lock::Last;
use crate::names::{beside, is_object};
use rm_base::{Count, MOST_BYTES, Seq, Store, StoreFail, Text};
use std::alloc::Global;
use std::io::{self, ErrorKind};

/// A call that failed: under which name, and why. The name is empty for the list of names.
#[derive(Drop)]
pub struct Failure {
    pub name: String,
    pub error: io::Error,
}

/// The objects of a folder: its files of at most 268,435,456 bytes whose names are 1 to 64 letters, digits and
/// `_`. Each error of the folder is a fault, but want of memory.
#[derive(Drop)]
pub struct DirStore<F: Folder> {
    folder: F,
    alloc: Global,
    faults: Count,
    last: Option<Failure>,
}

impl<'a> DirStore<Dir<'a>> {
    ghost use Rattle.rm_store_dir.specs.DirStore.{faults_of};

    /// The store of the directory of this path, which has not failed. Where opening it or its lock fails, as
    /// while another process has it, each call fails.
    pub fn open(rt: &'a HostRuntime, path: String) -> Self
        ensures { faults_of result ≡ 0 }
    {
        DirStore::over(rt.alloc(), Dir::open(rt, path))
    }

    /// Takes away what stopped runs left beside the objects. Nothing is done where the directory is not open.
    pub fn clear(&self) {
        self.folder.clear();
    }

    /// Whether the directory is not open since nothing stands at its path.
    pub fn is_missing(&self) -> bool {
        self.folder.is_missing()
    }

    /// Makes the directory where it is missing and its parent is there, for its owner alone, and opens it.
    pub fn make(&mut self)
        ensures { faults_of self.new ≡ faults_of self.old }
    {
        self.folder.make();
    }

    /// The path of the directory, as it was given.
    pub fn path(&self) -> &str {
        self.folder.given_path()
    }

    /// Why the directory is not open.
    pub fn unopened(&self) -> Option<io::Error> {
        self.folder.unopened()
    }

    /// Whose the directory was last, asked by the database of this number in this catalog. One that is not open is as if it
    /// were this one's.
    pub fn last_used(&self, catalog: &str, number: u32) -> Last {
        self.folder.last_used(catalog, number)
    }

    /// From now on it is the directory of the database of this number in this catalog, also after a stop. Nothing is done where
    /// it is not open.
    pub fn claim(&self, catalog: &str, number: u32) -> io::Result<()> {
        self.folder.claim(catalog, number)
    }

    /// From now on each call fails for this cause.
    pub fn refuse(&mut self, cause: io::Error)
        ensures { faults_of self.new ≡ faults_of self.old }
    {
        self.folder.refuse(cause);
    }
}

impl<F: Folder> DirStore<F> {
    ghost use Rattle.rm_store_dir.specs.DirStore.{folder_of, faults_of};

    /// The store of this folder, which has not failed.
    pub fn over(alloc: Global, folder: F) -> Self
        ensures folder { folder_of result ≡ folder }
        ensures faults { faults_of result ≡ 0 }
    {
        DirStore {
            folder,
            alloc,
            faults: Count::none(),
            last: None,
        }
    }

    /// What failed last, but for want of memory.
    pub fn last_failure(&self) -> Option<&Failure> {
        self.last.as_ref()
    }

    // Counts a fault and keeps it, but for want of memory.
    fn fail(&mut self, name: &str, error: io::Error) -> StoreFail
        ensures same { folder_of self.new ≡ folder_of self.old }
        ensures failed { result ≡ Failed → Rose (faults_of self.old) (faults_of self.new) }
        ensures counted { result ≢ Failed → faults_of self.new ≡ faults_of self.old }
        ensures never_falls { faults_of self.old ≤ faults_of self.new }
        ensures memory { result ≡ WantOfMemory ↔ (error_kind error ≡ OutOfMemory) }
    {
        if error.kind() == ErrorKind::OutOfMemory {
            return StoreFail::NoMemory;
        }
        self.faults.rise();
        self.last = match String::from_str(self.alloc, name) {
            Ok(name) => Some(Failure { name, error }),
            Err(_) => None,
        };
        StoreFail::Failed
    }

    fn write(&mut self, name: &str, bytes: &[u8]) -> io::Result<()>
        requires object { IsTrue (is_object name.now) }
        ensures stands { OnOk result (Both (HasNow name.now (Some bytes.now)) (F.files (folder_of self.old)) (F.files (folder_of self.new))) }
        ensures others { Both (KeepsOthers name.now) (F.files (folder_of self.old)) (F.files (folder_of self.new)) }
        ensures faults { faults_of self.new ≡ faults_of self.old }
        ensures blocked { F.blocked (folder_of self.new) ≡ F.blocked (folder_of self.old) }
        ensures refused { IfSome (F.files (folder_of self.old)) (λ _. F.blocked (folder_of self.old) name.now ≡ true → IsErr result) }
        ensures long { most_bytes < length bytes.now → IsErr result }
        ensures durable { OnOk result (IfSome (F.files (folder_of self.new)) (λ _. F.keeps (folder_of self.new) name.now ≡ Some bytes.now ∷ [])) }
        ensures keeps { IfSome (F.files (folder_of self.old)) (λ _. MayHave name.now (Some bytes.now) (F.keeps (folder_of self.old)) (F.keeps (folder_of self.new))) }
    {
        if bytes.len() as u64 > MOST_BYTES {
            return Err(io::Error::from(ErrorKind::FileTooLarge));
        }
        let beside = beside(self.alloc, name)?;
        put_whole(&mut self.folder, name, beside.as_str(), bytes)
    }

    fn erase(&mut self, name: &str) -> io::Result<()>
        ensures gone { OnOk result (Both (HasNow name.now None) (F.files (folder_of self.old)) (F.files (folder_of self.new))) }
        ensures others { Both (KeepsOthers name.now) (F.files (folder_of self.old)) (F.files (folder_of self.new)) }
        ensures faults { faults_of self.new ≡ faults_of self.old }
        ensures blocked { F.blocked (folder_of self.new) ≡ F.blocked (folder_of self.old) }
        ensures durable { OnOk result (IfSome (F.files (folder_of self.new)) (λ _. F.keeps (folder_of self.new) name.now ≡ None ∷ [])) }
        ensures keeps { IfSome (F.files (folder_of self.old)) (λ _. MayHave name.now None (F.keeps (folder_of self.old)) (F.keeps (folder_of self.new))) }
    {
        remove_whole(&mut self.folder, name)
    }
}

impl<F: Folder> Store for DirStore<F> {
    ghost use Rattle.std.specs.Option.{option_map};
    ghost use Rattle.rm_base.specs.Store.{SameBut, Ascends, AreTheNames};
    ghost use Rattle.rm_store_dir.specs.DirStore.{folder_of, faults_of};

    ghost held = { λ s. option_map objects_of (F.files (folder_of s)) };

    ghost faults = { λ s. faults_of s };

    /// Where no file of at most 268,435,456 bytes stands there, nothing does.
    fn get(&mut self, name: &str) -> Result<Option<Seq<u8>>, StoreFail>
        ensures found { IfOk result (λ bytes. IfSome (option_map objects_of (F.files (folder_of self.old))) (λ h. h name.now ≡ bytes)) }
        ensures same { option_map objects_of (F.files (folder_of self.new)) ≡ option_map objects_of (F.files (folder_of self.old)) }
        ensures failed { IsErrOf result Failed → Rose (faults_of self.old) (faults_of self.new) }
        ensures counted { ¬ IsErrOf result Failed → faults_of self.new ≡ faults_of self.old }
        ensures never_falls { faults_of self.old ≤ faults_of self.new }
    {
        if !is_object(name.as_bytes()) {
            return Ok(None);
        }
        match self.folder.read(name) {
            Ok(found) => Ok(found),
            Err(error) => Err(self.fail(name, error)),
        }
    }

    /// A name that is no object's is a fault, and so are more than 268,435,456 bytes. Where something stands there that
    /// is no file of an object, that is a fault and stays.
    fn put(&mut self, name: &str, bytes: &[u8]) -> Result<(), StoreFail>
        ensures stands { OnOk result (Both (HasNow name.now (Some bytes.now)) (option_map objects_of (F.files (folder_of self.old))) (option_map objects_of (F.files (folder_of self.new)))) }
        ensures others { Both (SameBut name.now) (option_map objects_of (F.files (folder_of self.old))) (option_map objects_of (F.files (folder_of self.new))) }
        ensures failed { IsErrOf result Failed → Rose (faults_of self.old) (faults_of self.new) }
        ensures counted { ¬ IsErrOf result Failed → faults_of self.new ≡ faults_of self.old }
        ensures never_falls { faults_of self.old ≤ faults_of self.new }

        // What is no file of an object stays.
        ensures blocked { F.blocked (folder_of self.new) ≡ F.blocked (folder_of self.old) }
        ensures refused { IfSome (F.files (folder_of self.old)) (λ _. F.blocked (folder_of self.old) name.now ≡ true → IsErr result) }
        ensures long { most_bytes < length bytes.now → IsErr result }

        // What the machine keeps where it stops: behind an answer these bytes; else what it might have kept, or all of them.
        ensures durable { OnOk result (IfSome (F.files (folder_of self.new)) (λ _. F.keeps (folder_of self.new) name.now ≡ Some bytes.now ∷ [])) }
        ensures keeps { IfSome (F.files (folder_of self.old)) (λ _. MayHave name.now (Some bytes.now) (F.keeps (folder_of self.old)) (F.keeps (folder_of self.new))) }
    {
        if !is_object(name.as_bytes()) {
            return Err(self.fail(name, io::Error::from(ErrorKind::InvalidFilename)));
        }
        match self.write(name, bytes) {
            Ok(()) => Ok(()),
            Err(error) => Err(self.fail(name, error)),
        }
    }

    /// What is no file of an object stays, which is no fault: nothing stands there for any call.
    fn remove(&mut self, name: &str) -> Result<(), StoreFail>
        ensures gone { OnOk result (Both (HasNow name.now None) (option_map objects_of (F.files (folder_of self.old))) (option_map objects_of (F.files (folder_of self.new)))) }
        ensures others { Both (SameBut name.now) (option_map objects_of (F.files (folder_of self.old))) (option_map objects_of (F.files (folder_of self.new))) }
        ensures failed { IsErrOf result Failed → Rose (faults_of self.old) (faults_of self.new) }
        ensures counted { ¬ IsErrOf result Failed → faults_of self.new ≡ faults_of self.old }
        ensures never_falls { faults_of self.old ≤ faults_of self.new }

        // What is no file of an object stays.
        ensures blocked { F.blocked (folder_of self.new) ≡ F.blocked (folder_of self.old) }

        // What the machine keeps where it stops: behind an answer nothing; else what it might have kept, or nothing.
        ensures durable { OnOk result (IsTrue (is_object name.now) → IfSome (F.files (folder_of self.new)) (λ _. F.keeps (folder_of self.new) name.now ≡ None ∷ [])) }
        ensures keeps { IfSome (F.files (folder_of self.old)) (λ _. MayHave name.now None (F.keeps (folder_of self.old)) (F.keeps (folder_of self.new))) }
    {
        if !is_object(name.as_bytes()) {
            return Ok(());
        }
        match self.erase(name) {
            Ok(()) => Ok(()),
            Err(error) => Err(self.fail(name, error)),
        }
    }

    fn names(&mut self) -> Result<Seq<Text>, StoreFail>
        ensures ascending { IfOk result (λ names. Ascends names) }
        ensures exact { IfOk result (λ names. IfSome (option_map objects_of (F.files (folder_of self.old))) (AreTheNames names)) }
        ensures same { option_map objects_of (F.files (folder_of self.new)) ≡ option_map objects_of (F.files (folder_of self.old)) }
        ensures failed { IsErrOf result Failed → Rose (faults_of self.old) (faults_of self.new) }
        ensures counted { ¬ IsErrOf result Failed → faults_of self.new ≡ faults_of self.old }
        ensures never_falls { faults_of self.old ≤ faults_of self.new }
    {
        match self.folder.names() {
            Ok(names) => Ok(names),
            Err(error) => Err(self.fail("", error)),
        }
    }
}
