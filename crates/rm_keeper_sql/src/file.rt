//! The catalog in a file.
ghost use Rattle.std.specs.Prelude.{◌≡◌, ◌≢◌, ◌≤◌, ◌↔◌};
ghost use Rattle.rm_base.specs.Outside.{Rose};
ghost use Rattle.rm_catalog.specs.declared.keeper.KeeperFail.TheVariants.{Failed, NoMemory};
ghost use Rattle.rm_keeper_sql.specs.Faults.{WantsMemory};

use crate::fault::{Fault, fail_of, words_of};
use crate::keeper::SqlKeeper;
use rm_base::{Count, Seq};
use rm_catalog::{Edit, Keeper, KeeperFail, Record};
use rm_shelf::Shelf;
use sqlite::{Alter, Connection, Error, File, FileFrom, FileStore, Start};
use std::alloc::Global;
use std::fs::OpenOptions;
use std::io::ErrorKind;
use std::os::unix::fs::OpenOptionsExt;

/// What stands in place of a file that could not be opened. Each call fails for the same cause, and a
/// failure is counted.
#[derive(Drop)]
pub struct Unopened {
    cause: KeeperFail,
    faults: Count,
    words: Option<String>,
}

impl Unopened {
    ghost use Rattle.rm_keeper_sql.specs.CatalogFile.{cause_of, faults_without};

    /// One whose calls fail for this cause, in these words. It has not failed yet.
    pub fn new(cause: KeeperFail, words: Option<String>) -> Self
        ensures cause { cause_of result ≡ cause }
        ensures faults { faults_without result ≡ 0 }
    {
        Unopened {
            cause,
            faults: Count::none(),
            words,
        }
    }

    // One whose calls fail by this fault.
    fn by(alloc: Global, fault: Fault) -> Self
        ensures faults { faults_without result ≡ 0 }
        ensures memory { cause_of result ≡ NoMemory ↔ WantsMemory fault }
    {
        Unopened::new(fail_of(fault), words_of(alloc, fault))
    }

    // Counts a failure, and no want of memory.
    fn fail(&mut self) -> KeeperFail
        ensures result { result ≡ cause_of self.old }
        ensures same { cause_of self.new ≡ cause_of self.old }
        ensures failed { result ≡ Failed → Rose (faults_without self.old) (faults_without self.new) }
        ensures never_falls { faults_without self.old ≤ faults_without self.new }
        ensures counted { result ≢ Failed → faults_without self.new ≡ faults_without self.old }
    {
        if self.cause == KeeperFail::Failed {
            self.faults.rise();
        }
        self.cause
    }
}

impl Shelf for Unopened {
    ghost use Rattle.std.specs.{Prelude.{None, Err, IfOk, IfSome, OnOk, OnErr, IsErrOf}, Option.{option_map}};
    ghost use Rattle.rm_catalog.specs.{Edits.{after_edits}, Faults.{Answers}, Keys.{Ascends}};
    ghost use Rattle.rm_shelf.specs.Shelved.{AllStay, OthersStay, under};
    ghost use Rattle.rm_keeper_sql.specs.CatalogFile.{cause_of, faults_without};

    ghost shelved = { λ _. None };

    ghost faults = { λ u. faults_without u };

    fn load_of(&mut self, number: u32) -> Result<Seq<Record>, KeeperFail>
        ensures records { IfOk result (λ rs. Answers (under number None) rs) }
        ensures ascends { IfOk result (λ _. IfSome (under number None) Ascends) }
        ensures same { AllStay None None }
        ensures failed { IsErrOf result Failed → Rose (faults_without self.old) (faults_without self.new) }
        ensures never_falls { faults_without self.old ≤ faults_without self.new }
        ensures counted { ¬ IsErrOf result Failed → faults_without self.new ≡ faults_without self.old }
        ensures cause { cause_of self.new ≡ cause_of self.old }

        // It never loads.
        ensures fails { result ≡ Err (cause_of self.old) }
    {
        let _ = number;
        Err(self.fail())
    }

    fn apply_to(&mut self, number: u32, edits: &[Edit]) -> Result<(), KeeperFail>
        ensures ok { OnOk result (under number None ≡ option_map (after_edits edits.now) (under number None)) }
        ensures others { OthersStay number None None }
        ensures err { OnErr result (AllStay None None) }
        ensures failed { IsErrOf result Failed → Rose (faults_without self.old) (faults_without self.new) }
        ensures never_falls { faults_without self.old ≤ faults_without self.new }
        ensures counted { ¬ IsErrOf result Failed → faults_without self.new ≡ faults_without self.old }
        ensures cause { cause_of self.new ≡ cause_of self.old }

        // It never applies.
        ensures fails { result ≡ Err (cause_of self.old) }
    {
        let _ = number;
        let _ = edits;
        Err(self.fail())
    }
}

impl Keeper for Unopened {
    ghost use Rattle.std.specs.{Prelude.{List, Option, None, Err, IfOk, IfSome, OnOk, OnErr, IsErrOf}, Option.{option_map}};
    ghost use Rattle.rm_catalog.specs.{Edits.{after_edits}, Faults.{Answers}, Keys.{Ascends}, declared.record.Record.{Record}};
    ghost use Rattle.rm_keeper_sql.specs.CatalogFile.{cause_of, faults_without};

    ghost kept = { λ _. None };

    ghost faults = { λ u. faults_without u };

    fn load(&mut self) -> Result<Seq<Record>, KeeperFail>
        ensures records { IfOk result (λ rs. Answers None rs) }
        ensures ascends { IfOk result (λ _. IfSome None Ascends) }
        ensures same { ◌≡◌ {A = Option (List Record)} None None }
        ensures failed { IsErrOf result Failed → Rose (faults_without self.old) (faults_without self.new) }
        ensures never_falls { faults_without self.old ≤ faults_without self.new }
        ensures counted { ¬ IsErrOf result Failed → faults_without self.new ≡ faults_without self.old }
        ensures cause { cause_of self.new ≡ cause_of self.old }

        // It never loads.
        ensures fails { result ≡ Err (cause_of self.old) }
    {
        Err(self.fail())
    }

    fn apply(&mut self, edits: &[Edit]) -> Result<(), KeeperFail>
        ensures ok { OnOk result (None ≡ option_map (after_edits edits.now) None) }
        ensures err { OnErr result (◌≡◌ {A = Option (List Record)} None None) }
        ensures failed { IsErrOf result Failed → Rose (faults_without self.old) (faults_without self.new) }
        ensures never_falls { faults_without self.old ≤ faults_without self.new }
        ensures counted { ¬ IsErrOf result Failed → faults_without self.new ≡ faults_without self.old }
        ensures cause { cause_of self.new ≡ cause_of self.old }

        // It never applies.
        ensures fails { result ≡ Err (cause_of self.old) }
    {
        let _ = edits;
        Err(self.fail())
    }
}

/// The records in a file, or what stands in place of them where it can't be opened. What it does asks nothing
/// of the store below its connection: only opening and closing are those of a file.
#[derive(Drop)]
pub enum CatalogFile<S: Alter> {
    Opened(SqlKeeper<S>),
    NotOpened(Unopened),
}

// Makes the file where it is missing, empty and for its owner alone. What is put beside it later has the
// same rights.
fn make(rt: &HostRuntime, path: &str) -> Result<(), Fault> {
    let made = OpenOptions::new()
        .write(true)
        .create_new(true)
        .mode(0o600)
        .open(rt, path);
    match made {
        Ok(_) => Ok(()),
        Err(error) if error.kind() == ErrorKind::AlreadyExists => Ok(()),
        Err(error) => Err(Fault::System(error)),
    }
}

// A connection to the file of this path, which is made where it is missing.
fn connect(rt: &HostRuntime, path: &str) -> Result<Connection<FileStore<File>>, Fault> {
    make(rt, path)?;
    Ok(Connection::open(rt, path)?)
}

impl CatalogFile<FileStore<File>> {
    ghost use Rattle.rm_keeper_sql.specs.CatalogFile.{faults_in, number_in};

    /// The catalog of this path. The file is made where it is missing and its parent is there, for its owner
    /// alone. Where that or opening it fails, or another program has it open, each call fails.
    pub fn open(rt: &HostRuntime, path: &str) -> Self
        ensures faults { faults_in result ≡ 0 }
        ensures number { number_in result ≡ 0 }
    {
        let alloc = rt.alloc();
        // The keeper is built by its fields: a call of a generic function at the type of a connection to files takes 20 seconds and more to prove.
        match connect(rt, path) {
            Ok(connection) => CatalogFile::Opened(SqlKeeper {
                connection,
                alloc,
                faults: Count::none(),
                number: 0,
                last_fault: None,
            }),
            Err(fault) => CatalogFile::NotOpened(Unopened::by(alloc, fault)),
        }
    }
}

impl<S: Start> CatalogFile<FileStore<FileFrom<S>>> {
    /// Brings all that was applied into the one file. What was applied is durable without it, so that it fails
    /// loses nothing.
    pub fn close(self) -> Result<(), KeeperFail> {
        match self {
            CatalogFile::Opened(SqlKeeper { connection, .. }) => match connection.close() {
                Ok(()) => Ok(()),
                Err(error) => Err(fail_of(Fault::Sqlite(error))),
            },
            CatalogFile::NotOpened(_) => Ok(()),
        }
    }
}

impl<S: Alter> CatalogFile<S> {
    /// Why it failed last, in words of sqlite or of the system. None where it has not failed, or where memory
    /// was wanting for the words.
    pub fn last_fault(&self) -> Option<&str> {
        match self {
            CatalogFile::Opened(keeper) => keeper.last_fault(),
            CatalogFile::NotOpened(unopened) => unopened.words.as_deref(),
        }
    }
}

impl<S: Alter> Shelf for CatalogFile<S> {
    ghost use Rattle.std.specs.{Prelude.{None, IfOk, IfSome, OnOk, OnErr, IsErrOf}, Option.{option_map}};
    ghost use Rattle.rm_catalog.specs.{Edits.{after_edits}, Faults.{Answers}, Keys.{Ascends}};
    ghost use Rattle.rm_shelf.specs.Shelved.{AllStay, OthersStay, under};
    ghost use Rattle.rm_keeper_sql.specs.CatalogFile.{faults_in, number_in, Shuts, Stays, ReadsOf, TakesOf};

    ghost shelved = { λ _. None };

    ghost faults = { λ c. faults_in c };

    fn load_of(&mut self, number: u32) -> Result<Seq<Record>, KeeperFail>
        ensures records { IfOk result (λ rs. Answers (under number None) rs) }
        ensures ascends { IfOk result (λ _. IfSome (under number None) Ascends) }
        ensures same { AllStay None None }
        ensures failed { IsErrOf result Failed → Rose (faults_in self.old) (faults_in self.new) }
        ensures never_falls { faults_in self.old ≤ faults_in self.new }
        ensures counted { ¬ IsErrOf result Failed → faults_in self.new ≡ faults_in self.old }

        // What a file that is opened loads. Whatever comes of it, its table stays.
        ensures reads { IfOk result (λ rs. ReadsOf S.Store number rs self.old self.new) }
        ensures stays { Stays S.Store self.old self.new }
        ensures shuts { Shuts S.Store self.old self.new }
        ensures number { number_in self.new ≡ number_in self.old }
    {
        match self {
            CatalogFile::Opened(keeper) => keeper.load_of(number),
            CatalogFile::NotOpened(unopened) => unopened.load_of(number),
        }
    }

    fn apply_to(&mut self, number: u32, edits: &[Edit]) -> Result<(), KeeperFail>
        ensures ok { OnOk result (under number None ≡ option_map (after_edits edits.now) (under number None)) }
        ensures others { OthersStay number None None }
        ensures err { OnErr result (AllStay None None) }
        ensures failed { IsErrOf result Failed → Rose (faults_in self.old) (faults_in self.new) }
        ensures never_falls { faults_in self.old ≤ faults_in self.new }
        ensures counted { ¬ IsErrOf result Failed → faults_in self.new ≡ faults_in self.old }

        // A file that is opened takes the edits, or its table stays.
        ensures takes { OnOk result (TakesOf S.Store number edits.now self.old self.new) }
        ensures none { OnErr result (Stays S.Store self.old self.new) }
        ensures shuts { Shuts S.Store self.old self.new }
        ensures number { number_in self.new ≡ number_in self.old }
    {
        match self {
            CatalogFile::Opened(keeper) => keeper.apply_to(number, edits),
            CatalogFile::NotOpened(unopened) => unopened.apply_to(number, edits),
        }
    }
}

impl<S: Alter> Keeper for CatalogFile<S> {
    ghost use Rattle.std.specs.{Prelude.{List, Option, None, IfOk, IfSome, OnOk, OnErr, IsErrOf}, Option.{option_map}};
    ghost use Rattle.rm_catalog.specs.{Edits.{after_edits}, Faults.{Answers}, Keys.{Ascends}, declared.record.Record.{Record}};
    ghost use Rattle.rm_keeper_sql.specs.CatalogFile.{faults_in, number_in, Shuts, Stays, ReadsOf, TakesOf};

    ghost kept = { λ _. None };

    ghost faults = { λ c. faults_in c };

    fn load(&mut self) -> Result<Seq<Record>, KeeperFail>
        ensures records { IfOk result (λ rs. Answers None rs) }
        ensures ascends { IfOk result (λ _. IfSome None Ascends) }
        ensures same { ◌≡◌ {A = Option (List Record)} None None }
        ensures failed { IsErrOf result Failed → Rose (faults_in self.old) (faults_in self.new) }
        ensures never_falls { faults_in self.old ≤ faults_in self.new }
        ensures counted { ¬ IsErrOf result Failed → faults_in self.new ≡ faults_in self.old }

        // What a file that is opened loads. Whatever comes of it, its table stays.
        ensures reads { IfOk result (λ rs. ReadsOf S.Store (number_in self.old) rs self.old self.new) }
        ensures stays { Stays S.Store self.old self.new }
        ensures shuts { Shuts S.Store self.old self.new }
        ensures number { number_in self.new ≡ number_in self.old }
    {
        match self {
            CatalogFile::Opened(keeper) => keeper.load(),
            CatalogFile::NotOpened(unopened) => unopened.load(),
        }
    }

    fn apply(&mut self, edits: &[Edit]) -> Result<(), KeeperFail>
        ensures ok { OnOk result (None ≡ option_map (after_edits edits.now) None) }
        ensures err { OnErr result (◌≡◌ {A = Option (List Record)} None None) }
        ensures failed { IsErrOf result Failed → Rose (faults_in self.old) (faults_in self.new) }
        ensures never_falls { faults_in self.old ≤ faults_in self.new }
        ensures counted { ¬ IsErrOf result Failed → faults_in self.new ≡ faults_in self.old }

        // A file that is opened takes the edits, or its table stays.
        ensures takes { OnOk result (TakesOf S.Store (number_in self.old) edits.now self.old self.new) }
        ensures none { OnErr result (Stays S.Store self.old self.new) }
        ensures shuts { Shuts S.Store self.old self.new }
        ensures number { number_in self.new ≡ number_in self.old }
    {
        match self {
            CatalogFile::Opened(keeper) => keeper.apply(edits),
            CatalogFile::NotOpened(unopened) => unopened.apply(edits),
        }
    }
}
