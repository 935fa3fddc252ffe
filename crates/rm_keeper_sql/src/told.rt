//! A shelf over a table, which tells what was accepted.
ghost use Rattle.std.specs.Prelude.{◌≡◌, ◌≤◌};
ghost use Rattle.rm_base.specs.Outside.{Rose};
ghost use Rattle.rm_catalog.specs.declared.keeper.KeeperFail.TheVariants.{Failed};
ghost use Rattle.rm_keeper_sql.specs.{SqlKeeper.{connection_of}, Known.{Known}};

use crate::keeper::SqlKeeper;
use crate::log::Log;
use rm_base::Seq;
use rm_catalog::{Edit, Keeper, KeeperFail, Record};
use rm_shelf::Shelf;
use sqlite::{Alter, Connection, MemStore};
use std::alloc::{AllocError, Global};
use std::mem;

/// A store that nobody else writes, and that gives back what was written.
pub trait Honest: Alter {
    ghost use Rattle.sqlite_trees.specs.View.{IsClean};

    /// Each state of it is clean.
    ghost clean: { (s : Self) → IsClean (Self.Store.view s) };
}

impl Honest for MemStore {
    ghost use Rattle.std.proofs.Common.{refl, true};
    ghost use Rattle.sqlite_trees.proofs.Doubt.{no_doubt};

    ghost clean = { λ s. no_doubt true refl };
}

/// A keeper over a table, and all edits that it accepted, which proofs alone read: what it loads is the records
/// after them.
#[derive(Drop)]
pub struct ToldKeeper<S: Honest> {
    keeper: SqlKeeper<S>,
    log: Log,
    ghost known: { ∥ Known S.Store log.edits (connection_of keeper) ∥₁ },
}

impl<S: Honest> ToldKeeper<S> {
    ghost use Rattle.rm_keeper_sql.specs.{SqlKeeper.{number_of}, ToldKeeper.{log_of, keeper_of, faults_told}};

    /// A keeper over a table that holds these edits; of a file that is new, none.
    pub fn new(keeper: SqlKeeper<S>, log: Log) -> Self
        requires { ∥ Known S.Store log.edits (connection_of keeper) ∥₁ }
        ensures keeper { keeper_of result ≡ keeper }
        ensures log { log_of result ≡ log.edits }
    {
        ToldKeeper { keeper, log }
    }

    /// From now on, as a keeper, it has the records of this number. Those of each number stay.
    pub fn choose(&mut self, number: u32)
        ensures number { number_of (keeper_of self.new) ≡ number }
        ensures log { log_of self.new ≡ log_of self.old }
        ensures faults { faults_told self.new ≡ faults_told self.old }
    {
        self.keeper.choose(number);
    }
}

impl ToldKeeper<MemStore> {
    ghost use Rattle.std.specs.Prelude.{[], IfOk};
    ghost use Rattle.rm_keeper_sql.specs.{SqlKeeper.{number_of}, ToldKeeper.{log_of, keeper_of, faults_told}};

    /// A keeper in memory, of number 0, which has accepted no edits.
    pub fn in_memory(alloc: Global) -> Result<Self, AllocError>
        ensures log { IfOk result (λ k. log_of k ≡ []) }
        ensures number { IfOk result (λ k. number_of (keeper_of k) ≡ 0) }
        ensures faults { IfOk result (λ k. faults_told k ≡ 0) }
    {
        let connection = Connection::open_in_memory(alloc)?;
        let keeper = SqlKeeper::open(alloc, connection);
        Ok(ToldKeeper::new(keeper, Log::none()))
    }
}

impl<S: Honest> Shelf for ToldKeeper<S> {
    ghost use Rattle.std.specs.{Prelude.{◌++◌, Some, IfOk, IfSome, OnOk, OnErr, IsErrOf, IsPermutation}, Option.{option_map}};
    ghost use Rattle.rm_catalog.specs.{Edits.{after_edits}, Faults.{Answers}, Keys.{Ascends}};
    ghost use Rattle.rm_shelf.specs.Shelved.{AllStay, OthersStay, under};
    ghost use Rattle.rm_keeper_sql.specs.{Shelves.{numbered, records_at}, SqlKeeper.{number_of}};
    ghost use Rattle.rm_keeper_sql.specs.ToldKeeper.{log_of, keeper_of, shelved_by, faults_told};

    ghost shelved = { λ k. Some (shelved_by k) };

    ghost faults = { λ k. faults_told k };

    fn load_of(&mut self, number: u32) -> Result<Seq<Record>, KeeperFail>
        ensures records { IfOk result (λ rs. Answers (under number (Some (shelved_by self.old))) rs) }
        ensures ascends { IfOk result (λ _. IfSome (under number (Some (shelved_by self.old))) Ascends) }
        ensures same { AllStay (Some (shelved_by self.old)) (Some (shelved_by self.new)) }
        ensures failed { IsErrOf result Failed → Rose (faults_told self.old) (faults_told self.new) }
        ensures never_falls { faults_told self.old ≤ faults_told self.new }
        ensures counted { ¬ IsErrOf result Failed → faults_told self.new ≡ faults_told self.old }

        // What is loaded is the records of this number after the edits of all calls that were accepted.
        ensures told { IfOk result (λ rs. IsPermutation (records_at number (log_of self.old)) rs) }
        ensures log { log_of self.new ≡ log_of self.old }
        ensures number { number_of (keeper_of self.new) ≡ number_of (keeper_of self.old) }
    {
        self.keeper.load_of(number)
    }

    fn apply_to(&mut self, number: u32, edits: &[Edit]) -> Result<(), KeeperFail>
        ensures ok { OnOk result (under number (Some (shelved_by self.new)) ≡ option_map (after_edits edits.now) (under number (Some (shelved_by self.old)))) }
        ensures others { OthersStay number (Some (shelved_by self.old)) (Some (shelved_by self.new)) }
        ensures err { OnErr result (AllStay (Some (shelved_by self.old)) (Some (shelved_by self.new))) }
        ensures failed { IsErrOf result Failed → Rose (faults_told self.old) (faults_told self.new) }
        ensures never_falls { faults_told self.old ≤ faults_told self.new }
        ensures counted { ¬ IsErrOf result Failed → faults_told self.new ≡ faults_told self.old }

        // Where the call is accepted its edits are added, of this number, and otherwise none.
        ensures accepted { OnOk result (log_of self.new ≡ log_of self.old ++ numbered number edits.now) }
        ensures refused { OnErr result (log_of self.new ≡ log_of self.old) }
        ensures number { number_of (keeper_of self.new) ≡ number_of (keeper_of self.old) }
    {
        match self.keeper.apply_to(number, edits) {
            Ok(()) => {
                let log = mem::replace(&mut self.log, Log::none());
                self.log = log.and(number, edits);
                Ok(())
            }
            Err(fail) => Err(fail),
        }
    }
}

impl<S: Honest> Keeper for ToldKeeper<S> {
    ghost use Rattle.std.specs.{Prelude.{◌++◌, Some, IfOk, IfSome, OnOk, OnErr, IsErrOf, IsPermutation}, Option.{option_map}};
    ghost use Rattle.rm_catalog.specs.{Edits.{after_edits}, Faults.{Answers}, Keys.{Ascends}};
    ghost use Rattle.rm_keeper_sql.specs.{Shelves.{numbered, records_at}, SqlKeeper.{number_of}};
    ghost use Rattle.rm_keeper_sql.specs.ToldKeeper.{log_of, keeper_of, told_by, faults_told};

    ghost kept = { λ k. Some (told_by k) };

    ghost faults = { λ k. faults_told k };

    fn load(&mut self) -> Result<Seq<Record>, KeeperFail>
        ensures records { IfOk result (λ rs. Answers (Some (told_by self.old)) rs) }
        ensures ascends { IfOk result (λ _. IfSome (Some (told_by self.old)) Ascends) }
        ensures same { Some (told_by self.new) ≡ Some (told_by self.old) }
        ensures failed { IsErrOf result Failed → Rose (faults_told self.old) (faults_told self.new) }
        ensures never_falls { faults_told self.old ≤ faults_told self.new }
        ensures counted { ¬ IsErrOf result Failed → faults_told self.new ≡ faults_told self.old }

        // What is loaded is the records of its number after the edits of all calls that were accepted.
        ensures told { IfOk result (λ rs. IsPermutation (records_at (number_of (keeper_of self.old)) (log_of self.old)) rs) }
        ensures log { log_of self.new ≡ log_of self.old }
        ensures number { number_of (keeper_of self.new) ≡ number_of (keeper_of self.old) }
    {
        let number = self.keeper.number();
        self.load_of(number)
    }

    fn apply(&mut self, edits: &[Edit]) -> Result<(), KeeperFail>
        ensures ok { OnOk result (Some (told_by self.new) ≡ option_map (after_edits edits.now) (Some (told_by self.old))) }
        ensures err { OnErr result (Some (told_by self.new) ≡ Some (told_by self.old)) }
        ensures failed { IsErrOf result Failed → Rose (faults_told self.old) (faults_told self.new) }
        ensures never_falls { faults_told self.old ≤ faults_told self.new }
        ensures counted { ¬ IsErrOf result Failed → faults_told self.new ≡ faults_told self.old }

        // Where the call is accepted its edits are added, of its number, and otherwise none.
        ensures accepted { OnOk result (log_of self.new ≡ log_of self.old ++ numbered (number_of (keeper_of self.old)) edits.now) }
        ensures refused { OnErr result (log_of self.new ≡ log_of self.old) }
        ensures number { number_of (keeper_of self.new) ≡ number_of (keeper_of self.old) }
    {
        let number = self.keeper.number();
        self.apply_to(number, edits)
    }
}
