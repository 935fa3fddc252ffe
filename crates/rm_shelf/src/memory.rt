//! A shelf in memory, whose calls fail as its maker says.
ghost use Rattle.rm_catalog.specs.Keys.{Ascends};

use crate::shelf::Shelf;
use rm_base::{Failing, NoMemory, Seq};
use rm_catalog::{Edit, KeeperFail, Record, copies, edits};
use std::alloc::Global;
use std::collections::BTreeMap;

// The records under one number.
#[derive(Drop)]
pub(crate) struct Drawer {
    records: Vec<Record>,
    ghost ascends: { Ascends records.items },
}

/// Records in memory, each under a number. The calls of each of its functions fail as their maker says.
#[derive(Drop)]
pub struct MemShelf {
    alloc: Global,
    drawers: BTreeMap<u32, Drawer>,
    loads: Failing,
    applies: Failing,
}

impl MemShelf {
    ghost use Rattle.std.specs.Prelude.{◌≡◌, [], ℕ, IfOk, OnErr, OnOk};
    ghost use Rattle.rm_catalog.specs.Edits.{after_edits};
    ghost use Rattle.rm_shelf.specs.{MemShelf.{applies_of, loads_of, shelved_by}, Shelved.{SameBut}};

    /// A shelf that keeps no record yet. It takes no memory.
    pub fn new(alloc: Global, loads: Failing, applies: Failing) -> Self
        ensures records { (n : ℕ) → shelved_by result n ≡ [] }
        ensures loads { loads_of result ≡ loads }
        ensures applies { applies_of result ≡ applies }
    {
        MemShelf {
            alloc,
            drawers: BTreeMap::new(alloc),
            loads,
            applies,
        }
    }

    // Equal records, of this number.
    fn copied(&self, number: u32) -> Result<Vec<Record>, NoMemory>
        ensures records { IfOk result (λ rs. rs.items ≡ shelved_by self.now number) }
        ensures ascends { Ascends (shelved_by self.now number) }
    {
        match self.drawers.get(&number) {
            Some(drawer) => copies::records(self.alloc, &drawer.records),
            None => Ok(Vec::new(self.alloc)),
        }
    }

    // Makes the edits of this number's records. Without memory nothing changes.
    fn make(&mut self, number: u32, edits: &[Edit]) -> Result<(), NoMemory>
        ensures ok { OnOk result (shelved_by self.new number ≡ after_edits edits.now (shelved_by self.old number)) }
        ensures others { SameBut number (shelved_by self.old) (shelved_by self.new) }
        ensures err { OnErr result ((n : ℕ) → shelved_by self.new n ≡ shelved_by self.old n) }
        ensures loads { loads_of self.new ≡ loads_of self.old }
        ensures applies { applies_of self.new ≡ applies_of self.old }
    {
        let mut records = self.copied(number)?;
        edits::apply(&mut records, edits)?;
        self.drawers.insert(number, Drawer { records })?;
        Ok(())
    }
}

impl Shelf for MemShelf {
    ghost use Rattle.std.specs.{Prelude.{◌≡◌, ◌≤◌, ◌↔◌, IfOk, IfSome, IsErrOf, OnErr, OnOk, Some}, Option.{option_map}};
    ghost use Rattle.rm_base.specs.{Failing.{FailsNext, after_call}, Outside.{Rose}};
    ghost use Rattle.rm_catalog.specs.{Edits.{after_edits}, Faults.{Answers}, MemKeeper.{has_failed}};
    ghost use Rattle.rm_catalog.specs.declared.keeper.KeeperFail.TheVariants.{Failed};
    ghost use Rattle.rm_shelf.specs.{MemShelf.{applies_of, faults_in, loads_of, shelved_by}, Shelved.{AllStay, OthersStay, under}};

    ghost shelved = { λ m. Some (shelved_by m) };

    ghost faults = { λ m. faults_in m };

    fn load_of(&mut self, number: u32) -> Result<Seq<Record>, KeeperFail>
        ensures records { IfOk result (λ rs. Answers (under number (Some (shelved_by self.old))) rs) }
        ensures ascends { IfOk result (λ _. IfSome (under number (Some (shelved_by self.old))) Ascends) }
        ensures same { AllStay (Some (shelved_by self.old)) (Some (shelved_by self.new)) }
        ensures failed { IsErrOf result Failed → Rose (faults_in self.old) (faults_in self.new) }
        ensures never_falls { faults_in self.old ≤ faults_in self.new }

        // Which call fails.
        ensures fails { IsErrOf result Failed ↔ FailsNext (loads_of self.old) }
        ensures loads { loads_of self.new ≡ after_call (loads_of self.old) (has_failed result) }
        ensures applies { applies_of self.new ≡ applies_of self.old }
    {
        if self.loads.fails() {
            return Err(KeeperFail::Failed);
        }
        Ok(Seq::from_vec(self.copied(number)?))
    }

    fn apply_to(&mut self, number: u32, edits: &[Edit]) -> Result<(), KeeperFail>
        ensures ok { OnOk result (under number (Some (shelved_by self.new)) ≡ option_map (after_edits edits.now) (under number (Some (shelved_by self.old)))) }
        ensures others { OthersStay number (Some (shelved_by self.old)) (Some (shelved_by self.new)) }
        ensures err { OnErr result (AllStay (Some (shelved_by self.old)) (Some (shelved_by self.new))) }
        ensures failed { IsErrOf result Failed → Rose (faults_in self.old) (faults_in self.new) }
        ensures never_falls { faults_in self.old ≤ faults_in self.new }

        // Which call fails.
        ensures fails { IsErrOf result Failed ↔ FailsNext (applies_of self.old) }
        ensures applies { applies_of self.new ≡ after_call (applies_of self.old) (has_failed result) }
        ensures loads { loads_of self.new ≡ loads_of self.old }
    {
        if self.applies.fails() {
            return Err(KeeperFail::Failed);
        }
        self.make(number, edits)?;
        Ok(())
    }
}
