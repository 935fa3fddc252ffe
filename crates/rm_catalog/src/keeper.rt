//! Where the records of a database are kept between sessions.
ghost use Rattle.std.specs.Prelude.{◌≡◌, ◌↔◌, ◌≤◌, [], ℕ, List, Option, Some, map, IfOk, IfSome, OnOk, OnErr, IsErrOf};
ghost use Rattle.std.specs.Option.{option_map};
ghost use Rattle.rm_base.specs.Outside.{Rose};
ghost use Rattle.rm_catalog.specs.{Keys.{Ascends}, Edits.{after_edits}, Faults.{Answers}, declared.record.Record.{Record}};
ghost use Rattle.rm_catalog.specs.declared.record.Edit.TheVariants.{Put};

use crate::record::{Edit, Record};
use crate::{copies, edits};
use rm_base::{Failing, NoMemory, Seq};

/// Why a keeper did nothing.
#[derive(Clone, Copy, PartialEq, Eq)]
pub enum KeeperFail {
    /// The keeper failed, and counted it.
    Failed,
    NoMemory,
}

impl From<NoMemory> for KeeperFail {
    ghost use Rattle.rm_catalog.specs.declared.keeper.KeeperFail.TheVariants.{NoMemory as WithoutMemory};

    ghost from_gives = { λ _ e. e ≡ WithoutMemory };

    fn from(_: NoMemory) -> Self {
        KeeperFail::NoMemory
    }
}

/// Keeps the records of a database, each under its key.
pub trait Keeper {
    ghost use Rattle.rm_catalog.specs.declared.keeper.KeeperFail.TheVariants.{Failed};

    /// The records that are kept, where the keeper tells them: a finite map, as a list that ascends by kind
    /// and then id with each key once.
    ghost kept: { Self → Option (List Record) };

    /// How often it has failed.
    ghost faults: { Self → ℕ };

    /// The records, each once, in any order.
    fn load(&mut self) -> Result<Seq<Record>, KeeperFail>
        ensures records { IfOk result (λ rs. Answers (kept self.old) rs) }
        ensures ascends { IfOk result (λ _. IfSome (kept self.old) Ascends) }
        ensures same { kept self.new ≡ kept self.old }
        ensures failed { IsErrOf result Failed → Rose (faults self.old) (faults self.new) }
        ensures never_falls { faults self.old ≤ faults self.new };

    /// Makes the edits in order, or none of them. A Put replaces the record of its key, or adds it; a
    /// Drop takes away the record of its key, if it is there.
    fn apply(&mut self, edits: &[Edit]) -> Result<(), KeeperFail>
        ensures ok { OnOk result (kept self.new ≡ option_map (after_edits edits.now) (kept self.old)) }
        ensures err { OnErr result (kept self.new ≡ kept self.old) }
        ensures failed { IsErrOf result Failed → Rose (faults self.old) (faults self.new) }
        ensures never_falls { faults self.old ≤ faults self.new };
}

/// Records in memory. The calls of each of its functions fail as their maker says.
#[derive(Drop)]
pub struct MemKeeper {
    records: Vec<Record>,
    loads: Failing,
    applies: Failing,
    ghost ascends: { Ascends records.items },
}

// Puts of these records.
fn puts(records: Vec<Record>) -> Result<Vec<Edit>, NoMemory>
    ensures { IfOk result (λ es. es.items ≡ map Put records.items) }
{
    let mut edits = Vec::new(*records.allocator());
    for row in records {
        edits.push(Edit::Put(row))?;
    }
    Ok(edits)
}

impl MemKeeper {
    ghost use Rattle.rm_catalog.specs.MemKeeper.{kept_records, loads_of, applies_of};

    /// A keeper of these records, of which the last of each key stays.
    pub fn new(
        records: Seq<Record>,
        loads: Failing,
        applies: Failing,
    ) -> Result<MemKeeper, NoMemory>
        ensures records { IfOk result (λ k. kept_records k ≡ after_edits (map Put records) []) }
        ensures loads { IfOk result (λ k. loads_of k ≡ loads) }
        ensures applies { IfOk result (λ k. applies_of k ≡ applies) }
    {
        let records = records.into_vec();
        let mut kept = Vec::new(*records.allocator());
        edits::make(&mut kept, puts(records)?)?;
        Ok(MemKeeper {
            records: kept,
            loads,
            applies,
        })
    }
}

impl Keeper for MemKeeper {
    ghost use Rattle.rm_base.specs.Failing.{faults_of, FailsNext, after_call};
    ghost use Rattle.rm_catalog.specs.MemKeeper.{kept_records, loads_of, applies_of, faults_in, has_failed};
    ghost use Rattle.rm_catalog.specs.declared.keeper.KeeperFail.TheVariants.{Failed};

    ghost kept = { λ k. Some (kept_records k) };

    ghost faults = { λ k. faults_in k };

    fn load(&mut self) -> Result<Seq<Record>, KeeperFail>
        ensures records { IfOk result (λ rs. Answers (Some (kept_records self.old)) rs) }
        ensures ascends { IfOk result (λ _. IfSome (Some (kept_records self.old)) Ascends) }
        ensures same { Some (kept_records self.new) ≡ Some (kept_records self.old) }
        ensures failed { IsErrOf result Failed → Rose (faults_in self.old) (faults_in self.new) }
        ensures never_falls { faults_in self.old ≤ faults_in self.new }

        // Which call fails.
        ensures fails { IsErrOf result Failed ↔ FailsNext (loads_of self.old) }
        ensures loads { loads_of self.new ≡ after_call (loads_of self.old) (has_failed result) }
        ensures applies { applies_of self.new ≡ applies_of self.old }
    {
        if self.loads.fails() {
            return Err(KeeperFail::Failed);
        }
        let alloc = *self.records.allocator();
        Ok(Seq::from_vec(copies::records(alloc, &self.records)?))
    }

    fn apply(&mut self, edits: &[Edit]) -> Result<(), KeeperFail>
        ensures ok { OnOk result (Some (kept_records self.new) ≡ option_map (after_edits edits.now) (Some (kept_records self.old))) }
        ensures err { OnErr result (Some (kept_records self.new) ≡ Some (kept_records self.old)) }
        ensures failed { IsErrOf result Failed → Rose (faults_in self.old) (faults_in self.new) }
        ensures never_falls { faults_in self.old ≤ faults_in self.new }

        // Which call fails.
        ensures fails { IsErrOf result Failed ↔ FailsNext (applies_of self.old) }
        ensures applies { applies_of self.new ≡ after_call (applies_of self.old) (has_failed result) }
        ensures loads { loads_of self.new ≡ loads_of self.old }
    {
        if self.applies.fails() {
            return Err(KeeperFail::Failed);
        }
        edits::apply(&mut self.records, edits)?;
        Ok(())
    }
}
