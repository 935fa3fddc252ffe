//! Where the records of several databases are kept, each database under a number.
ghost use Rattle.std.specs.{Prelude.{◌≡◌, ◌≤◌, ℕ, IfOk, IfSome, IsErrOf, List, OnErr, OnOk, Option}, Option.{option_map}};
ghost use Rattle.rm_base.specs.Outside.{Rose};
ghost use Rattle.rm_catalog.specs.{Edits.{after_edits}, Faults.{Answers}, Keys.{Ascends}, declared.keeper.KeeperFail.TheVariants.{Failed}};
ghost use Rattle.rm_catalog.specs.declared.record.Record.{Record};
ghost use Rattle.rm_shelf.specs.Shelved.{AllStay, OthersStay, under};

use rm_base::Seq;
use rm_catalog::{Edit, KeeperFail, Record};

/// Keeps the records of databases, each under the number of its database and its key. A number is from 0 to
/// 2^32 - 1, and one that was never used has no records.
pub trait Shelf {
    /// The records under each number, ascending by kind and then id, where the shelf tells them.
    ghost shelved: { Self → Option (ℕ → List Record) };

    /// How often it has failed.
    ghost faults: { Self → ℕ };

    /// The records of this number alone, each once, in any order.
    fn load_of(&mut self, number: u32) -> Result<Seq<Record>, KeeperFail>
        ensures records { IfOk result (λ rs. Answers (under number (shelved self.old)) rs) }
        ensures ascends { IfOk result (λ _. IfSome (under number (shelved self.old)) Ascends) }
        ensures same { AllStay (shelved self.old) (shelved self.new) }
        ensures failed { IsErrOf result Failed → Rose (faults self.old) (faults self.new) }
        ensures never_falls { faults self.old ≤ faults self.new };

    /// Makes the edits of this number's records in order, or none of them, as a keeper does. The records of
    /// all other numbers stay.
    fn apply_to(&mut self, number: u32, edits: &[Edit]) -> Result<(), KeeperFail>
        ensures ok { OnOk result (under number (shelved self.new) ≡ option_map (after_edits edits.now) (under number (shelved self.old))) }
        ensures others { OthersStay number (shelved self.old) (shelved self.new) }
        ensures err { OnErr result (AllStay (shelved self.old) (shelved self.new)) }
        ensures failed { IsErrOf result Failed → Rose (faults self.old) (faults self.new) }
        ensures never_falls { faults self.old ≤ faults self.new };
}
