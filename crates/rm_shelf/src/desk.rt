//! A keeper of one number of a shelf.
ghost use Rattle.std.specs.Prelude.{◌≡◌, ℕ, List, Option, None};
ghost use Rattle.rm_catalog.specs.declared.record.Record.{Record};
ghost use Rattle.rm_shelf.specs.Shelved.{IsNoted};

use crate::shelf::Shelf;
use rm_base::Seq;
use rm_catalog::{Edit, Keeper, KeeperFail, Record};
use std::marker::{Brand, Model, PhantomData};

/// What was noted of a shelf when a desk was put before it. A proof picks it where the desk is made. As long
/// as there is the desk it is of the number that was noted, and all other numbers have the records that were
/// noted. So it is also behind a call that takes any keeper and says nothing of other numbers.
pub trait Noted {
    /// The desk's number, and what the shelf told of all numbers; None where nothing was noted.
    ghost noted: { Option (ℕ × Option (ℕ → List Record)) };
}

impl Noted for Brand {
    ghost noted = { None };
}

/// A keeper of the records of one number of a shelf, which it owns. The records of all other numbers stay as
/// they were noted.
#[derive(Drop)]
pub struct Desk<H: Shelf, B: Noted = Brand> {
    shelf: H,
    number: u32,
    of: PhantomData<B>,
}

impl<H: Shelf, B: Noted> Model for Desk<H, B> {
    ghost use Rattle.rm_shelf.specs.{Desk.{Before}, Shelved.{IsNoted}};

    ghost Value = { Before H };

    ghost view = { λ d. record { shelf = d.shelf; number = d.number } };

    ghost invariant = { λ d. IsNoted B.noted d.number (H.shelved d.shelf) };
}

impl<H: Shelf, B: Noted> Desk<H, B> {
    /// A keeper of this number's records. It takes no memory.
    pub fn new(shelf: H, number: u32) -> Self
        requires { IsNoted B.noted number (H.shelved shelf) }
        ensures { result ≡ record { shelf = shelf; number = number } }
    {
        Desk {
            shelf,
            number,
            of: PhantomData,
        }
    }

    /// The shelf, which is handed back. It takes no memory.
    pub fn close(self) -> H
    where
        H: Drop,
        ensures same { result ≡ self.shelf }
        ensures noted { IsNoted B.noted self.number (H.shelved result) }
    {
        let Desk { shelf, .. } = self;
        shelf
    }
}

impl<H: Shelf, B: Noted> Keeper for Desk<H, B> {
    ghost use Rattle.std.specs.{Prelude.{◌≤◌, IfOk, IfSome, IsErrOf, OnErr, OnOk}, Option.{option_map}};
    ghost use Rattle.rm_base.specs.Outside.{Rose};
    ghost use Rattle.rm_catalog.specs.{Edits.{after_edits}, Faults.{Answers}, Keys.{Ascends}};
    ghost use Rattle.rm_catalog.specs.declared.keeper.KeeperFail.TheVariants.{Failed};
    ghost use Rattle.rm_shelf.specs.Shelved.{AllStay, OthersStay, under};

    ghost kept = { λ d. under d.number (H.shelved d.shelf) };

    ghost faults = { λ d. H.faults d.shelf };

    fn load(&mut self) -> Result<Seq<Record>, KeeperFail>
        ensures records { IfOk result (λ rs. Answers (under self.old.number (H.shelved self.old.shelf)) rs) }
        ensures ascends { IfOk result (λ _. IfSome (under self.old.number (H.shelved self.old.shelf)) Ascends) }
        ensures same { under self.new.number (H.shelved self.new.shelf) ≡ under self.old.number (H.shelved self.old.shelf) }
        ensures failed { IsErrOf result Failed → Rose (H.faults self.old.shelf) (H.faults self.new.shelf) }
        ensures never_falls { H.faults self.old.shelf ≤ H.faults self.new.shelf }

        // Nothing changes.
        ensures all { AllStay (H.shelved self.old.shelf) (H.shelved self.new.shelf) }
        ensures number { self.new.number ≡ self.old.number }
    {
        self.shelf.load_of(self.number)
    }

    fn apply(&mut self, edits: &[Edit]) -> Result<(), KeeperFail>
        ensures ok { OnOk result
            (under self.new.number (H.shelved self.new.shelf) ≡ option_map (after_edits edits.now) (under self.old.number (H.shelved self.old.shelf))) }
        ensures err { OnErr result (under self.new.number (H.shelved self.new.shelf) ≡ under self.old.number (H.shelved self.old.shelf)) }
        ensures failed { IsErrOf result Failed → Rose (H.faults self.old.shelf) (H.faults self.new.shelf) }
        ensures never_falls { H.faults self.old.shelf ≤ H.faults self.new.shelf }

        // The other numbers' records stay.
        ensures others { OthersStay self.old.number (H.shelved self.old.shelf) (H.shelved self.new.shelf) }
        ensures number { self.new.number ≡ self.old.number }
    {
        self.shelf.apply_to(self.number, edits)
    }
}
