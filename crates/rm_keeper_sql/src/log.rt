//! The edits that a shelf accepted, which proofs alone read.
ghost use Rattle.std.specs.{Prelude.{◌≡◌, ◌++◌, [], ℕ, List}, Borrow.{ftrue}};
ghost use Rattle.rm_catalog.specs.declared.record.Edit.{Edit};
ghost use Rattle.rm_keeper_sql.specs.Shelves.{numbered};

use rm_catalog::Edit;
use std::marker::Model;

/// All edits that were accepted, in order, each with the number of its database. It takes no memory.
#[derive(Drop)]
pub struct Log {
    pub ghost edits: { List (ℕ × Edit) },
}

impl Model for Log {
    ghost also_owns = { λ _. ftrue };
}

impl Log {
    /// No edits.
    pub fn none() -> Self
        ensures { result.edits ≡ [] }
    {
        Log::of(&())
    }

    /// The edits so far, and then these of one number.
    pub fn and(self, number: u32, edits: &[Edit]) -> Self
        ensures { result.edits ≡ self.edits ++ numbered number edits.now }
    {
        Log::of(&(&self, number, edits))
    }

    // The edits that the caller picks, by what it shows.
    fn of<A>(shown: &A) -> Self
        ghost all: { List (ℕ × Edit) }
        ensures { result.edits ≡ all }
    {
        Log {}
    }
}
