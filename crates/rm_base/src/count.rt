//! How often something has happened.
ghost use Rattle.std.specs.{Prelude.{◌≡◌, ◌+◌, ℕ}, Borrow.{ftrue}};

use std::marker::Model;

/// How often an object has failed, or was asked: a natural number, which proofs alone read. It takes no memory, and has no end.
#[derive(Drop)]
pub struct Count {
    pub ghost times: { ℕ },
}

impl Model for Count {
    ghost also_owns = { λ _. ftrue };
}

impl Count {
    /// The count of what has not happened yet.
    pub fn none() -> Self
        ensures { result.times ≡ 0 }
    {
        Count::of(&())
    }

    /// Counts one time more.
    pub fn rise(&mut self)
        ensures { self.new.times ≡ self.old.times + 1 }
    {
        *self = Count::of(self);
    }

    // The count of as many times as the caller picks, by what it shows.
    fn of<A>(shown: &A) -> Self
        ghost many: { ℕ }
        ensures { result.times ≡ many }
    {
        Count {}
    }
}
