//! A list of values, which contracts see as the list of its items.
ghost use Rattle.std.specs.Prelude.{◌≡◌, ◌↔◌, [], ◌∷◌, ◌++◌, length, IsTrue, OnOk, OnErr};
ghost use Rattle.std.specs.Cmp.Lexicographic.{pointwise, lists_equiv, lists_per};

use crate::faults::NoMemory;
use std::alloc::Global;
use std::marker::Model;

/// A list. It is made of a `Vec`, lent as a slice and given back without memory.
#[derive(Drop)]
pub struct Seq<T> {
    items: Vec<T>,
}

impl<T> Model for Seq<T> {
    ghost use Rattle.std.specs.Prelude.{List};

    ghost Value = { List T };

    ghost view = { λ s. s.items.items };
}

impl<T: PartialEq> PartialEq for Seq<T> {
    ghost eq = { pointwise T.eq };

    ghost laws = { lists_per T.laws };

    fn eq(&self, other: &Seq<T>) -> bool {
        self.as_slice() == other.as_slice()
    }
}

impl<T: Eq> Eq for Seq<T> {
    ghost laws = { lists_equiv T.Eq.laws };
}

impl<T> Seq<T> {
    /// An empty list, which takes no memory.
    pub fn new(alloc: Global) -> Self
        ensures { result ≡ [] }
    {
        Seq {
            items: Vec::new(alloc),
        }
    }

    pub fn from_vec(items: Vec<T>) -> Self
        ensures { result ≡ items.items }
    {
        Seq { items }
    }

    pub fn into_vec(self) -> Vec<T>
        ensures { result.items ≡ self }
    {
        let Seq { items } = self;
        items
    }

    pub fn as_slice(&self) -> &[T]
        ensures { result.now ≡ self.now }
    {
        &self.items
    }

    pub fn len(&self) -> usize
        ensures { result ≡ length self.now }
    {
        self.items.len()
    }

    pub fn is_empty(&self) -> bool
        ensures { IsTrue result ↔ (self.now ≡ []) }
    {
        self.items.is_empty()
    }

    /// Adds an item at the end. Without memory the list stays as it was.
    pub fn push(&mut self, item: T) -> Result<(), NoMemory>
    where
        T: Drop,
        ensures ok { OnOk result (self.new ≡ self.old ++ item ∷ []) }
        ensures err { OnErr result (self.new ≡ self.old) }
    {
        self.items.push(item)?;
        Ok(())
    }
}
