//! The stores and the records that the runs of a row go over.
use crate::calls::Calls;
use rm_base::{MemStore, NoMemory};
use rm_shelf::MemShelf;
use std::alloc::Global;

/// Stores by their names.
#[derive(Drop)]
pub struct Stores {
    alloc: Global,
    named: Vec<(String, MemStore)>,
}

impl Stores {
    /// The store of this name, which goes to a run. One that was not there holds nothing, and these calls of it are to fail.
    pub fn take(&mut self, name: &str, failing: &Calls) -> Result<MemStore, NoMemory> {
        match self
            .named
            .iter()
            .position(|(other, _)| other.as_str() == name)
        {
            Some(at) => Ok(self.named.remove(at).1),
            None => failing.store(),
        }
    }

    /// A run gives the store of this name back.
    pub fn put_back(&mut self, name: &str, store: MemStore) -> Result<(), NoMemory> {
        self.named
            .push((String::from_str(self.alloc, name)?, store))?;
        Ok(())
    }

    /// The store of this name, where a run left it.
    pub fn get(&mut self, name: &str) -> Option<&mut MemStore> {
        let (_, store) = self
            .named
            .iter_mut()
            .find(|(other, _)| other.as_str() == name)?;
        Some(store)
    }
}

/// Stores, and the records of several databases, each under its number.
#[derive(Drop)]
pub struct Site {
    pub stores: Stores,
    pub shelf: MemShelf,
}

impl Site {
    /// No store, and no record. These calls of the shelf are to fail.
    pub fn new(alloc: Global, failing: &Calls) -> Result<Site, NoMemory> {
        Ok(Site {
            stores: Stores {
                alloc,
                named: Vec::new(alloc),
            },
            shelf: failing.shelf()?,
        })
    }
}
