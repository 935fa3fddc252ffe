//! The calls that are to fail, by their numbers.
use rm_base::{Failing, MemStore, NoMemory, StoreFailing};
use rm_shelf::MemShelf;
use std::alloc::Global;

/// A function of one of the objects in memory.
#[derive(Clone, Copy, PartialEq, Eq)]
pub enum Call {
    Read,
    Write,
    Get,
    Put,
    Remove,
    Names,
    Load,
    Apply,
}

/// The function of this name.
pub fn call_of(name: &str) -> Option<Call> {
    match name {
        "read" => Some(Call::Read),
        "write" => Some(Call::Write),
        "get" => Some(Call::Get),
        "put" => Some(Call::Put),
        "remove" => Some(Call::Remove),
        "names" => Some(Call::Names),
        "load" => Some(Call::Load),
        "apply" => Some(Call::Apply),
        _ => None,
    }
}

/// The calls that are to fail.
#[derive(Drop)]
pub struct Calls {
    alloc: Global,
    numbers: Vec<(Call, u64)>,
}

impl Calls {
    /// No call fails.
    pub fn new(alloc: Global) -> Self {
        Calls {
            alloc,
            numbers: Vec::new(alloc),
        }
    }

    /// The call of this number is to fail, too.
    pub fn add(&mut self, call: Call, number: u64) -> Result<(), NoMemory> {
        self.numbers.push((call, number))?;
        Ok(())
    }

    /// Those of one function.
    pub fn of(&self, call: Call) -> Result<Failing, NoMemory> {
        let mut numbers = Vec::new(self.alloc);
        for (other, number) in &self.numbers {
            if *other == call {
                numbers.push(*number)?;
            }
        }
        Ok(Failing::new(numbers))
    }

    /// A store that holds nothing.
    pub fn store(&self) -> Result<MemStore, NoMemory> {
        let failing = StoreFailing {
            gets: self.of(Call::Get)?,
            puts: self.of(Call::Put)?,
            removes: self.of(Call::Remove)?,
            names: self.of(Call::Names)?,
        };
        Ok(MemStore::new(self.alloc, failing))
    }

    /// A shelf that keeps no record.
    pub fn shelf(&self) -> Result<MemShelf, NoMemory> {
        let (loads, applies) = (self.of(Call::Load)?, self.of(Call::Apply)?);
        Ok(MemShelf::new(self.alloc, loads, applies))
    }
}
