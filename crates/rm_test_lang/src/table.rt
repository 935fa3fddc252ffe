//! The tables of times, statements and words.
use crate::moments::{marks, shown, time};
use crate::statements::{texts, texts_again};
use crate::words::{duplicate_said, resync_said, said, standby_said};
use rm_base::NoMemory;
use rm_test_harness::{Fault, Told};
use std::alloc::Global;

/// A table.
#[derive(Clone, Copy)]
pub enum Table {
    Times,
    Moments,
    Marks,
    Statements,
    Refused,
    Words,
    Duplicate,
    Standby,
    Resync,
}

impl Table {
    fn text(self, alloc: Global, given: &str) -> Result<String, NoMemory> {
        match self {
            Table::Times => time(alloc, given),
            Table::Moments => shown(alloc, given),
            Table::Marks => marks(alloc, given),
            Table::Statements => texts_again(alloc, given),
            Table::Refused => texts(alloc, given),
            Table::Words => said(alloc, given),
            Table::Duplicate => duplicate_said(alloc, given),
            Table::Standby => standby_said(alloc, given),
            Table::Resync => resync_said(alloc, given),
        }
    }
}

impl Told for Table {
    fn told(&mut self, alloc: Global, given: &str) -> Result<String, Fault> {
        Ok(self.text(alloc, given)?)
    }
}
