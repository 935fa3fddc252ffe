//! The record at a place of a list in order.
ghost use Rattle.std.specs.{Prelude.{◌≡◌, ◌<◌, ◌≤◌, ℕ, length, IsTrue, ◌↔◌, slice_index_or}, Option.{option_copied}};
ghost use Rattle.rm_catalog.specs.Keys.{place, place_of, InOrder, at, IsThere, base, incarnation, mark, datafile, switch};
ghost use Rattle.rm_catalog.specs.declared.record.Record.{Record};

use crate::record::{
    BaseEntry, DatafileEntry, IncarnationEntry, Key, MarkEntry, Record, SwitchEntry,
};
use rm_base::{FileNo, IncNo};

/// How many records stand before this place.
pub fn count_before(records: &[Record], place: u64) -> usize
    requires { InOrder records.now }
    ensures within { result ≤ length records.now }
    ensures below { (k : ℕ) (d : Record) → k < result → place_of (slice_index_or records.now k d) < place }
    ensures above { (k : ℕ) (d : Record) → result ≤ k → k < length records.now → place ≤ place_of (slice_index_or records.now k d) }
{
    let mut low = 0;
    let mut high = records.len();
    'search: while low < high {
        let middle = low + (high - low) / 2;
        if records[middle].place() < place {
            low = middle + 1;
        } else {
            high = middle;
        }
    }
    low
}

/// The record at this place.
pub fn find(records: &[Record], place: u64) -> Option<&Record>
    requires { InOrder records.now }
    ensures { option_copied result ≡ at place records.now }
{
    let i = count_before(records, place);
    if i < records.len() && records[i].place() == place {
        Some(&records[i])
    } else {
        None
    }
}

/// The record of this kind and id.
pub fn find_key(records: &[Record], kind: u8, id: u32) -> Option<&Record>
    requires { InOrder records.now }
    ensures { option_copied result ≡ at (place kind id) records.now }
{
    find(records, Key { kind, id }.place())
}

/// Whether there is a record of this kind and id.
pub fn is_there(records: &[Record], kind: u8, id: u32) -> bool
    requires { InOrder records.now }
    ensures { IsTrue result ↔ IsThere kind id records.now }
{
    find_key(records, kind, id).is_some()
}

/// The base facts.
pub fn base(records: &[Record]) -> Option<BaseEntry>
    requires { InOrder records.now }
    ensures { result ≡ base records.now }
{
    match find_key(records, 1, 0) {
        Some(Record::Base(entry)) => Some(*entry),
        _ => None,
    }
}

/// The incarnation of this number.
pub fn incarnation(records: &[Record], inc: IncNo) -> Option<IncarnationEntry>
    requires { InOrder records.now }
    ensures { result ≡ incarnation inc records.now }
{
    match find_key(records, 2, inc) {
        Some(Record::Incarnation(entry)) => Some(*entry),
        _ => None,
    }
}

/// The datafile of this number.
pub fn datafile(records: &[Record], file: FileNo) -> Option<DatafileEntry>
    requires { InOrder records.now }
    ensures { result ≡ datafile file records.now }
{
    match find_key(records, 3, file) {
        Some(Record::Datafile(entry)) => Some(*entry),
        _ => None,
    }
}

/// The mark of this number.
pub fn mark(records: &[Record], id: u32) -> Option<MarkEntry>
    requires { InOrder records.now }
    ensures { result ≡ mark id records.now }
{
    match find_key(records, 6, id) {
        Some(Record::Mark(entry)) => Some(*entry),
        _ => None,
    }
}

/// The switch of this number.
pub fn switch(records: &[Record], id: u32) -> Option<SwitchEntry>
    requires { InOrder records.now }
    ensures { result ≡ switch id records.now }
{
    match find_key(records, 10, id) {
        Some(Record::Switch(entry)) => Some(*entry),
        _ => None,
    }
}
