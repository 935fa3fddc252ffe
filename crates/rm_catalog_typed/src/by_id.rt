//! Logs, pieces and sets, which ascend by id: one is found, put or taken away.
ghost use Rattle.std.specs.{Prelude.{ℕ, ◌≡◌, ◌<◌, ◌==◌, AllPairs, MatchResult, find, OnOk, OnErr}, Option.{option_copied}};
ghost use Rattle.rm_catalog_typed.specs.{Changes.{with_one, without_one}, Places.{IsAt, IsGap}};

use rm_base::NoMemory;
use rm_catalog::{LogEntry, PieceEntry, SetEntry};

// What has an id.
pub(crate) trait Entry: Drop {
    ghost number: { Self → ℕ };

    fn id(&self) -> u32
        ensures { result ≡ number self.now };
}

impl Entry for LogEntry {
    ghost number = { λ e. e.id };

    fn id(&self) -> u32 {
        self.id
    }
}

impl Entry for PieceEntry {
    ghost number = { λ e. e.id };

    fn id(&self) -> u32 {
        self.id
    }
}

impl Entry for SetEntry {
    ghost number = { λ e. e.id };

    fn id(&self) -> u32 {
        self.id
    }
}

// Where the one of this id stands, or else where one of this id would stand.
fn seek<T: Entry>(items: &[T], id: u32) -> Result<usize, usize>
    requires { AllPairs (λ x y. T.number x < T.number y) items.now }
    ensures { MatchResult result (IsAt T.number id items.now) (IsGap T.number id items.now) }
{
    items.binary_search_by_key(&id, |item| item.id())
}

// The one of an id.
pub(crate) fn get<T: Entry>(items: &[T], id: u32) -> Option<&T>
    requires { AllPairs (λ x y. T.number x < T.number y) items.now }
    ensures { option_copied result ≡ find (λ x. T.number x == id) items.now }
{
    match seek(items, id) {
        Ok(i) => Some(&items[i]),
        Err(_) => None,
    }
}

// Puts one in place of that of its id, or at its place.
pub(crate) fn put<T: Entry>(items: &mut Vec<T>, item: T) -> Result<(), NoMemory>
    requires { AllPairs (λ x y. T.number x < T.number y) items.old.items }
    ensures put { OnOk result (items.new.items ≡ with_one T.number item items.old.items) }
    ensures same { OnErr result (items.new.items ≡ items.old.items) }
{
    match seek(items, item.id()) {
        Ok(i) => items[i] = item,
        Err(i) => items.insert(i, item)?,
    }
    Ok(())
}

// Takes away the one of an id, if it is there.
pub(crate) fn remove<T: Entry>(items: &mut Vec<T>, id: u32)
    requires { AllPairs (λ x y. T.number x < T.number y) items.old.items }
    ensures { items.new.items ≡ without_one T.number id items.old.items }
{
    if let Ok(i) = seek(items, id) {
        items.remove(i);
    }
}
