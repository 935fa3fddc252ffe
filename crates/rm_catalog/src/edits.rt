//! Edits of records in order, all made in one pass.
ghost use Rattle.std.specs.Prelude.{◌≡◌, ◌<◌, ◌≤◌, ◌+◌, [], ◌∷◌, ◌++◌, List, IfOk, OnOk, OnErr, IfSome, IfNone, All, reverse};
ghost use Rattle.std.specs.Vec.{vec_len, vec_capacity};
ghost use Rattle.rm_catalog.specs.{Keys.{place_of, Ascends, InOrder}, Edits.{place_of_edit, below, after_edit, after_edits}};
ghost use Rattle.rm_catalog.specs.{Passes.{EditsInOrder, IsReady, HasMade}, declared.record.Record.{Record}};

use crate::copies;
use crate::find::count_before;
use crate::record::{Edit, Record};
use rm_base::NoMemory;
use std::mem;

// Edits with the same outcome, by place.
fn by_place(mut edits: Vec<Edit>) -> Result<Vec<Edit>, NoMemory>
    ensures order { IfOk result (λ es. EditsInOrder es.items) }
    ensures same { IfOk result (λ es. (rs : List Record) → after_edits es.items rs ≡ after_edits edits.items rs) }
    ensures len { IfOk result (λ es. vec_len es ≡ vec_len edits) }
{
    edits.sort_by_key(|edit| edit.place())?;
    Ok(edits)
}

// Takes away the records at and above a place.
fn cut_at(records: &mut Vec<Record>, place: u64)
    requires { InOrder records.old.items }
    ensures items { records.new.items ≡ below place records.old.items }
    ensures len { vec_len records.new ≤ vec_len records.old }
    ensures capacity { vec_capacity records.new ≡ vec_capacity records.old }
{
    let n = count_before(records, place);
    records.truncate(n);
}

// Adds a record at the end, where there is room for it.
fn push(records: &mut Vec<Record>, r: Record)
    requires { vec_len records.old < vec_capacity records.old }
    ensures items { records.new.items ≡ records.old.items ++ r ∷ [] }
    ensures len { vec_len records.new ≡ vec_len records.old + 1 }
    ensures capacity { vec_capacity records.old ≤ vec_capacity records.new }
{
    if records.push(r).is_err() {
        unreachable!()
    }
}

// Makes an edit where no record stands above its place. There is room for one record more.
fn make_at_end(records: &mut Vec<Record>, edit: Edit)
    requires order { InOrder records.old.items }
    requires last { All (λ r. place_of r ≤ place_of_edit edit) records.old.items }
    requires room { vec_len records.old < vec_capacity records.old }
    ensures items { records.new.items ≡ after_edit edit records.old.items }
    ensures len { vec_len records.new ≤ vec_len records.old + 1 }
    ensures capacity { vec_capacity records.old ≤ vec_capacity records.new }
{
    cut_at(records, edit.place());
    if let Edit::Put(record) = edit {
        push(records, record);
    }
}

// The next edit, where it stands below this place. The last one of the list comes first.
fn next_below(edits: &mut Vec<Edit>, place: u64) -> Option<Edit>
    requires { EditsInOrder (reverse edits.old.items) }
    ensures some { IfSome result (λ e. reverse edits.old.items ≡ e ∷ reverse edits.new.items) }
    ensures below { IfSome result (λ e. place_of_edit e < place) }
    ensures len { IfSome result (λ _. vec_len edits.new + 1 ≡ vec_len edits.old) }
    ensures none { IfNone result (edits.new.items ≡ edits.old.items) }
    ensures kept { IfNone result (vec_len edits.new ≡ vec_len edits.old) }
    ensures above { IfNone result (All (λ e. place ≤ place_of_edit e) (reverse edits.old.items)) }
{
    if edits.last()?.place() >= place {
        return None;
    }
    edits.pop()
}

// Makes the edits that stand below a place. The next edit is the last one of the list.
fn make_below(records: &mut Vec<Record>, edits: &mut Vec<Edit>, place: u64)
    requires ready { IsReady records.old.items (reverse edits.old.items) }
    requires room { vec_len records.old + vec_len edits.old ≤ vec_capacity records.old }
    ensures made { HasMade place records.old.items (reverse edits.old.items) records.new.items (reverse edits.new.items) }
    ensures ready { IsReady records.new.items (reverse edits.new.items) }
    ensures above { All (λ e. place ≤ place_of_edit e) (reverse edits.new.items) }
    ensures room { vec_len records.new + vec_len edits.new ≤ vec_len records.old + vec_len edits.old }
    ensures capacity { vec_capacity records.old ≤ vec_capacity records.new }
{
    'edits: while let Some(edit) = next_below(edits, place) {
        make_at_end(records, edit);
    }
}

// Makes all edits that are left. The next edit is the last one of the list.
fn make_rest(records: &mut Vec<Record>, mut edits: Vec<Edit>)
    requires ready { IsReady records.old.items (reverse edits.items) }
    requires room { vec_len records.old + vec_len edits ≤ vec_capacity records.old }
    ensures { records.new.items ≡ after_edits (reverse edits.items) records.old.items }
{
    'edits: while let Some(edit) = edits.pop() {
        make_at_end(records, edit);
    }
}

// Moves the records to a list with room for all, and makes the edits on the way. The next edit is the
// last one of the list.
fn merge(mut to: Vec<Record>, records: Vec<Record>, mut edits: Vec<Edit>) -> Vec<Record>
    requires empty { to.items ≡ [] }
    requires room { vec_len records + vec_len edits ≤ vec_capacity to }
    requires order { InOrder records.items }
    requires ascending { EditsInOrder (reverse edits.items) }
    ensures { result.items ≡ after_edits (reverse edits.items) records.items }
{
    for row in records {
        make_below(&mut to, &mut edits, row.place());
        push(&mut to, row);
    }
    make_rest(&mut to, edits);
    to
}

/// Makes the edits in order, all of them or, without memory, none.
pub fn make(records: &mut Vec<Record>, edits: Vec<Edit>) -> Result<(), NoMemory>
    requires order { InOrder records.old.items }
    ensures ok { OnOk result (records.new.items ≡ after_edits edits.items records.old.items) }
    ensures err { OnErr result (records.new.items ≡ records.old.items) }
    ensures order { InOrder records.new.items }
    ensures ascends { Ascends records.old.items → Ascends records.new.items }
{
    let alloc = *records.allocator();
    let mut edits = by_place(edits)?;
    edits.reverse();
    let to = Vec::with_capacity(alloc, records.len() + edits.len())?;
    let old = mem::replace(records, Vec::new(alloc));
    *records = merge(to, old, edits);
    Ok(())
}

/// Makes the edits in order, all of them or, without memory, none.
pub fn apply(records: &mut Vec<Record>, edits: &[Edit]) -> Result<(), NoMemory>
    requires order { InOrder records.old.items }
    ensures ok { OnOk result (records.new.items ≡ after_edits edits.now records.old.items) }
    ensures err { OnErr result (records.new.items ≡ records.old.items) }
    ensures order { InOrder records.new.items }
    ensures ascends { Ascends records.old.items → Ascends records.new.items }
{
    let edits = copies::edits(*records.allocator(), edits)?;
    make(records, edits)
}
