//! Edits of many records at once, beside a plain loop.
use rm_base::{Failing, NoMemory, Seq};
use rm_catalog::{Edit, Keeper, Key, MarkEntry, MemKeeper, Record};
use rm_test_harness::Fault;
use std::alloc::Global;

fn mark(id: u32) -> Record {
    Record::Mark(MarkEntry {
        id,
        moment: 20,
        inc: 2,
        scn: 10,
    })
}

// Marks 1 to 300, the last one first.
fn marks(alloc: Global) -> Result<Seq<Record>, NoMemory> {
    let mut marks = Seq::new(alloc);
    for id in (1..=300u32).rev() {
        marks.push(mark(id))?;
    }
    Ok(marks)
}

// A drop of each seventh.
fn drops(alloc: Global) -> Result<Vec<Edit>, NoMemory> {
    let mut drops = Vec::new(alloc);
    for id in (7..=300u32).step_by(7) {
        drops.push(Edit::Drop(Key { kind: 6, id }))?;
    }
    Ok(drops)
}

// Whether these are the marks that stay, in order.
fn are_left(records: &[Record]) -> bool {
    let stay = (1..=300u32).filter(|id| id % 7 != 0);
    records.iter().map(|record| record.key().id).eq(stay)
}

/// The drops leave the other marks, the first one first.
pub fn dropped(alloc: Global) -> Result<bool, Fault> {
    let none = Failing::new(Vec::new(alloc));
    let mut keeper = MemKeeper::new(marks(alloc)?, none, Failing::new(Vec::new(alloc)))?;
    let is_made = keeper.apply(&drops(alloc)?).is_ok();
    Ok(is_made && keeper.load().is_ok_and(|left| are_left(left.as_slice())))
}
