//! A keeper in memory: what it keeps, and each of its calls that fails.
use crate::catalog::small;
use rm_base::{Failing, Seq};
use rm_catalog::{Edit, Keeper, KeeperFail, Key, MarkEntry, MemKeeper, Record};
use rm_test_harness::Fault;
use std::alloc::Global;

// A keeper of the small catalog, of which the calls with these numbers fail.
fn keeper(alloc: Global, text: &str, load: u64, apply: u64) -> Result<MemKeeper, Fault> {
    let loads = Failing::new(vec![in alloc; load]?);
    let applies = Failing::new(vec![in alloc; apply]?);
    let records = Seq::from_vec(small(alloc, text)?);
    Ok(MemKeeper::new(records, loads, applies)?)
}

// How many records a keeper answers.
fn count(keeper: &mut MemKeeper) -> Result<usize, KeeperFail> {
    Ok(keeper.load()?.len())
}

/// The load of this number fails, and no other one.
pub fn each_load(alloc: Global, text: &str) -> Result<bool, Fault> {
    for failing in 1..4u64 {
        let mut keeper = keeper(alloc, text, failing, 0)?;
        for call in 1..5u64 {
            let wanted = if call == failing {
                Err(KeeperFail::Failed)
            } else {
                Ok(12)
            };
            if count(&mut keeper) != wanted {
                return Ok(false);
            }
        }
    }
    Ok(true)
}

/// The apply of this number fails and changes nothing; another one drops a record.
pub fn each_apply(alloc: Global, text: &str) -> Result<bool, Fault> {
    let edits = [Edit::Drop(Key { kind: 3, id: 2 })];
    for failing in 1..3u64 {
        let mut keeper = keeper(alloc, text, 0, failing)?;
        for call in 1..4u64 {
            let fails = call == failing;
            let left = if fails && call == 1 { 12 } else { 11 };
            if keeper.apply(&edits).is_err() != fails || count(&mut keeper) != Ok(left) {
                return Ok(false);
            }
        }
    }
    Ok(true)
}

fn put(mark: MarkEntry) -> Edit {
    Edit::Put(Record::Mark(mark))
}

/// Edits are made in order.
pub fn in_order(alloc: Global, text: &str) -> Result<bool, Fault> {
    let mut keeper = keeper(alloc, text, 0, 0)?;
    let key = Key { kind: 6, id: 3 };
    let mark = MarkEntry {
        id: 3,
        moment: 20,
        inc: 2,
        scn: 10,
    };
    let put_last = [put(mark), Edit::Drop(key), put(mark)];
    let is_put = keeper.apply(&put_last).is_ok() && count(&mut keeper) == Ok(13);
    let is_dropped = keeper.apply(&[put(mark), Edit::Drop(key)]).is_ok();
    Ok(is_put && is_dropped && count(&mut keeper) == Ok(12))
}
