//! A keeper that a second one follows.
use rm_base::{Failing, Seq};
use rm_catalog::{Edit, Keeper, KeeperFail, MarkEntry, MemKeeper, Record};
use rm_control::Control;
use rm_test_harness::Fault;
use std::alloc::Global;

fn mark(id: u32) -> Record {
    Record::Mark(MarkEntry {
        id,
        moment: 0,
        inc: 1,
        scn: 1,
    })
}

// A keeper of the marks from one id on and below another, of which the apply of this number fails.
fn keeper(alloc: Global, from: u32, to: u32, fails: u64) -> Result<MemKeeper, Fault> {
    let mut records = Vec::new(alloc);
    for id in from..to {
        records.push(mark(id))?;
    }
    let loads = Failing::new(Vec::new(alloc));
    let applies = Failing::new(vec![in alloc; fails]?);
    Ok(MemKeeper::new(Seq::from_vec(records), loads, applies)?)
}

// How many records a keeper answers.
fn count<C: Keeper>(keeper: &mut C) -> Result<usize, KeeperFail> {
    Ok(keeper.load()?.len())
}

fn put<C: Keeper>(keeper: &mut C, id: u32) -> Result<(), KeeperFail> {
    keeper.apply(&[Edit::Put(mark(id))])
}

// Whether the marks from one id on and below another are put, one list each.
fn are_put<C: Keeper>(keeper: &mut C, from: u32, to: u32) -> bool {
    for id in from..to {
        if put(keeper, id).is_err() {
            return false;
        }
    }
    true
}

/// With two lists that may wait, the seventh list finds the far keeper failing at its third: the near records
/// and what waits stay.
pub fn third_list(alloc: Global) -> Result<bool, Fault> {
    let near = keeper(alloc, 1, 1, 0)?;
    let far = keeper(alloc, 1, 1, 3)?;
    let Ok(mut control) = Control::open(alloc, near, far, 2) else {
        return Ok(false);
    };
    let made = are_put(&mut control, 1, 7);
    let fails = put(&mut control, 7) == Err(KeeperFail::Failed);
    let stays = control.waiting() == 2 && count(&mut control) == Ok(6);
    let (mut near, mut far) = control.close();
    Ok(made && fails && stays && count(&mut near) == Ok(6) && count(&mut far) == Ok(4))
}

/// The far keeper is away: a hundred lists wait for it, and the next one is refused. When it is back that one is taken,
/// and a resync sends what waits then.
pub fn away_and_back(alloc: Global) -> Result<bool, Fault> {
    let near = keeper(alloc, 1, 1, 0)?;
    let far = keeper(alloc, 1, 1, 1)?;
    let Ok(mut control) = Control::open(alloc, near, far, 100) else {
        return Ok(false);
    };
    let made = are_put(&mut control, 1, 101) && control.waiting() == 100;
    let is_away = put(&mut control, 101) == Err(KeeperFail::Failed)
        && control.waiting() == 100
        && count(&mut control) == Ok(100);
    let is_back = put(&mut control, 101).is_ok() && control.waiting() == 1;
    let is_sent = control.resync() == Ok(1) && control.waiting() == 0;
    let (mut near, mut far) = control.close();
    let are_equal = count(&mut near) == Ok(101) && count(&mut far) == Ok(101);
    Ok(made && is_away && is_back && is_sent && are_equal)
}

/// A list that the near keeper refuses waits for nobody, and what waited was sent before where there was no room.
pub fn near_fails(alloc: Global) -> Result<bool, Fault> {
    let near = keeper(alloc, 1, 1, 2)?;
    let far = keeper(alloc, 1, 1, 0)?;
    let Ok(mut control) = Control::open(alloc, near, far, 1) else {
        return Ok(false);
    };
    let made = put(&mut control, 1).is_ok() && control.waiting() == 1;
    let fails = put(&mut control, 2) == Err(KeeperFail::Failed) && control.waiting() == 0;
    let (mut near, mut far) = control.close();
    Ok(made && fails && count(&mut near) == Ok(1) && count(&mut far) == Ok(1))
}

/// Where both have the same records, no list is applied, so a far keeper whose first one fails is opened.
pub fn equal(alloc: Global) -> Result<bool, Fault> {
    let near = keeper(alloc, 1, 4, 0)?;
    let far = keeper(alloc, 1, 4, 1)?;
    Ok(Control::open(alloc, near, far, 1).is_ok())
}

/// Where they differ, one list makes them equal, and where it fails both keepers come back.
pub fn one_list(alloc: Global) -> Result<bool, Fault> {
    let near = keeper(alloc, 3, 8, 0)?;
    let far = keeper(alloc, 1, 5, 2)?;
    let Ok(control) = Control::open(alloc, near, far, 1) else {
        return Ok(false);
    };
    let (near, mut far) = control.close();
    let levels = count(&mut far) == Ok(5);
    let again = keeper(alloc, 1, 2, 1)?;
    match Control::open(alloc, near, again, 1) {
        Ok(_) => Ok(false),
        Err((mut near, mut again, fail)) => Ok(
            levels
                && fail == KeeperFail::Failed
                && count(&mut near) == Ok(5)
                && count(&mut again) == Ok(1),
        ),
    }
}

/// A resync sends what waits, and tells in how many lists it came.
pub fn sent(alloc: Global) -> Result<bool, Fault> {
    let near = keeper(alloc, 1, 1, 0)?;
    let far = keeper(alloc, 1, 1, 0)?;
    let Ok(mut control) = Control::open(alloc, near, far, 1000) else {
        return Ok(false);
    };
    let made = are_put(&mut control, 1, 3);
    let told = control.resync() == Ok(2) && control.waiting() == 0;
    let (_, mut far) = control.close();
    Ok(made && told && count(&mut far) == Ok(2))
}
