//! A keeper, and a second one that follows it.
ghost use Rattle.std.specs.{Prelude.{◌≡◌, ◌≤◌, ◌+◌, ◌<◌, [], ◌++◌, IfErr, IfOk, IfSome, IsErrOf, OnErr, OnOk, length}, Option.{option_map}};
ghost use Rattle.std.specs.Vec.{vec_capacity, vec_len};
ghost use Rattle.rm_base.specs.Outside.{Rose};
ghost use Rattle.rm_catalog.specs.{Edits.{after_edits}, declared.keeper.KeeperFail.TheVariants.{Failed}};
ghost use Rattle.rm_control.specs.{Control.{OneRose}, Follows.{AreEqual}};

use crate::differences::edits_between;
use rm_base::{NoMemory, Seq};
use rm_catalog::{Edit, Keeper, KeeperFail, Record, copies, in_order};
use std::alloc::Global;
use std::marker::Model;

/// A keeper of the near keeper's records, which the far keeper follows: some lists of edits wait for it.
#[derive(Drop)]
pub struct Control<N: Keeper, F: Keeper> {
    near: N,
    far: F,
    waiting: Vec<Edit>,
    lists: u32,
    keep: u32,
}

impl<N: Keeper, F: Keeper> Model for Control<N, F> {
    ghost use Rattle.rm_control.specs.Control.{Parts, IsFollowed};

    ghost Value = { Parts N F };

    ghost view = { λ c. record { near = c.near; far = c.far; waiting = c.waiting.items; lists = c.lists; keep = c.keep } };

    ghost invariant = { λ c. IsFollowed (N.kept c.near) (F.kept c.far) c.waiting.items c.lists c.keep };
}

/// Makes the far records equal to the near ones, by one list if they differ, and gives how many there are. An error changes nothing.
pub fn level<N: Keeper, F: Keeper>(
    alloc: Global,
    near: &mut N,
    far: &mut F,
) -> Result<usize, KeeperFail>
    ensures count { IfOk result (λ n. IfSome (N.kept near.old) (λ rs. n ≡ length rs)) }
    ensures near { N.kept near.new ≡ N.kept near.old }
    ensures equal { OnOk result (AreEqual (N.kept near.new) (F.kept far.new)) }
    ensures far { OnErr result (F.kept far.new ≡ F.kept far.old) }
    ensures failed { IsErrOf result Failed → OneRose (N.faults near.old) (N.faults near.new) (F.faults far.old) (F.faults far.new) }
    ensures none_falls { (N.faults near.old ≤ N.faults near.new) × (F.faults far.old ≤ F.faults far.new) }
{
    let wanted = in_order(near.load()?.into_vec());
    let number = wanted.len();
    let present = in_order(far.load()?.into_vec());
    let edits = edits_between(alloc, wanted, present)?;
    if !edits.is_empty() {
        far.apply(&edits)?;
    }
    Ok(number)
}

// Equal edits, and room for them among those that wait.
fn taken(waiting: &mut Vec<Edit>, edits: &[Edit]) -> Result<Vec<Edit>, NoMemory>
    ensures copies { IfOk result (λ es. es.items ≡ edits.now) }
    ensures same { waiting.new.items ≡ waiting.old.items }
    ensures room { IfOk result (λ es. vec_len waiting.new + vec_len es ≤ vec_capacity waiting.new) }
{
    let equal = copies::edits(*waiting.allocator(), edits)?;
    waiting.reserve(equal.len())?;
    Ok(equal)
}

// Adds edits, for which there is room.
fn add(waiting: &mut Vec<Edit>, mut edits: Vec<Edit>)
    requires { vec_len waiting.old + vec_len edits ≤ vec_capacity waiting.old }
    ensures { waiting.new.items ≡ waiting.old.items ++ edits.items }
{
    if waiting.append(&mut edits).is_err() {
        unreachable!()
    }
}

// Sends what waits as one list.
fn send<F: Keeper>(far: &mut F, waiting: &mut Vec<Edit>) -> Result<(), KeeperFail>
    ensures sent { OnOk result (F.kept far.new ≡ option_map (after_edits waiting.old.items) (F.kept far.old)) }
    ensures none { OnOk result (waiting.new.items ≡ []) }
    ensures far { OnErr result (F.kept far.new ≡ F.kept far.old) }
    ensures same { OnErr result (waiting.new.items ≡ waiting.old.items) }
    ensures room { vec_len waiting.new ≤ vec_len waiting.old }
    ensures capacity { vec_capacity waiting.new ≡ vec_capacity waiting.old }
    ensures failed { IsErrOf result Failed → Rose (F.faults far.old) (F.faults far.new) }
    ensures never_falls { F.faults far.old ≤ F.faults far.new }
{
    far.apply(waiting)?;
    waiting.clear();
    Ok(())
}

impl<N: Keeper, F: Keeper> Control<N, F> {
    ghost use Rattle.rm_control.specs.{Control.{IsFollowed, behind}, Follows.{sent}};

    /// A control of these keepers, for which at most `keep` lists wait, 1 to 1,000. The far records are made
    /// equal to the near ones first. An error gives both keepers back, with the records that they had.
    pub fn open(
        alloc: Global,
        near: N,
        far: F,
        keep: u32,
    ) -> Result<Control<N, F>, (N, F, KeeperFail)>
        requires { (1 ≤ keep) × (keep ≤ 1000) }
        ensures near { IfOk result (λ c. N.kept c.near ≡ N.kept near) }
        ensures equal { IfOk result (λ c. AreEqual (N.kept c.near) (F.kept c.far)) }
        ensures none { IfOk result (λ c. (c.waiting ≡ []) × (c.lists ≡ 0)) }
        ensures keep { IfOk result (λ c. c.keep ≡ keep) }
        ensures near_back { IfErr result (λ e. N.kept e.0 ≡ N.kept near) }
        ensures far_back { IfErr result (λ e. F.kept e.1 ≡ F.kept far) }
        ensures failed { IfErr result (λ e. e.2 ≡ Failed → OneRose (N.faults near) (N.faults e.0) (F.faults far) (F.faults e.1)) }
        ensures none_falls { IfOk result (λ c. (N.faults near ≤ N.faults c.near) × (F.faults far ≤ F.faults c.far)) × IfErr result (λ e. (N.faults near ≤ N.faults e.0) × (F.faults far ≤ F.faults e.1)) }
    {
        let mut near = near;
        let mut far = far;
        match level(alloc, &mut near, &mut far) {
            Ok(_) => Ok(Control {
                near,
                far,
                waiting: Vec::new(alloc),
                lists: 0,
                keep,
            }),
            Err(fail) => Err((near, far, fail)),
        }
    }

    /// Both keepers, as they are. What waits is not sent.
    pub fn close(self) -> (N, F)
    where
        N: Drop,
        F: Drop,
        ensures near { result.0 ≡ self.near }
        ensures far { result.1 ≡ self.far }
    {
        let Control { near, far, .. } = self;
        (near, far)
    }

    /// How many lists wait: at most as many as may. The near records are the far ones after them.
    pub fn waiting(&self) -> u32
        ensures lists { result ≡ self.now.lists }
        ensures followed { IsFollowed (N.kept self.now.near) (F.kept self.now.far) self.now.waiting self.now.lists self.now.keep }
    {
        self.lists
    }

    /// Sends the lists that wait as one, and gives their number. An error changes nothing.
    pub fn resync(&mut self) -> Result<u32, KeeperFail>
        ensures count { IfOk result (λ n. n ≡ self.old.lists) }
        ensures sent { OnOk result (behind F.kept self.new ≡ sent (behind F.kept self.old)) }
        ensures equal { OnOk result (AreEqual (N.kept self.new.near) (F.kept self.new.far)) }
        ensures same { OnErr result (behind F.kept self.new ≡ behind F.kept self.old) }
        ensures near { self.new.near ≡ self.old.near }
        ensures keep { self.new.keep ≡ self.old.keep }
        ensures failed { IsErrOf result Failed → Rose (F.faults self.old.far) (F.faults self.new.far) }
        ensures never_falls { F.faults self.old.far ≤ F.faults self.new.far }
    {
        send(&mut self.far, &mut self.waiting)?;
        let lists = self.lists;
        self.lists = 0;
        Ok(lists)
    }
}

impl<N: Keeper, F: Keeper> Keeper for Control<N, F> {
    ghost use Rattle.std.specs.Prelude.{IfSome, ◌⊎◌};
    ghost use Rattle.rm_catalog.specs.{Faults.{Answers}, Keys.{Ascends}};
    ghost use Rattle.rm_control.specs.{Control.{behind}, Follows.{added, with_room}};

    ghost kept = { λ c. N.kept c.near };

    ghost faults = { λ c. N.faults c.near + F.faults c.far };

    fn load(&mut self) -> Result<Seq<Record>, KeeperFail>
        ensures records { IfOk result (λ rs. Answers (N.kept self.old.near) rs) }
        ensures ascends { IfOk result (λ _. IfSome (N.kept self.old.near) Ascends) }
        ensures same { N.kept self.new.near ≡ N.kept self.old.near }
        ensures failed { IsErrOf result Failed → Rose (N.faults self.old.near + F.faults self.old.far) (N.faults self.new.near + F.faults self.new.far) }
        ensures never_falls { N.faults self.old.near + F.faults self.old.far ≤ N.faults self.new.near + F.faults self.new.far }

        // The near keeper alone is asked.
        ensures behind { behind F.kept self.new ≡ behind F.kept self.old }
        ensures keep { self.new.keep ≡ self.old.keep }
        ensures near_failed { IsErrOf result Failed → Rose (N.faults self.old.near) (N.faults self.new.near) }
    {
        self.near.load()
    }

    fn apply(&mut self, edits: &[Edit]) -> Result<(), KeeperFail>
        ensures ok { OnOk result (N.kept self.new.near ≡ option_map (after_edits edits.now) (N.kept self.old.near)) }
        ensures err { OnErr result (N.kept self.new.near ≡ N.kept self.old.near) }
        ensures failed { IsErrOf result Failed → Rose (N.faults self.old.near + F.faults self.old.far) (N.faults self.new.near + F.faults self.new.far) }
        ensures never_falls { N.faults self.old.near + F.faults self.old.far ≤ N.faults self.new.near + F.faults self.new.far }

        // What waits is sent first where as many lists wait as may, and then the new list waits.
        ensures waits { OnOk result (behind F.kept self.new ≡ added edits.now (with_room self.old.keep (behind F.kept self.old))) }
        ensures stays { OnErr result ((behind F.kept self.new ≡ behind F.kept self.old)
            ⊎ (behind F.kept self.new ≡ with_room self.old.keep (behind F.kept self.old))) }
        ensures keep { self.new.keep ≡ self.old.keep }
        ensures one_failed { IsErrOf result Failed → OneRose (N.faults self.old.near) (N.faults self.new.near) (F.faults self.old.far) (F.faults self.new.far) }
    {
        let equal = taken(&mut self.waiting, edits)?;
        if self.lists == self.keep {
            send(&mut self.far, &mut self.waiting)?;
            self.lists = 0;
        }
        self.near.apply(edits)?;
        add(&mut self.waiting, equal);
        self.lists += 1;
        Ok(())
    }
}
