//! The incarnations of a database, which of them owns an SCN, and whether a datafile exists.
ghost use Rattle.std.specs.Prelude.{◌≡◌, ◌<◌, ◌≤◌, ◌↔◌, ◌⊎◌, ◌∷◌, [], ◌+◌, length, IsTrue, IsSome, IfSome, IfOk, OnOk, OnErr, IsErrOf, false};
ghost use Rattle.rm_history.specs.Tree.{IsThere, IsTree, HasParentsBelow, IsProperAncestor, IsShared, is_on_path as path_has, owner, incarnation, reset_of, end_of, with_end, with_branch, segment_end, standing, is_within};
ghost use Rattle.rm_history.specs.World.{exists_in};

use crate::world::Datafile;
use rm_base::{IncNo, LAST_SCN, NoMemory, Scn};
use std::alloc::{AllocFailed, Global};
use std::marker::Model;

/// One incarnation: the one from which it branched off (0 for the first), its resetlogs SCN, and the
/// SCN up to which it is known.
#[derive(Clone, Copy, Debug, PartialEq, Eq)]
pub struct Incarnation {
    pub parent: IncNo,
    pub reset: Scn,
    pub end: Scn,
}

/// How an incarnation stands to the current one.
#[derive(Clone, Copy, Debug, PartialEq, Eq)]
pub enum Standing {
    /// It is the current one.
    Current,
    /// The current one descends from it.
    Parent,
    /// It is not on the path of the current one.
    Orphan,
}

/// Why no incarnation branched off.
#[derive(Clone, Copy, Debug, PartialEq, Eq)]
pub enum TreeFault {
    /// The parent is not there.
    NoSuch,
    /// The SCN is below the parent's resetlogs SCN, or above its end.
    Outside,
    NoMemory,
}

impl From<AllocFailed<Incarnation>> for TreeFault {
    ghost use Rattle.rm_history.specs.declared.tree.TreeFault.TheVariants.{NoMemory as WithoutMemory};

    ghost from_gives = { λ _ e. e ≡ WithoutMemory };

    fn from(_: AllocFailed<Incarnation>) -> Self {
        TreeFault::NoMemory
    }
}

/// The incarnations 1, 2, 3 and so on, 256 at most. Each but the first branched off from an earlier
/// one, at or above its resetlogs SCN.
#[derive(Drop)]
pub struct Tree {
    incarnations: Vec<Incarnation>,
}

impl Model for Tree {
    ghost use Rattle.std.specs.Prelude.{List};
    ghost use Rattle.rm_history.specs.{Tree.{IsTree}, declared.tree.Incarnation.{Incarnation}};

    ghost Value = { List Incarnation };

    ghost view = { λ t. t.incarnations.items };

    ghost invariant = { λ t. IsTree t.incarnations.items };
}

// The member of the path of `i`, nearest to `i`, that began at or below `g`, or 1.
fn owner_of(incarnations: &[Incarnation], i: IncNo, g: Scn) -> IncNo
    requires there { IsThere incarnations.now i }
    requires parents { HasParentsBelow incarnations.now }
    ensures { result ≡ owner incarnations.now i g }
{
    let mut at = i;
    while at != 0 {
        let Incarnation { parent, reset, .. } = incarnations[at as usize - 1];
        if reset <= g {
            return at;
        }
        at = parent;
    }
    1
}

// Whether `j` is on the path of `i`.
fn is_on_path(incarnations: &[Incarnation], j: IncNo, i: IncNo) -> bool
    requires there { IsThere incarnations.now i }
    requires parents { HasParentsBelow incarnations.now }
    ensures { result ≡ path_has incarnations.now j i }
{
    let mut at = i;
    while at != 0 {
        if at == j {
            return true;
        }
        at = incarnations[at as usize - 1].parent;
    }
    false
}

// The resetlogs SCN of the member next to `j` on the path of `i`.
fn end_of_segment(incarnations: &[Incarnation], j: IncNo, i: IncNo) -> Option<Scn>
    requires there { IsThere incarnations.now i }
    requires ancestor { 0 < j }
    requires parents { HasParentsBelow incarnations.now }
    ensures { result ≡ segment_end incarnations.now j i }
{
    let mut at = i;
    while at != 0 {
        let Incarnation { parent, reset, .. } = incarnations[at as usize - 1];
        if parent == j {
            return Some(reset);
        }
        at = parent;
    }
    None
}

// The least resetlogs SCN of the incarnations that are on one of both paths alone, from 1 to
// `LAST_SCN`.
fn shared_of(incarnations: &[Incarnation], i: IncNo, j: IncNo) -> Scn
    requires tree { IsTree incarnations.now }
    requires first { IsThere incarnations.now i }
    requires second { IsThere incarnations.now j }
    ensures { IsShared incarnations.now i j result }
{
    let (mut a, mut b, mut fork) = (i, j, LAST_SCN);
    while a != b {
        let Incarnation { parent, reset, .. } = incarnations[a.max(b) as usize - 1];
        fork = fork.min(reset);
        if a > b {
            a = parent;
        } else {
            b = parent;
        }
    }
    fork.max(1)
}

impl Tree {
    /// Incarnation 1 alone, which begins and ends at `first`.
    pub fn new(alloc: Global, first: Scn) -> Result<Tree, NoMemory>
        ensures { IfOk result (λ tree. tree ≡ record { parent = 0; reset = first; end = first } ∷ []) }
    {
        let mut incarnations = Vec::new(alloc);
        incarnations.push(Incarnation {
            parent: 0,
            reset: first,
            end: first,
        })?;
        Ok(Tree { incarnations })
    }

    /// Raises the end of an incarnation. False, and nothing changes, where the incarnation is not
    /// there or its end would fall.
    pub fn set_end(&mut self, i: IncNo, end: Scn) -> bool
        ensures raised { IsTrue result ↔ (IsThere self.old i × (end_of self.old i ≤ end)) }
        ensures after { IsTrue result → self.new ≡ with_end self.old i end }
        ensures refused { result ≡ false → self.new ≡ self.old }
    {
        let Some(old) = self.get(i) else {
            return false;
        };
        if end < old.end {
            return false;
        }
        self.incarnations[i as usize - 1] = Incarnation { end, ..old };
        true
    }

    /// Whether the incarnation is there.
    pub fn is_there(&self, i: IncNo) -> bool
        ensures { IsTrue result ↔ IsThere self.now i }
    {
        i != 0 && i as usize <= self.incarnations.len()
    }

    /// Adds an incarnation that branches off from `parent` at the SCN `at`, where it begins and ends,
    /// and gives its number. NoSuch where the parent is not there; Outside where `at` is below the
    /// parent's resetlogs SCN or above its end. An error changes nothing.
    pub fn branch(&mut self, parent: IncNo, at: Scn) -> Result<IncNo, TreeFault>
        requires few { length self.old < 256 }
        ensures number { IfOk result (λ n. n ≡ length self.old + 1) }
        ensures grown { OnOk result (self.new ≡ with_branch self.old parent at) }
        ensures within { OnOk result (IsThere self.old parent × (reset_of self.old parent ≤ at) × (at ≤ end_of self.old parent)) }
        ensures no_such { IsErrOf result TreeFault.NoSuch ↔ (¬ IsThere self.old parent) }
        ensures outside { IsErrOf result TreeFault.Outside ↔ (IsThere self.old parent × ((at < reset_of self.old parent) ⊎ (end_of self.old parent < at))) }
        ensures refused { OnErr result (self.new ≡ self.old) }
    {
        let Some(Incarnation { reset, end, .. }) = self.get(parent) else {
            return Err(TreeFault::NoSuch);
        };
        if at < reset || end < at {
            return Err(TreeFault::Outside);
        }
        self.incarnations.push(Incarnation {
            parent,
            reset: at,
            end: at,
        })?;
        Ok(self.count())
    }

    /// How many incarnations there are: 1 to 256.
    pub fn count(&self) -> u32
        ensures count { result ≡ length self.now }
        ensures sound { IsTree self.now }
    {
        self.incarnations.len() as u32
    }

    /// The least SCN, 1 to `LAST_SCN`, at which the paths of both have other owners, and `LAST_SCN`
    /// where there is none. None where one of both is not there.
    pub fn shared(&self, i: IncNo, j: IncNo) -> Option<Scn>
        ensures some { IsSome result ↔ (IsThere self.now i × IsThere self.now j) }
        ensures value { IfSome result (λ s. IsShared self.now i j s) }
    {
        if !self.is_there(i) || !self.is_there(j) {
            return None;
        }
        Some(shared_of(&self.incarnations, i, j))
    }

    /// How `i` stands to the current incarnation: it is that one, an ancestor of it, or neither. None
    /// where one of both is not there.
    pub fn standing(&self, i: IncNo, current: IncNo) -> Option<Standing>
        ensures some { IsSome result ↔ (IsThere self.now i × IsThere self.now current) }
        ensures value { IfSome result (λ s. s ≡ standing self.now i current) }
    {
        if !self.is_there(i) || !self.is_there(current) {
            return None;
        }
        if i == current {
            return Some(Standing::Current);
        }
        if is_on_path(&self.incarnations, i, current) {
            return Some(Standing::Parent);
        }
        Some(Standing::Orphan)
    }

    /// The SCN at which the path of `i` left its ancestor `j`: the resetlogs SCN of the member next to
    /// `j`. None where `j` is no ancestor of `i`.
    pub fn segment_end(&self, j: IncNo, i: IncNo) -> Option<Scn>
        ensures value { result ≡ segment_end self.now j i }
        ensures some { IsSome result ↔ IsProperAncestor self.now j i }
    {
        if j == 0 || !self.is_there(i) {
            return None;
        }
        end_of_segment(&self.incarnations, j, i)
    }

    /// Whether what an artefact of `j` tells below `high` holds on the path of `i`: `j` is on that path,
    /// and `high` is within its segment there, if that ends.
    pub fn is_within(&self, j: IncNo, i: IncNo, high: Scn) -> bool
        requires there { IsThere self.now i }
        ensures { result ≡ is_within self.now j i high }
    {
        match self.segment_end(j, i) {
            Some(end) => high <= end,
            None => j == i,
        }
    }

    /// The incarnation to which the SCN `g` belongs on the path of `i`. None where `i` is not there
    /// or `g` is 0.
    pub fn owner(&self, i: IncNo, g: Scn) -> Option<IncNo>
        ensures some { IsSome result ↔ (IsThere self.now i × (0 < g)) }
        ensures value { IfSome result (λ o. o ≡ owner self.now i g) }
    {
        if g == 0 || !self.is_there(i) {
            return None;
        }
        Some(owner_of(&self.incarnations, i, g))
    }

    /// Whether a datafile exists at the address (i, s): it was created below `s`, on the path of `i`.
    pub fn exists(&self, i: IncNo, s: Scn, file: &Datafile) -> bool
        requires there { IsThere self.now i }
        requires created { 0 < file.now.creation }
        ensures { result ≡ exists_in self.now i s file.now }
    {
        file.creation < s && self.owner(i, file.creation) == Some(file.inc)
    }

    /// The resetlogs SCN of an incarnation; 0 for one that is not there.
    pub fn reset_of(&self, i: IncNo) -> Scn
        ensures { result ≡ reset_of self.now i }
    {
        self.get(i).map_or(0, |found| found.reset)
    }

    /// The SCN up to which an incarnation is known; 0 for one that is not there.
    pub fn end_of(&self, i: IncNo) -> Scn
        ensures { result ≡ end_of self.now i }
    {
        self.get(i).map_or(0, |found| found.end)
    }

    /// The incarnation of this number. None where it is not there.
    pub fn get(&self, i: IncNo) -> Option<Incarnation>
        ensures value { result ≡ incarnation self.now i }
        ensures there { IsSome result ↔ IsThere self.now i }
    {
        if i == 0 {
            return None;
        }
        self.incarnations.get(i as usize - 1).copied()
    }
}
