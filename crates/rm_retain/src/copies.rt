//! Which copies of a datafile the policy chooses, and which of them its floor stands on.
ghost use Rattle.std.specs.Prelude.{◌≡◌, ◌-◌, ◌<◌, ◌≤◌, ◌⊎◌, Some, length, filter, map, slice_get, AllPairs, Contains, IfOk, IfSome, IfNone, IsPermutation};
ghost use Rattle.rm_history.specs.Tree.{IsThere};
ghost use Rattle.rm_retain.specs.Chosen.{is_among, is_before_window, is_candidate, is_newer, newest, nth_newest, wanted, AscendById, IsByAge};

use rm_base::{FileNo, IncNo, NoMemory, Policy, Scn};
use rm_history::Tree;
use std::alloc::Global;

/// A backup of one datafile, by its record.
#[derive(Clone, Copy, PartialEq, Eq)]
pub struct Backup {
    /// The id of its object: those of one set have the same.
    pub id: u32,
    pub inc: IncNo,
    pub file: FileNo,
    pub checkpoint: Scn,
    /// All that it tells lies below this SCN.
    pub high: Scn,
}

// Whether all that the copy tells lies below the start of the policy's window, if it has one.
fn is_before_window(policy: Policy, start: Scn, copy: &Backup) -> bool
    ensures { result ≡ is_before_window policy start copy.now }
{
    match policy {
        Policy::Window(_) => copy.high <= start,
        Policy::Redundancy(_) | Policy::Nothing => true,
    }
}

fn is_candidate(
    tree: &Tree,
    current: IncNo,
    policy: Policy,
    start: Scn,
    file: FileNo,
    copy: &Backup,
) -> bool
    requires current { IsThere tree.now current }
    ensures { result ≡ is_candidate tree.now current policy start file copy.now }
{
    copy.file == file
        && tree.is_within(copy.inc, current, copy.high)
        && is_before_window(policy, start, copy)
}

/// The copies of a datafile among which the policy chooses.
pub(crate) fn candidates(
    alloc: Global,
    tree: &Tree,
    current: IncNo,
    policy: Policy,
    start: Scn,
    file: FileNo,
    copies: &[Backup],
) -> Result<Vec<Backup>, NoMemory>
    requires current { IsThere tree.now current }
    ensures { IfOk result (λ xs. xs.items ≡ filter (is_candidate tree.now current policy start file) copies.now) }
{
    let mut found = Vec::new(alloc);
    for copy in copies {
        if is_candidate(tree, current, policy, start, file, copy) {
            found.push(*copy)?;
        }
    }
    Ok(found)
}

// Whether x has a greater checkpoint than y, or the same one and a greater id.
fn is_newer(x: &Backup, y: &Backup) -> bool
    ensures { result ≡ is_newer x.now y.now }
{
    y.checkpoint < x.checkpoint || (x.checkpoint == y.checkpoint && y.id < x.id)
}

fn copied(alloc: Global, copies: &[Backup]) -> Result<Vec<Backup>, NoMemory>
    ensures { IfOk result (λ xs. xs.items ≡ copies.now) }
{
    Ok(copies.iter().copied().collect(alloc)?)
}

// The same copies, each older than those behind it.
fn oldest_first(alloc: Global, copies: &[Backup]) -> Result<Vec<Backup>, NoMemory>
    requires ascend { AscendById copies.now }
    ensures same { IfOk result (λ xs. IsPermutation copies.now xs.items) }
    ensures none_new { IfOk result (λ xs. (x : Backup) → Contains xs.items x → Contains copies.now x) }
    ensures order { IfOk result (λ xs. IsByAge xs.items) }
{
    let mut sorted = copied(alloc, copies)?;
    // They ascend by id, and those of one checkpoint go on to do so.
    sorted.sort_by_key(|copy| copy.checkpoint)?;
    Ok(sorted)
}

// The n-th copy from the end.
fn nth_last(copies: &[Backup], n: usize) -> Option<Backup>
    ensures none { IfNone result ((n ≡ 0) ⊎ (length copies.now < n)) }
    ensures some { IfSome result (λ x. (0 < n) × (n ≤ length copies.now) × (slice_get copies.now (length copies.now - n) ≡ Some x)) }
{
    if n == 0 || copies.len() < n {
        return None;
    }
    Some(copies[copies.len() - n])
}

/// The last of the newest copies, where there are as many as are wanted.
pub(crate) fn nth_newest(
    alloc: Global,
    copies: &[Backup],
    wanted: usize,
) -> Result<Option<Backup>, NoMemory>
    requires ascend { AscendById copies.now }
    ensures exact { IfOk result (λ o. o ≡ nth_newest wanted copies.now) }
    ensures few { IfOk result (λ o. IfNone o ((wanted ≡ 0) ⊎ (length copies.now < wanted))) }
{
    let sorted = oldest_first(alloc, copies)?;
    Ok(nth_last(&sorted, wanted))
}

// Whether x is among the newest copies, of which this is the last where there are as many as are wanted.
fn is_among(last: Option<Backup>, x: &Backup) -> bool
    ensures { result ≡ is_among last x.now }
{
    match last {
        Some(last) => !is_newer(&last, x),
        None => true,
    }
}

/// The ids of the newest copies, as many as are wanted.
pub(crate) fn newest_ids(
    alloc: Global,
    copies: &[Backup],
    wanted: usize,
) -> Result<Vec<u32>, NoMemory>
    requires ascend { AscendById copies.now }
    ensures exact { IfOk result (λ ids. ids.items ≡ map (λ x. x.id) (newest wanted copies.now)) }
    ensures ascends { IfOk result (λ ids. AllPairs (λ i j. i < j) ids.items) }
{
    let mut ids = Vec::new(alloc);
    if wanted == 0 {
        return Ok(ids);
    }
    let last = nth_newest(alloc, copies, wanted)?;
    for x in copies {
        if is_among(last, x) {
            ids.push(x.id)?;
        }
    }
    Ok(ids)
}

/// How many copies of each datafile the policy wants.
pub(crate) fn wanted(policy: Policy) -> usize
    ensures { result ≡ wanted policy }
{
    match policy {
        Policy::Window(_) => 1,
        Policy::Redundancy(n) => n as usize,
        Policy::Nothing => 0,
    }
}
