//! The rules of base facts, incarnations, datafiles and marks.
ghost use Rattle.std.specs.{Prelude.{◌≡◌, ◌<◌, ◌≤◌, ◌-◌, IsTrue, IsSomeAnd, ◌↔◌}, List.{list_any}};
ghost use Rattle.rm_catalog.specs.Keys.{InOrder, base, incarnation, mark};
ghost use Rattle.rm_catalog.specs.Facts.{IsPolicy, BaseRule, BeginsOn, BranchRule, OriginRule, is_mark_of, IncarnationRule, IsCreatedOn, blocks_to, HasDatafileBefore, HasRoom, DatafileRule, IsWithin, MarkRule};

use crate::find::{base, incarnation, is_there, mark};
use crate::record::{BaseEntry, DatafileEntry, IncarnationEntry, MarkEntry, Record};
use rm_base::{FileNo, IncNo, LAST_MOMENT, LAST_SCN, Policy};

fn is_policy(policy: Policy) -> bool
    ensures { IsTrue result ↔ IsPolicy policy }
{
    match policy {
        Policy::Window(n) => 1 <= n && n <= 36500,
        Policy::Redundancy(n) => 1 <= n && n <= 1000,
        Policy::Nothing => true,
    }
}

/// Whether the base facts obey.
pub fn base_obeys(records: &[Record], b: &BaseEntry) -> bool
    requires { InOrder records.now }
    ensures { IsTrue result ↔ BaseRule records.now b.now }
{
    1 <= b.dbid
        && 1 <= b.threads
        && b.threads <= 4
        && 1 <= b.next_id
        && b.moment <= LAST_MOMENT
        && 1 <= b.parallelism
        && b.parallelism <= 16
        && is_policy(b.policy)
        && is_there(records, 2, b.current)
}

// Whether the parent is there, and the incarnation begins on it.
fn begins_on_parent(records: &[Record], i: &IncarnationEntry) -> bool
    requires { InOrder records.now }
    ensures { IsTrue result ↔ IsSomeAnd (incarnation i.now.parent records.now) (BeginsOn i.now) }
{
    match incarnation(records, i.parent) {
        Some(parent) => parent.reset <= i.reset && i.reset <= parent.end,
        None => false,
    }
}

fn branch_obeys(records: &[Record], i: &IncarnationEntry) -> bool
    requires order { InOrder records.now }
    requires later { 1 < i.now.inc }
    ensures { IsTrue result ↔ BranchRule records.now i.now }
{
    is_there(records, 2, i.inc - 1) && i.parent < i.inc && begins_on_parent(records, i)
}

fn origin_obeys(records: &[Record], i: &IncarnationEntry) -> bool
    requires { InOrder records.now }
    ensures { IsTrue result ↔ OriginRule records.now i.now }
{
    if i.inc > 1 {
        branch_obeys(records, i)
    } else {
        i.inc != 1 || i.parent == 0
    }
}

fn is_mark_of(r: &Record, inc: IncNo) -> bool
    ensures { result ≡ is_mark_of inc r.now }
{
    match r {
        Record::Mark(m) => m.inc == inc,
        _ => false,
    }
}

fn has_mark(records: &[Record], inc: IncNo) -> bool
    ensures { IsTrue result ↔ IsTrue (list_any (is_mark_of inc) records.now) }
{
    for r in records {
        if is_mark_of(r, inc) {
            return true;
        }
    }
    false
}

/// Whether the incarnation obeys.
pub fn incarnation_obeys(records: &[Record], i: &IncarnationEntry) -> bool
    requires { InOrder records.now }
    ensures { IsTrue result ↔ IncarnationRule records.now i.now }
{
    1 <= i.inc
        && i.inc <= 256
        && 1 <= i.reset
        && i.reset <= i.end
        && i.end <= LAST_SCN
        && origin_obeys(records, i)
        && has_mark(records, i.inc)
}

fn has_datafile_before(records: &[Record], file: FileNo) -> bool
    requires { InOrder records.now }
    ensures { IsTrue result ↔ HasDatafileBefore file records.now }
{
    if file > 1 {
        is_there(records, 3, file - 1)
    } else {
        true
    }
}

// Whether the incarnation is there, and the datafile was created on it.
fn is_created(records: &[Record], f: &DatafileEntry) -> bool
    requires { InOrder records.now }
    ensures { IsTrue result ↔ IsSomeAnd (incarnation f.now.inc records.now) (IsCreatedOn f.now) }
{
    match incarnation(records, f.inc) {
        Some(i) => i.reset <= f.creation && f.creation < i.end,
        None => false,
    }
}

fn blocks_to(r: &Record, file: FileNo) -> u32
    ensures { result ≡ blocks_to file r.now }
{
    match r {
        Record::Datafile(f) if f.file <= file => f.blocks,
        _ => 0,
    }
}

fn has_room(records: &[Record], file: FileNo) -> bool
    ensures { IsTrue result ↔ HasRoom file records.now }
{
    let mut total = 0;
    for r in records {
        total += u64::from(blocks_to(r, file));
        if total > 131072 {
            return false;
        }
    }
    true
}

/// Whether the datafile obeys.
pub fn datafile_obeys(records: &[Record], f: &DatafileEntry) -> bool
    requires { InOrder records.now }
    ensures { IsTrue result ↔ DatafileRule records.now f.now }
{
    1 <= f.file
        && f.file <= 64
        && 1 <= f.blocks
        && f.blocks <= 65536
        && has_datafile_before(records, f.file)
        && is_created(records, f)
        && has_room(records, f.file)
}

// Whether the mark before is there, and of no later moment.
fn follows(records: &[Record], m: &MarkEntry) -> bool
    requires order { InOrder records.now }
    requires later { 1 < m.now.id }
    ensures { IsTrue result ↔ IsSomeAnd (mark (m.now.id - 1) records.now) (λ p. p.moment ≤ m.now.moment) }
{
    match mark(records, m.id - 1) {
        Some(before) => before.moment <= m.moment,
        None => false,
    }
}

// Whether the incarnation is there, and the SCN is one of it.
fn has_scn(records: &[Record], m: &MarkEntry) -> bool
    requires { InOrder records.now }
    ensures { IsTrue result ↔ IsSomeAnd (incarnation m.now.inc records.now) (IsWithin m.now.scn) }
{
    match incarnation(records, m.inc) {
        Some(i) => i.reset <= m.scn && m.scn <= i.end,
        None => false,
    }
}

// Whether the moment is not above that of the base facts.
fn is_past(records: &[Record], m: &MarkEntry) -> bool
    requires { InOrder records.now }
    ensures { IsTrue result ↔ IsSomeAnd (base records.now) (λ b. m.now.moment ≤ b.moment) }
{
    match base(records) {
        Some(b) => m.moment <= b.moment,
        None => false,
    }
}

/// Whether the mark obeys.
pub fn mark_obeys(records: &[Record], m: &MarkEntry) -> bool
    requires { InOrder records.now }
    ensures { IsTrue result ↔ MarkRule records.now m.now }
{
    1 <= m.id && (m.id <= 1 || follows(records, m)) && has_scn(records, m) && is_past(records, m)
}
