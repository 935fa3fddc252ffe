//! The rules of logs and pieces.
ghost use Rattle.std.specs.{Prelude.{◌≡◌, ◌<◌, ◌≤◌, All, IsTrue, IsSomeAnd, ◌↔◌}, List.{list_all}};
ghost use Rattle.rm_catalog.specs.Keys.{InOrder, base, incarnation, datafile};
ghost use Rattle.rm_catalog.specs.Objects.{IdRule, IsFree, IsRange, LogRule, owner_in, FitsRows, FitsKind, FitsDatafile, is_tag_byte, IsTag, PieceRule};

use crate::find::{base, datafile, incarnation, is_there};
use crate::record::{DatafileEntry, LogEntry, PieceEntry, Record};
use rm_base::{IncNo, Kind, MOST_BYTES, Scn, ThreadNo};

// The kinds of records whose ids are those of objects: logs, pieces, the parts of a saved site, and sets.
const ID_KINDS: [u8; 4] = [4, 5, 7, 9];

// Whether the id is below the next one.
fn is_below_next(records: &[Record], id: u32) -> bool
    requires { InOrder records.now }
    ensures { IsTrue result ↔ IsSomeAnd (base records.now) (λ b. id < b.next_id) }
{
    match base(records) {
        Some(b) => id < b.next_id,
        None => false,
    }
}

// Whether the kind is the record's own, or no record of it has the id.
fn is_free(records: &[Record], kind: u8, id: u32, other: u8) -> bool
    requires { InOrder records.now }
    ensures { IsTrue result ↔ IsFree records.now kind id other }
{
    other == kind || !is_there(records, other, id)
}

// Whether no record of one of these kinds, but for the record's own, has the id.
fn are_free(records: &[Record], kind: u8, id: u32, others: &[u8]) -> bool
    requires { InOrder records.now }
    ensures { IsTrue result ↔ All (IsFree records.now kind id) others.now }
{
    for other in others {
        if !is_free(records, kind, id, *other) {
            return false;
        }
    }
    true
}

/// Whether the id of a record of this kind, which is one of an object, obeys.
pub fn id_obeys(records: &[Record], kind: u8, id: u32) -> bool
    requires { InOrder records.now }
    ensures { IsTrue result ↔ IdRule records.now kind id }
{
    1 <= id && is_below_next(records, id) && are_free(records, kind, id, &ID_KINDS)
}

/// Whether the number is one that a redo thread may have.
pub fn is_thread(thread: ThreadNo) -> bool
    ensures { IsTrue result ↔ ((1 ≤ thread) × (thread ≤ 4)) }
{
    1 <= thread && thread <= 4
}

// Whether the incarnation is there, and the log's SCNs are some of it.
fn is_range(records: &[Record], l: &LogEntry) -> bool
    requires { InOrder records.now }
    ensures { IsTrue result ↔ IsSomeAnd (incarnation l.now.inc records.now) (IsRange l.now) }
{
    match incarnation(records, l.inc) {
        Some(i) => i.reset <= l.first && l.first < l.next && l.next <= i.end,
        None => false,
    }
}

/// Whether the log obeys.
pub fn log_obeys(records: &[Record], l: &LogEntry) -> bool
    requires { InOrder records.now }
    ensures { IsTrue result ↔ LogRule records.now l.now }
{
    id_obeys(records, 4, l.id)
        && l.size <= MOST_BYTES
        && is_thread(l.thread)
        && 1 <= l.sequence
        && is_range(records, l)
}

/// The incarnation that owns `g` on the path of `inc`, by at most so many steps.
pub(crate) fn owner_in(records: &[Record], steps: u32, inc: IncNo, g: Scn) -> IncNo
    requires { InOrder records.now }
    ensures { result ≡ owner_in steps inc g records.now }
{
    let mut member = inc;
    for step in 0..steps {
        match incarnation(records, member) {
            None => return 1,
            Some(i) => {
                if i.reset <= g {
                    return member;
                }
                member = i.parent;
            }
        }
    }
    1
}

fn fits_rows(p: &PieceEntry, f: &DatafileEntry) -> bool
    ensures { IsTrue result ↔ FitsRows p.now.kind p.now.rows f.now.blocks }
{
    match p.kind {
        Kind::Level1 => p.rows <= f.blocks,
        _ => p.rows == f.blocks,
    }
}

// Whether the datafile is there, and the piece fits it.
fn fits_datafile(records: &[Record], p: &PieceEntry) -> bool
    requires { InOrder records.now }
    ensures { IsTrue result ↔ IsSomeAnd (datafile p.now.file records.now) (FitsDatafile records.now p.now) }
{
    match datafile(records, p.file) {
        Some(f) => owner_in(records, 256, p.inc, f.creation) == f.inc && fits_rows(p, &f),
        None => false,
    }
}

fn fits_kind(p: &PieceEntry) -> bool
    ensures { IsTrue result ↔ FitsKind p.now.kind p.now }
{
    match p.kind {
        Kind::Level1 => !p.copy && 1 <= p.from && p.from <= p.checkpoint,
        Kind::Place => false,
        _ => p.from == 0,
    }
}

/// Whether the incarnation is there, and ends at this SCN or above it.
pub(crate) fn ends_within(records: &[Record], inc: IncNo, high: Scn) -> bool
    requires { InOrder records.now }
    ensures { IsTrue result ↔ IsSomeAnd (incarnation inc records.now) (λ i. high ≤ i.end) }
{
    match incarnation(records, inc) {
        Some(i) => high <= i.end,
        None => false,
    }
}

fn is_tag_byte(c: u8) -> bool
    ensures { result ≡ is_tag_byte c }
{
    (48 <= c && c <= 57) || (65 <= c && c <= 90) || (97 <= c && c <= 122) || c == 95
}

fn are_tag_bytes(bytes: &[u8]) -> bool
    ensures { IsTrue result ↔ IsTrue (list_all is_tag_byte bytes.now) }
{
    for c in bytes {
        if !is_tag_byte(*c) {
            return false;
        }
    }
    true
}

/// Whether these are 1 to 30 letters, digits and `_`.
pub(crate) fn is_tag(bytes: &[u8]) -> bool
    ensures { IsTrue result ↔ IsTag bytes.now }
{
    1 <= bytes.len() && bytes.len() <= 30 && are_tag_bytes(bytes)
}

/// Whether the piece obeys.
pub fn piece_obeys(records: &[Record], p: &PieceEntry) -> bool
    requires { InOrder records.now }
    ensures { IsTrue result ↔ PieceRule records.now p.now }
{
    id_obeys(records, 5, p.id)
        && p.size <= MOST_BYTES
        && 1 <= p.checkpoint
        && p.checkpoint <= p.high
        && fits_kind(p)
        && is_tag(p.tag.as_bytes())
        && ends_within(records, p.inc, p.high)
        && fits_datafile(records, p)
}
