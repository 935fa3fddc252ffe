//! The rule of backup sets.
ghost use Rattle.std.specs.Prelude.{◌≡◌, ◌<◌, ◌≤◌, IsTrue, IsSomeAnd, All, AllPairs, ◌↔◌};
ghost use Rattle.rm_catalog.specs.Keys.{InOrder, datafile};
ghost use Rattle.rm_catalog.specs.SetRules.{FitsPartKind, FitsSetFile, IsBeforePart, PartsRule, SetPartRule, SetRule};

use crate::find::datafile;
use crate::objects::{ends_within, id_obeys, is_tag, owner_in};
use crate::record::{Record, SetEntry, SetPart};
use rm_base::{Kind, MOST_BYTES, Scn};

/// The most datafiles of a set.
pub const MOST_PARTS: usize = 64;

fn fits_part_kind(p: &SetPart, checkpoint: Scn) -> bool
    ensures { IsTrue result ↔ FitsPartKind p.now.kind checkpoint p.now }
{
    match p.kind {
        Kind::Level1 => 1 <= p.from && p.from <= checkpoint,
        Kind::Place => false,
        _ => p.from == 0,
    }
}

// Whether the datafile is there, and the part fits it.
fn fits_set_file(records: &[Record], s: &SetEntry, p: &SetPart) -> bool
    requires { InOrder records.now }
    ensures { IsTrue result ↔ IsSomeAnd (datafile p.now.file records.now) (FitsSetFile records.now s.now p.now) }
{
    match datafile(records, p.file) {
        Some(f) => {
            owner_in(records, 256, s.inc, f.creation) == f.inc
                && f.creation < s.checkpoint
                && p.rows <= f.blocks
        }
        None => false,
    }
}

fn set_part_obeys(records: &[Record], s: &SetEntry, p: &SetPart) -> bool
    requires { InOrder records.now }
    ensures { IsTrue result ↔ SetPartRule records.now s.now p.now }
{
    s.checkpoint <= p.high
        && fits_part_kind(p, s.checkpoint)
        && ends_within(records, s.inc, p.high)
        && fits_set_file(records, s, p)
}

fn set_parts_obey(records: &[Record], s: &SetEntry, parts: &[SetPart]) -> bool
    requires { InOrder records.now }
    ensures { IsTrue result ↔ All (SetPartRule records.now s.now) parts.now }
{
    for p in parts {
        if !set_part_obeys(records, s, p) {
            return false;
        }
    }
    true
}

fn parts_ascend(parts: &[SetPart]) -> bool
    ensures { IsTrue result ↔ AllPairs IsBeforePart parts.now }
{
    for i in 1..parts.len() {
        if parts[i].file <= parts[i - 1].file {
            return false;
        }
    }
    true
}

fn parts_obey(records: &[Record], s: &SetEntry, parts: &[SetPart]) -> bool
    requires { InOrder records.now }
    ensures { IsTrue result ↔ PartsRule records.now s.now parts.now }
{
    1 <= parts.len()
        && parts.len() <= MOST_PARTS
        && parts_ascend(parts)
        && set_parts_obey(records, s, parts)
}

/// Whether the set obeys.
pub fn set_obeys(records: &[Record], s: &SetEntry) -> bool
    requires { InOrder records.now }
    ensures { IsTrue result ↔ SetRule records.now s.now }
{
    id_obeys(records, 9, s.id)
        && s.size <= MOST_BYTES
        && 1 <= s.checkpoint
        && is_tag(s.tag.as_bytes())
        && parts_obey(records, s, s.parts.as_slice())
}
