//! A backup set as bytes, and from its bytes.
ghost use Rattle.std.specs.{Prelude.{◌≡◌, ◌≢◌, ◌+◌, ◌*◌, ◌≤◌, ◌++◌, ℕ, List, length, All, OnOk, IfOk, IfSome, IfNone}, List.{flat_map}};
ghost use Rattle.rm_base.specs.Formats.{Reads};
ghost use Rattle.rm_catalog.specs.declared.record.{SetEntry.{SetEntry}, SetPart.{SetPart}};
ghost use Rattle.rm_catalog_bytes.specs.{Spelling.{set_part_bytes, set_bytes}, Fits.{SetPartFits, SetFits}};

use crate::codes::{kind_code, kind_of};
use crate::ending::{Ending, ending_of, push_ending};
use crate::numbers::{push_u32, push_u64, take_u32, take_u64};
use rm_base::bytes::take_u8;
use rm_base::{FormatFault, NoMemory, Seq};
use rm_catalog::{SetEntry, SetPart};
use std::alloc::Global;

#[tactic(auto, unfolding(crate::specs::Spelling::set_part_bytes))]
fn push_set_part(out: &mut Vec<u8>, p: &SetPart) -> Result<(), NoMemory>
    ensures bytes { OnOk result (out.new.items ≡ out.old.items ++ set_part_bytes p.now) }
    ensures fits { OnOk result (SetPartFits p.now) }
{
    push_u32(out, p.file)?;
    out.push(kind_code(p.kind))?;
    push_u64(out, p.from)?;
    push_u64(out, p.high)?;
    push_u32(out, p.rows)
}

fn push_set_parts(out: &mut Vec<u8>, parts: &[SetPart]) -> Result<(), NoMemory>
    ensures bytes { OnOk result (out.new.items ≡ out.old.items ++ flat_map set_part_bytes parts.now) }
    ensures fits { OnOk result (All SetPartFits parts.now) }
{
    for part in parts {
        push_set_part(out, part)?;
    }
    Ok(())
}

/// Appends the fields of a set.
#[tactic(auto, unfolding(crate::specs::Spelling::set_head))]
pub(crate) fn push_set(out: &mut Vec<u8>, r: &SetEntry) -> Result<(), NoMemory>
    ensures bytes { OnOk result (out.new.items ≡ out.old.items ++ set_bytes r.now) }
    ensures fits { OnOk result (SetFits r.now) }
{
    push_u32(out, r.inc)?;
    push_u64(out, r.checkpoint)?;
    push_u64(out, r.parts.len() as u64)?;
    push_set_parts(out, r.parts.as_slice())?;
    push_ending(out, r.size, &r.sha, r.status, r.keep, &r.tag, r.moment)
}

#[tactic(auto, using(crate::proofs::Bodies::set_part_fields))]
fn take_set_part(bytes: &[u8]) -> Option<(SetPart, &[u8])>
    requires { 25 ≤ length bytes.now }
    ensures parts { IfSome result (λ r. bytes.now ≡ set_part_bytes r.0 ++ r.1.now) }
    ensures len { IfSome result (λ r. length bytes.now ≡ 25 + length r.1.now) }
    ensures fits { IfSome result (λ r. SetPartFits r.0) }
    ensures none { IfNone result ((p : SetPart) (rest : List ℕ) → SetPartFits p → bytes.now ≢ set_part_bytes p ++ rest) }
{
    let (file, rest) = take_u32(bytes);
    let (kind, rest) = take_u8(rest);
    let (from, rest) = take_u64(rest);
    let (high, rest) = take_u64(rest);
    let (rows, rest) = take_u32(rest);
    let Some(kind) = kind_of(kind) else {
        return None;
    };
    let part = SetPart {
        file,
        kind,
        from,
        high,
        rows,
    };
    Some((part, rest))
}

// As many parts, which all of the bytes spell.
fn parts_of(alloc: Global, bytes: &[u8], count: usize) -> Result<Seq<SetPart>, FormatFault>
    requires { length bytes.now ≡ 25 * count }
    ensures found { IfOk result (λ ps. bytes.now ≡ flat_map set_part_bytes ps) }
    ensures count { IfOk result (λ ps. length ps ≡ count) }
    ensures fits { IfOk result (λ ps. All SetPartFits ps) }
    ensures only { (ps : List SetPart) → length ps ≡ count → All SetPartFits ps → bytes.now ≡ flat_map set_part_bytes ps → Reads result ps }
{
    let mut parts = Vec::with_capacity(alloc, count)?;
    let mut rest = bytes;
    for _ in 0..count {
        let Some((part, after)) = take_set_part(rest) else {
            return Err(FormatFault::Bad);
        };
        parts.push(part)?;
        rest = after;
    }
    Ok(Seq::from_vec(parts))
}

/// The set of this id that the bytes spell. `Bad` exactly where they spell none.
pub(crate) fn set_of(alloc: Global, id: u32, bytes: &[u8]) -> Result<SetEntry, FormatFault>
    ensures found { IfOk result (λ r. bytes.now ≡ set_bytes r) }
    ensures fits { IfOk result (λ r. SetFits r) }
    ensures id { IfOk result (λ r. r.id ≡ id) }
    ensures only { (r : SetEntry) → SetFits r → r.id ≡ id → bytes.now ≡ set_bytes r → Reads result r }
{
    if bytes.len() < 20 {
        return Err(FormatFault::Bad);
    }
    let (inc, rest) = take_u32(bytes);
    let (checkpoint, rest) = take_u64(rest);
    let (count, rest) = take_u64(rest);
    if count > (rest.len() / 25) as u64 {
        return Err(FormatFault::Bad);
    }
    let (front, rest) = rest.split_at(25 * count as usize);
    let parts = parts_of(alloc, front, count as usize)?;
    let Ending {
        size,
        sha,
        status,
        keep,
        tag,
        moment,
    } = ending_of(alloc, rest)?;
    Ok(SetEntry {
        id,
        inc,
        checkpoint,
        parts,
        size,
        sha,
        status,
        keep,
        tag,
        moment,
    })
}
