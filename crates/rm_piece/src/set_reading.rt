//! A set from its bytes.
ghost use Rattle.std.specs.Prelude.{ℕ, ◌≡◌, ◌≢◌, ◌+◌, ◌<◌, ◌≤◌, ◌^◌, ◌++◌, List, length, All, IfOk, IfSome, IfNone, MatchResult};
ghost use Rattle.std.specs.List.{flat_map};
ghost use Rattle.rm_base.specs.{Formats.{Reads}, declared.faults.FormatFault.TheVariants.{NoMemory as WithoutMemory}};
ghost use Rattle.rm_piece.specs.SetFits.{MemberHeadFits, SetHeadFits};
ghost use Rattle.rm_piece.specs.SetSpelling.{member_bytes, member_head, set_body, set_head, set_magic, set_spelling};
ghost use Rattle.rm_piece.specs.{Sets.{blocks_in, IsMember, IsOf, IsSet}, declared.set.{Set.{Set}, SetFile.{SetFile}}};

use crate::piece::Piece;
use crate::reading::{kind_of, rows_of};
use crate::set::{Set, SetFile};
use crate::set_filling::rows_of_member;
use crate::set_valid::{MOST_BLOCKS, MOST_FILES, is_member, members_ascend};
use rm_base::bytes::take_u8;
use rm_base::number::{take_u32, take_u64};
use rm_base::sealed::unseal;
use rm_base::{FormatFault, Seq};
use std::alloc::Global;

// What follows "RMST" and the format's number.
fn take_set_magic(bytes: &[u8]) -> Option<&[u8]>
    ensures parts { IfSome result (λ rest. bytes.now ≡ set_magic ++ rest.now) }
    ensures len { IfSome result (λ rest. length bytes.now ≡ 5 + length rest.now) }
    ensures none { IfNone result ((rest : List ℕ) → bytes.now ≢ set_magic ++ rest) }
{
    let [b'R', b'M', b'S', b'T', 2, rest @ ..] = bytes else {
        return None;
    };
    Some(rest)
}

// The fields of a set without its members, the number of its members, and what follows.
#[tactic(auto, using(crate::proofs::SetBodies::set_fields))]
fn take_set_head(alloc: Global, bytes: &[u8]) -> Option<(Set, u32, &[u8])>
    requires { 25 ≤ length bytes.now }
    ensures parts { IfSome result (λ r. bytes.now ≡ set_head r.0 r.1 ++ r.2.now) }
    ensures fits { IfSome result (λ r. SetHeadFits r.0) }
    ensures count { IfSome result (λ r. r.1 < 2 ^ 32) }
    ensures none { IfNone result ((s : Set) (n : ℕ) (rest : List ℕ) → bytes.now ≢ set_head s n ++ rest) }
{
    let rest = take_set_magic(bytes)?;
    let (dbid, rest) = take_u32(rest);
    let (inc, rest) = take_u32(rest);
    let (checkpoint, rest) = take_u64(rest);
    let (count, rest) = take_u32(rest);
    let members = Seq::new(alloc);
    let head = Set {
        dbid,
        inc,
        checkpoint,
        members,
    };
    Some((head, count, rest))
}

// The fields of a member without its rows, the number of those that are spelled, and what follows.
#[tactic(auto, using(crate::proofs::SetBodies::member_fields))]
fn take_member_head<'b>(
    alloc: Global,
    set: &Set,
    bytes: &'b [u8],
) -> Option<(SetFile, u32, &'b [u8])>
    requires { 37 ≤ length bytes.now }
    ensures parts { IfSome result (λ r. bytes.now ≡ member_head r.0 r.1 ++ r.2.now) }
    ensures of { IfSome result (λ r. IsOf set.now r.0) }
    ensures fits { IfSome result (λ r. MemberHeadFits r.0) }
    ensures count { IfSome result (λ r. r.1 < 2 ^ 32) }
    ensures none { IfNone result ((m : SetFile) (n : ℕ) (rest : List ℕ) → bytes.now ≢ member_head m n ++ rest) }
{
    let (code, rest) = take_u8(bytes);
    let kind = kind_of(code)?;
    let (file, rest) = take_u32(rest);
    let (creation, rest) = take_u64(rest);
    let (blocks, rest) = take_u32(rest);
    let (from, rest) = take_u64(rest);
    let (high, rest) = take_u64(rest);
    let (count, rest) = take_u32(rest);
    let rows = Seq::new(alloc);
    let piece = Piece {
        kind,
        dbid: set.dbid,
        inc: set.inc,
        file,
        blocks,
        from,
        checkpoint: set.checkpoint,
        high,
        rows,
    };
    Some((SetFile { creation, piece }, count, rest))
}

// A member of the set, of at most so many blocks, and what follows.
fn take_member<'b>(
    alloc: Global,
    set: &Set,
    bytes: &'b [u8],
    room: u32,
) -> Result<(SetFile, &'b [u8]), FormatFault>
    ensures found { IfOk result (λ r. bytes.now ≡ member_bytes r.0 ++ r.1.now) }
    ensures valid { IfOk result (λ r. IsMember set.now r.0) }
    ensures room { IfOk result (λ r. r.0.piece.blocks ≤ room) }
    ensures only { (m : SetFile) (rest : List ℕ) → IsMember set.now m → m.piece.blocks ≤ room → bytes.now ≡ member_bytes m ++ rest → MatchResult result (λ r. (r.0 ≡ m) × (r.1.now ≡ rest)) (λ fault. fault ≡ WithoutMemory) }
{
    if bytes.len() < 37 {
        return Err(FormatFault::Bad);
    }
    let Some((head, count, rest)) = take_member_head(alloc, set, bytes) else {
        return Err(FormatFault::Bad);
    };
    if room < head.piece.blocks || (rest.len() as u64) < 76 * count as u64 {
        return Err(FormatFault::Bad);
    }
    let (front, rest) = rest.split_at(76 * count as usize);
    let spelled = rows_of(alloc, front, count)?;
    let rows = rows_of_member(
        alloc,
        spelled,
        head.creation,
        head.piece.from,
        head.piece.blocks,
    )?;
    let member = SetFile {
        creation: head.creation,
        piece: Piece { rows, ..head.piece },
    };
    if is_member(set, &member) {
        Ok((member, rest))
    } else {
        Err(FormatFault::Bad)
    }
}

// The members of the set that all of the bytes spell.
fn members_of(
    alloc: Global,
    set: &Set,
    bytes: &[u8],
    count: u32,
) -> Result<Seq<SetFile>, FormatFault>
    ensures found { IfOk result (λ ms. bytes.now ≡ flat_map member_bytes ms) }
    ensures count { IfOk result (λ ms. length ms ≡ count) }
    ensures valid { IfOk result (λ ms. All (IsMember set.now) ms) }
    ensures blocks { IfOk result (λ ms. blocks_in ms ≤ 131072) }
    ensures only { (ms : List SetFile) → length ms ≡ count → All (IsMember set.now) ms → blocks_in ms ≤ 131072 → bytes.now ≡ flat_map member_bytes ms → Reads result ms }
{
    let mut members: Vec<SetFile> = Vec::with_capacity(alloc, count as usize)?;
    let mut rest = bytes;
    let mut room = MOST_BLOCKS;
    for _ in 0..count {
        let (member, after) = take_member(alloc, set, rest, room)?;
        room -= member.piece.blocks;
        members.push(member)?;
        rest = after;
    }
    if rest.is_empty() {
        Ok(Seq::from_vec(members))
    } else {
        Err(FormatFault::Bad)
    }
}

/// The set whose bytes before the seal are these. `Bad` exactly where they are of no valid set.
pub fn set_of_body(alloc: Global, body: &[u8]) -> Result<Set, FormatFault>
    // What is read is valid, and has this body.
    ensures found { IfOk result (λ set. body.now ≡ set_body set) }
    ensures valid { IfOk result (λ set. IsSet set) }
    // A valid set of this body is read, unless memory runs out.
    ensures only { (set : Set) → IsSet set → body.now ≡ set_body set → Reads result set }
{
    if body.len() < 25 {
        return Err(FormatFault::Bad);
    }
    let Some((head, count, rest)) = take_set_head(alloc, body) else {
        return Err(FormatFault::Bad);
    };
    if MOST_FILES < count as usize {
        return Err(FormatFault::Bad);
    }
    let members = members_of(alloc, &head, rest, count)?;
    if members_ascend(members.as_slice()) {
        Ok(Set { members, ..head })
    } else {
        Err(FormatFault::Bad)
    }
}

/// The set that the bytes spell. `Bad` exactly where they spell no valid set.
pub fn decode_set(alloc: Global, bytes: &[u8]) -> Result<Set, FormatFault>
    // What is read is valid, and spelled so.
    ensures found { IfOk result (λ set. bytes.now ≡ set_spelling set) }
    ensures valid { IfOk result (λ set. IsSet set) }
    // A valid set that is spelled so is read, unless memory runs out.
    ensures only { (set : Set) → IsSet set → bytes.now ≡ set_spelling set → Reads result set }
{
    let Some(body) = unseal(bytes) else {
        return Err(FormatFault::Bad);
    };
    set_of_body(alloc, body)
}
