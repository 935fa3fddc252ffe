//! What ends the fields of a piece and of a set.
ghost use Rattle.std.specs.Prelude.{◌≡◌, ◌≢◌, ◌+◌, ◌≤◌, ◌<◌, ◌^◌, ◌++◌, ℕ, List, length, OnOk, IfOk, IfErr, IfSome, IfNone, IsUtf8};
ghost use Rattle.rm_base.specs.{Formats.{Reads}, declared.faults.FormatFault.TheVariants.{NoMemory as WithoutMemory}};
ghost use Rattle.rm_catalog_bytes.specs.{Spelling.{ending_front, ending_bytes}, Fits.{EndingFrontFits, EndingFits}};
ghost use Rattle.rm_catalog_bytes.specs.declared.ending.Ending.{Ending};

use crate::codes::{flag, flag_of, status_code, status_of};
use crate::numbers::{push_u64, take_digest, take_u64};
use rm_base::bytes::take_u8;
use rm_base::{FormatFault, Moment, NoMemory, Status, Text};
use std::alloc::Global;

/// The object of a piece or of a set, and what is noted of it.
#[derive(Drop)]
pub struct Ending {
    pub size: u64,
    pub sha: [u8; 32],
    pub status: Status,
    pub keep: bool,
    pub tag: Text,
    pub moment: Moment,
}

/// Appends an ending.
#[tactic(auto, unfolding(crate::specs::Spelling::ending_front))]
pub(crate) fn push_ending(
    out: &mut Vec<u8>,
    size: u64,
    sha: &[u8; 32],
    status: Status,
    keep: bool,
    tag: &Text,
    moment: Moment,
) -> Result<(), NoMemory>
    ensures bytes { OnOk result
        (out.new.items ≡ out.old.items ++ ending_bytes (record { size = size; sha = sha.now; status = status; keep = keep; tag = tag.now; moment = moment })) }
    ensures fits { OnOk result
        (EndingFits (record { size = size; sha = sha.now; status = status; keep = keep; tag = tag.now; moment = moment })) }
{
    push_u64(out, size)?;
    out.extend_from_slice(sha)?;
    out.extend_from_slice(&[status_code(status), flag(keep)])?;
    push_u64(out, tag.as_bytes().len() as u64)?;
    out.extend_from_slice(tag.as_str().as_bytes())?;
    push_u64(out, moment)
}

// An ending without its tag and its moment, the length of its tag, and what follows.
#[tactic(auto, using(crate::proofs::Bodies::ending_fields))]
fn take_ending_front(alloc: Global, bytes: &[u8]) -> Option<(Ending, u64, &[u8])>
    requires { 50 ≤ length bytes.now }
    ensures parts { IfSome result (λ r. bytes.now ≡ ending_front r.0 r.1 ++ r.2.now) }
    ensures len { IfSome result (λ r. length bytes.now ≡ 50 + length r.2.now) }
    ensures fits { IfSome result (λ r. EndingFrontFits r.0) }
    ensures count { IfSome result (λ r. r.1 < 2 ^ 64) }
    ensures none { IfNone result ((e : Ending) (n : ℕ) (rest : List ℕ) → EndingFrontFits e → n < 2 ^ 64 → bytes.now ≢ ending_front e n ++ rest) }
{
    let (size, rest) = take_u64(bytes);
    let (sha, rest) = take_digest(rest);
    let (status, rest) = take_u8(rest);
    let (keep, rest) = take_u8(rest);
    let (count, rest) = take_u64(rest);
    let Some(status) = status_of(status) else {
        return None;
    };
    let Some(keep) = flag_of(keep) else {
        return None;
    };
    let front = Ending {
        size,
        sha,
        status,
        keep,
        tag: Text::new(alloc),
        moment: 0,
    };
    Some((front, count, rest))
}

// The text of these bytes, where they are UTF-8.
fn text_of(alloc: Global, letters: &[u8]) -> Result<Text, FormatFault>
    ensures text { IfOk result (λ t. t ≡ letters.now) }
    ensures letters { IfOk result (λ _. IsUtf8 letters.now) }
    ensures only { IfErr result (λ fault. IsUtf8 letters.now → fault ≡ WithoutMemory) }
{
    let Ok(letters) = str::from_utf8(letters) else {
        return Err(FormatFault::Bad);
    };
    match String::from_str(alloc, letters) {
        Ok(string) => Ok(Text::from_string(string)),
        Err(_) => Err(FormatFault::NoMemory),
    }
}

/// The ending that all of the bytes spell.
pub(crate) fn ending_of(alloc: Global, bytes: &[u8]) -> Result<Ending, FormatFault>
    ensures found { IfOk result (λ e. bytes.now ≡ ending_bytes e) }
    ensures fits { IfOk result (λ e. EndingFits e) }
    ensures only { (e : Ending) → EndingFits e → bytes.now ≡ ending_bytes e → Reads result e }
{
    if bytes.len() < 58 {
        return Err(FormatFault::Bad);
    }
    let Some((front, count, rest)) = take_ending_front(alloc, bytes) else {
        return Err(FormatFault::Bad);
    };
    let len = rest.len() - 8;
    if len as u64 != count {
        return Err(FormatFault::Bad);
    }
    let (letters, rest) = rest.split_at(len);
    let tag = text_of(alloc, letters)?;
    let (moment, _) = take_u64(rest);
    Ok(Ending {
        tag,
        moment,
        ..front
    })
}
