//! A record from its key and its bytes.
ghost use Rattle.std.specs.Prelude.{◌≡◌, ◌≢◌, ◌+◌, ◌≤◌, ◌++◌, ℕ, List, length, IfOk, IfSome, IfNone};
ghost use Rattle.rm_base.specs.Formats.{Reads};
ghost use Rattle.rm_catalog.specs.{Keys.{key_of}, declared.record.{BaseEntry.{BaseEntry}, IncarnationEntry.{IncarnationEntry}}};
ghost use Rattle.rm_catalog.specs.declared.record.{DatafileEntry.{DatafileEntry}, MarkEntry.{MarkEntry}, PartEntry.{PartEntry}};
ghost use Rattle.rm_catalog.specs.declared.record.{LogEntry.{LogEntry}, PieceEntry.{PieceEntry}, HeadEntry.{HeadEntry}};
ghost use Rattle.rm_catalog.specs.declared.record.{SwitchEntry.{SwitchEntry}, Record.{Record}};
ghost use Rattle.rm_catalog_bytes.specs.Spelling.{base_bytes, incarnation_bytes, datafile_bytes, log_bytes, piece_head, piece_ending, piece_bytes, mark_bytes, part_bytes, head_bytes, switch_bytes, body_of};
ghost use Rattle.rm_catalog_bytes.specs.Fits.{BaseFits, IncarnationFits, DatafileFits, LogFits, PieceFits, PieceHeadFits, MarkFits, PartFits, HeadFits, SwitchFits, Fits};

use crate::codes::{flag_of, kind_of, policy_of, status_of};
use crate::ending::{Ending, ending_of};
use crate::numbers::{take_digest, take_u32, take_u64};
use crate::sets::set_of;
use rm_base::FormatFault;
use rm_base::bytes::take_u8;
use rm_catalog::{
    BaseEntry, DatafileEntry, HeadEntry, IncarnationEntry, Key, LogEntry, MarkEntry, PartEntry,
    PieceEntry, Record, SwitchEntry,
};
use std::alloc::Global;

#[tactic(auto, using(crate::proofs::Bodies::base_fields))]
fn take_base(bytes: &[u8]) -> Option<(BaseEntry, &[u8])>
    requires { 31 ≤ length bytes.now }
    ensures parts { IfSome result (λ r. bytes.now ≡ base_bytes r.0 ++ r.1.now) }
    ensures len { IfSome result (λ r. length bytes.now ≡ 31 + length r.1.now) }
    ensures fits { IfSome result (λ r. BaseFits r.0) }
    ensures none { IfNone result ((r : BaseEntry) (rest : List ℕ) → BaseFits r → bytes.now ≢ base_bytes r ++ rest) }
{
    let (dbid, rest) = take_u32(bytes);
    let (threads, rest) = take_u8(rest);
    let (current, rest) = take_u32(rest);
    let (next_id, rest) = take_u32(rest);
    let (moment, rest) = take_u64(rest);
    let (code, rest) = take_u8(rest);
    let (number, rest) = take_u32(rest);
    let (parallelism, rest) = take_u32(rest);
    let (tracking, rest) = take_u8(rest);
    let Some(policy) = policy_of(code, number) else {
        return None;
    };
    let Some(tracking) = flag_of(tracking) else {
        return None;
    };
    let entry = BaseEntry {
        dbid,
        threads,
        current,
        next_id,
        moment,
        policy,
        parallelism,
        tracking,
    };
    Some((entry, rest))
}

#[tactic(auto, using(crate::proofs::Bodies::incarnation_fields))]
fn take_incarnation(inc: u32, bytes: &[u8]) -> (IncarnationEntry, &[u8])
    requires { 20 ≤ length bytes.now }
    ensures parts { bytes.now ≡ incarnation_bytes result.0 ++ result.1.now }
    ensures len { length bytes.now ≡ 20 + length result.1.now }
    ensures fits { IncarnationFits result.0 }
    ensures id { result.0.inc ≡ inc }
{
    let (parent, rest) = take_u32(bytes);
    let (reset, rest) = take_u64(rest);
    let (end, rest) = take_u64(rest);
    let entry = IncarnationEntry {
        inc,
        parent,
        reset,
        end,
    };
    (entry, rest)
}

#[tactic(auto, using(crate::proofs::Bodies::datafile_fields))]
fn take_datafile(file: u32, bytes: &[u8]) -> (DatafileEntry, &[u8])
    requires { 16 ≤ length bytes.now }
    ensures parts { bytes.now ≡ datafile_bytes result.0 ++ result.1.now }
    ensures len { length bytes.now ≡ 16 + length result.1.now }
    ensures fits { DatafileFits result.0 }
    ensures id { result.0.file ≡ file }
{
    let (inc, rest) = take_u32(bytes);
    let (creation, rest) = take_u64(rest);
    let (blocks, rest) = take_u32(rest);
    let entry = DatafileEntry {
        file,
        inc,
        creation,
        blocks,
    };
    (entry, rest)
}

#[tactic(auto, using(crate::proofs::Bodies::log_fields))]
fn take_log(id: u32, bytes: &[u8]) -> Option<(LogEntry, &[u8])>
    requires { 68 ≤ length bytes.now }
    ensures parts { IfSome result (λ r. bytes.now ≡ log_bytes r.0 ++ r.1.now) }
    ensures len { IfSome result (λ r. length bytes.now ≡ 68 + length r.1.now) }
    ensures fits { IfSome result (λ r. LogFits r.0) }
    ensures id { IfSome result (λ r. r.0.id ≡ id) }
    ensures none { IfNone result ((r : LogEntry) (rest : List ℕ) → LogFits r → bytes.now ≢ log_bytes r ++ rest) }
{
    let (archived, rest) = take_u8(bytes);
    let (inc, rest) = take_u32(rest);
    let (thread, rest) = take_u8(rest);
    let (sequence, rest) = take_u32(rest);
    let (first, rest) = take_u64(rest);
    let (next, rest) = take_u64(rest);
    let (size, rest) = take_u64(rest);
    let (sha, rest) = take_digest(rest);
    let (status, rest) = take_u8(rest);
    let (keep, rest) = take_u8(rest);
    let Some(archived) = flag_of(archived) else {
        return None;
    };
    let Some(status) = status_of(status) else {
        return None;
    };
    let Some(keep) = flag_of(keep) else {
        return None;
    };
    let entry = LogEntry {
        id,
        archived,
        inc,
        thread,
        sequence,
        first,
        next,
        size,
        sha,
        status,
        keep,
    };
    Some((entry, rest))
}

// A piece with this ending, and what follows the fields before it.
#[tactic(auto, using(crate::proofs::Bodies::piece_fields))]
fn take_piece_head(id: u32, ending: Ending, bytes: &[u8]) -> Option<(PieceEntry, &[u8])>
    requires { 38 ≤ length bytes.now }
    ensures parts { IfSome result (λ r. bytes.now ≡ piece_head r.0 ++ r.1.now) }
    ensures len { IfSome result (λ r. length bytes.now ≡ 38 + length r.1.now) }
    ensures fits { IfSome result (λ r. PieceHeadFits r.0) }
    ensures ending { IfSome result (λ r. piece_ending r.0 ≡ ending) }
    ensures id { IfSome result (λ r. r.0.id ≡ id) }
    ensures none { IfNone result ((r : PieceEntry) (rest : List ℕ) → PieceHeadFits r → bytes.now ≢ piece_head r ++ rest) }
{
    let (copy, rest) = take_u8(bytes);
    let (kind, rest) = take_u8(rest);
    let (inc, rest) = take_u32(rest);
    let (file, rest) = take_u32(rest);
    let (from, rest) = take_u64(rest);
    let (checkpoint, rest) = take_u64(rest);
    let (high, rest) = take_u64(rest);
    let (rows, rest) = take_u32(rest);
    let Some(copy) = flag_of(copy) else {
        return None;
    };
    let Some(kind) = kind_of(kind) else {
        return None;
    };
    let Ending {
        size,
        sha,
        status,
        keep,
        tag,
        moment,
    } = ending;
    let entry = PieceEntry {
        id,
        copy,
        kind,
        inc,
        file,
        from,
        checkpoint,
        high,
        rows,
        size,
        sha,
        status,
        keep,
        tag,
        moment,
    };
    Some((entry, rest))
}

#[tactic(auto, using(crate::proofs::Bodies::mark_fields))]
fn take_mark(id: u32, bytes: &[u8]) -> (MarkEntry, &[u8])
    requires { 20 ≤ length bytes.now }
    ensures parts { bytes.now ≡ mark_bytes result.0 ++ result.1.now }
    ensures len { length bytes.now ≡ 20 + length result.1.now }
    ensures fits { MarkFits result.0 }
    ensures id { result.0.id ≡ id }
{
    let (moment, rest) = take_u64(bytes);
    let (inc, rest) = take_u32(rest);
    let (scn, rest) = take_u64(rest);
    let entry = MarkEntry {
        id,
        moment,
        inc,
        scn,
    };
    (entry, rest)
}

#[tactic(auto, using(crate::proofs::Bodies::part_fields))]
fn take_part(id: u32, bytes: &[u8]) -> (PartEntry, &[u8])
    requires { 45 ≤ length bytes.now }
    ensures parts { bytes.now ≡ part_bytes result.0 ++ result.1.now }
    ensures len { length bytes.now ≡ 45 + length result.1.now }
    ensures fits { PartFits result.0 }
    ensures id { result.0.id ≡ id }
{
    let (file, rest) = take_u32(bytes);
    let (thread, rest) = take_u8(rest);
    let (size, rest) = take_u64(rest);
    let (sha, rest) = take_digest(rest);
    let entry = PartEntry {
        id,
        file,
        thread,
        size,
        sha,
    };
    (entry, rest)
}

#[tactic(auto, using(crate::proofs::Bodies::head_fields))]
fn take_head(bytes: &[u8]) -> Option<(HeadEntry, &[u8])>
    requires { 13 ≤ length bytes.now }
    ensures parts { IfSome result (λ r. bytes.now ≡ head_bytes r.0 ++ r.1.now) }
    ensures len { IfSome result (λ r. length bytes.now ≡ 13 + length r.1.now) }
    ensures fits { IfSome result (λ r. HeadFits r.0) }
    ensures none { IfNone result ((r : HeadEntry) (rest : List ℕ) → HeadFits r → bytes.now ≢ head_bytes r ++ rest) }
{
    let (opened, rest) = take_u8(bytes);
    let (inc, rest) = take_u32(rest);
    let (scn, rest) = take_u64(rest);
    let Some(opened) = flag_of(opened) else {
        return None;
    };
    Some((HeadEntry { opened, inc, scn }, rest))
}

#[tactic(auto, using(crate::proofs::Bodies::switch_fields))]
fn take_switch(id: u32, bytes: &[u8]) -> Option<(SwitchEntry, &[u8])>
    requires { 18 ≤ length bytes.now }
    ensures parts { IfSome result (λ r. bytes.now ≡ switch_bytes r.0 ++ r.1.now) }
    ensures len { IfSome result (λ r. length bytes.now ≡ 18 + length r.1.now) }
    ensures fits { IfSome result (λ r. SwitchFits r.0) }
    ensures id { IfSome result (λ r. r.0.id ≡ id) }
    ensures none { IfNone result ((r : SwitchEntry) (rest : List ℕ) → SwitchFits r → bytes.now ≢ switch_bytes r ++ rest) }
{
    let (thread, rest) = take_u8(bytes);
    let (inc, rest) = take_u32(rest);
    let (scn, rest) = take_u64(rest);
    let (on, rest) = take_u8(rest);
    let (sequence, rest) = take_u32(rest);
    let Some(on) = flag_of(on) else {
        return None;
    };
    let entry = SwitchEntry {
        id,
        thread,
        inc,
        scn,
        on,
        sequence,
    };
    Some((entry, rest))
}

fn base_of(bytes: &[u8]) -> Option<BaseEntry>
    ensures found { IfSome result (λ r. bytes.now ≡ base_bytes r) }
    ensures fits { IfSome result (λ r. BaseFits r) }
    ensures none { IfNone result ((r : BaseEntry) → BaseFits r → bytes.now ≢ base_bytes r) }
{
    if bytes.len() != 31 {
        return None;
    }
    let Some((entry, _)) = take_base(bytes) else {
        return None;
    };
    Some(entry)
}

fn incarnation_of(inc: u32, bytes: &[u8]) -> Option<IncarnationEntry>
    ensures found { IfSome result (λ r. bytes.now ≡ incarnation_bytes r) }
    ensures fits { IfSome result (λ r. IncarnationFits r) }
    ensures id { IfSome result (λ r. r.inc ≡ inc) }
    ensures none { IfNone result ((r : IncarnationEntry) → IncarnationFits r → bytes.now ≢ incarnation_bytes r) }
{
    if bytes.len() != 20 {
        return None;
    }
    let (entry, _) = take_incarnation(inc, bytes);
    Some(entry)
}

fn datafile_of(file: u32, bytes: &[u8]) -> Option<DatafileEntry>
    ensures found { IfSome result (λ r. bytes.now ≡ datafile_bytes r) }
    ensures fits { IfSome result (λ r. DatafileFits r) }
    ensures id { IfSome result (λ r. r.file ≡ file) }
    ensures none { IfNone result ((r : DatafileEntry) → DatafileFits r → bytes.now ≢ datafile_bytes r) }
{
    if bytes.len() != 16 {
        return None;
    }
    let (entry, _) = take_datafile(file, bytes);
    Some(entry)
}

fn log_of(id: u32, bytes: &[u8]) -> Option<LogEntry>
    ensures found { IfSome result (λ r. bytes.now ≡ log_bytes r) }
    ensures fits { IfSome result (λ r. LogFits r) }
    ensures id { IfSome result (λ r. r.id ≡ id) }
    ensures none { IfNone result ((r : LogEntry) → LogFits r → bytes.now ≢ log_bytes r) }
{
    if bytes.len() != 68 {
        return None;
    }
    let Some((entry, _)) = take_log(id, bytes) else {
        return None;
    };
    Some(entry)
}

fn mark_of(id: u32, bytes: &[u8]) -> Option<MarkEntry>
    ensures found { IfSome result (λ r. bytes.now ≡ mark_bytes r) }
    ensures fits { IfSome result (λ r. MarkFits r) }
    ensures id { IfSome result (λ r. r.id ≡ id) }
    ensures none { IfNone result ((r : MarkEntry) → MarkFits r → bytes.now ≢ mark_bytes r) }
{
    if bytes.len() != 20 {
        return None;
    }
    let (entry, _) = take_mark(id, bytes);
    Some(entry)
}

fn part_of(id: u32, bytes: &[u8]) -> Option<PartEntry>
    ensures found { IfSome result (λ r. bytes.now ≡ part_bytes r) }
    ensures fits { IfSome result (λ r. PartFits r) }
    ensures id { IfSome result (λ r. r.id ≡ id) }
    ensures none { IfNone result ((r : PartEntry) → PartFits r → bytes.now ≢ part_bytes r) }
{
    if bytes.len() != 45 {
        return None;
    }
    let (entry, _) = take_part(id, bytes);
    Some(entry)
}

fn head_of(bytes: &[u8]) -> Option<HeadEntry>
    ensures found { IfSome result (λ r. bytes.now ≡ head_bytes r) }
    ensures fits { IfSome result (λ r. HeadFits r) }
    ensures none { IfNone result ((r : HeadEntry) → HeadFits r → bytes.now ≢ head_bytes r) }
{
    if bytes.len() != 13 {
        return None;
    }
    let Some((entry, _)) = take_head(bytes) else {
        return None;
    };
    Some(entry)
}

fn switch_of(id: u32, bytes: &[u8]) -> Option<SwitchEntry>
    ensures found { IfSome result (λ r. bytes.now ≡ switch_bytes r) }
    ensures fits { IfSome result (λ r. SwitchFits r) }
    ensures id { IfSome result (λ r. r.id ≡ id) }
    ensures none { IfNone result ((r : SwitchEntry) → SwitchFits r → bytes.now ≢ switch_bytes r) }
{
    if bytes.len() != 18 {
        return None;
    }
    let Some((entry, _)) = take_switch(id, bytes) else {
        return None;
    };
    Some(entry)
}

fn piece_of(alloc: Global, id: u32, bytes: &[u8]) -> Result<PieceEntry, FormatFault>
    ensures found { IfOk result (λ r. bytes.now ≡ piece_bytes r) }
    ensures fits { IfOk result (λ r. PieceFits r) }
    ensures id { IfOk result (λ r. r.id ≡ id) }
    ensures only { (r : PieceEntry) → PieceFits r → r.id ≡ id → bytes.now ≡ piece_bytes r → Reads result r }
{
    if bytes.len() < 38 {
        return Err(FormatFault::Bad);
    }
    let (front, rest) = bytes.split_at(38);
    let ending = ending_of(alloc, rest)?;
    let Some((entry, _)) = take_piece_head(id, ending, front) else {
        return Err(FormatFault::Bad);
    };
    Ok(entry)
}

/// The record of this key that the bytes spell. `Bad` exactly where they spell none.
pub fn decode_record(alloc: Global, key: Key, bytes: &[u8]) -> Result<Record, FormatFault>
    // What is read is spelled so, under this key.
    ensures found { IfOk result (λ r. bytes.now ≡ body_of r) }
    ensures fits { IfOk result (λ r. Fits r) }
    ensures key { IfOk result (λ r. key_of r ≡ key) }
    // A record that is spelled so is read, unless memory runs out.
    ensures only { (r : Record) → Fits r → key_of r ≡ key → bytes.now ≡ body_of r → Reads result r }
{
    match key.kind {
        1 if key.id == 0 => match base_of(bytes) {
            Some(r) => Ok(Record::Base(r)),
            None => Err(FormatFault::Bad),
        },
        2 => match incarnation_of(key.id, bytes) {
            Some(r) => Ok(Record::Incarnation(r)),
            None => Err(FormatFault::Bad),
        },
        3 => match datafile_of(key.id, bytes) {
            Some(r) => Ok(Record::Datafile(r)),
            None => Err(FormatFault::Bad),
        },
        4 => match log_of(key.id, bytes) {
            Some(r) => Ok(Record::Log(r)),
            None => Err(FormatFault::Bad),
        },
        5 => Ok(Record::Piece(piece_of(alloc, key.id, bytes)?)),
        6 => match mark_of(key.id, bytes) {
            Some(r) => Ok(Record::Mark(r)),
            None => Err(FormatFault::Bad),
        },
        7 => match part_of(key.id, bytes) {
            Some(r) => Ok(Record::Part(r)),
            None => Err(FormatFault::Bad),
        },
        8 if key.id == 0 => match head_of(bytes) {
            Some(r) => Ok(Record::Head(r)),
            None => Err(FormatFault::Bad),
        },
        9 => Ok(Record::Set(set_of(alloc, key.id, bytes)?)),
        10 => match switch_of(key.id, bytes) {
            Some(r) => Ok(Record::Switch(r)),
            None => Err(FormatFault::Bad),
        },
        _ => Err(FormatFault::Bad),
    }
}
