//! A record as bytes.
ghost use Rattle.std.specs.Prelude.{◌≡◌, ◌++◌, OnOk, IfOk};
ghost use Rattle.rm_catalog_bytes.specs.Spelling.{base_bytes, incarnation_bytes, datafile_bytes, log_bytes, piece_head, piece_bytes, mark_bytes, part_bytes, head_bytes, switch_bytes, body_of};
ghost use Rattle.rm_catalog_bytes.specs.Fits.{BaseFits, IncarnationFits, DatafileFits, LogFits, PieceFits, PieceHeadFits, MarkFits, PartFits, HeadFits, SwitchFits, Fits};

use crate::codes::{flag, kind_code, policy_code, policy_number, status_code};
use crate::ending::push_ending;
use crate::numbers::{push_u32, push_u64};
use crate::sets::push_set;
use rm_base::{NoMemory, Seq};
use rm_catalog::{
    BaseEntry, DatafileEntry, HeadEntry, IncarnationEntry, LogEntry, MarkEntry, PartEntry,
    PieceEntry, Record, SwitchEntry,
};
use std::alloc::Global;

#[tactic(auto, unfolding(crate::specs::Spelling::base_bytes))]
fn push_base(out: &mut Vec<u8>, r: &BaseEntry) -> Result<(), NoMemory>
    ensures bytes { OnOk result (out.new.items ≡ out.old.items ++ base_bytes r.now) }
    ensures fits { OnOk result (BaseFits r.now) }
{
    push_u32(out, r.dbid)?;
    out.push(r.threads)?;
    push_u32(out, r.current)?;
    push_u32(out, r.next_id)?;
    push_u64(out, r.moment)?;
    out.push(policy_code(r.policy))?;
    push_u32(out, policy_number(r.policy))?;
    push_u32(out, r.parallelism)?;
    out.push(flag(r.tracking))?;
    Ok(())
}

#[tactic(auto, unfolding(crate::specs::Spelling::incarnation_bytes))]
fn push_incarnation(out: &mut Vec<u8>, r: &IncarnationEntry) -> Result<(), NoMemory>
    ensures bytes { OnOk result (out.new.items ≡ out.old.items ++ incarnation_bytes r.now) }
    ensures fits { OnOk result (IncarnationFits r.now) }
{
    push_u32(out, r.parent)?;
    push_u64(out, r.reset)?;
    push_u64(out, r.end)
}

#[tactic(auto, unfolding(crate::specs::Spelling::datafile_bytes))]
fn push_datafile(out: &mut Vec<u8>, r: &DatafileEntry) -> Result<(), NoMemory>
    ensures bytes { OnOk result (out.new.items ≡ out.old.items ++ datafile_bytes r.now) }
    ensures fits { OnOk result (DatafileFits r.now) }
{
    push_u32(out, r.inc)?;
    push_u64(out, r.creation)?;
    push_u32(out, r.blocks)
}

#[tactic(auto, unfolding(crate::specs::Spelling::log_bytes))]
fn push_log(out: &mut Vec<u8>, r: &LogEntry) -> Result<(), NoMemory>
    ensures bytes { OnOk result (out.new.items ≡ out.old.items ++ log_bytes r.now) }
    ensures fits { OnOk result (LogFits r.now) }
{
    out.push(flag(r.archived))?;
    push_u32(out, r.inc)?;
    out.push(r.thread)?;
    push_u32(out, r.sequence)?;
    push_u64(out, r.first)?;
    push_u64(out, r.next)?;
    push_u64(out, r.size)?;
    out.extend_from_slice(&r.sha)?;
    out.extend_from_slice(&[status_code(r.status), flag(r.keep)])?;
    Ok(())
}

// Appends what stands before the ending.
#[tactic(auto, unfolding(crate::specs::Spelling::piece_head))]
fn push_piece_head(out: &mut Vec<u8>, r: &PieceEntry) -> Result<(), NoMemory>
    ensures bytes { OnOk result (out.new.items ≡ out.old.items ++ piece_head r.now) }
    ensures fits { OnOk result (PieceHeadFits r.now) }
{
    out.extend_from_slice(&[flag(r.copy), kind_code(r.kind)])?;
    push_u32(out, r.inc)?;
    push_u32(out, r.file)?;
    push_u64(out, r.from)?;
    push_u64(out, r.checkpoint)?;
    push_u64(out, r.high)?;
    push_u32(out, r.rows)
}

fn push_piece(out: &mut Vec<u8>, r: &PieceEntry) -> Result<(), NoMemory>
    ensures bytes { OnOk result (out.new.items ≡ out.old.items ++ piece_bytes r.now) }
    ensures fits { OnOk result (PieceFits r.now) }
{
    push_piece_head(out, r)?;
    push_ending(out, r.size, &r.sha, r.status, r.keep, &r.tag, r.moment)
}

#[tactic(auto, unfolding(crate::specs::Spelling::mark_bytes))]
fn push_mark(out: &mut Vec<u8>, r: &MarkEntry) -> Result<(), NoMemory>
    ensures bytes { OnOk result (out.new.items ≡ out.old.items ++ mark_bytes r.now) }
    ensures fits { OnOk result (MarkFits r.now) }
{
    push_u64(out, r.moment)?;
    push_u32(out, r.inc)?;
    push_u64(out, r.scn)
}

#[tactic(auto, unfolding(crate::specs::Spelling::part_bytes))]
fn push_part(out: &mut Vec<u8>, r: &PartEntry) -> Result<(), NoMemory>
    ensures bytes { OnOk result (out.new.items ≡ out.old.items ++ part_bytes r.now) }
    ensures fits { OnOk result (PartFits r.now) }
{
    push_u32(out, r.file)?;
    out.push(r.thread)?;
    push_u64(out, r.size)?;
    out.extend_from_slice(&r.sha)?;
    Ok(())
}

#[tactic(auto, unfolding(crate::specs::Spelling::head_bytes))]
fn push_head(out: &mut Vec<u8>, r: &HeadEntry) -> Result<(), NoMemory>
    ensures bytes { OnOk result (out.new.items ≡ out.old.items ++ head_bytes r.now) }
    ensures fits { OnOk result (HeadFits r.now) }
{
    out.push(flag(r.opened))?;
    push_u32(out, r.inc)?;
    push_u64(out, r.scn)
}

#[tactic(auto, unfolding(crate::specs::Spelling::switch_bytes))]
fn push_switch(out: &mut Vec<u8>, r: &SwitchEntry) -> Result<(), NoMemory>
    ensures bytes { OnOk result (out.new.items ≡ out.old.items ++ switch_bytes r.now) }
    ensures fits { OnOk result (SwitchFits r.now) }
{
    out.push(r.thread)?;
    push_u32(out, r.inc)?;
    push_u64(out, r.scn)?;
    out.push(flag(r.on))?;
    push_u32(out, r.sequence)
}

/// The fields of a record without its key.
pub fn encode_record(alloc: Global, entry: &Record) -> Result<Seq<u8>, NoMemory>
    ensures spelled { IfOk result (λ bytes. bytes ≡ body_of entry.now) }
    ensures fits { IfOk result (λ _. Fits entry.now) }
{
    let mut out = Vec::new(alloc);
    match entry {
        Record::Base(r) => push_base(&mut out, r)?,
        Record::Incarnation(r) => push_incarnation(&mut out, r)?,
        Record::Datafile(r) => push_datafile(&mut out, r)?,
        Record::Log(r) => push_log(&mut out, r)?,
        Record::Piece(r) => push_piece(&mut out, r)?,
        Record::Mark(r) => push_mark(&mut out, r)?,
        Record::Part(r) => push_part(&mut out, r)?,
        Record::Head(r) => push_head(&mut out, r)?,
        Record::Set(r) => push_set(&mut out, r)?,
        Record::Switch(r) => push_switch(&mut out, r)?,
    }
    Ok(Seq::from_vec(out))
}
