//! A log from its bytes.
ghost use Rattle.std.specs.{Prelude.{◌≡◌, ◌≢◌, ◌+◌, ◌*◌, ◌<◌, ◌≤◌, ◌^◌, ◌++◌, ℕ, List, length, IfOk, IfSome, IfNone, All}, List.{flat_map}};
ghost use Rattle.rm_base.specs.Formats.{Reads};
ghost use Rattle.rm_redo.specs.LogFits.{RecordFits, HeadFits, Fits};
ghost use Rattle.rm_redo.specs.LogFormat.{magic, head_bytes, record_bytes, body_of, spelling, IsLogFile};
ghost use Rattle.rm_redo.specs.declared.log_file.LogFile.{LogFile};

use crate::log_file::LogFile;
use crate::log_valid::is_valid_log;
use crate::online::LogRecord;
use rm_base::bytes::{take_block, take_u8};
use rm_base::number::{take_u32, take_u64};
use rm_base::sealed::unseal;
use rm_base::{FormatFault, Seq};
use std::alloc::{AllocError, Global};

// What follows "RMLG" and the format's number.
fn take_magic(bytes: &[u8]) -> Option<&[u8]>
    ensures parts { IfSome result (λ rest. bytes.now ≡ magic ++ rest.now) }
    ensures len { IfSome result (λ rest. length bytes.now ≡ 5 + length rest.now) }
    ensures none { IfNone result ((rest : List ℕ) → bytes.now ≢ magic ++ rest) }
{
    let [b'R', b'M', b'L', b'G', 1, rest @ ..] = bytes else {
        return None;
    };
    Some(rest)
}

#[tactic(auto, unfolding(crate::specs::LogFormat::record_bytes))]
fn take_record(bytes: &[u8]) -> (LogRecord, &[u8])
    requires { 80 ≤ length bytes.now }
    ensures parts { bytes.now ≡ record_bytes result.0 ++ result.1.now }
    ensures len { length bytes.now ≡ 80 + length result.1.now }
    ensures fits { RecordFits result.0 }
{
    let (scn, rest) = take_u64(bytes);
    let (file, rest) = take_u32(rest);
    let (block, rest) = take_u32(rest);
    let (content, rest) = take_block(rest);
    let record = LogRecord {
        scn,
        file,
        block,
        content,
    };
    (record, rest)
}

// The records that all of the bytes spell.
fn records_of(alloc: Global, bytes: &[u8], count: u32) -> Result<Seq<LogRecord>, AllocError>
    requires { length bytes.now ≡ 80 * count }
    ensures records { IfOk result (λ records. bytes.now ≡ flat_map record_bytes records) }
    ensures count { IfOk result (λ records. length records ≡ count) }
    ensures fits { IfOk result (λ records. All RecordFits records) }
{
    let mut records = Vec::with_capacity(alloc, count as usize)?;
    let mut rest = bytes;
    for _ in 0..count {
        let (record, after) = take_record(rest);
        records.push(record)?;
        rest = after;
    }
    Ok(Seq::from_vec(records))
}

// The fields of a log without its records, the number of its records, and what follows.
#[tactic(auto, using(crate::proofs::LogBodies::head_fields))]
fn take_head(alloc: Global, bytes: &[u8]) -> Option<(LogFile, u32, &[u8])>
    requires { 38 ≤ length bytes.now }
    ensures parts { IfSome result (λ r. bytes.now ≡ head_bytes r.0 r.1 ++ r.2.now) }
    ensures len { IfSome result (λ r. length bytes.now ≡ 38 + length r.2.now) }
    ensures fits { IfSome result (λ r. HeadFits r.0) }
    ensures count { IfSome result (λ r. r.1 < 2 ^ 32) }
    ensures none { IfNone result ((l : LogFile) (n : ℕ) (rest : List ℕ) → bytes.now ≢ head_bytes l n ++ rest) }
{
    let rest = take_magic(bytes)?;
    let (dbid, rest) = take_u32(rest);
    let (inc, rest) = take_u32(rest);
    let (thread, rest) = take_u8(rest);
    let (sequence, rest) = take_u32(rest);
    let (first, rest) = take_u64(rest);
    let (next, rest) = take_u64(rest);
    let (count, rest) = take_u32(rest);
    let records = Seq::new(alloc);
    let head = LogFile {
        dbid,
        inc,
        thread,
        sequence,
        first,
        next,
        records,
    };
    Some((head, count, rest))
}

// The log whose bytes before the seal are these, valid or not.
fn log_of(alloc: Global, body: &[u8]) -> Result<LogFile, FormatFault>
    ensures fits { IfOk result (λ l. Fits l) }
    ensures found { IfOk result (λ l. body.now ≡ body_of l) }
    ensures only { (l : LogFile) → Fits l → body.now ≡ body_of l → Reads result l }
{
    if body.len() < 38 {
        return Err(FormatFault::Bad);
    }
    let Some((head, count, rest)) = take_head(alloc, body) else {
        return Err(FormatFault::Bad);
    };
    if rest.len() as u64 != 80 * count as u64 {
        return Err(FormatFault::Bad);
    }
    let records = records_of(alloc, rest, count)?;
    Ok(LogFile { records, ..head })
}

/// The log whose bytes before the seal are these. `Bad` exactly where they are of no valid log.
pub fn log_of_body(alloc: Global, body: &[u8]) -> Result<LogFile, FormatFault>
    // What is read is valid, and has this body.
    ensures found { IfOk result (λ log. body.now ≡ body_of log) }
    ensures valid { IfOk result (λ log. IsLogFile log) }
    // A valid log of this body is read, unless memory runs out.
    ensures only { (log : LogFile) → IsLogFile log → body.now ≡ body_of log → Reads result log }
{
    match log_of(alloc, body) {
        Ok(log) => {
            if is_valid_log(&log) {
                Ok(log)
            } else {
                Err(FormatFault::Bad)
            }
        }
        Err(fault) => Err(fault),
    }
}

/// The log that the bytes spell. `Bad` exactly where they spell no valid log.
pub fn decode_log(alloc: Global, bytes: &[u8]) -> Result<LogFile, FormatFault>
    // What is read is valid, and spelled so.
    ensures found { IfOk result (λ log. bytes.now ≡ spelling log) }
    ensures valid { IfOk result (λ log. IsLogFile log) }
    // A valid log that is spelled so is read, unless memory runs out.
    ensures only { (log : LogFile) → IsLogFile log → bytes.now ≡ spelling log → Reads result log }
{
    let Some(body) = unseal(bytes) else {
        return Err(FormatFault::Bad);
    };
    log_of_body(alloc, body)
}
