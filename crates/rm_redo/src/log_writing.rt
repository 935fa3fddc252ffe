//! A log as bytes.
ghost use Rattle.std.specs.{Prelude.{◌≡◌, ◌<◌, ◌^◌, ◌++◌, length, OnOk, IfOk}, List.{flat_map}};
ghost use Rattle.sha2.specs.Sha256.{sha256};
ghost use Rattle.rm_redo.specs.LogFormat.{head_bytes, record_bytes, spelling, IsLogFile};

use crate::log_file::LogFile;
use crate::online::LogRecord;
use rm_base::number::{push_u32, push_u64};
use rm_base::sealed::{Encoded, seal_with_digest};
use rm_base::{NoMemory, Seq};
use std::alloc::Global;

// Appends what stands before the records.
#[tactic(auto, unfolding(crate::specs::LogFormat::head_bytes))]
fn push_head(out: &mut Vec<u8>, log: &LogFile) -> Result<(), NoMemory>
    requires { length log.now.records < 2 ^ 32 }
    ensures { OnOk result (out.new.items ≡ out.old.items ++ head_bytes log.now (length log.now.records)) }
{
    out.extend_from_slice(b"RMLG\x01")?;
    push_u32(out, log.dbid)?;
    push_u32(out, log.inc)?;
    out.push(log.thread)?;
    push_u32(out, log.sequence)?;
    push_u64(out, log.first)?;
    push_u64(out, log.next)?;
    push_u32(out, log.records.len() as u32)
}

#[tactic(auto, unfolding(crate::specs::LogFormat::record_bytes))]
fn push_record(out: &mut Vec<u8>, entry: &LogRecord) -> Result<(), NoMemory>
    ensures { OnOk result (out.new.items ≡ out.old.items ++ record_bytes entry.now) }
{
    push_u64(out, entry.scn)?;
    push_u32(out, entry.file)?;
    push_u32(out, entry.block)?;
    out.extend_from_slice(&entry.content.0)?;
    Ok(())
}

fn push_records(out: &mut Vec<u8>, records: &[LogRecord]) -> Result<(), NoMemory>
    ensures { OnOk result (out.new.items ≡ out.old.items ++ flat_map record_bytes records.now) }
{
    for entry in records {
        push_record(out, entry)?;
    }
    Ok(())
}

/// The spelling of a valid log, and its SHA-256.
pub fn encode_log_with_digest(alloc: Global, log: &LogFile) -> Result<Encoded, NoMemory>
    requires { IsLogFile log.now }
    ensures bytes { IfOk result (λ encoded. encoded.bytes ≡ spelling log.now) }
    ensures digest { IfOk result (λ encoded. encoded.digest ≡ sha256 (spelling log.now)) }
{
    let mut out = Vec::with_capacity(alloc, 70 + 80 * log.records.len())?;
    push_head(&mut out, log)?;
    push_records(&mut out, log.records.as_slice())?;
    let digest = seal_with_digest(&mut out)?;
    Ok(Encoded {
        bytes: Seq::from_vec(out),
        digest,
    })
}

/// The spelling of a valid log.
pub fn encode_log(alloc: Global, log: &LogFile) -> Result<Seq<u8>, NoMemory>
    requires { IsLogFile log.now }
    ensures { IfOk result (λ bytes. bytes ≡ spelling log.now) }
{
    Ok(encode_log_with_digest(alloc, log)?.bytes)
}
