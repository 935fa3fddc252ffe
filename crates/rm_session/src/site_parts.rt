//! The parts of a site that is saved: each datafile in place, and each online log that is not lost.
ghost use Rattle.std.specs.Prelude.{◌≡◌, ◌<◌, ◌≤◌, ◌+◌, IfOk, IsTrue, OnOk, false, if◌then◌else◌};
ghost use Rattle.sha2.specs.Sha256.{sha256};
ghost use Rattle.rm_evidence.specs.Gathered.{placed_piece};
ghost use Rattle.rm_machine.specs.{Marks.{lacks_ids}, Saving.{file_parts, log_parts, parts_of}, Sound.{IsSound}};
ghost use Rattle.rm_machine.specs.State.{counted, is_online, ledger, online};
ghost use Rattle.rm_piece.specs.Valid.{IsPiece};
ghost use Rattle.rm_redo.specs.Online.{IsThread};
ghost use Rattle.rm_session.specs.Adding.{no_parts, part_of_file, part_of_thread, with_object, with_part, with_parts};

use rm_base::sealed::Encoded;
use rm_base::{FileNo, IncNo, Kind, NoMemory, Scn, Seq, ThreadNo};
use rm_blocks::DataFile;
use rm_catalog::PartEntry;
use rm_commit::Object;
use rm_evidence::site_name;
use rm_machine::State;
use rm_machine::facts::{MOST_THREADS, now, redo_end};
use rm_piece::{Piece, encode_piece_with_digest, high_of};
use rm_redo::{LogFile, OnlineLogs, encode_log_with_digest};
use std::alloc::Global;

/// Parts of a site: their records, and their objects.
#[derive(Drop)]
pub(crate) struct Parts {
    /// The id that the next part takes.
    pub next: u32,
    pub entries: Seq<PartEntry>,
    pub objects: Seq<Object>,
}

// Adds a part of these bytes, which takes the next id.
fn add(
    alloc: Global,
    parts: &mut Parts,
    file: FileNo,
    thread: ThreadNo,
    encoded: Encoded,
) -> Result<(), NoMemory>
    requires room { parts.old.next < 4294967295 }
    requires digest { encoded.digest ≡ sha256 encoded.bytes }
    ensures { OnOk result (parts.new ≡ with_object file thread encoded.bytes parts.old) }
{
    let id = parts.next;
    parts.entries.push(PartEntry {
        id,
        file,
        thread,
        size: encoded.bytes.len() as u64,
        sha: encoded.digest,
    })?;
    parts.objects.push(Object {
        name: site_name(alloc, id)?,
        bytes: encoded.bytes,
    })?;
    parts.next = id + 1;
    Ok(())
}

// The incarnation and the checkpoint at which a datafile in place counts: in an open database the current one and `now`.
fn standing(state: &State, file: &DataFile) -> (IncNo, Scn)
    ensures inc { result.0 ≡ (counted state.now file.now).inc }
    ensures checkpoint { result.1 ≡ (counted state.now file.now).checkpoint }
{
    if state.instance.is_open {
        (state.catalog.base().current, now(state))
    } else {
        (file.inc(), file.checkpoint())
    }
}

// A datafile in place, as what it counts, as a piece.
fn piece_of(alloc: Global, state: &State, file: &DataFile) -> Result<Piece, NoMemory>
    requires valid { IsPiece (placed_piece (ledger state.now).base.dbid (counted state.now file.now)) }
    ensures { IfOk result (λ piece. piece ≡ placed_piece (ledger state.now).base.dbid (counted state.now file.now)) }
{
    let rows = file.rows();
    let (inc, checkpoint) = standing(state, file);
    Ok(Piece {
        kind: Kind::Place,
        dbid: state.catalog.base().dbid,
        inc,
        file: file.file(),
        blocks: rows.len() as u32,
        from: 0,
        checkpoint,
        high: high_of(checkpoint, rows),
        rows: Seq::from_vec(Vec::from_slice(alloc, rows)?),
    })
}

// Adds the part of a datafile in place, which has this number.
fn add_file(
    alloc: Global,
    state: &State,
    parts: &mut Parts,
    number: FileNo,
    file: &DataFile,
) -> Result<(), NoMemory>
    requires valid { IsPiece (placed_piece (ledger state.now).base.dbid (counted state.now file.now)) }
    requires room { parts.old.next < 4294967295 }
    ensures { OnOk result (parts.new ≡ with_part (part_of_file state.now number file.now) parts.old) }
{
    let piece = piece_of(alloc, state, file)?;
    add(
        alloc,
        parts,
        number,
        0,
        encode_piece_with_digest(alloc, &piece)?,
    )
}

// Adds the part of each datafile in place.
fn add_files(alloc: Global, state: &State, parts: &mut Parts) -> Result<(), NoMemory>
    requires sound { IsSound state.now }
    requires room { parts.old.next + 64 ≤ 4294967295 }
    ensures after { OnOk result (parts.new ≡ with_parts (file_parts state.now 1 state.now.instance.place) parts.old) }
    ensures few { OnOk result (parts.new.next ≤ parts.old.next + 64) }
{
    for (index, placed) in state.instance.place.as_slice().iter().enumerate() {
        if let Some(file) = placed {
            add_file(alloc, state, parts, index as FileNo + 1, file)?;
        }
    }
    Ok(())
}

// The online log of a thread, up to the end of its incarnation.
fn log_of(alloc: Global, state: &State, thread: ThreadNo) -> Result<LogFile, NoMemory>
    requires sound { IsSound state.now }
    requires there { IsThread state.now.instance.logs thread }
    ensures { IfOk result (λ log. log ≡ online state.now thread) }
{
    let logs = &state.instance.logs;
    Ok(LogFile {
        dbid: state.catalog.base().dbid,
        inc: logs.inc(),
        thread,
        sequence: logs.sequence(thread),
        first: logs.first(thread),
        next: redo_end(state),
        records: Seq::from_vec(Vec::from_slice(alloc, logs.records(thread))?),
    })
}

// Whether a thread has an online log that is not lost.
fn is_online(logs: &OnlineLogs, thread: ThreadNo) -> bool
    requires { 0 < thread }
    ensures value { result ≡ is_online logs.now thread }
    ensures there { IsTrue result → IsThread logs.now thread }
{
    logs.has(thread) && !logs.is_lost(thread)
}

// Adds the part of a thread that has an online log, unless that is lost.
fn add_log(
    alloc: Global,
    state: &State,
    parts: &mut Parts,
    thread: ThreadNo,
) -> Result<(), NoMemory>
    requires sound { IsSound state.now }
    requires some { 0 < thread }
    requires room { parts.old.next < 4294967295 }
    ensures after { OnOk result (parts.new ≡ if is_online state.now.instance.logs thread then with_part (part_of_thread state.now thread) parts.old else parts.old) }
    ensures few { OnOk result (parts.new.next ≤ parts.old.next + 1) }
{
    if !is_online(&state.instance.logs, thread) {
        return Ok(());
    }
    let log = log_of(alloc, state, thread)?;
    add(
        alloc,
        parts,
        0,
        thread,
        encode_log_with_digest(alloc, &log)?,
    )
}

// Adds the part of each online log that is not lost.
fn add_logs(alloc: Global, state: &State, parts: &mut Parts) -> Result<(), NoMemory>
    requires sound { IsSound state.now }
    requires room { parts.old.next + 4 ≤ 4294967295 }
    ensures { OnOk result (parts.new ≡ with_parts (log_parts state.now 1 state.now.instance.logs.threads) parts.old) }
{
    for thread in 1..=MOST_THREADS {
        add_log(alloc, state, parts, thread)?;
    }
    Ok(())
}

// The parts of what runs, which take the next ids.
pub(crate) fn parts_of(alloc: Global, state: &State) -> Result<Parts, NoMemory>
    requires sound { IsSound state.now }
    requires ids { lacks_ids state.now 0 ≡ false }
    ensures { IfOk result (λ parts. parts ≡ with_parts (parts_of state.now) (no_parts (ledger state.now).base.next_id)) }
{
    let mut parts = Parts {
        next: state.catalog.base().next_id,
        entries: Seq::new(alloc),
        objects: Seq::new(alloc),
    };
    add_files(alloc, state, &mut parts)?;
    add_logs(alloc, state, &mut parts)?;
    Ok(parts)
}
