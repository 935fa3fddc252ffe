//! The running database, which is live while it is copied.
ghost use Rattle.std.specs.Prelude.{◌≤◌, All, IfOk, OnOk, length};
ghost use Rattle.rm_channel.specs.{Jobs.{lists}, Room.{AreThreads, CanWrite, IsThere}};
ghost use Rattle.rm_machine.specs.{Events.{opening}, Running.{CanFollow}, Sound.{IsSound}};
ghost use Rattle.rm_step_backup.specs.Running.{HasGone, HasRunLive};
ghost use Rattle.rm_live.specs.Parts.{IsNumbered, IsSound as IsSoundLive, parts_of};
ghost use Rattle.rm_catalog_typed.specs.Changes.{EditsFollow};

use rm_base::NoMemory;
use rm_catalog::Edit;
use rm_channel::{CopyJob, Gate, Work, WriteJob, copy_during};
use rm_live::{Database, Live};
use rm_machine::State;
use rm_machine::running::{put_back, take_out};
use std::alloc::Global;
use std::sync::Wait;
use std::thread::Threads;

// Reads each wanted block of each job and makes each write, by so many channels and a writer for each list, at this database, which is
// live for that. Without memory it is dropped.
fn go_live<G: Gate, R: Threads + Wait + Sync>(
    rt: &R,
    alloc: Global,
    gate: &G,
    channels: u32,
    database: Database,
    jobs: &[CopyJob],
    writers: &[Vec<WriteJob>],
) -> Result<(Database, Work), NoMemory>
    requires numbered { IsNumbered (parts_of database).files }
    requires sound { IsSoundLive (parts_of database) }
    requires channels { (1 ≤ channels) × (channels ≤ 16) }
    requires lists { length writers.now ≤ 4 }
    requires there { All (IsThere (parts_of database).files) jobs.now }
    requires threads { AreThreads (parts_of database).logs 1 (lists writers.now) }
    requires room { CanWrite (parts_of database) (lists writers.now) }
    ensures { IfOk result (λ r. HasGone (parts_of database) jobs.now (lists writers.now) (parts_of r.0) r.1) }
{
    let passes = channels as usize + writers.len();
    let (live, pass) = Live::open(alloc, database, passes)?;
    let (pass, work) = copy_during(rt, alloc, &live, pass, jobs, writers, channels, gate);
    let database = live.close(pass);
    let work = work?;
    Ok((database, work))
}

/// Reads each wanted block of each job and makes each write, by so many channels and a writer for each list: the running database
/// is live for that, and goes on as these events leave it. No write of them has a mark to make. Without memory nothing is
/// said of the state and the edits.
pub(crate) fn run_live<G: Gate, R: Threads + Wait + Sync>(
    rt: &R,
    alloc: Global,
    gate: &G,
    channels: u32,
    state: &mut State,
    edits: &mut Vec<Edit>,
    jobs: &[CopyJob],
    writers: &[Vec<WriteJob>],
) -> Result<Work, NoMemory>
    requires sound { IsSound state.old }
    requires follow { CanFollow state.old (lists writers.now) }
    requires channels { (1 ≤ channels) × (channels ≤ 16) }
    requires lists { length writers.now ≤ 4 }
    requires there { All (IsThere (opening state.old).files) jobs.now }
    requires threads { AreThreads (opening state.old).logs 1 (lists writers.now) }
    requires room { CanWrite (opening state.old) (lists writers.now) }
    ensures ran { IfOk result (HasRunLive state.old jobs.now (lists writers.now) state.new) }
    ensures edits { OnOk result (EditsFollow edits.old.items edits.new.items state.old.catalog state.new.catalog) }
{
    let database = take_out(alloc, state)?;
    let (database, work) = go_live(rt, alloc, gate, channels, database, jobs, writers)?;
    put_back(alloc, state, edits, database)?;
    Ok(work)
}
