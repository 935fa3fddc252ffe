//! The running database, which is live while its blocks are mended.
ghost use Rattle.std.specs.Prelude.{◌≤◌, All, IfOk, OnOk, length};
ghost use Rattle.rm_channel.specs.{Jobs.{lists}, Room.{AreThreads, CanWrite}};
ghost use Rattle.rm_live.specs.Parts.{IsNumbered, IsSound as IsSoundLive, parts_of};
ghost use Rattle.rm_machine.specs.{Events.{opening}, Running.{CanFollow}, Sound.{IsSound}, State.{now_of}};
ghost use Rattle.rm_catalog_typed.specs.Changes.{EditsFollow};
ghost use Rattle.rm_repair.specs.Mended.{HasBlock, IsOlder};
ghost use Rattle.rm_step_repair.specs.Gone.{HasGone, HasRepaired};

use rm_base::{NoMemory, Scn};
use rm_catalog::Edit;
use rm_channel::WriteJob;
use rm_live::{Database, Live};
use rm_machine::State;
use rm_machine::running::{put_back, take_out};
use rm_repair::{MendJob, mend_during};
use std::alloc::Global;
use std::sync::Wait;
use std::thread::Threads;

// Puts each job's row in place and makes each write, by a worker for the mends and one for each list, at this database, which is live
// for that. Without memory it is dropped.
fn go_live<R: Threads + Wait + Sync>(
    rt: &R,
    alloc: Global,
    database: Database,
    jobs: &[MendJob],
    writers: &[Vec<WriteJob>],
) -> Result<(Database, Vec<Vec<Scn>>), NoMemory>
    requires numbered { IsNumbered (parts_of database).files }
    requires sound { IsSoundLive (parts_of database) }
    requires lists { length writers.now ≤ 4 }
    requires there { All (HasBlock (parts_of database).files) jobs.now }
    requires older { All (IsOlder (parts_of database).now) jobs.now }
    requires threads { AreThreads (parts_of database).logs 1 (lists writers.now) }
    requires room { CanWrite (parts_of database) (lists writers.now) }
    ensures { IfOk result (λ r. HasGone (parts_of database) jobs.now (lists writers.now) (parts_of r.0) (lists r.1.items)) }
{
    let passes = 1 + writers.len();
    let (live, pass) = Live::open(alloc, database, passes)?;
    let (pass, scns) = mend_during(rt, alloc, &live, pass, jobs, writers);
    let database = live.close(pass);
    let scns = scns?;
    Ok((database, scns))
}

/// Puts each job's row in place and makes each write, by a worker for the mends and one for each list: the running database is live for
/// that, and goes on as these events leave it. No write of them has a mark to make. It gives the SCNs that the writes took, list by list.
/// An error is want of memory; then nothing is said of the state and the edits.
pub(crate) fn run_live<R: Threads + Wait + Sync>(
    rt: &R,
    alloc: Global,
    state: &mut State,
    edits: &mut Vec<Edit>,
    jobs: &[MendJob],
    writers: &[Vec<WriteJob>],
) -> Result<Vec<Vec<Scn>>, NoMemory>
    requires sound { IsSound state.old }
    requires follow { CanFollow state.old (lists writers.now) }
    requires lists { length writers.now ≤ 4 }
    requires there { All (HasBlock (opening state.old).files) jobs.now }
    requires older { All (IsOlder (now_of state.old)) jobs.now }
    requires threads { AreThreads (opening state.old).logs 1 (lists writers.now) }
    requires room { CanWrite (opening state.old) (lists writers.now) }
    ensures ran { IfOk result (λ scns. HasRepaired state.old jobs.now (lists writers.now) state.new (lists scns.items)) }
    ensures edits { OnOk result (EditsFollow edits.old.items edits.new.items state.old.catalog state.new.catalog) }
{
    let database = take_out(alloc, state)?;
    let (database, scns) = go_live(rt, alloc, database, jobs, writers)?;
    put_back(alloc, state, edits, database)?;
    Ok(scns)
}
