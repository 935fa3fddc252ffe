//! The records of a new database.
ghost use Rattle.std.specs.Prelude.{◌≡◌, IfOk};
ghost use Rattle.rm_catalog_typed.specs.Fresh.{fresh, fresh_edits as edits_of_fresh};

use rm_base::{Moment, NoMemory, Policy, Scn, Seq, ThreadNo};
use rm_catalog::{BaseEntry, Edit, IncarnationEntry, MarkEntry, Record};
use std::alloc::Global;

/// The edits that make the records of a new database: its base facts, incarnation 1, which begins and
/// ends at `scn`, and its first mark. The records are valid where `dbid` is at least 1, there are 1 to
/// 4 threads, `scn` is 1 to `LAST_SCN` and `moment` is at most 253,402,300,799. An error is want of
/// memory.
pub fn fresh_edits(
    alloc: Global,
    dbid: u32,
    threads: ThreadNo,
    scn: Scn,
    moment: Moment,
) -> Result<Seq<Edit>, NoMemory>
    ensures { IfOk result (λ es. es ≡ edits_of_fresh (fresh dbid threads scn moment)) }
{
    let base = BaseEntry {
        dbid,
        threads,
        current: 1,
        next_id: 1,
        moment,
        policy: Policy::Redundancy(1),
        parallelism: 1,
        tracking: false,
    };
    let first = IncarnationEntry {
        inc: 1,
        parent: 0,
        reset: scn,
        end: scn,
    };
    let mark = MarkEntry {
        id: 1,
        moment,
        inc: 1,
        scn,
    };
    let mut edits = Vec::with_capacity(alloc, 3)?;
    edits.push(Edit::Put(Record::Base(base)))?;
    edits.push(Edit::Put(Record::Incarnation(first)))?;
    edits.push(Edit::Put(Record::Mark(mark)))?;
    Ok(Seq::from_vec(edits))
}
