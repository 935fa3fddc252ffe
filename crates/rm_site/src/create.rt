//! CREATE DATABASE, where there is no database.
ghost use Rattle.std.specs.Prelude.{◌≡◌, ◌≤◌, [], ◌∷◌, IfOk, IfNone, IsTrue};
ghost use Rattle.rm_base.specs.Numbers.{last_moment};
ghost use Rattle.rm_lang_statement.specs.{IsCommand.{is_command}, declared.command.Command.TheVariants.{CreateDatabase}};
ghost use Rattle.rm_catalog_typed.specs.Fresh.{fresh, fresh_edits as edits_of_fresh};
ghost use Rattle.rm_report.specs.declared.line.Line.TheVariants.{DatabaseAt};
ghost use Rattle.rm_machine.specs.CreateDatabase.{fresh_state};
ghost use Rattle.rm_machine_laws.specs.Refused.{create_refusal, refusal_without};

use rm_base::{Limit, Moment, NoMemory, Refusal, Scn, Seq, ThreadNo};
use rm_catalog_typed::{TypedCatalog, fresh_edits};
use rm_commit::Commit;
use rm_lang_statement::Command;
use rm_machine::{Instance, State};
use rm_redo::OnlineLogs;
use rm_report::Line;
use rm_track::Tracker;
use std::alloc::Global;

// Why CREATE DATABASE is refused where there is no database: it wants more than 4 redo threads.
fn create_refusal(threads: u64) -> Option<Refusal>
    ensures value { result ≡ create_refusal threads }
    ensures most { IfNone result (threads ≤ 4) }
{
    if threads > 4 {
        Some(Refusal::Rm11(Limit::Threads))
    } else {
        None
    }
}

/// Why a statement is refused where there is no database.
pub(crate) fn refusal_without(command: &Command) -> Option<Refusal>
    ensures { result ≡ refusal_without command.now }
{
    match command {
        Command::CreateDatabase { threads, .. } => create_refusal(*threads),
        _ => Some(Refusal::Rm02),
    }
}

/// A new database, which is open. An error is want of memory.
pub(crate) fn new_database(
    alloc: Global,
    dbid: u32,
    threads: u64,
    scn: Scn,
    moment: Moment,
) -> Result<State, NoMemory>
    requires command { IsTrue (is_command (CreateDatabase dbid threads scn)) }
    requires few { threads ≤ 4 }
    requires moment { moment ≤ last_moment }
    ensures { IfOk result (λ s. s ≡ fresh_state dbid threads scn moment) }
{
    let threads = threads as ThreadNo;
    Ok(State {
        catalog: TypedCatalog::fresh(alloc, dbid, threads, scn, moment)?,
        instance: Instance {
            is_open: true,
            point: None,
            place: Seq::new(alloc),
            logs: OnlineLogs::new(alloc, dbid, 1, threads, scn)?,
            damaged: Seq::new(alloc),
            tracker: Tracker::new(alloc),
        },
    })
}

/// What CREATE DATABASE changes outside: it makes the first records.
pub(crate) fn first_records(
    alloc: Global,
    dbid: u32,
    threads: u64,
    scn: Scn,
    moment: Moment,
) -> Result<Commit, NoMemory>
    requires few { threads ≤ 4 }
    ensures objects { IfOk result (λ x. x.objects ≡ []) }
    ensures edits { IfOk result (λ x. x.edits ≡ edits_of_fresh (fresh dbid threads scn moment)) }
    ensures removes { IfOk result (λ x. x.removes ≡ []) }
{
    Ok(Commit {
        objects: Seq::new(alloc),
        edits: fresh_edits(alloc, dbid, threads as ThreadNo, scn, moment)?,
        removes: Seq::new(alloc),
    })
}

/// The lines of its reply.
pub(crate) fn lines_of(alloc: Global, dbid: u32, scn: Scn) -> Result<Seq<Line>, NoMemory>
    ensures { IfOk result (λ lines. lines ≡ DatabaseAt dbid scn ∷ []) }
{
    let mut lines = Seq::new(alloc);
    lines.push(Line::DatabaseAt { dbid, scn })?;
    Ok(lines)
}
