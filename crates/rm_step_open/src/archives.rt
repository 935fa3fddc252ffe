//! Online logs become archived ones, one thread after another.
ghost use Rattle.std.specs.Prelude.{◌≡◌, ◌<◌, ◌++◌, ◌∷◌, [], IfOk, OnOk, None, true};
ghost use Rattle.rm_step_open.specs.Space.{HasSpace};
ghost use Rattle.rm_machine.specs.Archive.{after_all, after_thread, archiving_refusal, lines_from, puts_by, puts_from, thread_lines};
ghost use Rattle.rm_machine.specs.{Sound.{IsSound}, State.{ledger, online}, SwitchLogfile.{is_due, made_lines, with_archived}};
ghost use Rattle.rm_evidence.specs.Names.{log_name};
ghost use Rattle.rm_redo.specs.{LogFormat.{spelling}, Online.{IsThread}};
ghost use Rattle.rm_catalog_typed.specs.Changes.{EditsFollow};

use crate::due::{has_log, is_due};
use rm_base::{NoMemory, Seq, ThreadNo};
use rm_catalog::Edit;
use rm_commit::Object;
use rm_evidence::log_name;
use rm_machine::State;
use rm_machine::facts::{MOST_THREADS, redo_end};
use rm_machine::recorded::log_entry;
use rm_redo::encode_log_with_digest;
use rm_report::Line;
use std::alloc::Global;

// Archives the log of a thread that has something to archive, under the next id, and gives its object.
fn archive(
    alloc: Global,
    state: &mut State,
    edits: &mut Vec<Edit>,
    thread: ThreadNo,
) -> Result<Object, NoMemory>
    requires sound { IsSound state.old }
    requires thread { IsThread state.old.instance.logs thread }
    requires due { is_due state.old thread ≡ true }
    requires space { HasSpace state.old thread }
    ensures after { OnOk result (state.new ≡ with_archived state.old thread) }
    ensures object { IfOk result (λ x. x ≡ record { name = log_name (ledger state.old).base.next_id; bytes = spelling (online state.old thread) }) }
    ensures edits { OnOk result (EditsFollow edits.old.items edits.new.items state.old.catalog state.new.catalog) }
{
    let end = redo_end(state);
    let id = state.catalog.base().next_id;
    let Some(log) = state.instance.logs.switch(thread, end)? else {
        unreachable!()
    };
    let encoded = encode_log_with_digest(alloc, &log)?;
    state
        .catalog
        .add_log(edits, log_entry(id, true, &log, &encoded))?;
    Ok(Object {
        name: log_name(alloc, id)?,
        bytes: encoded.bytes,
    })
}

// The line of the thread's log, if it is archived now.
fn made_line(state: &State, thread: ThreadNo) -> Line
    requires { IsThread state.now.instance.logs thread }
    ensures { made_lines state.now thread ≡ result ∷ [] }
{
    Line::LogMade {
        id: state.catalog.base().next_id,
        thread,
        sequence: state.instance.logs.sequence(thread),
        first: state.instance.logs.first(thread),
        next: redo_end(state),
    }
}

/// Archives the log of a thread, where that has something to archive, and tells it. A thread whose log has nothing
/// to archive is told where `all` are. An error is want of memory; then nothing is said of the state, the
/// edits, the lines and the objects.
pub(crate) fn archive_thread(
    alloc: Global,
    state: &mut State,
    edits: &mut Vec<Edit>,
    lines: &mut Seq<Line>,
    objects: &mut Seq<Object>,
    thread: ThreadNo,
    all: bool,
) -> Result<(), NoMemory>
    requires sound { IsSound state.old }
    requires number { 0 < thread }
    requires space { is_due state.old thread ≡ true → HasSpace state.old thread }
    ensures after { OnOk result (state.new ≡ after_thread state.old thread) }
    ensures lines { OnOk result (lines.new ≡ lines.old ++ thread_lines all state.old thread) }
    ensures objects { OnOk result (objects.new ≡ objects.old ++ puts_by state.old thread) }
    ensures edits { OnOk result (EditsFollow edits.old.items edits.new.items state.old.catalog state.new.catalog) }
{
    if is_due(state, thread) {
        lines.push(made_line(state, thread))?;
        objects.push(archive(alloc, state, edits, thread)?)?;
    } else if all && has_log(&state.instance.logs, thread) {
        lines.push(Line::NothingToArchive { thread })?;
    }
    Ok(())
}

/// Archives the log of each thread that has something to archive, and tells it; where `all` are told, also the
/// threads whose logs have nothing. The lines and objects are added behind those that are there. An error is want of
/// memory; then nothing is said of the state, the edits, the lines and the objects.
pub(crate) fn archive_all(
    alloc: Global,
    state: &mut State,
    edits: &mut Vec<Edit>,
    lines: &mut Seq<Line>,
    objects: &mut Seq<Object>,
    all: bool,
) -> Result<(), NoMemory>
    requires sound { IsSound state.old }
    requires accepted { archiving_refusal state.old 0 ≡ None }
    ensures after { OnOk result (state.new ≡ after_all state.old) }
    ensures sound { OnOk result (IsSound state.new) }
    ensures lines { OnOk result (lines.new ≡ lines.old ++ lines_from all state.old 1 4) }
    ensures objects { OnOk result (objects.new ≡ objects.old ++ puts_from state.old 1 4) }
    ensures edits { OnOk result (EditsFollow edits.old.items edits.new.items state.old.catalog state.new.catalog) }
{
    for thread in 1..=MOST_THREADS {
        archive_thread(alloc, state, edits, lines, objects, thread, all)?;
    }
    Ok(())
}
