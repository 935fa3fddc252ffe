//! The objects of a backup are recorded, one after another.
ghost use Rattle.std.specs.Prelude.{◌≡◌, ◌≤◌, ◌∷◌, ◌++◌, [], IfOk, IfSome, OnOk, length, map};
ghost use Rattle.rm_catalog_typed.specs.Changes.{EditsFollow};
ghost use Rattle.rm_channel.specs.Jobs.{lists};
ghost use Rattle.rm_machine.specs.{MadeObjects.{CanRecord, packed}, MadePieces.{line_under}, Sound.{IsSound}, State.{ledger}};
ghost use Rattle.rm_step_backup.specs.{Making.{FitsNext, after_entry, name_under, object_under}, Recorded.{HasRecorded}};

use crate::making::{Entry, Made, make_all};
use crate::reading::reads_of;
use rm_base::{NoMemory, Row, Scn, Seq, Text};
use rm_catalog::{Edit, PieceEntry, SetEntry};
use rm_commit::Object;
use rm_evidence::{piece_name, set_name};
use rm_lang_statement::BackupForm;
use rm_machine::{FileBackup, Handed, Job, State};
use rm_report::Line;
use std::alloc::Global;
use std::thread::Threads;

// The line of a datafile under an id.
fn line_under(id: u32, told: FileBackup) -> Line
    ensures { result ≡ line_under id told }
{
    Line::BackedUp {
        packing: told.packing,
        id,
        file: told.file,
        shape: told.shape,
        checkpoint: told.checkpoint,
        rows: told.rows,
        reads: told.reads,
    }
}

// Adds the line of each of them.
fn tell_under(lines: &mut Seq<Line>, id: u32, told: &[FileBackup]) -> Result<(), NoMemory>
    ensures { OnOk result (lines.new ≡ lines.old ++ map (line_under id) told.now) }
{
    for each in told {
        lines.push(line_under(id, *each))?;
    }
    Ok(())
}

// The name of an object under an id.
fn name_under(alloc: Global, id: u32, entry: &Entry) -> Result<Text, NoMemory>
    ensures { IfOk result (λ name. name ≡ name_under id entry.now) }
{
    match entry {
        Entry::OfPiece(entry) => piece_name(alloc, entry.copy, id),
        Entry::OfSet(_) => set_name(alloc, id),
    }
}

// Adds a record under the next id, with the moment.
fn add(
    alloc: Global,
    state: &mut State,
    edits: &mut Vec<Edit>,
    entry: Entry,
) -> Result<(), NoMemory>
    requires fits { FitsNext state.old entry }
    ensures after { OnOk result (state.new ≡ after_entry state.old entry) }
    ensures edits { OnOk result (EditsFollow edits.old.items edits.new.items state.old.catalog state.new.catalog) }
{
    let base = state.catalog.base();
    let (id, moment) = (base.next_id, base.moment);
    match entry {
        Entry::OfPiece(entry) => {
            let entry = PieceEntry {
                id,
                moment,
                ..entry
            };
            state.catalog.add_piece(alloc, edits, entry)
        }
        Entry::OfSet(entry) => {
            let entry = SetEntry {
                id,
                moment,
                ..entry
            };
            state.catalog.add_set(alloc, edits, entry)
        }
    }
}

// Records an object under the next id, and adds it and its lines. Without memory nothing is said of the state, the edits and
// what is handed out.
fn record_made(
    alloc: Global,
    state: &mut State,
    edits: &mut Vec<Edit>,
    handed: &mut Handed,
    made: Made,
) -> Result<(), NoMemory>
    requires fits { FitsNext state.old made.entry }
    ensures after { OnOk result (state.new ≡ after_entry state.old made.entry) }
    ensures edits { OnOk result (EditsFollow edits.old.items edits.new.items state.old.catalog state.new.catalog) }
    ensures lines { OnOk result (handed.new.lines ≡ handed.old.lines ++ map (line_under (ledger state.old).base.next_id) made.told) }
    ensures objects { OnOk result (handed.new.objects ≡ handed.old.objects ++ object_under (ledger state.old).base.next_id made ∷ []) }
    ensures removes { OnOk result (handed.new.removes ≡ handed.old.removes) }
{
    let Made { entry, told, bytes } = made;
    let id = state.catalog.base().next_id;
    tell_under(&mut handed.lines, id, told.as_slice())?;
    let name = name_under(alloc, id, &entry)?;
    handed.objects.push(Object { name, bytes })?;
    add(alloc, state, edits, entry)
}

/// Records what the backup makes of these datafiles, of which these rows were read: of each a piece or an image copy, or of
/// several a set. They are made by at most so many threads, and recorded in their order. Without memory nothing is said of
/// the state, the edits and what is handed out.
pub(crate) fn record_all<R: Threads + Sync>(
    rt: &R,
    alloc: Global,
    threads: u32,
    state: &mut State,
    edits: &mut Vec<Edit>,
    handed: &mut Handed,
    form: &BackupForm,
    tag: &Text,
    checkpoint: Scn,
    jobs: &[Job],
    rows: Vec<Vec<Row>>,
) -> Result<(), NoMemory>
    requires sound { IsSound state.old }
    requires some { IfSome form.now.files_per_set (λ n. 1 ≤ n) }
    requires many { length rows.items ≡ length jobs.now }
    requires can { CanRecord state.old form.now tag.now (packed (ledger state.old) form.now checkpoint jobs.now (lists rows.items)) }
    ensures { OnOk result (HasRecorded state.old form.now tag.now (packed (ledger state.old) form.now checkpoint jobs.now (lists rows.items)) edits.old.items edits.new.items handed.old handed.new state.new) }
{
    let reads = reads_of(alloc, form, jobs, rows)?;
    let all = make_all(rt, alloc, state, form, tag, checkpoint, reads, threads)?;
    for made in all {
        record_made(alloc, state, edits, handed, made)?;
    }
    Ok(())
}
