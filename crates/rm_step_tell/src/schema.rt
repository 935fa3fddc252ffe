//! REPORT SCHEMA
ghost use Rattle.std.specs.Prelude.{◌≡◌, ◌<◌, All, IfOk};
ghost use Rattle.rm_machine.specs.{Effect.{told}, Shown.{IsSchemaOutcome, place_of, stands_at}, Sound.{IsSound}, State.{counted, placed}};
ghost use Rattle.rm_report.specs.{Reply.{IsPlain}, declared.line.Line.TheVariants.{Schema}};

use rm_base::{FileNo, NoMemory, Scn, Seq};
use rm_blocks::DataFile;
use rm_history::Datafile;
use rm_machine::State;
use rm_machine::facts::{exists, now, placed};
use rm_report::{Line, SchemaPlace};
use std::alloc::Global;

// The checkpoint of a datafile in place: `now` in an open database.
fn checkpoint(state: &State, file: &DataFile) -> Scn
    ensures { result ≡ (counted state.now file.now).checkpoint }
{
    if state.instance.is_open {
        now(state)
    } else {
        file.checkpoint()
    }
}

// Where the datafile of this number stands, if it is on the current path.
fn stands_at(state: &State, number: FileNo) -> SchemaPlace
    requires some { 0 < number }
    ensures { result ≡ stands_at state.now (placed state.now number) }
{
    match placed(state, u64::from(number)) {
        Some(file) => SchemaPlace::At(checkpoint(state, file)),
        None => SchemaPlace::Lost,
    }
}

// Where the datafile of this number stands.
fn place_of(state: &State, number: FileNo, datafile: &Datafile) -> SchemaPlace
    requires sound { IsSound state.now }
    requires some { 0 < number }
    requires created { 0 < datafile.now.creation }
    ensures { result ≡ place_of state.now number datafile.now }
{
    if exists(state, state.catalog.base().current, now(state), datafile) {
        stands_at(state, number)
    } else {
        SchemaPlace::OffPath
    }
}

// The line of a datafile.
fn line_of(state: &State, number: FileNo, datafile: &Datafile) -> Line
    requires sound { IsSound state.now }
    requires some { 0 < number }
    requires created { 0 < datafile.now.creation }
    ensures { result ≡ Schema number datafile.now.blocks datafile.now.creation datafile.now.inc (place_of state.now number datafile.now) }
{
    Line::Schema {
        file: number,
        blocks: datafile.blocks,
        scn: datafile.creation,
        inc: datafile.inc,
        place: place_of(state, number, datafile),
    }
}

/// REPORT SCHEMA: a line for each datafile, ascending by number: its blocks, the SCN and the incarnation of its creation,
/// and where it stands: in place at a checkpoint, lost, or off the current path, whatever stands in place of it then.
/// Nothing changes. An error is want of memory.
pub fn report_schema(alloc: Global, state: &State) -> Result<Seq<Line>, NoMemory>
    requires sound { IsSound state.now }
    ensures tells { IfOk result (λ lines. IsSchemaOutcome state.now (told lines)) }
    ensures dates { IfOk result (All IsPlain) }
{
    let mut lines = Seq::new(alloc);
    for (index, datafile) in state.catalog.files().iter().enumerate() {
        lines.push(line_of(state, index as FileNo + 1, datafile))?;
    }
    Ok(lines)
}
