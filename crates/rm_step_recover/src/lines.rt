//! The lines of the replies.
ghost use Rattle.std.specs.Prelude.{◌≡◌, ◌≤◌, ◌++◌, ◌∷◌, [], OnOk, All, length};
ghost use Rattle.rm_machine.specs.{RecoverTest.{block_lines, file_lines, files_lines, test_lines}, Restore.{origin_line, origin_lines}};
ghost use Rattle.rm_machine.specs.State.{world};
ghost use Rattle.rm_step_recover.specs.Lines.{HasLines, rows_lines};

use rm_apply::Origin;
use rm_base::{FileNo, IncNo, NoMemory, Row, Scn, Seq};
use rm_blocks::DataFile;
use rm_machine::State;
use rm_machine::facts::creation_of;
use rm_report::Line;

// From where a datafile is restored.
fn origin_line(file: FileNo, origin: Origin) -> Line
    ensures { result ≡ origin_line file origin }
{
    match origin {
        Origin::Backup(id, checkpoint) => Line::RestoredFrom {
            file,
            id,
            checkpoint,
        },
        Origin::Created => Line::CreatedEmpty { file },
    }
}

/// Adds a line for each datafile: from where it is restored.
pub(crate) fn push_origins(
    lines: &mut Seq<Line>,
    numbers: &[FileNo],
    origins: &[Origin],
) -> Result<(), NoMemory>
    ensures { OnOk result (lines.new ≡ lines.old ++ origin_lines numbers.now origins.now) }
{
    for (number, origin) in numbers.iter().zip(origins) {
        lines.push(origin_line(*number, *origin))?;
    }
    Ok(())
}

// Adds the line of a block, where it was written.
fn push_block(lines: &mut Seq<Line>, creation: Scn, row: &Row) -> Result<(), NoMemory>
    ensures { OnOk result (lines.new ≡ lines.old ++ block_lines creation (row.now ∷ [])) }
{
    if creation < row.version {
        lines.push(Line::BlockIs {
            block: row.block,
            version: row.version,
            content: row.content,
        })?;
    }
    Ok(())
}

// Adds a line for each block that was written.
fn push_blocks(lines: &mut Seq<Line>, creation: Scn, rows: &[Row]) -> Result<(), NoMemory>
    ensures { OnOk result (lines.new ≡ lines.old ++ block_lines creation rows.now) }
{
    for row in rows {
        push_block(lines, creation, row)?;
    }
    Ok(())
}

/// Adds the lines of the rows of a datafile that was created there, at most 65,536: of the datafile, and of each block that was written.
pub fn push_rows(
    lines: &mut Seq<Line>,
    creation: Scn,
    file: FileNo,
    rows: &[Row],
) -> Result<(), NoMemory>
    requires few { length rows.now ≤ 65536 }
    ensures { OnOk result (lines.new ≡ lines.old ++ rows_lines creation file rows.now) }
{
    let written = rows.iter().filter(|row| creation < row.version).count();
    lines.push(Line::FileIs {
        file,
        blocks: rows.len() as u32,
        written: written as u32,
    })?;
    push_blocks(lines, creation, rows)
}

// Adds the lines of a datafile that was created there.
fn push_file(lines: &mut Seq<Line>, creation: Scn, file: &DataFile) -> Result<(), NoMemory>
    requires { length file.now.rows ≤ 65536 }
    ensures { OnOk result (lines.new ≡ lines.old ++ file_lines creation file.now) }
{
    push_rows(lines, creation, file.file(), file.rows())
}

// Adds the lines of these datafiles.
fn push_files(lines: &mut Seq<Line>, state: &State, files: &[DataFile]) -> Result<(), NoMemory>
    requires each { All HasLines files.now }
    ensures { OnOk result (lines.new ≡ lines.old ++ files_lines (world state.now) files.now) }
{
    for file in files {
        push_file(lines, creation_of(state, file.file()), file)?;
    }
    Ok(())
}

/// Adds the lines of a test: of the target, and of each datafile there with each block that was written.
pub(crate) fn push_test(
    lines: &mut Seq<Line>,
    state: &State,
    i: IncNo,
    at: Scn,
    files: &[DataFile],
) -> Result<(), NoMemory>
    requires few { length files.now ≤ 64 }
    requires each { All HasLines files.now }
    ensures { OnOk result (lines.new ≡ lines.old ++ test_lines (world state.now) i at files.now) }
{
    lines.push(Line::UntilIs {
        until: at,
        inc: i,
        files: files.len() as u32,
    })?;
    push_files(lines, state, files)
}
