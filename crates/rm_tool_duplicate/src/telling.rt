//! What a duplicate writes.
ghost use Rattle.std.specs.Prelude.{◌≡◌, ◌≤◌, ◌++◌, IfOk, OnOk, length};
ghost use Rattle.rm_lang_words.specs.Reading.{duplicate_of};
ghost use Rattle.rm_tool_duplicate.specs.Duplicated.{file_lines, lines_of as the_lines_of, lines_text as the_text_of};

use rm_base::{FileNo, NoMemory, Seq};
use rm_dup::Duplicate;
use rm_lang_words::DuplicateWords;
use rm_machine::replies::skipped_lines;
use rm_report::{Line, bytes_of, reply_of};
use std::alloc::Global;

// Adds a line for each datafile, by the numbers that they had.
fn push_files(lines: &mut Seq<Line>, from: &[FileNo]) -> Result<(), NoMemory>
    requires few { length from.now ≤ 64 }
    ensures { OnOk result (lines.new ≡ lines.old ++ file_lines from.now) }
{
    let mut number = 1;
    for file in from {
        lines.push(Line::DuplicatedDatafile {
            file: *file,
            number,
        })?;
        number += 1;
    }
    Ok(())
}

// The lines of a duplicate.
fn lines_of(
    alloc: Global,
    said: &DuplicateWords,
    duplicate: &Duplicate,
) -> Result<Seq<Line>, NoMemory>
    requires few { length duplicate.now.from ≤ 64 }
    ensures { IfOk result (λ lines. lines ≡ the_lines_of (duplicate_of said.now) duplicate.now) }
{
    let mut lines = skipped_lines(alloc, duplicate.skipped.as_slice())?;
    push_files(&mut lines, duplicate.from.as_slice())?;
    lines.push(Line::DuplicatedDatabase {
        dbid: said.dbid,
        until: said.until,
        files: duplicate.from.len() as u32,
    })?;
    Ok(lines)
}

/// The text of a duplicate's lines.
pub(crate) fn lines_text(
    alloc: Global,
    said: &DuplicateWords,
    duplicate: &Duplicate,
) -> Result<Seq<u8>, NoMemory>
    requires few { length duplicate.now.from ≤ 64 }
    ensures { IfOk result (λ text. text ≡ the_text_of (duplicate_of said.now) duplicate.now) }
{
    let lines = lines_of(alloc, said, duplicate)?;
    bytes_of(alloc, &reply_of(lines))
}
