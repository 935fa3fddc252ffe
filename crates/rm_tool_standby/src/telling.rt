//! What is told of a standby.
ghost use Rattle.std.specs.Prelude.{◌≡◌, ◌≤◌, ◌++◌, ◌∷◌, [], All, IfOk, None, OnOk, length};
ghost use Rattle.rm_machine.specs.{Recovery.{skipped_lines as the_skipped}, RecoverTest.{file_lines}};
ghost use Rattle.rm_piece.specs.Sets.{IsSet};
ghost use Rattle.rm_report.specs.Reply.{LineHasDate};
ghost use Rattle.rm_tool_standby.specs.Done.{dump_lines as the_dump, file_in, made_line, rolled_line, text_of as the_text};
ghost use Rattle.rm_tool_standby.specs.Refused.{number_refusal};

use crate::numbering::next_number;
use rm_base::{Bad, NoMemory, Seq};
use rm_machine::replies::skipped_lines;
use rm_piece::{Set, SetFile};
use rm_report::{Line, bytes_of, reply_of};
use rm_step_recover::push_rows;
use std::alloc::Global;

/// The lines of a standby that was made: of each record that was skipped, and of the standby.
pub(crate) fn made_lines(
    alloc: Global,
    skipped: &[(u32, Bad)],
    found: &Option<(u32, Set)>,
    new: &Set,
) -> Result<Seq<Line>, NoMemory>
    requires left { number_refusal found.now ≡ None }
    requires valid { IsSet new.now }
    ensures { IfOk result (λ lines. lines ≡ the_skipped skipped.now ++ made_line found.now new.now ∷ []) }
{
    let mut lines = skipped_lines(alloc, skipped)?;
    lines.push(Line::StandbyMade {
        number: next_number(found),
        checkpoint: new.checkpoint,
        inc: new.inc,
        files: new.members.len() as u32,
    })?;
    Ok(lines)
}

/// The line of a standby that was rolled, in which so many blocks got another content.
pub(crate) fn rolled_lines(
    alloc: Global,
    found: &Option<(u32, Set)>,
    new: &Set,
    changed: u32,
) -> Result<Seq<Line>, NoMemory>
    requires left { number_refusal found.now ≡ None }
    requires valid { IsSet new.now }
    ensures { IfOk result (λ lines. lines ≡ rolled_line found.now new.now changed ∷ []) }
{
    let mut lines = Seq::new(alloc);
    lines.push(Line::StandbyRolled {
        number: next_number(found),
        checkpoint: new.checkpoint,
        inc: new.inc,
        files: new.members.len() as u32,
        changed,
    })?;
    Ok(lines)
}

// Adds the lines of a datafile of the standby.
fn push_member(lines: &mut Seq<Line>, member: &SetFile) -> Result<(), NoMemory>
    requires few { length member.now.piece.rows ≤ 65536 }
    ensures { OnOk result (lines.new ≡ lines.old ++ file_lines member.now.creation (file_in member.now)) }
{
    push_rows(
        lines,
        member.creation,
        member.piece.file,
        member.piece.rows.as_slice(),
    )
}

/// The lines of a standby: its address, and those of each datafile with each block that was written.
pub(crate) fn dump_lines(alloc: Global, standby: &Set) -> Result<Seq<Line>, NoMemory>
    requires valid { IsSet standby.now }
    ensures { IfOk result (λ lines. lines ≡ the_dump standby.now) }
{
    let mut lines = Seq::new(alloc);
    lines.push(Line::UntilIs {
        until: standby.checkpoint,
        inc: standby.inc,
        files: standby.members.len() as u32,
    })?;
    for member in standby.members.as_slice() {
        push_member(&mut lines, member)?;
    }
    Ok(lines)
}

/// The lines as text.
pub(crate) fn text_of(alloc: Global, lines: Seq<Line>) -> Result<Seq<u8>, NoMemory>
    requires dated { All LineHasDate lines }
    ensures { IfOk result (λ text. text ≡ the_text lines) }
{
    bytes_of(alloc, &reply_of(lines))
}
