//! Lines that several statements have, and what stands in such lines.
ghost use Rattle.std.specs.Prelude.{◌≡◌, All, IfOk};
ghost use Rattle.rm_machine.specs.{Lists.{packing_by, shape_by}, Recovery.{skipped_lines}};
ghost use Rattle.rm_report.specs.Reply.{IsPlain};

use rm_base::{Bad, Kind, NoMemory, Scn, Seq, Text};
use rm_report::{Line, Packing, Shape};
use std::alloc::Global;

/// A line for each record that was skipped.
pub fn skipped_lines(alloc: Global, skipped: &[(u32, Bad)]) -> Result<Seq<Line>, NoMemory>
    ensures lines { IfOk result (λ lines. lines ≡ skipped_lines skipped.now) }
    ensures dates { IfOk result (All IsPlain) }
{
    let mut lines = Seq::new(alloc);
    for (id, bad) in skipped {
        lines.push(Line::Skipped { id: *id, bad: *bad })?;
    }
    Ok(lines)
}

/// What a piece or a part of a set has that is of this kind and begins here, as it is told.
pub fn shape_by(kind: Kind, from: Scn) -> Shape
    ensures { result ≡ shape_by kind from }
{
    match kind {
        Kind::Level0 => Shape::Level0,
        Kind::Level1 => Shape::Level1 { from },
        Kind::Full | Kind::Place => Shape::Full,
    }
}

/// How a piece is packed that is an image copy or not.
pub fn packing_by(copy: bool) -> Packing
    ensures { result ≡ packing_by copy }
{
    if copy { Packing::Copy } else { Packing::Piece }
}

/// An equal text. An error is want of memory.
pub fn copied(alloc: Global, text: &Text) -> Result<Text, NoMemory>
    ensures { IfOk result (λ copy. copy ≡ text.now) }
{
    Ok(Text::from_string(String::from_str(alloc, text.as_str())?))
}
