//! LIST CORRUPTION
ghost use Rattle.std.specs.Prelude.{All, IfOk};
ghost use Rattle.rm_machine.specs.{Corrupt.{IsCorruptionOutcome}, Effect.{told}};
ghost use Rattle.rm_report.specs.Reply.{IsPlain};

use rm_base::{NoMemory, Seq};
use rm_machine::State;
use rm_report::Line;
use std::alloc::Global;

/// LIST CORRUPTION: a line for each damaged block in place, ascending by datafile and block. Nothing changes. An error is
/// want of memory.
pub fn list_corruption(alloc: Global, state: &State) -> Result<Seq<Line>, NoMemory>
    ensures tells { IfOk result (λ lines. IsCorruptionOutcome state.now (told lines)) }
    ensures dates { IfOk result (All IsPlain) }
{
    let mut lines = Seq::new(alloc);
    for damaged in state.instance.damaged.as_slice() {
        lines.push(Line::BlockDamaged {
            file: damaged.file,
            block: damaged.block,
        })?;
    }
    Ok(lines)
}
