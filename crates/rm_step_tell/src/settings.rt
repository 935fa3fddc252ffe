//! SHOW ALL
ghost use Rattle.std.specs.Prelude.{All, IfOk};
ghost use Rattle.rm_machine.specs.{Effect.{told}, Shown.{IsShowOutcome}};
ghost use Rattle.rm_report.specs.Reply.{IsPlain};

use rm_base::{NoMemory, Seq};
use rm_machine::State;
use rm_report::Line;
use std::alloc::Global;

/// SHOW ALL: which backups are kept, how many channels there are where nothing else is said, and whether changed blocks
/// are tracked. Nothing changes. An error is want of memory.
pub fn show_all(alloc: Global, state: &State) -> Result<Seq<Line>, NoMemory>
    ensures tells { IfOk result (λ lines. IsShowOutcome state.now (told lines)) }
    ensures dates { IfOk result (All IsPlain) }
{
    let base = state.catalog.base();
    let mut lines = Seq::new(alloc);
    lines.push(Line::Retention {
        policy: base.policy,
    })?;
    lines.push(Line::Parallelism {
        channels: base.parallelism,
    })?;
    lines.push(Line::Tracking { on: base.tracking })?;
    Ok(lines)
}
