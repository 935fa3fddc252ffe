//! DUMP DATAFILE f BLOCK b
ghost use Rattle.std.specs.Prelude.{◌≡◌, IfOk, Option, None};
ghost use Rattle.rm_base.specs.Store.{Held};
ghost use Rattle.rm_lang_statement.specs.declared.command.Command.TheVariants.{Dump};
ghost use Rattle.rm_machine.specs.{Dump.{dump_refusal}, Hands.{Tells}, Sound.{IsSound}};

use rm_base::{Absent, BlockNo, FileNo, NoMemory, Refusal, Seq};
use rm_machine::State;
use rm_machine::damage::is_damaged;
use rm_machine::facts::{on_path, placed, placed_row};
use rm_report::Line;
use std::alloc::Global;

/// Why DUMP is refused, if it is: there is no such datafile on the current path, or no such block (RM-05, in this
/// order), the datafile is lost (RM-09), or the block is damaged (RM-17).
pub fn dump_refusal(state: &State, file: u64, block: u64) -> Option<Refusal>
    requires sound { IsSound state.now }
    ensures value { result ≡ dump_refusal state.now file block }
{
    let Some(datafile) = on_path(state, file) else {
        return Some(Refusal::Rm05(Absent::File(file)));
    };
    if block >= u64::from(datafile.blocks) {
        Some(Refusal::Rm05(Absent::Block { block, file }))
    } else if placed(state, file).is_none() {
        Some(Refusal::Rm09 { file: file as u32 })
    } else if is_damaged(state, file, block) {
        Some(Refusal::Rm17 {
            file: file as u32,
            block: block as u32,
        })
    } else {
        None
    }
}

/// DUMP: the line of the row in place. Nothing changes. An error is want of memory.
pub fn dump(alloc: Global, state: &State, file: u64, block: u64) -> Result<Seq<Line>, NoMemory>
    requires sound { IsSound state.now }
    requires accepted { dump_refusal state.now file block ≡ None }
    ensures tells { IfOk result (λ lines. (held : Option Held) → Tells held state.now (Dump file block) lines) }
{
    let Some(row) = placed_row(state, file, block as BlockNo) else {
        unreachable!()
    };
    let mut lines = Seq::new(alloc);
    lines.push(Line::Dumped {
        file: file as FileNo,
        block: row.block,
        version: row.version,
        content: row.content,
    })?;
    Ok(lines)
}
