//! SHUTDOWN and STARTUP MOUNT
ghost use Rattle.std.specs.Prelude.{◌≡◌, IfOk, None, OnErr, OnOk, Option};
ghost use Rattle.rm_base.specs.Store.{Held};
ghost use Rattle.rm_lang_statement.specs.declared.command.Command.TheVariants.{Mount};
ghost use Rattle.rm_machine.specs.{Hands.{Hands}, Marks.{ids_refusal}, Sound.{IsSound}};

use rm_base::NoMemory;
use rm_machine::handed::of_line;
use rm_machine::mounts::become_mounted;
use rm_machine::{Handed, State};
use rm_report::Line;
use std::alloc::Global;

/// SHUTDOWN and STARTUP MOUNT: an open database is mounted, where each datafile of which a block is damaged is lost, and
/// what is in place then stands at `now`; a mounted one stays as it is. The catalog stays. An error is want of memory; then
/// nothing changes.
pub fn mount(alloc: Global, state: &mut State) -> Result<Handed, NoMemory>
    requires sound { IsSound state.old }
    requires accepted { ids_refusal state.old ≡ None }
    ensures hands { IfOk result (λ x. (held : Option Held) → Hands held state.old Mount x state.new) }
    ensures catalog { OnOk result (state.new.catalog ≡ state.old.catalog) }
    ensures same { OnErr result (state.new ≡ state.old) }
{
    let handed = of_line(alloc, Line::Mounted)?;
    become_mounted(alloc, state);
    Ok(handed)
}
