//! ALTER SYSTEM SWITCH LOGFILE, and ALTER SYSTEM ARCHIVE LOG CURRENT
ghost use Rattle.std.specs.Prelude.{◌≡◌, IfOk, OnOk, Option, None};
ghost use Rattle.rm_base.specs.Store.{Held};
ghost use Rattle.rm_lang_statement.specs.declared.command.Command.TheVariants.{ArchiveLogCurrent, SwitchLogfile};
ghost use Rattle.rm_machine.specs.{Archive.{archive_all_refusal}, Hands.{Hands}, Sound.{IsSound}, SwitchLogfile.{switch_refusal}};
ghost use Rattle.rm_catalog_typed.specs.Changes.{EditsFollow};

use crate::archives::{archive_all, archive_thread};
use rm_base::{NoMemory, Seq, ThreadNo};
use rm_catalog::Edit;
use rm_machine::{Handed, State};
use std::alloc::Global;

/// SWITCH LOGFILE: archives the online log of one thread. An error is want of memory; then nothing is said of
/// the state and the edits.
pub fn switch_logfile(
    alloc: Global,
    state: &mut State,
    edits: &mut Vec<Edit>,
    thread: u64,
) -> Result<Handed, NoMemory>
    requires sound { IsSound state.old }
    requires accepted { switch_refusal state.old thread ≡ None }
    ensures hands { IfOk result (λ x. (held : Option Held) → Hands held state.old (SwitchLogfile thread) x state.new) }
    ensures edits { OnOk result (EditsFollow edits.old.items edits.new.items state.old.catalog state.new.catalog) }
{
    let mut lines = Seq::new(alloc);
    let mut objects = Seq::new(alloc);
    let thread = thread as ThreadNo;
    archive_thread(alloc, state, edits, &mut lines, &mut objects, thread, true)?;
    Ok(Handed {
        lines,
        objects,
        removes: Seq::new(alloc),
    })
}

/// ARCHIVE LOG CURRENT: archives the online log of each thread. An error is want of memory; then nothing is
/// said of the state and the edits.
pub fn archive_log_current(
    alloc: Global,
    state: &mut State,
    edits: &mut Vec<Edit>,
) -> Result<Handed, NoMemory>
    requires sound { IsSound state.old }
    requires accepted { archive_all_refusal state.old ≡ None }
    ensures hands { IfOk result (λ x. (held : Option Held) → Hands held state.old ArchiveLogCurrent x state.new) }
    ensures edits { OnOk result (EditsFollow edits.old.items edits.new.items state.old.catalog state.new.catalog) }
{
    let mut lines = Seq::new(alloc);
    let mut objects = Seq::new(alloc);
    archive_all(alloc, state, edits, &mut lines, &mut objects, true)?;
    Ok(Handed {
        lines,
        objects,
        removes: Seq::new(alloc),
    })
}
