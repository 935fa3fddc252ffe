//! CONFIGURE DEVICE TYPE DISK PARALLELISM
ghost use Rattle.std.specs.Prelude.{◌≡◌, ◌≤◌, IfOk, None, OnOk, Option};
ghost use Rattle.rm_base.specs.Store.{Held};
ghost use Rattle.rm_machine.specs.{Configure.{parallelism_refusal, with_channels}, Hands.{Hands}, Sound.{IsSound}, Step.{IsStatement}};
ghost use Rattle.rm_machine.specs.Upkeep.{with_catalog};
ghost use Rattle.rm_catalog_typed.specs.Changes.{EditsFollow};
ghost use Rattle.rm_lang_statement.specs.declared.command.Command.TheVariants.{Parallelism};

use rm_base::{Limit, NoMemory, Refusal};
use rm_catalog::{BaseEntry, Edit};
use rm_machine::handed::of_line;
use rm_machine::room::ids_refusal;
use rm_machine::{Handed, State};
use rm_report::Line;
use std::alloc::Global;

/// Why CONFIGURE DEVICE TYPE DISK PARALLELISM is refused, if it is: more than 16 channels, or too few object ids are
/// left (RM-11).
pub fn parallelism_refusal(state: &State, channels: u64) -> Option<Refusal>
    requires sound { IsSound state.now }
    ensures value { result ≡ parallelism_refusal state.now channels }
{
    if channels > 16 {
        Some(Refusal::Rm11(Limit::Channels))
    } else {
        ids_refusal(state)
    }
}

// A count of channels that is not refused.
fn counted(state: &State, channels: u64) -> u32
    requires command { IsStatement (Parallelism channels) }
    requires accepted { parallelism_refusal state.now channels ≡ None }
    ensures value { result ≡ channels }
    ensures some { 1 ≤ result }
    ensures few { result ≤ 16 }
{
    channels as u32
}

// Sets how many channels there are, and no other base fact.
fn set_channels(state: &mut State, edits: &mut Vec<Edit>, channels: u32) -> Result<(), NoMemory>
    requires sound { IsSound state.old }
    requires some { 1 ≤ channels }
    requires few { channels ≤ 16 }
    ensures value { OnOk result (state.new ≡ with_catalog state.old (with_channels state.old.catalog channels)) }
    ensures edits { OnOk result (EditsFollow edits.old.items edits.new.items state.old.catalog state.new.catalog) }
{
    let base = BaseEntry {
        parallelism: channels,
        ..state.catalog.base()
    };
    state.catalog.set_base(edits, base)
}

/// CONFIGURE DEVICE TYPE DISK PARALLELISM: so many channels there are, where nothing else is said. An error is want of
/// memory; then nothing is said of the state and the edits.
pub fn configure_parallelism(
    alloc: Global,
    state: &mut State,
    edits: &mut Vec<Edit>,
    channels: u64,
) -> Result<Handed, NoMemory>
    requires command { IsStatement (Parallelism channels) }
    requires sound { IsSound state.old }
    requires accepted { parallelism_refusal state.old channels ≡ None }
    ensures hands { IfOk result (λ x. (held : Option Held) → Hands held state.old (Parallelism channels) x state.new) }
    ensures edits { OnOk result (EditsFollow edits.old.items edits.new.items state.old.catalog state.new.catalog) }
{
    let channels = counted(state, channels);
    let handed = of_line(alloc, Line::Parallelism { channels })?;
    set_channels(state, edits, channels)?;
    Ok(handed)
}
