//! ALTER DATABASE OPEN
ghost use Rattle.std.specs.Prelude.{◌≡◌, IfOk, None, OnErr, OnOk, Option};
ghost use Rattle.rm_base.specs.Store.{Held};
ghost use Rattle.rm_lang_statement.specs.declared.command.Command.TheVariants.{OpenPlain};
ghost use Rattle.rm_machine.specs.{Hands.{Hands}, Open.{is_recovered, open_refusal, opened}, Sound.{IsSound}, Tracked.{with_tracker}};

use crate::place::keep_in_place;
use rm_base::{NoMemory, Refusal, Scn, Seq};
use rm_machine::facts::{has_lost, now};
use rm_machine::handed::of_line;
use rm_machine::room::ids_refusal;
use rm_machine::tracking::first_tracker;
use rm_machine::{Handed, State};
use rm_report::Line;
use std::alloc::Global;
use std::mem;

// Whether the database can be opened as it is.
fn is_recovered(state: &State) -> bool
    requires sound { IsSound state.now }
    ensures { result ≡ is_recovered state.now }
{
    let instance = &state.instance;
    instance.point == Some(now(state))
        && !has_lost(&instance.logs)
        && instance.logs.inc() == state.catalog.base().current
}

/// Why OPEN is refused, if it is: the database is open (RM-04), it was not recovered to its end, a log is lost or
/// the logs are another incarnation's (RM-10), or too few object ids are left (RM-11).
pub fn open_refusal(state: &State) -> Option<Refusal>
    requires sound { IsSound state.now }
    ensures value { result ≡ open_refusal state.now }
{
    if state.instance.is_open {
        Some(Refusal::Rm04 { mounted: false })
    } else if is_recovered(state) {
        ids_refusal(state)
    } else {
        Some(Refusal::Rm10)
    }
}

/// Opens a sound database at an SCN of the current incarnation: what does not exist there goes out of place. Its bitmaps
/// stay as they are.
pub(crate) fn open_at(alloc: Global, state: &mut State, at: Scn)
    requires sound { IsSound state.old }
    ensures value { state.new ≡ with_tracker (opened state.old at) state.old.instance.tracker }
{
    let current = state.catalog.base().current;
    let mut place = mem::replace(&mut state.instance.place, Seq::new(alloc)).into_vec();
    keep_in_place(state, &mut place, current, at);
    state.instance.place = Seq::from_vec(place);
    state.instance.point = None;
    state.instance.is_open = true;
}

/// OPEN: opens the database as it was recovered, at its end, and tracks changes from there on where that is asked for.
/// The catalog stays. An error is want of memory; then nothing changes.
pub fn open(alloc: Global, state: &mut State) -> Result<Handed, NoMemory>
    requires sound { IsSound state.old }
    requires accepted { open_refusal state.old ≡ None }
    ensures hands { IfOk result (λ x. (held : Option Held) → Hands held state.old OpenPlain x state.new) }
    ensures catalog { OnOk result (state.new.catalog ≡ state.old.catalog) }
    ensures same { OnErr result (state.new ≡ state.old) }
{
    let (inc, scn) = (state.catalog.base().current, now(state));
    let tracker = first_tracker(alloc, &state.catalog, true)?;
    let handed = of_line(alloc, Line::Opened { inc, scn })?;
    open_at(alloc, state, scn);
    state.instance.tracker = tracker;
    Ok(handed)
}
