//! The switches of redo threads: what one obeys, and which threads are enabled.
ghost use Rattle.std.specs.{Prelude.{◌≡◌, ◌<◌, ◌≤◌, Contains, IfSome, IsTrue, IsSomeAnd, ◌↔◌}, Option.{option_map_or}};
ghost use Rattle.rm_history.specs.{Threads.{after_switch, applies, is_on, last_switch}, Tree.{IsThere}};
ghost use Rattle.rm_history.specs.declared.world.Switch.{Switch as Switched};
ghost use Rattle.rm_catalog.specs.Keys.{InOrder, incarnation};
ghost use Rattle.rm_catalog.specs.Switches.{HasSwitchBefore, IsAbove, IsAt, SwitchRule, applies_in, began_with, last_in, leaves_one, stays, switch_of, switches, told_by, was_enabled};

use crate::find::{base, incarnation, is_there, switch};
use crate::objects::{is_thread, owner_in};
use crate::record::{Record, SwitchEntry};
use rm_base::{IncNo, Scn, ThreadNo};
use rm_history::{Switch, Tree};

fn switch_of(entry: &SwitchEntry) -> Switch
    ensures { result ≡ switch_of entry.now }
{
    Switch {
        thread: entry.thread,
        inc: entry.inc,
        scn: entry.scn,
        on: entry.on,
    }
}

/// The switch of a record, where it is one.
pub fn told_by(row: &Record) -> Option<Switch>
    ensures { result ≡ told_by row.now }
{
    match row {
        Record::Switch(entry) => Some(switch_of(entry)),
        _ => None,
    }
}

/// How many redo threads the database began with.
pub(crate) fn began_with(records: &[Record]) -> ThreadNo
    requires { InOrder records.now }
    ensures { result ≡ began_with records.now }
{
    match base(records) {
        Some(base) => base.threads,
        None => 0,
    }
}

// Whether the switch is one of the thread, up to `g`, at an address that the path of `m` owns.
fn applies_in(records: &[Record], m: IncNo, g: Scn, thread: ThreadNo, x: Switch) -> bool
    requires { InOrder records.now }
    ensures { result ≡ applies_in records.now m g thread x }
{
    x.thread == thread && x.scn <= g && owner_in(records, 256, m, x.scn) == x.inc
}

// The last of the switches so far, after one more.
fn after(
    records: &[Record],
    last: Option<Switch>,
    x: Switch,
    m: IncNo,
    g: Scn,
    thread: ThreadNo,
) -> Option<Switch>
    requires { InOrder records.now }
    ensures { result ≡ after_switch (applies_in records.now m g thread) last x }
{
    if applies_in(records, m, g, thread, x) && x.is_last(last) {
        Some(x)
    } else {
        last
    }
}

// The same of a switch that may be there.
fn after_entry(
    records: &[Record],
    last: Option<Switch>,
    entry: Option<SwitchEntry>,
    m: IncNo,
    g: Scn,
    thread: ThreadNo,
) -> Option<Switch>
    requires { InOrder records.now }
    ensures { result ≡ option_map_or (λ x. after_switch (applies_in records.now m g thread) last (switch_of x)) entry last }
{
    match entry {
        Some(entry) => after(records, last, switch_of(&entry), m, g, thread),
        None => last,
    }
}

// Of the switches 1 to `n` that apply, the one of the greatest SCN.
fn last_in(records: &[Record], n: u32, m: IncNo, g: Scn, thread: ThreadNo) -> Option<Switch>
    requires { InOrder records.now }
    ensures { result ≡ last_in n (applies_in records.now m g thread) records.now }
{
    let mut last = None;
    for index in 0..n {
        last = after_entry(records, last, switch(records, index + 1), m, g, thread);
    }
    last
}

// Whether a thread is enabled where the switch stands, by those before it.
fn was_enabled(records: &[Record], x: &SwitchEntry, thread: ThreadNo) -> bool
    requires order { InOrder records.now }
    requires number { 1 ≤ x.now.id }
    ensures { result ≡ was_enabled records.now x.now thread }
{
    match last_in(records, x.id - 1, x.inc, x.scn, thread) {
        Some(last) => last.on,
        None => thread <= began_with(records),
    }
}

// Whether it is another thread than that of the switch, and enabled there.
fn stays(records: &[Record], x: &SwitchEntry, thread: ThreadNo) -> bool
    requires order { InOrder records.now }
    requires number { 1 ≤ x.now.id }
    ensures { result ≡ stays records.now x.now thread }
{
    thread != x.thread && was_enabled(records, x, thread)
}

// Whether the switch leaves a thread enabled.
fn leaves_one(records: &[Record], x: &SwitchEntry) -> bool
    requires order { InOrder records.now }
    requires number { 1 ≤ x.now.id }
    ensures { result ≡ leaves_one records.now x.now }
{
    x.on || stays(records, x, 1)
        || stays(records, x, 2)
        || stays(records, x, 3)
        || stays(records, x, 4)
}

// Whether the switch lies above one before it, if that is there and of its incarnation.
fn lies_above(x: &SwitchEntry, before: Option<SwitchEntry>) -> bool
    ensures { IsTrue result ↔ IfSome before (λ y. y.inc ≡ x.now.inc → y.scn < x.now.scn) }
{
    match before {
        Some(before) => before.inc != x.inc || before.scn < x.scn,
        None => true,
    }
}

// Whether the switch lies above those before it that are of its incarnation.
fn is_above(records: &[Record], x: &SwitchEntry) -> bool
    requires { InOrder records.now }
    ensures { IsTrue result ↔ IsAbove records.now x.now }
{
    for id in 0..x.id {
        if !lies_above(x, switch(records, id)) {
            return false;
        }
    }
    true
}

// Whether the incarnation is there, and the switch's SCN is one of it.
fn is_at(records: &[Record], x: &SwitchEntry) -> bool
    requires { InOrder records.now }
    ensures { IsTrue result ↔ IsSomeAnd (incarnation x.now.inc records.now) (IsAt x.now) }
{
    match incarnation(records, x.inc) {
        Some(i) => i.reset <= x.scn && x.scn < i.end,
        None => false,
    }
}

fn has_switch_before(records: &[Record], id: u32) -> bool
    requires { InOrder records.now }
    ensures { IsTrue result ↔ HasSwitchBefore id records.now }
{
    if id > 1 {
        is_there(records, 10, id - 1)
    } else {
        true
    }
}

/// Whether the switch obeys.
pub(crate) fn switch_obeys(records: &[Record], x: &SwitchEntry) -> bool
    requires { InOrder records.now }
    ensures { IsTrue result ↔ SwitchRule records.now x.now }
{
    1 <= x.id
        && has_switch_before(records, x.id)
        && is_thread(x.thread)
        && is_at(records, x)
        && is_above(records, x)
        && was_enabled(records, x, x.thread) != x.on
        && leaves_one(records, x)
        && 1 <= x.sequence
}

// The last of the switches so far, after the one that a record tells.
fn after_told(
    last: Option<Switch>,
    told: Option<Switch>,
    tree: &Tree,
    m: IncNo,
    g: Scn,
    thread: ThreadNo,
) -> Option<Switch>
    requires there { IsThere tree.now m }
    requires scn { IfSome told (λ x. 0 < x.scn) }
    ensures { result ≡ option_map_or (λ x. after_switch (applies tree.now m g thread) last x) told last }
{
    match told {
        Some(switch) => switch.after(last, tree, m, g, thread),
        None => last,
    }
}

/// The last switch of a thread up to the address (m, g).
pub(crate) fn last_switch(
    records: &[Record],
    tree: &Tree,
    m: IncNo,
    g: Scn,
    thread: ThreadNo,
) -> Option<Switch>
    requires there { IsThere tree.now m }
    requires scns { (x : Switched) → Contains (switches records.now) x → 0 < x.scn }
    ensures { result ≡ last_switch (applies tree.now m g thread) (switches records.now) }
{
    let mut last = None;
    for row in records {
        last = after_told(last, told_by(row), tree, m, g, thread);
    }
    last
}

/// What its last switch says of a thread; without one, whether the database began with it.
pub(crate) fn is_on(began: ThreadNo, thread: ThreadNo, last: Option<Switch>) -> bool
    ensures { result ≡ is_on began thread last }
{
    match last {
        Some(switch) => switch.on,
        None => thread <= began,
    }
}
