//! CATALOG 'name'
ghost use Rattle.std.specs.Prelude.{◌≡◌, ◌≤◌, All, IfErr, IfOk, IsErrOf, None, OnOk, false};
ghost use Rattle.rm_base.specs.{Numbers.{last_scn}, Outside.{Rose}};
ghost use Rattle.rm_commit.specs.declared.commit.Stop.TheVariants.{KeeperFault, StoreFault};
ghost use Rattle.rm_catalog_typed.specs.{Changes.{EditsFollow}, Fitting.{FitsBase}};
ghost use Rattle.rm_history.specs.Tree.{IsThere};
ghost use Rattle.rm_lang_statement.specs.declared.command.Command.TheVariants.{CatalogName};
ghost use Rattle.rm_machine.specs.{CatalogName.{catalog_by, ids_up_to, lacks_ids_behind}, Effect.{refused}, Hands.{Hands, Refuses}};
ghost use Rattle.rm_machine.specs.{Marks.{lacks_ids}, Sound.{IsSound}, State.{tree}, Upkeep.{with_catalog}};
ghost use Rattle.rm_report.specs.Reply.{HasDate, IsPlain};
ghost use Rattle.rm_step_upkeep.specs.Catalogued.{CanBeRecorded, base_by, end_by, inc_of, raised_by, recorded, refusal_by, room_refusal};

use crate::finding::{Entry, find};
use crate::naming::read_name;
use crate::refusing::is_unknown;
use rm_base::{Limit, NoMemory, Refusal, Scn, Store, Text, Unknown};
use rm_catalog::{BaseEntry, Edit};
use rm_commit::Stop;
use rm_machine::handed::of_line;
use rm_machine::replies::copied;
use rm_machine::room::{lacks_bytes, lacks_ids, lacks_room};
use rm_machine::{Handed, State};
use rm_report::Line;
use std::alloc::Global;

// How many ids lie from the next one up to this one.
fn ids_up_to(state: &State, id: u32) -> u64
    ensures value { result ≡ ids_up_to state.now id }
    ensures most { result ≤ 4294967296 }
{
    (u64::from(id) + 1).saturating_sub(u64::from(state.catalog.base().next_id))
}

// Whether too few ids are left behind this one.
fn lacks_ids_behind(state: &State, id: u32) -> bool
    requires sound { IsSound state.now }
    ensures { result ≡ lacks_ids_behind state.now id }
{
    lacks_ids(state, ids_up_to(state, id))
}

// Why nothing is catalogued where no object is found under a name that tells this id.
fn absent_refusal(alloc: Global, state: &State, name: &Text, id: u32) -> Result<Refusal, NoMemory>
    requires sound { IsSound state.now }
    ensures value { IfOk result (λ r. refused r ≡ catalog_by state.now name.now id None) }
    ensures date { IfOk result HasDate }
{
    if lacks_ids_behind(state, id) {
        Ok(Refusal::Rm11(Limit::ObjectIds))
    } else {
        Ok(Refusal::Rm12(Unknown::Object(copied(alloc, name)?)))
    }
}

// Why there is no room for an object of this size and id: no record is left, no bytes, or no id.
fn room_refusal(state: &State, size: u64, id: u32) -> Option<Refusal>
    requires sound { IsSound state.now }
    ensures { result ≡ room_refusal state.now size id }
{
    if lacks_room(state, 1) {
        Some(Refusal::Rm11(Limit::Records))
    } else if lacks_bytes(state, size) {
        Some(Refusal::Rm11(Limit::Bytes))
    } else if lacks_ids_behind(state, id) {
        Some(Refusal::Rm11(Limit::ObjectIds))
    } else {
        None
    }
}

// Why it can't be catalogued: there is no room for it, or its id has a record.
fn entry_refusal(
    alloc: Global,
    state: &State,
    name: &Text,
    entry: &Entry,
) -> Result<Option<Refusal>, NoMemory>
    requires { IsSound state.now }
    ensures { IfOk result (λ o. o ≡ refusal_by state.now name.now entry.now) }
{
    let id = entry.id();
    if is_unknown(state, u64::from(id)) {
        Ok(room_refusal(state, entry.size(), id))
    } else if lacks_ids_behind(state, id) {
        Ok(Some(Refusal::Rm11(Limit::ObjectIds)))
    } else {
        let name = copied(alloc, name)?;
        Ok(Some(Refusal::Rm13 { name }))
    }
}

// The end of its incarnation, which is no lower than it tells.
fn end_of(state: &State, entry: &Entry) -> Scn
    ensures { result ≡ end_by state.now entry.now }
{
    let end = state.catalog.tree().end_of(entry.inc());
    end.max(entry.top())
}

// No id up to its own is free, and its incarnation ends no lower than it tells.
fn raise(state: &mut State, edits: &mut Vec<Edit>, entry: &Entry) -> Result<(), NoMemory>
    requires base { FitsBase state.old.catalog (base_by state.old entry.now) }
    requires there { IsThere (tree state.old) (inc_of entry.now) }
    requires end { end_by state.old entry.now ≤ last_scn }
    ensures value { OnOk result (state.new ≡ with_catalog state.old (raised_by state.old entry.now)) }
    ensures edits { OnOk result (EditsFollow edits.old.items edits.new.items state.old.catalog state.new.catalog) }
{
    let base = state.catalog.base();
    let end = end_of(state, entry);
    let base = BaseEntry {
        next_id: base.next_id.max(entry.id() + 1),
        ..base
    };
    state.catalog.set_base(edits, base)?;
    state.catalog.raise_end(edits, entry.inc(), end)
}

// Puts the record, where it fits.
fn put(
    alloc: Global,
    state: &mut State,
    edits: &mut Vec<Edit>,
    entry: Entry,
) -> Result<(), NoMemory>
    requires { CanBeRecorded state.old entry }
    ensures value { OnOk result (state.new ≡ with_catalog state.old (recorded state.old entry)) }
    ensures edits { OnOk result (EditsFollow edits.old.items edits.new.items state.old.catalog state.new.catalog) }
{
    raise(state, edits, &entry)?;
    match entry {
        Entry::Log(log) => state.catalog.put_log(edits, log),
        Entry::Piece(piece) => state.catalog.put_piece(alloc, edits, piece),
    }
}

/// CATALOG: an object of which no record tells gets one, where its name tells an id and it is a valid log, piece or image copy of
/// the database that can have a record. Then no id up to its own is free, and its incarnation ends no lower than it tells. It is
/// refused where there is no such object (RM-12), where its id has a record (RM-13), or where no record, no bytes or no id is left
/// (RM-11); then the state and the edits stay. An error is a stop: a fault of the store, which is counted, or want of memory; then
/// nothing is said of the state and the edits.
pub fn catalog<D: Store>(
    alloc: Global,
    state: &mut State,
    store: &mut D,
    edits: &mut Vec<Edit>,
    name: &Text,
) -> Result<Result<Handed, Refusal>, Stop>
    requires sound { IsSound state.old }
    requires unsaved { state.old.catalog.saved ≡ None }
    ensures hands { IfOk result (λ x. IfOk x (λ handed. Hands (D.held store.old) state.old (CatalogName name.now) handed state.new)) }
    ensures refuses { IfOk result (λ x. IfErr x (λ refusal. Refuses (D.held store.old) state.old (CatalogName name.now) refusal)) }
    ensures edits { OnOk result (EditsFollow edits.old.items edits.new.items state.old.catalog state.new.catalog) }
    ensures sound { OnOk result (IsSound state.new) }
    ensures ids { IfOk result (λ x. IfOk x (λ _. lacks_ids state.old 0 ≡ false)) }
    ensures refused { IfOk result (λ x. IfErr x (λ _. state.new ≡ state.old)) }
    ensures unedited { IfOk result (λ x. IfErr x (λ _. edits.new.items ≡ edits.old.items)) }
    ensures dates { IfOk result (λ x. IfOk x (λ handed. All IsPlain handed.lines)) }
    ensures date { IfOk result (λ x. IfErr x HasDate) }
    ensures same { D.held store.new ≡ D.held store.old }
    ensures store { IsErrOf result StoreFault → Rose (D.faults store.old) (D.faults store.new) }
    ensures keeper { ¬ IsErrOf result KeeperFault }
    ensures never_falls { D.faults store.old ≤ D.faults store.new }
{
    let Some(named) = read_name(alloc, name.as_str())? else {
        return Ok(Err(absent_refusal(alloc, state, name, 0)?));
    };
    let Some(entry) = find(alloc, state, store, name, named)? else {
        return Ok(Err(absent_refusal(alloc, state, name, named.id())?));
    };
    if let Some(refusal) = entry_refusal(alloc, state, name, &entry)? {
        return Ok(Err(refusal));
    }
    let handed = of_line(alloc, Line::Catalogued { id: entry.id() })?;
    put(alloc, state, edits, entry)?;
    Ok(Ok(handed))
}
