//! A site is saved.
ghost use Rattle.std.specs.Prelude.{◌≡◌, false, IfOk, OnOk, None};
ghost use Rattle.rm_machine.specs.{Damage.{without_damaged}, Marks.{lacks_ids}, Saving.{head_of, object_of, parts_of, with_ids, with_site}};
ghost use Rattle.rm_machine.specs.{Sound.{IsSound}, State.{ledger}};
ghost use Rattle.rm_catalog_typed.specs.Changes.{EditsFollow};

use crate::site_parts::parts_of;
use rm_base::{NoMemory, Seq};
use rm_catalog::{BaseEntry, Edit, HeadEntry};
use rm_catalog_typed::Saved;
use rm_commit::Object;
use rm_machine::State;
use rm_machine::damage::lose_damaged;
use std::alloc::Global;

// What the head tells: the mode, and the point if there is one.
fn head_of(state: &State) -> HeadEntry
    ensures { result ≡ head_of state.now }
{
    let (inc, scn) = match state.instance.point {
        Some(at) => (state.catalog.base().current, at),
        None => (0, 0),
    };
    HeadEntry {
        opened: state.instance.is_open,
        inc,
        scn,
    }
}

// Saves what runs, as it is in place.
fn put_all(alloc: Global, state: &mut State, edits: &mut Vec<Edit>) -> Result<Seq<Object>, NoMemory>
    requires sound { IsSound state.old }
    requires unsaved { state.old.catalog.saved ≡ None }
    requires ids { lacks_ids state.old 0 ≡ false }
    ensures objects { IfOk result (λ objects. objects ≡ with_ids object_of (ledger state.old).base.next_id (parts_of state.old)) }
    ensures catalog { OnOk result (state.new.catalog ≡ with_site state.old) }
    ensures edits { OnOk result (EditsFollow edits.old.items edits.new.items state.old.catalog state.new.catalog) }
{
    let parts = parts_of(alloc, state)?;
    let head = head_of(state);
    let base = BaseEntry {
        next_id: parts.next,
        ..state.catalog.base()
    };
    state.catalog.set_base(edits, base)?;
    state
        .catalog
        .set_saved(edits, Saved::new(parts.entries, head))?;
    Ok(parts.objects)
}

/// Saves what runs: each datafile of which a block is damaged is lost first. The catalog comes to tell of what is left, with
/// the edits that make the records follow, and the objects that are to be put are handed out. Each datafile in place and then
/// each online log that is not lost takes the next id. At least 68 ids are left. An error is want of memory, after which
/// nothing is said of the catalog.
pub fn put_place(
    alloc: Global,
    state: &mut State,
    edits: &mut Vec<Edit>,
) -> Result<Seq<Object>, NoMemory>
    requires sound { IsSound state.old }
    requires unsaved { state.old.catalog.saved ≡ None }
    requires ids { lacks_ids state.old 0 ≡ false }
    ensures objects { IfOk result (λ objects. objects ≡ with_ids object_of (ledger state.old).base.next_id (parts_of (without_damaged state.old))) }
    ensures catalog { OnOk result (state.new.catalog ≡ with_site (without_damaged state.old)) }
    ensures edits { OnOk result (EditsFollow edits.old.items edits.new.items state.old.catalog state.new.catalog) }
{
    lose_damaged(alloc, state);
    put_all(alloc, state, edits)
}
