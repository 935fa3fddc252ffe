//! DELETE OBSOLETE
ghost use Rattle.std.specs.{Prelude.{◌≡◌, ◌≤◌, All, IfOk, IsErrOf, OnOk}, List.{flat_map}};
ghost use Rattle.rm_base.specs.Outside.{Rose};
ghost use Rattle.rm_machine.specs.{Hands.{Hands}, Sound.{IsSound}, Upkeep.{names_at}};
ghost use Rattle.rm_report.specs.Reply.{IsPlain};
ghost use Rattle.rm_catalog_typed.specs.Changes.{EditsFollow};
ghost use Rattle.rm_lang_statement.specs.declared.command.Command.TheVariants.{DeleteObsolete};

use crate::finding::obsolete_ids;
use rm_base::{NoMemory, Seq, Store, Text};
use rm_catalog::Edit;
use rm_evidence::EvidenceFault;
use rm_machine::drops::drop_records;
use rm_machine::naming::push_name;
use rm_machine::{Handed, State};
use std::alloc::Global;
use std::thread::Threads;

// The names of the objects of these records.
fn names_of(alloc: Global, state: &State, ids: &[u32]) -> Result<Seq<Text>, NoMemory>
    requires sound { IsSound state.now }
    ensures { IfOk result (λ names. names ≡ flat_map (λ n. names_at n state.now.catalog) ids.now) }
{
    let mut names = Seq::new(alloc);
    for id in ids {
        push_name(alloc, state, *id, &mut names)?;
    }
    Ok(names)
}

/// DELETE OBSOLETE: the records go that the policy does not need, by what is at hand, ascending by id, and their objects. A
/// line tells each, and a last one how many they are. By so many channels, at least one, objects are digested and decoded;
/// each number gives the same. An error is a fault of the store, which is counted, or want of memory; then nothing is said
/// of the state and the edits.
pub fn delete_obsolete<R: Threads + Sync, D: Store>(
    rt: &R,
    alloc: Global,
    channels: u32,
    state: &mut State,
    store: &mut D,
    edits: &mut Vec<Edit>,
) -> Result<Handed, EvidenceFault>
    requires sound { IsSound state.old }
    ensures hands { IfOk result (λ x. Hands (D.held store.old) state.old DeleteObsolete x state.new) }
    ensures edits { OnOk result (EditsFollow edits.old.items edits.new.items state.old.catalog state.new.catalog) }
    ensures sound { OnOk result (IsSound state.new) }
    ensures dates { IfOk result (λ x. All IsPlain x.lines) }
    ensures same { D.held store.new ≡ D.held store.old }
    ensures failed { IsErrOf result EvidenceFault.StoreFault → Rose (D.faults store.old) (D.faults store.new) }
    ensures never_falls { D.faults store.old ≤ D.faults store.new }
{
    let ids = obsolete_ids(rt, alloc, channels, state, store)?;
    let removes = names_of(alloc, state, &ids)?;
    Ok(Handed {
        lines: drop_records(alloc, state, edits, &ids)?,
        objects: Seq::new(alloc),
        removes,
    })
}
