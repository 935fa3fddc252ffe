//! REPORT OBSOLETE
ghost use Rattle.std.specs.Prelude.{◌≡◌, ◌≤◌, ◌<◌, ◌^◌, ◌++◌, ◌∷◌, [], All, IfOk, IsErrOf, length, map};
ghost use Rattle.rm_base.specs.Outside.{Rose};
ghost use Rattle.rm_machine.specs.{Hands.{Tells}, Sound.{IsSound}};
ghost use Rattle.rm_report.specs.{Reply.{IsPlain}, declared.line.Line.TheVariants.{Obsolete, ObsoleteCount}};
ghost use Rattle.rm_lang_statement.specs.declared.command.Command.TheVariants.{ReportObsolete};

use crate::finding::obsolete_ids;
use rm_base::{NoMemory, Seq, Store};
use rm_evidence::EvidenceFault;
use rm_machine::State;
use rm_report::Line;
use std::alloc::Global;
use std::thread::Threads;

// A line for each of these records, and one that says how many they are.
fn lines_of(alloc: Global, ids: &[u32]) -> Result<Seq<Line>, NoMemory>
    requires few { length ids.now < 2 ^ 32 }
    ensures { IfOk result (λ lines. lines ≡ map Obsolete ids.now ++ ObsoleteCount (length ids.now) ∷ []) }
{
    let mut lines = Seq::new(alloc);
    for id in ids {
        lines.push(Line::Obsolete { id: *id })?;
    }
    lines.push(Line::ObsoleteCount {
        count: ids.len() as u32,
    })?;
    Ok(lines)
}

/// REPORT OBSOLETE: the records that the policy does not need, by what is at hand, ascending by id, and how many they are;
/// none without a policy. By so many channels, at least one, objects are digested and decoded; each number gives the same.
/// Nothing changes. An error is a fault of the store, which is counted, or want of memory.
pub fn report_obsolete<R: Threads + Sync, D: Store>(
    rt: &R,
    alloc: Global,
    channels: u32,
    state: &State,
    store: &mut D,
) -> Result<Seq<Line>, EvidenceFault>
    requires sound { IsSound state.now }
    ensures tells { IfOk result (λ lines. Tells (D.held store.old) state.now ReportObsolete lines) }
    ensures dates { IfOk result (All IsPlain) }
    ensures same { D.held store.new ≡ D.held store.old }
    ensures failed { IsErrOf result EvidenceFault.StoreFault → Rose (D.faults store.old) (D.faults store.new) }
    ensures never_falls { D.faults store.old ≤ D.faults store.new }
{
    let ids = obsolete_ids(rt, alloc, channels, state, store)?;
    Ok(lines_of(alloc, &ids)?)
}
