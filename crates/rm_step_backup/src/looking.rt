//! The archived logs that count as available, as the store has them.
ghost use Rattle.std.specs.Prelude.{◌≡◌, ◌≤◌, ◌&&◌, ◌∷◌, [], IfOk, IfSome, IsErrOf, OnOk};
ghost use Rattle.rm_base.specs.Outside.{Rose};
ghost use Rattle.rm_machine.specs.{Sound.{IsSound}, State.{ledger}, Validate.{is_available}};
ghost use Rattle.rm_step_backup.specs.Logs.{Adds, AreRecorded, IsAll, KeepsRecords};

use rm_base::{Bad, Seq, Status, Store};
use rm_catalog::LogEntry;
use rm_evidence::{EvidenceFault, look_for_log};
use rm_machine::State;
use rm_redo::LogFile;
use std::alloc::Global;

/// What the store has of them, ascending by the ids of their records.
#[derive(Drop)]
pub(crate) struct Looked {
    pub found: Seq<(u32, LogFile)>,
    /// Those whose objects are missing or damaged.
    pub skipped: Seq<(u32, Bad)>,
}

// Whether the log is an archived one that counts as available.
fn counts(entry: &LogEntry) -> bool
    ensures { result ≡ (entry.now.archived && is_available entry.now.status) }
{
    entry.archived && entry.status == Status::Available
}

// Adds what the store has of the log, where it is an archived one that counts as available.
fn look_at<D: Store>(
    alloc: Global,
    store: &mut D,
    entry: &LogEntry,
    looked: &mut Looked,
) -> Result<(), EvidenceFault>
    ensures adds { OnOk result (IfSome (D.held store.old) (λ h. Adds h (entry.now ∷ []) looked.old looked.new)) }
    ensures recorded { OnOk result (KeepsRecords entry.now looked.old looked.new) }
    ensures same { D.held store.new ≡ D.held store.old }
    ensures failed { IsErrOf result EvidenceFault.StoreFault → Rose (D.faults store.old) (D.faults store.new) }
    ensures never_falls { D.faults store.old ≤ D.faults store.new }
{
    if !counts(entry) {
        return Ok(());
    }
    match look_for_log(alloc, store, entry)? {
        Ok(log) => looked.found.push((entry.id, log))?,
        Err(bad) => looked.skipped.push((entry.id, bad))?,
    }
    Ok(())
}

/// What the store has of all of them. Also of a store that tells nothing each log is one of a record. An error is a
/// fault of the store, which is counted, or want of memory.
pub(crate) fn look<D: Store>(
    alloc: Global,
    state: &State,
    store: &mut D,
) -> Result<Looked, EvidenceFault>
    requires sound { IsSound state.now }
    ensures all { IfOk result (λ all. IfSome (D.held store.old) (λ h. IsAll h (ledger state.now).logs all)) }
    ensures recorded { IfOk result (λ all. AreRecorded (ledger state.now).logs 65536 all.found) }
    ensures same { D.held store.new ≡ D.held store.old }
    ensures failed { IsErrOf result EvidenceFault.StoreFault → Rose (D.faults store.old) (D.faults store.new) }
    ensures never_falls { D.faults store.old ≤ D.faults store.new }
{
    let mut looked = Looked {
        found: Seq::new(alloc),
        skipped: Seq::new(alloc),
    };
    let logs = state.catalog.logs();
    for entry in logs {
        look_at(alloc, store, entry, &mut looked)?;
    }
    Ok(looked)
}
