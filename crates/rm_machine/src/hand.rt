//! What is at hand beside the store: the records of the catalog, and what is in place.
ghost use Rattle.std.specs.{Prelude.{◌≡◌, ◌≤◌, ◌<◌, ◌∷◌, ◌++◌, [], if◌then◌else◌, IfOk, None, OnOk, map, cond}, List.{filter_map}};
ghost use Rattle.std.specs.Option.{option_copied};
ghost use Rattle.rm_machine.specs.{Damage.{has_file, undamaged}, Recovery.{in_place, online_logs}, Sound.{IsSound}};
ghost use Rattle.rm_machine.specs.State.{counted, is_online, online};
ghost use Rattle.rm_redo.specs.Online.{IsThread};
ghost use Rattle.rm_catalog_typed.specs.TypedCatalog.{records_of};

use crate::damage::has_file;
use crate::facts::{MOST_THREADS, now, redo_end};
use crate::recorded::records_of;
use crate::state::State;
use rm_base::{BlockId, NoMemory, Seq, ThreadNo};
use rm_blocks::DataFile;
use rm_catalog::Catalog as Records;
use rm_evidence::InPlace;
use rm_redo::{LogFile, OnlineLogs};
use std::alloc::Global;

/// What a recovery and a restore rest on, beside the store.
#[derive(Drop)]
pub struct AtHand {
    /// The records of the catalog.
    pub records: Records,
    /// What is in place, and not lost.
    pub place: InPlace,
}

// An equal datafile; in an open database as one of the current incarnation at `now`.
fn counted_copy(alloc: Global, state: &State, file: &DataFile) -> Result<DataFile, NoMemory>
    requires sound { IsSound state.now }
    ensures { IfOk result (λ x. x ≡ counted state.now file.now) }
{
    let rows = Seq::from_vec(Vec::from_slice(alloc, file.rows())?);
    let mut copy = DataFile::from_rows(file.file(), file.inc(), file.checkpoint(), rows);
    if state.instance.is_open {
        copy.stand(state.catalog.base().current, now(state));
    }
    Ok(copy)
}

// What stands in place of a datafile, where no block of it is damaged.
fn undamaged<'p>(
    damaged: &[BlockId],
    number: u64,
    placed: &'p Option<DataFile>,
) -> Option<&'p DataFile>
    ensures { option_copied result ≡ (if has_file damaged.now number then None else placed.now) }
{
    if has_file(damaged, number) {
        return None;
    }
    placed.as_ref()
}

// The datafiles in place that are not lost, as what they count. One of which a block is damaged counts as lost.
fn files_in_place(alloc: Global, state: &State) -> Result<Seq<DataFile>, NoMemory>
    requires sound { IsSound state.now }
    ensures { IfOk result (λ files. files ≡ map (counted state.now) (filter_map (λ o. o) (undamaged state.now.instance.damaged 1 state.now.instance.place))) }
{
    let damaged = state.instance.damaged.as_slice();
    let mut files = Seq::new(alloc);
    for (index, placed) in state.instance.place.as_slice().iter().enumerate() {
        if let Some(file) = undamaged(damaged, index as u64 + 1, placed) {
            files.push(counted_copy(alloc, state, file)?)?;
        }
    }
    Ok(files)
}

// The online log of a thread, up to the end of its incarnation.
fn online_copy(alloc: Global, state: &State, thread: ThreadNo) -> Result<LogFile, NoMemory>
    requires sound { IsSound state.now }
    requires there { IsThread state.now.instance.logs thread }
    ensures { IfOk result (λ log. log ≡ online state.now thread) }
{
    let logs = &state.instance.logs;
    Ok(LogFile {
        records: Seq::from_vec(Vec::from_slice(alloc, logs.records(thread))?),
        dbid: state.catalog.base().dbid,
        inc: logs.inc(),
        thread,
        sequence: logs.sequence(thread),
        first: logs.first(thread),
        next: redo_end(state),
    })
}

// Whether a thread has an online log that is not lost.
fn is_online(logs: &OnlineLogs, thread: ThreadNo) -> bool
    requires { 0 < thread }
    ensures { result ≡ is_online logs.now thread }
{
    logs.has(thread) && !logs.is_lost(thread)
}

// Adds the online log of a thread, where it is there and not lost.
fn push_online(
    alloc: Global,
    state: &State,
    logs: &mut Seq<LogFile>,
    thread: ThreadNo,
) -> Result<(), NoMemory>
    requires sound { IsSound state.now }
    requires some { 0 < thread }
    ensures { OnOk result (logs.new ≡ logs.old ++ cond (is_online state.now.instance.logs thread) (online state.now thread ∷ []) []) }
{
    if is_online(&state.instance.logs, thread) {
        logs.push(online_copy(alloc, state, thread)?)?;
    }
    Ok(())
}

// The online logs that are there and not lost.
fn logs_in_place(alloc: Global, state: &State) -> Result<Seq<LogFile>, NoMemory>
    requires sound { IsSound state.now }
    ensures { IfOk result (λ logs. logs ≡ online_logs state.now 1 4) }
{
    let mut logs = Seq::new(alloc);
    for index in 0..MOST_THREADS {
        push_online(alloc, state, &mut logs, index + 1)?;
    }
    Ok(logs)
}

// What is in place, and not lost.
fn in_place(alloc: Global, state: &State) -> Result<InPlace, NoMemory>
    requires sound { IsSound state.now }
    ensures { IfOk result (λ place. place ≡ in_place state.now) }
{
    Ok(InPlace {
        files: files_in_place(alloc, state)?,
        logs: logs_in_place(alloc, state)?,
    })
}

/// The records of the catalog, as a list, and what is in place.
pub fn at_hand(alloc: Global, state: &State) -> Result<AtHand, NoMemory>
    requires sound { IsSound state.now }
    ensures records { IfOk result (λ hand. hand.records ≡ records_of state.now.catalog) }
    ensures place { IfOk result (λ hand. hand.place ≡ in_place state.now) }
{
    Ok(AtHand {
        records: records_of(alloc, state)?,
        place: in_place(alloc, state)?,
    })
}
