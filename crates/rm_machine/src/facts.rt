//! What a state shows.
ghost use Rattle.std.specs.{Prelude.{◌≡◌, ◌<◌, ◌≤◌, ◌↔◌, IfSome, IsTrue, not, unwrap_or}, Option.{option_copied}};
ghost use Rattle.rm_history.specs.{Tree.{IsThere, end_of}, World.{blocks_of, creation_of, exists, file_of}};
ghost use Rattle.rm_machine.specs.{Dump.{placed_row}, Mount.{first_lost}, Sound.{IsSound}};
ghost use Rattle.rm_machine.specs.State.{datafile_at, has_lost, is_no_thread, ledger, now_of, on_path, placed, redo_end, tree, world};
ghost use Rattle.rm_redo.specs.Online.{IsLost, IsThread};

use crate::state::State;
use rm_base::{BlockNo, FileNo, IncNo, Row, Scn, ThreadNo};
use rm_blocks::DataFile;
use rm_history::Datafile;
use rm_redo::OnlineLogs;

/// The SCN up to which an incarnation is known; 0 for one that is not there.
pub(crate) fn end_of(state: &State, inc: IncNo) -> Scn
    ensures { result ≡ end_of (tree state.now) inc }
{
    state.catalog.tree().end_of(inc)
}

/// The SCN that the next change takes.
pub fn now(state: &State) -> Scn
    ensures { result ≡ now_of state.now }
{
    end_of(state, state.catalog.base().current)
}

/// The SCN up to which the online logs tell.
pub fn redo_end(state: &State) -> Scn
    ensures { result ≡ redo_end state.now }
{
    end_of(state, state.instance.logs.inc())
}

/// Whether a datafile exists at the address (i, s): it was created below `s`, on the path of `i`.
pub fn exists(state: &State, i: IncNo, s: Scn, file: &Datafile) -> bool
    requires there { IsThere (tree state.now) i }
    requires created { 0 < file.now.creation }
    ensures { result ≡ exists (world state.now) i s file.now }
{
    state.catalog.tree().exists(i, s, file)
}

// The datafile of this number. None where it is not there.
fn file(state: &State, number: u64) -> Option<Datafile>
    ensures { result ≡ file_of (world state.now) number }
{
    let index = usize::try_from(number.checked_sub(1)?).ok()?;
    state.catalog.files().get(index).copied()
}

/// How many blocks the datafile of this number has: 65,536 at most, and none where it is not there.
pub fn blocks_of(state: &State, number: FileNo) -> u32
    requires sound { IsSound state.now }
    ensures value { result ≡ blocks_of (world state.now) number }
    ensures most { result ≤ 65536 }
{
    file(state, u64::from(number)).map_or(0, |datafile| datafile.blocks)
}

/// The SCN at which the datafile of this number was created; 0 for one that is not there.
pub fn creation_of(state: &State, number: FileNo) -> Scn
    ensures { result ≡ creation_of (world state.now) number }
{
    file(state, u64::from(number)).map_or(0, |datafile| datafile.creation)
}

/// The datafile of this number, where it exists at the address (i, s).
pub fn datafile_at(state: &State, i: IncNo, s: Scn, number: u64) -> Option<Datafile>
    requires sound { IsSound state.now }
    requires inc { IsThere (tree state.now) i }
    ensures value { result ≡ datafile_at state.now i s number }
    ensures there { IfSome result (λ _. (0 < number) × (number ≤ 64)) }
{
    let datafile = file(state, number)?;
    if exists(state, i, s, &datafile) {
        Some(datafile)
    } else {
        None
    }
}

/// The datafile of this number, where it is on the current path.
pub fn on_path(state: &State, number: u64) -> Option<Datafile>
    requires { IsSound state.now }
    ensures value { result ≡ on_path state.now number }
    ensures there { IfSome result (λ _. (0 < number) × (number ≤ 64)) }
{
    datafile_at(state, state.catalog.base().current, now(state), number)
}

/// What stands in place of the datafile of this number, at least 1.
pub fn placed(state: &State, number: u64) -> Option<&DataFile>
    requires { 0 < number }
    ensures { option_copied result ≡ placed state.now number }
{
    let index = usize::try_from(number - 1).ok()?;
    state.instance.place.as_slice().get(index)?.as_ref()
}

/// The row of a block of the datafile of this number, at least 1, in place. None where the datafile is lost, or has no
/// such block.
pub fn placed_row(state: &State, number: u64, block: BlockNo) -> Option<Row>
    requires { 0 < number }
    ensures { result ≡ placed_row state.now number block }
{
    placed(state, number)?.read(block)
}

/// The greatest number of a redo thread: threads are numbered from 1 on.
pub const MOST_THREADS: ThreadNo = 4;

/// Whether the thread has an online log, lost or not.
pub fn is_thread(state: &State, thread: u64) -> bool
    ensures value { result ≡ not (is_no_thread state.now thread) }
    ensures there { IsTrue result ↔ IsThread state.now.instance.logs thread }
    ensures most { IsTrue result → thread ≤ 4 }
{
    let logs = &state.instance.logs;
    thread <= u64::from(logs.threads()) && logs.has(thread as ThreadNo)
}

// Whether a thread has an online log, and that is lost.
fn lost_its_log(logs: &OnlineLogs, thread: ThreadNo) -> bool
    ensures { IsTrue result ↔ (IsThread logs.now thread × IsLost logs.now thread) }
{
    logs.has(thread) && logs.is_lost(thread)
}

/// Whether one of the online logs is lost.
pub fn has_lost(logs: &OnlineLogs) -> bool
    ensures { result ≡ has_lost logs.now }
{
    for index in 0..logs.threads() {
        if lost_its_log(logs, index + 1) {
            return true;
        }
    }
    false
}

/// The least datafile that exists at the address (i, s) and is lost.
pub fn first_lost(state: &State, i: IncNo, s: Scn) -> Option<FileNo>
    requires sound { IsSound state.now }
    requires there { IsThere (tree state.now) i }
    ensures { result ≡ first_lost (world state.now) i s 1 (ledger state.now).files state.now.instance.place }
{
    let place = state.instance.place.as_slice();
    for (index, datafile) in state.catalog.files().iter().enumerate() {
        if exists(state, i, s, datafile) && place[index].is_none() {
            return Some(index as FileNo + 1);
        }
    }
    None
}

/// How many channels a statement has: as many as were asked for, or else as many as are configured. At least 1, and at most 16.
pub fn channel_count(state: &State, asked: Option<u32>) -> u32
    requires sound { IsSound state.now }
    requires range { IfSome asked (λ n. (1 ≤ n) × (n ≤ 16)) }
    ensures value { result ≡ unwrap_or asked (ledger state.now).base.parallelism }
    ensures least { 1 ≤ result }
    ensures most { result ≤ 16 }
{
    asked.unwrap_or(state.catalog.base().parallelism)
}
