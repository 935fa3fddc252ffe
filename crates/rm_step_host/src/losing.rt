//! HOST LOSE DATAFILE n and HOST LOSE LOG THREAD n
ghost use Rattle.std.specs.Prelude.{◌≡◌, ◌-◌, ◌<◌, ◌==◌, IfOk, None, OnErr, OnOk, Option, filter, length, not};
ghost use Rattle.rm_base.specs.Store.{Held};
ghost use Rattle.rm_lang_statement.specs.declared.command.Command.TheVariants.{LoseDatafile, LoseLog};
ghost use Rattle.rm_machine.specs.{Hands.{Hands}, LoseDatafile.{lose_refusal, without_file}, LoseLog.{lose_log_refusal, without_log}};
ghost use Rattle.rm_machine.specs.Sound.{IsSound};
ghost use Rattle.rm_redo.specs.Online.{IsThread};

use rm_base::{Absent, BlockId, FileNo, NoMemory, Refusal, Seq, ThreadNo};
use rm_machine::facts::{is_thread, now, on_path};
use rm_machine::handed::of_line;
use rm_machine::mounts::become_mounted;
use rm_machine::room::ids_refusal;
use rm_machine::{Handed, State};
use rm_report::Line;
use std::alloc::Global;
use std::mem;

/// Why HOST LOSE DATAFILE is refused, if it is: the datafile is not on the current path (RM-05), or too few object ids
/// are left (RM-11).
pub fn lose_refusal(state: &State, file: u64) -> Option<Refusal>
    requires sound { IsSound state.now }
    ensures value { result ≡ lose_refusal state.now file }
{
    if on_path(state, file).is_none() {
        Some(Refusal::Rm05(Absent::File(file)))
    } else {
        ids_refusal(state)
    }
}

// The damaged blocks of other datafiles.
fn of_others(damaged: Seq<BlockId>, file: FileNo) -> Seq<BlockId>
    ensures { result ≡ filter (λ x. not (x.file == file)) damaged }
{
    let mut damaged = damaged.into_vec();
    damaged.retain(|id| id.file != file);
    Seq::from_vec(damaged)
}

// Takes what stands in place of a datafile away, with its damaged blocks. The database stands at no point then.
fn lose_file(alloc: Global, state: &mut State, file: FileNo)
    requires some { 0 < file }
    requires there { file - 1 < length state.old.instance.place }
    ensures { state.new ≡ without_file state.old file }
{
    let mut place = mem::replace(&mut state.instance.place, Seq::new(alloc)).into_vec();
    place[file as usize - 1] = None;
    state.instance.place = Seq::from_vec(place);
    let damaged = mem::replace(&mut state.instance.damaged, Seq::new(alloc));
    state.instance.damaged = of_others(damaged, file);
    state.instance.point = None;
}

/// HOST LOSE DATAFILE: what stands in place of the datafile is lost, if it was not, and none of its blocks is damaged any
/// longer. The catalog stays. An error is want of memory; then nothing changes.
pub fn lose_datafile(alloc: Global, state: &mut State, file: u64) -> Result<Handed, NoMemory>
    requires sound { IsSound state.old }
    requires accepted { lose_refusal state.old file ≡ None }
    ensures hands { IfOk result (λ x. (held : Option Held) → Hands held state.old (LoseDatafile file) x state.new) }
    ensures catalog { OnOk result (state.new.catalog ≡ state.old.catalog) }
    ensures same { OnErr result (state.new ≡ state.old) }
{
    let file = file as FileNo;
    let handed = of_line(alloc, Line::FileLost { file })?;
    lose_file(alloc, state, file);
    Ok(handed)
}

/// Why HOST LOSE LOG is refused, if it is: the thread has no online log (RM-05), or too few object ids are left (RM-11).
pub fn lose_log_refusal(state: &State, thread: u64) -> Option<Refusal>
    requires sound { IsSound state.now }
    ensures value { result ≡ lose_log_refusal state.now thread }
{
    if is_thread(state, thread) {
        ids_refusal(state)
    } else {
        Some(Refusal::Rm05(Absent::Thread(thread)))
    }
}

// Takes the online log of a thread away. Where all are lost they count as logs of the current incarnation, of the threads
// that are enabled at its end.
fn lose_thread(state: &mut State, thread: ThreadNo)
    requires sound { IsSound state.old }
    requires there { IsThread state.old.instance.logs thread }
    ensures { state.new ≡ without_log state.old thread }
{
    let current = state.catalog.base().current;
    let enabled = state.catalog.enabled_at(current, now(state));
    state.instance.logs.lose(thread);
    state.instance.logs.count_as(current, enabled);
}

/// HOST LOSE LOG: an open database is mounted, as by STARTUP MOUNT, and then the online log of the thread is lost. The
/// catalog stays. An error is want of memory; then nothing changes.
pub fn lose_log(alloc: Global, state: &mut State, thread: u64) -> Result<Handed, NoMemory>
    requires sound { IsSound state.old }
    requires accepted { lose_log_refusal state.old thread ≡ None }
    ensures hands { IfOk result (λ x. (held : Option Held) → Hands held state.old (LoseLog thread) x state.new) }
    ensures catalog { OnOk result (state.new.catalog ≡ state.old.catalog) }
    ensures same { OnErr result (state.new ≡ state.old) }
{
    let thread = thread as ThreadNo;
    let handed = of_line(alloc, Line::LogLost { thread })?;
    become_mounted(alloc, state);
    lose_thread(state, thread);
    Ok(handed)
}
