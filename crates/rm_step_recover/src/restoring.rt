//! RESTORE (DATABASE | DATAFILE f) [UNTIL ..]
ghost use Rattle.std.specs.Prelude.{◌≡◌, ◌≤◌, ◌++◌, All, IfErr, IfOk, IfSome, IsErrOf, None, OnOk, map};
ghost use Rattle.rm_apply.specs.Restore.{Restores};
ghost use Rattle.rm_base.specs.Outside.{Rose};
ghost use Rattle.rm_machine.specs.{Hands.{Hands}, Recovery.{in_place, range_refusal, skipped_lines}};
ghost use Rattle.rm_machine.specs.{Restore.{absent_refusal, origin_lines, place_refusal, restore_refusal}, Sound.{IsSound}};
ghost use Rattle.rm_machine.specs.State.{current_of, tree};
ghost use Rattle.rm_report.specs.Reply.{IsPlain};
ghost use Rattle.rm_catalog_typed.specs.TypedCatalog.{records_of};
ghost use Rattle.rm_lang_statement.specs.declared.command.Command.TheVariants.{Restore};

use crate::faults::fault_of;
use crate::lines::push_origins;
use crate::placing::put_in_place;
use rm_apply::{Origin, Recovered};
use rm_base::{Absent, FileNo, NoMemory, Refusal, Scn, Seq, Store};
use rm_blocks::DataFile;
use rm_evidence::EvidenceFault;
use rm_lang_statement::Until;
use rm_machine::facts::datafile_at;
use rm_machine::hand::{AtHand, at_hand};
use rm_machine::handed::of_lines;
use rm_machine::replies::skipped_lines;
use rm_machine::room::ids_refusal;
use rm_machine::until::{nowhere_refusal, range_refusal, recover_target, thread_refusal};
use rm_machine::{Handed, State};
use rm_report::Line;
use std::alloc::Global;
use std::thread::Threads;

// The datafile that is named does not exist at the target.
fn absent_refusal(state: &State, at: Scn, file: Option<u64>) -> Option<Refusal>
    requires sound { IsSound state.now }
    ensures { result ≡ absent_refusal state.now at file }
{
    let number = file?;
    match datafile_at(state, state.catalog.base().current, at, number) {
        Some(_) => None,
        None => Some(Refusal::Rm05(Absent::File(number))),
    }
}

// Why the target is refused, if it is.
fn place_refusal(state: &State, file: Option<u64>, at: Scn) -> Option<Refusal>
    requires sound { IsSound state.now }
    ensures { result ≡ place_refusal state.now file at }
{
    if let Some(refusal) = absent_refusal(state, at, file) {
        return Some(refusal);
    }
    let current = state.catalog.base().current;
    match range_refusal(state.catalog.tree(), current, at) {
        Some(refusal) => Some(refusal),
        None => ids_refusal(state),
    }
}

/// Why RESTORE is refused by the state alone, if it is: the database is open (RM-04), the redo thread of its UNTIL is not there or
/// the datafile that is named does not exist at the target (RM-05), the target is out of the range of the current incarnation
/// (RM-06), too few object ids are left (RM-11), or its UNTIL leads to no target (RM-12, RM-14).
pub fn restore_refusal(state: &State, file: Option<u64>, until: &Option<Until>) -> Option<Refusal>
    requires sound { IsSound state.now }
    ensures value { result ≡ restore_refusal state.now file until.now }
{
    if state.instance.is_open {
        return Some(Refusal::Rm04 { mounted: false });
    }
    if let Some(refusal) = thread_refusal(state, until) {
        return Some(refusal);
    }
    if let Some(at) = recover_target(state, until) {
        return place_refusal(state, file, at);
    }
    match ids_refusal(state) {
        Some(refusal) => Some(refusal),
        None => nowhere_refusal(state, until),
    }
}

// The number that is named, as that of a datafile.
fn named(file: Option<u64>) -> Option<FileNo>
    requires { IfSome file (λ number. number ≤ 64) }
    ensures { result ≡ file }
{
    Some(file? as FileNo)
}

// The datafiles of the target, or the one that is named, by what is at hand.
fn from_backups<R: Threads + Sync, D: Store>(
    rt: &R,
    alloc: Global,
    channels: u32,
    state: &State,
    store: &mut D,
    at: Scn,
    file: Option<FileNo>,
) -> Result<(Recovered, Seq<Origin>), EvidenceFault>
    requires sound { IsSound state.now }
    requires range { range_refusal (tree state.now) (current_of state.now) at ≡ None }
    ensures restores { IfOk result (λ x. Restores (D.held store.old) (records_of state.now.catalog) (in_place state.now) (current_of state.now) at file x.0 x.1) }
    ensures same { D.held store.new ≡ D.held store.old }
    ensures failed { IsErrOf result EvidenceFault.StoreFault → Rose (D.faults store.old) (D.faults store.new) }
    ensures never_falls { D.faults store.old ≤ D.faults store.new }
{
    let hand = at_hand(alloc, state)?;
    let AtHand { records, place } = hand;
    let current = state.catalog.base().current;
    match rm_apply::restore_from(
        rt, alloc, &records, store, place, current, at, file, channels,
    ) {
        Ok(back) => Ok(back),
        Err(fault) => Err(fault_of(fault)),
    }
}

// The numbers of the datafiles.
fn numbers_of(alloc: Global, files: &[DataFile]) -> Result<Vec<FileNo>, NoMemory>
    ensures { IfOk result (λ xs. xs.items ≡ map (λ x. x.file) files.now) }
{
    Ok(files.iter().map(|x| x.file()).collect(alloc)?)
}

// The lines of the reply.
fn lines_of(alloc: Global, back: &Recovered, origins: &[Origin]) -> Result<Seq<Line>, NoMemory>
    ensures { IfOk result (λ lines. lines ≡ skipped_lines back.now.skipped ++ origin_lines (map (λ x. x.file) back.now.files) origins.now) }
{
    let numbers = numbers_of(alloc, back.files.as_slice())?;
    let mut lines = skipped_lines(alloc, back.skipped.as_slice())?;
    push_origins(&mut lines, &numbers, origins)?;
    Ok(lines)
}

/// RESTORE, which the state alone does not refuse: each datafile that exists at the target, or the one that is
/// named, comes to stand in place as its chosen backup has it, or else as it was created; the database stands at
/// no point then. The catalog stays. An error is a fault of the store, which is counted, or want of memory; then
/// nothing changed. The objects are read by so many channels; each number gives the same.
pub fn restore<R: Threads + Sync, D: Store>(
    rt: &R,
    alloc: Global,
    channels: u32,
    state: &mut State,
    store: &mut D,
    file: Option<u64>,
    until: &Option<Until>,
) -> Result<Handed, EvidenceFault>
    requires sound { IsSound state.old }
    requires accepted { restore_refusal state.old file until.now ≡ None }
    ensures hands { IfOk result (λ handed. Hands (D.held store.old) state.old (Restore file until.now) handed state.new) }
    ensures sound { OnOk result (IsSound state.new) }
    ensures failed { IfErr result (λ _. state.new ≡ state.old) }
    ensures catalog { state.new.catalog ≡ state.old.catalog }
    ensures dates { IfOk result (λ handed. All IsPlain handed.lines) }
    ensures same { D.held store.new ≡ D.held store.old }
    ensures store { IsErrOf result EvidenceFault.StoreFault → Rose (D.faults store.old) (D.faults store.new) }
    ensures never_falls { D.faults store.old ≤ D.faults store.new }
{
    let Some(at) = recover_target(state, until) else {
        unreachable!()
    };
    let (back, origins) = from_backups(rt, alloc, channels, state, store, at, named(file))?;
    let lines = lines_of(alloc, &back, origins.as_slice())?;
    put_in_place(alloc, state, back.files, None);
    Ok(of_lines(alloc, lines))
}
