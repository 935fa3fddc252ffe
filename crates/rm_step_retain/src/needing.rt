//! REPORT NEED BACKUP
ghost use Rattle.std.specs.Prelude.{◌≡◌, ◌≤◌, ◌<◌, ◌↔◌, ◌^◌, ◌++◌, ◌∷◌, [], All, IfOk, IsErrOf, IsTrue, length, map, max};
ghost use Rattle.rm_apply.specs.Files.{AreExactly};
ghost use Rattle.rm_base.specs.Outside.{Rose};
ghost use Rattle.rm_machine.specs.{Hands.{Tells}, Obsolete.{NeedsBackup as Needs, retention_of}, Sound.{IsSound}, State.{ledger}};
ghost use Rattle.rm_report.specs.{Reply.{IsPlain}, declared.line.Line.TheVariants.{NeedsBackup, NeedCount}};
ghost use Rattle.rm_catalog_typed.specs.TypedCatalog.{records_of};
ghost use Rattle.rm_retain.specs.{Catalogued.{copies_in}, Chosen.{Ascend, chosen, wanted}};
ghost use Rattle.rm_lang_statement.specs.declared.command.Command.TheVariants.{ReportNeedBackup};

use crate::looking::{Looked, look, start_by};
use rm_base::{FileNo, NoMemory, Policy, Seq, Store};
use rm_evidence::EvidenceFault;
use rm_machine::State;
use rm_machine::facts::on_path;
use rm_report::Line;
use rm_retain::chosen;
use std::alloc::Global;
use std::thread::Threads;

// How many backups a datafile must have: as many as the policy wants, and at least one.
fn fewest(policy: Policy) -> usize
    ensures { result ≡ max 1 (wanted policy) }
{
    match policy {
        Policy::Redundancy(n) => (n as usize).max(1),
        Policy::Window(_) | Policy::Nothing => 1,
    }
}

// Whether fewer are chosen of the backups of the datafile that are at hand.
fn has_few(alloc: Global, state: &State, looked: &Looked, file: FileNo) -> Result<bool, NoMemory>
    requires sound { IsSound state.now }
    requires records { looked.now.records ≡ records_of state.now.catalog }
    requires ascend { Ascend (copies_in looked.now.evidence) }
    ensures { IfOk result (λ few. IsTrue few ↔ (length (chosen (retention_of state.now looked.now.evidence) file) < max 1 (wanted (ledger state.now).base.policy))) }
{
    let policy = state.catalog.base().policy;
    let start = start_by(state, policy);
    let ids = chosen(
        alloc,
        &looked.records,
        &looked.evidence,
        policy,
        start,
        file,
    )?;
    Ok(ids.len() < fewest(policy))
}

// Whether the datafile is on the current path, and has fewer.
fn needs_backup(
    alloc: Global,
    state: &State,
    looked: &Looked,
    file: FileNo,
) -> Result<bool, NoMemory>
    requires sound { IsSound state.now }
    requires records { looked.now.records ≡ records_of state.now.catalog }
    requires ascend { Ascend (copies_in looked.now.evidence) }
    ensures { IfOk result (λ needs. IsTrue needs ↔ Needs (retention_of state.now looked.now.evidence) file) }
{
    match on_path(state, u64::from(file)) {
        Some(_) => has_few(alloc, state, looked, file),
        None => Ok(false),
    }
}

// The numbers of the datafiles that need a backup, ascending.
fn in_need(alloc: Global, state: &State, looked: &Looked) -> Result<Vec<FileNo>, NoMemory>
    requires sound { IsSound state.now }
    requires records { looked.now.records ≡ records_of state.now.catalog }
    requires ascend { Ascend (copies_in looked.now.evidence) }
    ensures exact { IfOk result (λ files. AreExactly (Needs (retention_of state.now looked.now.evidence)) files.items) }
    ensures few { IfOk result (λ files. length files.items < 2 ^ 32) }
{
    let mut files = Vec::new(alloc);
    let count = state.catalog.files().len() as FileNo;
    for index in 0..count {
        if needs_backup(alloc, state, looked, index + 1)? {
            files.push(index + 1)?;
        }
    }
    Ok(files)
}

// A line for each of these datafiles, and one that says how many they are.
fn lines_of(alloc: Global, files: &[FileNo]) -> Result<Seq<Line>, NoMemory>
    requires few { length files.now < 2 ^ 32 }
    ensures { IfOk result (λ lines. lines ≡ map NeedsBackup files.now ++ NeedCount (length files.now) ∷ []) }
{
    let mut lines = Seq::new(alloc);
    for file in files {
        lines.push(Line::NeedsBackup { file: *file })?;
    }
    lines.push(Line::NeedCount {
        count: files.len() as u32,
    })?;
    Ok(lines)
}

/// REPORT NEED BACKUP: the datafiles on the current path of which, of the backups at hand, fewer are chosen than the policy
/// wants, or none, ascending by number, and how many they are. By so many channels, at least one, objects are digested and
/// decoded; each number gives the same. Nothing changes. An error is a fault of the store, which is counted, or want of
/// memory.
pub fn report_need_backup<R: Threads + Sync, D: Store>(
    rt: &R,
    alloc: Global,
    channels: u32,
    state: &State,
    store: &mut D,
) -> Result<Seq<Line>, EvidenceFault>
    requires sound { IsSound state.now }
    ensures tells { IfOk result (λ lines. Tells (D.held store.old) state.now ReportNeedBackup lines) }
    ensures dates { IfOk result (All IsPlain) }
    ensures same { D.held store.new ≡ D.held store.old }
    ensures failed { IsErrOf result EvidenceFault.StoreFault → Rose (D.faults store.old) (D.faults store.new) }
    ensures never_falls { D.faults store.old ≤ D.faults store.new }
{
    let looked = look(rt, alloc, channels, state, store)?;
    let files = in_need(alloc, state, &looked)?;
    Ok(lines_of(alloc, &files)?)
}
