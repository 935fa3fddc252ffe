//! BACKUP ARCHIVELOG ALL
ghost use Rattle.std.specs.Prelude.{◌≡◌, ◌≤◌, ◌++◌, ◌∷◌, [], All, IfErr, IfOk, IsErrOf, None, OnOk, false, if◌then◌else◌, length, map, sum_by, ◌==◌};
ghost use Rattle.rm_base.specs.Outside.{Rose};
ghost use Rattle.rm_machine.specs.BackupLogs.{copies_of, copies_refusal, copy_entry, copy_line, copy_object, file_bytes, with_copies};
ghost use Rattle.rm_machine.specs.{Hands.{Hands, Refuses}, Marks.{lacks_ids}, Recovery.{skipped_lines}, Sound.{IsSound}, State.{ledger}};
ghost use Rattle.rm_machine.specs.Upkeep.{with_catalog};
ghost use Rattle.rm_redo.specs.LogFormat.{IsLogFile};
ghost use Rattle.rm_report.specs.{Reply.{HasDate, IsPlain}, declared.line.Line.TheVariants.{NothingToBackUp}};
ghost use Rattle.rm_catalog_typed.specs.{Changes.{EditsFollow, with_new_log}, Fitting.{FitsNewLog}};
ghost use Rattle.rm_lang_statement.specs.declared.command.Command.TheVariants.{BackupLogs};
ghost use Rattle.rm_step_backup.specs.Logs.{AreRecorded};

use crate::looking::look;
use rm_base::{Bad, Limit, NoMemory, Refusal, Seq, Store};
use rm_catalog::Edit;
use rm_commit::Object;
use rm_evidence::{EvidenceFault, log_name};
use rm_machine::recorded::log_entry;
use rm_machine::replies::skipped_lines;
use rm_machine::room::{lacks_bytes, lacks_ids, lacks_room};
use rm_machine::{Handed, State};
use rm_redo::{LogFile, encode_log_with_digest};
use rm_report::Line;
use std::alloc::Global;

// The bytes of the log as a file: 70, and 80 for each record.
fn file_bytes(log: &LogFile) -> u64
    requires few { length log.now.records ≤ 65536 }
    ensures value { result ≡ file_bytes log.now }
    ensures most { result ≤ 5242950 }
{
    70 + 80 * log.records.len() as u64
}

// The bytes of these logs.
fn bytes_of(logs: &[(u32, LogFile)]) -> u64
    requires few { length logs.now ≤ 65536 }
    requires short { All (λ x. length x.1.records ≤ 65536) logs.now }
    ensures { result ≡ sum_by file_bytes (map (λ x. x.1) logs.now) }
{
    let mut bytes = 0;
    for (_, log) in logs {
        bytes += file_bytes(log);
    }
    bytes
}

// Why these logs can't be backed up: no record is left, no bytes, or no id.
fn copies_refusal(state: &State, logs: &[(u32, LogFile)]) -> Option<Refusal>
    requires sound { IsSound state.now }
    requires few { length logs.now ≤ 65536 }
    requires short { All (λ x. length x.1.records ≤ 65536) logs.now }
    ensures { result ≡ copies_refusal state.now (map (λ x. x.1) logs.now) }
{
    let count = logs.len() as u64;
    if lacks_room(state, count) {
        Some(Refusal::Rm11(Limit::Records))
    } else if lacks_bytes(state, bytes_of(logs)) {
        Some(Refusal::Rm11(Limit::Bytes))
    } else if lacks_ids(state, count) {
        Some(Refusal::Rm11(Limit::ObjectIds))
    } else {
        None
    }
}

// The line of a backup of a log.
fn copy_line(id: u32, log: &LogFile) -> Line
    ensures { result ≡ copy_line (id, log.now) }
{
    Line::LogMade {
        id,
        thread: log.thread,
        sequence: log.sequence,
        first: log.first,
        next: log.next,
    }
}

// Backs up one log: a second record of it comes under the next id, and its object and its line are added. Without
// memory nothing is said of the state, the edits and what is handed out.
fn back_up(
    alloc: Global,
    state: &mut State,
    edits: &mut Vec<Edit>,
    handed: &mut Handed,
    log: &LogFile,
) -> Result<(), NoMemory>
    requires valid { IsLogFile log.now }
    requires fits { FitsNewLog state.old.catalog (copy_entry ((ledger state.old).base.next_id, log.now)) }
    ensures after { OnOk result (state.new ≡ with_catalog state.old (with_new_log state.old.catalog (copy_entry ((ledger state.old).base.next_id, log.now)))) }
    ensures edits { OnOk result (EditsFollow edits.old.items edits.new.items state.old.catalog state.new.catalog) }
    ensures lines { OnOk result (handed.new.lines ≡ handed.old.lines ++ copy_line ((ledger state.old).base.next_id, log.now) ∷ []) }
    ensures objects { OnOk result (handed.new.objects ≡ handed.old.objects ++ copy_object ((ledger state.old).base.next_id, log.now) ∷ []) }
    ensures removes { OnOk result (handed.new.removes ≡ handed.old.removes) }
{
    let id = state.catalog.base().next_id;
    let encoded = encode_log_with_digest(alloc, log)?;
    let entry = log_entry(id, false, log, &encoded);
    let object = Object {
        name: log_name(alloc, id)?,
        bytes: encoded.bytes,
    };
    handed.lines.push(copy_line(id, log))?;
    handed.objects.push(object)?;
    state.catalog.add_log(edits, entry)
}

// Backs up these logs, one after another.
fn back_up_all(
    alloc: Global,
    state: &mut State,
    edits: &mut Vec<Edit>,
    handed: &mut Handed,
    logs: &[(u32, LogFile)],
) -> Result<(), NoMemory>
    requires sound { IsSound state.old }
    requires recorded { AreRecorded (ledger state.old).logs 65536 logs.now }
    requires accepted { copies_refusal state.old (map (λ x. x.1) logs.now) ≡ None }
    ensures after { OnOk result (state.new ≡ with_catalog state.old (with_copies state.old.catalog (copies_of state.old (map (λ x. x.1) logs.now)))) }
    ensures sound { OnOk result (IsSound state.new) }
    ensures edits { OnOk result (EditsFollow edits.old.items edits.new.items state.old.catalog state.new.catalog) }
    ensures lines { OnOk result (handed.new.lines ≡ handed.old.lines ++ map copy_line (copies_of state.old (map (λ x. x.1) logs.now))) }
    ensures objects { OnOk result (handed.new.objects ≡ handed.old.objects ++ map copy_object (copies_of state.old (map (λ x. x.1) logs.now))) }
    ensures removes { OnOk result (handed.new.removes ≡ handed.old.removes) }
{
    for (_, log) in logs {
        back_up(alloc, state, edits, handed, log)?;
    }
    Ok(())
}

// The lines before those of the backups: one for each log that is skipped, and that no log is backed up, where there is none.
fn first_lines(
    alloc: Global,
    skipped: &[(u32, Bad)],
    found: &[(u32, LogFile)],
) -> Result<Seq<Line>, NoMemory>
    ensures value { IfOk result (λ lines. lines ≡ skipped_lines skipped.now ++ (if length found.now == 0 then NothingToBackUp ∷ [] else [])) }
    ensures dates { IfOk result (λ lines. All IsPlain lines) }
{
    let mut lines = skipped_lines(alloc, skipped)?;
    if found.is_empty() {
        lines.push(Line::NothingToBackUp)?;
    }
    Ok(lines)
}

/// BACKUP ARCHIVELOG ALL, which the state alone does not refuse. A line tells each archived log that counts as
/// available but whose object is missing or damaged; the others are backed up, ascending by id: each gets a second
/// record under the next id, as a backup of a log, and a second object of the same bytes. Where so many records, bytes or
/// ids are not left it is refused (RM-11), and nothing changed. An error is a fault of the store, which is counted, or
/// want of memory; then nothing is said of the state and the edits.
pub fn backup_logs<D: Store>(
    alloc: Global,
    state: &mut State,
    store: &mut D,
    edits: &mut Vec<Edit>,
) -> Result<Result<Handed, Refusal>, EvidenceFault>
    requires sound { IsSound state.old }
    ensures hands { IfOk result (λ x. IfOk x (λ handed. Hands (D.held store.old) state.old BackupLogs handed state.new)) }
    ensures refuses { IfOk result (λ x. IfErr x (λ refusal. Refuses (D.held store.old) state.old BackupLogs refusal)) }
    ensures edits { OnOk result (EditsFollow edits.old.items edits.new.items state.old.catalog state.new.catalog) }
    ensures sound { OnOk result (IsSound state.new) }
    ensures ids { IfOk result (λ x. IfOk x (λ _. lacks_ids state.old 0 ≡ false)) }
    ensures refused { IfOk result (λ x. IfErr x (λ _. state.new ≡ state.old)) }
    ensures dates { IfOk result (λ x. IfOk x (λ handed. All IsPlain handed.lines)) }
    ensures date { IfOk result (λ x. IfErr x HasDate) }
    ensures same { D.held store.new ≡ D.held store.old }
    ensures store { IsErrOf result EvidenceFault.StoreFault → Rose (D.faults store.old) (D.faults store.new) }
    ensures never_falls { D.faults store.old ≤ D.faults store.new }
{
    let looked = look(alloc, state, store)?;
    let logs = looked.found.as_slice();
    if let Some(refusal) = copies_refusal(state, logs) {
        return Ok(Err(refusal));
    }
    let mut handed = Handed {
        lines: first_lines(alloc, looked.skipped.as_slice(), logs)?,
        objects: Seq::new(alloc),
        removes: Seq::new(alloc),
    };
    back_up_all(alloc, state, edits, &mut handed, logs)?;
    Ok(Ok(handed))
}
