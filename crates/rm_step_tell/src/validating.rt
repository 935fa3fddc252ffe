//! VALIDATE ALL
ghost use Rattle.std.specs.Prelude.{◌≡◌, ◌<◌, ◌≤◌, ◌^◌, All, IfOk, IsErrOf, length, map};
ghost use Rattle.rm_base.specs.Outside.{Rose};
ghost use Rattle.rm_lang_statement.specs.declared.command.Command.TheVariants.{ValidateAll};
ghost use Rattle.rm_machine.specs.{Hands.{Tells}, Sound.{IsSound}, State.{ledger}, Validate.{count_available, is_available}};
ghost use Rattle.rm_report.specs.{Reply.{IsPlain}, declared.line.Line.TheVariants.{BadOf}};

use rm_base::{Bad, NoMemory, Seq, Status, Store};
use rm_evidence::EvidenceFault;
use rm_machine::State;
use rm_machine::recorded::records_of;
use rm_report::Line;
use rm_verify::validate;
use std::alloc::Global;
use std::thread::Threads;

// Whether a record of this status counts as available.
fn is_available(status: Status) -> bool
    ensures { result ≡ is_available status }
{
    status == Status::Available
}

// How many records of logs, pieces and sets count as available.
fn count_available(state: &State) -> u32
    requires sound { IsSound state.now }
    ensures { result ≡ count_available (ledger state.now) }
{
    let logs = state.catalog.logs().iter();
    let pieces = state.catalog.pieces().iter();
    let sets = state.catalog.sets().iter();
    let of_logs = logs.filter(|log| is_available(log.status)).count();
    let of_pieces = pieces.filter(|piece| is_available(piece.status)).count();
    let of_sets = sets.filter(|set| is_available(set.status)).count();
    (of_logs + of_pieces + of_sets) as u32
}

// How many there are.
fn count_of(bad: &[(u32, Bad)]) -> u32
    ensures { length bad.now < 2 ^ 32 → result ≡ length bad.now }
{
    u32::try_from(bad.len()).unwrap_or(u32::MAX)
}

// A line for each of them.
fn lines_of(alloc: Global, bad: &[(u32, Bad)]) -> Result<Seq<Line>, NoMemory>
    ensures { IfOk result (λ lines. lines ≡ map (λ x. BadOf x.0 x.1) bad.now) }
{
    let mut lines = Seq::new(alloc);
    for (id, bad) in bad {
        lines.push(Line::BadOf { id: *id, bad: *bad })?;
    }
    Ok(lines)
}

/// VALIDATE ALL: of the records of logs, pieces and sets that count as available, those whose objects are missing or damaged,
/// ascending by id, and how many were looked at. The objects are read and let go by so many channels, which hold as many at a
/// time; each number gives the same, and nothing changes. An error is a fault of the store, which is counted, or want of memory.
pub fn validate_all<R: Threads + Sync, D: Store>(
    rt: &R,
    alloc: Global,
    channels: u32,
    state: &State,
    store: &mut D,
) -> Result<Seq<Line>, EvidenceFault>
    requires sound { IsSound state.now }
    ensures tells { IfOk result (λ lines. Tells (D.held store.old) state.now ValidateAll lines) }
    ensures dates { IfOk result (All IsPlain) }
    ensures same { D.held store.new ≡ D.held store.old }
    ensures store { IsErrOf result EvidenceFault.StoreFault → Rose (D.faults store.old) (D.faults store.new) }
    ensures never_falls { D.faults store.old ≤ D.faults store.new }
{
    let records = records_of(alloc, state)?;
    let bad = validate(rt, alloc, &records, store, channels)?;
    let mut lines = lines_of(alloc, bad.as_slice())?;
    lines.push(Line::Checked {
        count: count_available(state),
        bad: count_of(bad.as_slice()),
    })?;
    Ok(lines)
}
