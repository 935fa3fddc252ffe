//! A standby that is made of what is recovered.
ghost use Rattle.std.specs.Prelude.{◌≡◌, ◌≤◌, IfErr, IfOk, IsErrOf, List, None, Option, length};
ghost use Rattle.rm_apply.specs.Recover.{TellsAll, outside};
ghost use Rattle.rm_base.specs.{Outside.{Rose}, Store.{Held}, declared.block.Change.{Change}};
ghost use Rattle.rm_catalog_typed.specs.TypedCatalog.{records_of};
ghost use Rattle.rm_history.specs.History.{IsHistory};
ghost use Rattle.rm_lang_words.specs.declared.standby.StandbyTask.TheVariants.{Make};
ghost use Rattle.rm_machine.specs.{Recovery.{AreMadeAt, in_place}, Sound.{IsSound}, State.{current_of, ledger, tree, world}};
ghost use Rattle.rm_piece.specs.Sets.{IsSet};
ghost use Rattle.rm_report.specs.Reply.{HasDate};
ghost use Rattle.rm_standby.specs.{Image.{imaged}, Standby.{HoldsStates}};
ghost use Rattle.rm_tool_standby.specs.{Prepared.{IsWork}, Refused.{RefusesTask, make_refusal as the_refusal}};

use crate::numbering::number_refusal;
use crate::telling::made_lines;
use crate::work::Work;
use rm_apply::Recovered;
use rm_base::{IncNo, NoMemory, Refusal, Scn, Store};
use rm_evidence::EvidenceFault;
use rm_lang_statement::Until;
use rm_machine::State;
use rm_piece::Set;
use rm_standby::image;
use rm_step_recover::{recovered_at, test_refusal};
use std::alloc::Global;
use std::thread::Threads;

// Why no standby can be made as the database was at this SCN: it is out of range (RM-06), or no number is left (RM-11).
fn make_refusal(state: &State, until: Scn, found: &Option<(u32, Set)>) -> Option<Refusal>
    requires sound { IsSound state.now }
    ensures { result ≡ the_refusal state.now until found.now }
{
    let at = Some(Until::Scn(until));
    match test_refusal(state, &at, None) {
        Some(refusal) => Some(refusal),
        None => number_refusal(found),
    }
}

// The standby of what was recovered of the current incarnation until an SCN.
fn image_of(
    alloc: Global,
    state: &State,
    dbid: u32,
    inc: IncNo,
    until: Scn,
    back: &Recovered,
) -> Result<Set, NoMemory>
    requires sound { IsSound state.now }
    requires dbid { dbid ≡ (ledger state.now).base.dbid }
    requires inc { inc ≡ current_of state.now }
    requires inside { outside (tree state.now) inc until ≡ None }
    requires told { (from : Option Held) × TellsAll from (records_of state.now.catalog) (in_place state.now) inc until back.now }
    requires few { length back.now.files ≤ 64 }
    ensures imaged { IfOk result (λ new. new ≡ imaged (world state.now) (ledger state.now).base.dbid (current_of state.now) until back.now.files) }
    ensures valid { IfOk result IsSet }
    ensures holds { IfOk result (λ new. (h : List Change) → IsHistory (world state.now) h
        → AreMadeAt (world state.now) h (current_of state.now) until back.now.files → HoldsStates (world state.now) h new) }
{
    image(
        alloc,
        state.catalog.files(),
        back.files.as_slice(),
        dbid,
        inc,
        until,
    )
}

/// The standby as the database was until an SCN of its current incarnation, by what is at hand, or why it is refused. Nothing changes. An
/// error is a fault of the database's store, which is counted, or want of memory.
pub(crate) fn make<R: Threads + Sync, D: Store>(
    rt: &R,
    alloc: Global,
    state: &State,
    until: Scn,
    found: &Option<(u32, Set)>,
    from: &mut D,
) -> Result<Result<Work, Refusal>, EvidenceFault>
    requires sound { IsSound state.now }
    ensures work { IfOk result (λ x. IfOk x (IsWork (D.held from.old) state.now found.now (Make until))) }
    ensures refused { IfOk result (λ x. IfErr x (RefusesTask (D.held from.old) state.now found.now (Make until))) }
    ensures date { IfOk result (λ x. IfErr x HasDate) }
    ensures same { D.held from.new ≡ D.held from.old }
    ensures failed { IsErrOf result EvidenceFault.StoreFault → Rose (D.faults from.old) (D.faults from.new) }
    ensures never_falls { D.faults from.old ≤ D.faults from.new }
{
    if let Some(refusal) = make_refusal(state, until, found) {
        return Ok(Err(refusal));
    }
    let base = state.catalog.base();
    let (dbid, inc) = (base.dbid, base.current);
    let back = match recovered_at(rt, alloc, base.parallelism, state, from, inc, until)? {
        Ok(back) => back,
        Err(refusal) => return Ok(Err(refusal)),
    };
    let new = image_of(alloc, state, dbid, inc, until, &back)?;
    let lines = made_lines(alloc, back.skipped.as_slice(), found, &new)?;
    let new = Some(new);
    Ok(Ok(Work { new, lines }))
}
