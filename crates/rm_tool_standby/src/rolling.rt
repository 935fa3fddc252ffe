//! A standby that takes over an increment.
ghost use Rattle.std.specs.Prelude.{◌≡◌, ◌≤◌, IfErr, IfOk, IfSome, IsErrOf, None, Option, Some};
ghost use Rattle.rm_base.specs.{Outside.{Rose}, Store.{Held}};
ghost use Rattle.rm_lang_words.specs.declared.standby.StandbyTask.TheVariants.{Roll};
ghost use Rattle.rm_machine.specs.Sound.{IsSound};
ghost use Rattle.rm_piece.specs.Sets.{IsSet};
ghost use Rattle.rm_report.specs.Reply.{HasDate};
ghost use Rattle.rm_tool_standby.specs.Prepared.{IsWork};
ghost use Rattle.rm_tool_standby.specs.Refused.{FindsIncrement, RefusesRoll, RefusesTask, first_from as the_first, no_standby as the_refusal, number_refusal as the_number};

use crate::numbering::number_refusal;
use crate::telling::rolled_lines;
use crate::work::Work;
use rm_base::{NoMemory, Refusal, Scn, Store, Text, Unknown};
use rm_evidence::{EvidenceFault, roll_name};
use rm_machine::State;
use rm_piece::Set;
use rm_standby::{RollFault, roll};
use rm_standby_store::set_under;
use std::alloc::Global;

// The increment of this number, where it stands in the store of the database.
fn increment<D: Store>(alloc: Global, n: u64, from: &mut D) -> Result<Option<Set>, EvidenceFault>
    ensures found { IfOk result (FindsIncrement (D.held from.old) n) }
    ensures valid { IfOk result (λ increment. IfSome increment IsSet) }
    ensures same { D.held from.new ≡ D.held from.old }
    ensures failed { IsErrOf result EvidenceFault.StoreFault → Rose (D.faults from.old) (D.faults from.new) }
    ensures never_falls { D.faults from.old ≤ D.faults from.new }
{
    let name = roll_name(alloc, n)?;
    Ok(set_under(alloc, from, name.as_str())?)
}

/// There is no standby (RM-12).
pub(crate) fn no_standby(alloc: Global) -> Result<Refusal, NoMemory>
    ensures { IfOk result (λ refusal. refusal ≡ the_refusal) }
{
    let name = Text::from_string(format!(in alloc; "standby")?);
    Ok(Refusal::Rm12(Unknown::Object(name)))
}

// The SCN at which an increment begins: that of its first member, or 0.
fn first_from(increment: &Set) -> Scn
    ensures { result ≡ the_first increment.now }
{
    let first = increment.members.as_slice().first();
    first.map_or(0, |member| member.piece.from)
}

// What comes of the standby over which this increment is rolled, or why it is refused: there is none (RM-12), or they do not meet (RM-19).
fn rolled_over(
    alloc: Global,
    state: &State,
    n: u64,
    found: &Option<(u32, Set)>,
    increment: &Set,
) -> Result<Result<Work, Refusal>, NoMemory>
    requires sound { IsSound state.now }
    requires left { the_number found.now ≡ None }
    requires valid { IfSome found.now (λ x. IsSet x.1) }
    requires increment { IsSet increment.now }
    ensures work { IfOk result (λ x. IfOk x (λ w. (from : Option Held) → FindsIncrement from n (Some increment.now)
        → IsWork from state.now found.now (Roll n) w)) }
    ensures refused { IfOk result (λ x. IfErr x (RefusesRoll state.now n found.now (Some increment.now))) }
    ensures date { IfOk result (λ x. IfErr x HasDate) }
{
    let Some(standby) = found else {
        return Ok(Err(no_standby(alloc)?));
    };
    match roll(alloc, &standby.1, increment, state.catalog.tree()) {
        Ok((new, changed)) => {
            let lines = rolled_lines(alloc, found, &new, changed)?;
            let new = Some(new);
            Ok(Ok(Work { new, lines }))
        }
        Err(RollFault::Apart) => Ok(Err(Refusal::Rm19 {
            increment: n,
            from: first_from(increment),
            standby: standby.1.checkpoint,
        })),
        Err(RollFault::NoMemory) => Err(NoMemory),
    }
}

/// The standby over which the increment of this number is rolled, or why it is refused. Nothing changes. An error is a fault of the
/// database's store, which is counted, or want of memory.
pub(crate) fn roll_over<D: Store>(
    alloc: Global,
    state: &State,
    n: u64,
    found: &Option<(u32, Set)>,
    from: &mut D,
) -> Result<Result<Work, Refusal>, EvidenceFault>
    requires sound { IsSound state.now }
    requires valid { IfSome found.now (λ x. IsSet x.1) }
    ensures work { IfOk result (λ x. IfOk x (IsWork (D.held from.old) state.now found.now (Roll n))) }
    ensures refused { IfOk result (λ x. IfErr x (RefusesTask (D.held from.old) state.now found.now (Roll n))) }
    ensures date { IfOk result (λ x. IfErr x HasDate) }
    ensures same { D.held from.new ≡ D.held from.old }
    ensures failed { IsErrOf result EvidenceFault.StoreFault → Rose (D.faults from.old) (D.faults from.new) }
    ensures never_falls { D.faults from.old ≤ D.faults from.new }
{
    let increment = increment(alloc, n, from)?;
    if let Some(refusal) = number_refusal(found) {
        return Ok(Err(refusal));
    }
    let Some(increment) = increment else {
        let name = roll_name(alloc, n)?;
        return Ok(Err(Refusal::Rm12(Unknown::Object(name))));
    };
    Ok(rolled_over(alloc, state, n, found, &increment)?)
}
