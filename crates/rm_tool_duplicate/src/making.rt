//! The duplicate of what is at hand.
ghost use Rattle.std.specs.Prelude.{◌≡◌, ◌<◌, ◌≤◌, ◌^◌, ◌⊎◌, All, IfErr, IfOk, IfSome, IsErrOf, None, Some, length};
ghost use Rattle.std.specs.Option.{option_copied};
ghost use Rattle.rm_base.specs.Outside.{Rose};
ghost use Rattle.rm_catalog.specs.Rules.{IsCatalog};
ghost use Rattle.rm_catalog_typed.specs.TypedCatalog.{records_of};
ghost use Rattle.rm_dup.specs.Duplicate.{IsDuplicate};
ghost use Rattle.rm_lang_statement.specs.declared.command.Until.TheVariants.{Scn as AtScn};
ghost use Rattle.rm_lang_words.specs.Reading.{duplicate_of};
ghost use Rattle.rm_machine.specs.{Recovery.{in_place}, RecoverTest.{test_refusal}, Sound.{IsSound}};
ghost use Rattle.rm_piece.specs.Valid.{IsPiece};
ghost use Rattle.rm_report.specs.Reply.{HasDate};
ghost use Rattle.rm_shelf.specs.Shelved.{AllStay};
ghost use Rattle.rm_step_recover.specs.Gap.{NamesGap};
ghost use Rattle.rm_tool_duplicate.specs.{Asked.{sides, target_inc}, Duplicated.{IsMadeOf}, Refused.{IsRefused}};

use crate::refusing::{name_refusal, number_refusal};
use rm_apply::RecoverFault;
use rm_base::{IncNo, Refusal, Store};
use rm_commit::Stop;
use rm_dup::Duplicate;
use rm_dup::duplicating::duplicate_from;
use rm_lang_words::DuplicateWords;
use rm_machine::State;
use rm_machine::hand::{AtHand, at_hand};
use rm_shelf::Shelf;
use std::alloc::Global;
use std::thread::Threads;

// The incarnation of the target: the one that is said, or the current one.
fn target_inc(said: &DuplicateWords, state: &State) -> u64
    ensures { result ≡ target_inc (duplicate_of said.now) state.now }
{
    said.incarnation
        .unwrap_or(u64::from(state.catalog.base().current))
}

// How many channels put the blocks together: as many as are said, or as are configured.
fn channels(said: &DuplicateWords, state: &State) -> u32 {
    said.channels.unwrap_or(state.catalog.base().parallelism)
}

// The duplicate of what is at hand at a target that is not refused, or the refusal that names the first gap (RM-08).
fn duplicate_at<R: Threads + Sync, D: Store>(
    rt: &R,
    alloc: Global,
    said: &DuplicateWords,
    state: &State,
    hand: AtHand,
    from: &mut D,
) -> Result<Result<Duplicate, Refusal>, Stop>
    requires sound { IsSound state.now }
    requires dbid { 1 ≤ said.now.dbid }
    requires accepted { test_refusal state.now (Some (AtScn said.now.until)) said.now.incarnation ≡ None }
    requires records { hand.records ≡ records_of state.now.catalog }
    requires place { hand.place ≡ in_place state.now }
    ensures duplicate { IfOk result (λ x. IfOk x (IsDuplicate (D.held from.old) (records_of state.now.catalog) (in_place state.now) (target_inc
        (duplicate_of said.now) state.now) said.now.until said.now.dbid)) }
    ensures gap { IfOk result (λ x. IfErr x (NamesGap (D.held from.old) state.now (target_inc (duplicate_of said.now) state.now) said.now.until)) }
    ensures dbid { said.now.dbid < 2 ^ 32 }
    ensures pieces { IfOk result (λ x. IfOk x (λ d. All IsPiece d.pieces)) }
    ensures records { IfOk result (λ x. IfOk x (λ d. IsCatalog d.records)) }
    ensures few { IfOk result (λ x. IfOk x (λ d. length d.from ≤ 64)) }
    ensures same { D.held from.new ≡ D.held from.old }
    ensures store { IsErrOf result Stop.StoreFault → Rose (D.faults from.old) (D.faults from.new) }
    ensures shelf { ¬ IsErrOf result Stop.KeeperFault }
    ensures never_falls { D.faults from.old ≤ D.faults from.new }
{
    let inc = target_inc(said, state) as IncNo;
    let AtHand { records, place } = hand;
    let channels = channels(said, state);
    let (until, dbid) = (said.until, said.dbid);
    match duplicate_from(rt, alloc, &records, from, place, inc, until, dbid, channels) {
        Ok(duplicate) => Ok(Ok(duplicate)),
        Err(RecoverFault::Gap(gap)) => Ok(Err(Refusal::Rm08 {
            file: gap.file,
            block: gap.block,
            scn: gap.scn,
            inc: gap.inc,
        })),
        Err(RecoverFault::StoreFault) => Err(Stop::StoreFault),
        Err(RecoverFault::NoMemory) => Err(Stop::NoMemory),
        // The target is in range.
        Err(RecoverFault::Until(..)) => unreachable!(),
    }
}

/// The duplicate of a source, as it is opened, or why it is refused. Nothing changes. An error is a fault of a store or of the shelf, which is
/// counted, or want of memory.
pub(crate) fn duplicate_of<R: Threads + Sync, D: Store, E: Store, H: Shelf>(
    rt: &R,
    alloc: Global,
    said: &DuplicateWords,
    source: Option<&State>,
    from: &mut D,
    to: &mut E,
    shelf: &mut H,
) -> Result<Result<Duplicate, Refusal>, Stop>
    requires sound { IfSome (option_copied source) IsSound }
    requires dbid { 1 ≤ said.now.dbid }
    ensures made { IfOk result (λ x. IfOk x (IsMadeOf (duplicate_of said.now) (sides (duplicate_of said.now) (D.held from.old) (E.held to.old)
        (H.shelved shelf.old)) (option_copied source.entry))) }
    ensures refused { IfOk result (λ x. IfErr x (IsRefused (duplicate_of said.now) (sides (duplicate_of said.now) (D.held from.old) (E.held to.old)
        (H.shelved shelf.old)) (option_copied source.entry))) }
    ensures date { IfOk result (λ x. IfErr x HasDate) }
    ensures pieces { IfOk result (λ x. IfOk x (λ d. All IsPiece d.pieces)) }
    ensures few { IfOk result (λ x. IfOk x (λ d. length d.from ≤ 64)) }
    ensures from { D.held from.new ≡ D.held from.old }
    ensures to { E.held to.new ≡ E.held to.old }
    ensures shelf { AllStay (H.shelved shelf.old) (H.shelved shelf.new) }
    ensures store_failed { IsErrOf result Stop.StoreFault → Rose (D.faults from.old) (D.faults from.new) ⊎ Rose (E.faults to.old) (E.faults to.new) }
    ensures shelf_failed { IsErrOf result Stop.KeeperFault → Rose (H.faults shelf.old) (H.faults shelf.new) }
    ensures none_falls { (D.faults from.old ≤ D.faults from.new) × (E.faults to.old ≤ E.faults to.new) × (H.faults shelf.old ≤ H.faults shelf.new) }
{
    let Some(state) = source else {
        return Ok(Err(Refusal::Rm02));
    };
    if let Some(refusal) = number_refusal(said, state, shelf)? {
        return Ok(Err(refusal));
    }
    let hand = at_hand(alloc, state)?;
    let inc = target_inc(said, state) as IncNo;
    if let Some(refusal) = name_refusal(alloc, &hand.records, inc, said.until, to)? {
        return Ok(Err(refusal));
    }
    duplicate_at(rt, alloc, said, state, hand, from)
}
