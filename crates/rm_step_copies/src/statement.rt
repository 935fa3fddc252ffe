//! RECOVER COPY OF DATABASE WITH TAG tag [UNTIL ..]
ghost use Rattle.std.specs.Prelude.{◌≡◌, ◌≤◌, All, IfErr, IfOk, IsErrOf, None, OnOk, false};
ghost use Rattle.rm_base.specs.Outside.{Rose};
ghost use Rattle.rm_machine.specs.{Hands.{Hands, Refuses}, Marks.{lacks_ids}, RecoverCopy.{recover_copy_refusal}, Sound.{IsSound}};
ghost use Rattle.rm_report.specs.Reply.{HasDate, IsPlain};
ghost use Rattle.rm_catalog_typed.specs.Changes.{EditsFollow};
ghost use Rattle.rm_lang_statement.specs.declared.command.Command.TheVariants.{RecoverCopy};

use crate::evidence::evidence_of;
use crate::limits::renewed_refusal;
use crate::renewals::renewals;
use crate::renewing::renew_all;
use crate::skipping::keep_of_copies;
use rm_base::{Refusal, Seq, Store};
use rm_catalog::Edit;
use rm_evidence::EvidenceFault;
use rm_lang_statement::Until;
use rm_machine::hand::{AtHand, at_hand};
use rm_machine::replies::skipped_lines;
use rm_machine::until::recover_target;
use rm_machine::{Handed, State};
use std::alloc::Global;
use std::thread::Threads;

/// RECOVER COPY, which the state alone does not refuse. A line tells each record of an image copy or a level 1 with
/// the tag that counts as available but whose object is missing or damaged. The copies that are taken take over the
/// level 1s with the tag up to the target, ascending by datafile: one that changed gets a record and an object under
/// the next id, in place of its own, and a line tells its checkpoint; then lines tell the level 1s that start above
/// it. Where so many bytes or ids are not left it is refused (RM-11), and nothing changed. An error is a fault of the
/// store, which is counted, or want of memory; then nothing is said of the state and the edits. The objects are read
/// by so many channels; each number gives the same.
pub fn recover_copy<R: Threads + Sync, D: Store>(
    rt: &R,
    alloc: Global,
    channels: u32,
    state: &mut State,
    store: &mut D,
    edits: &mut Vec<Edit>,
    tag: &str,
    until: &Option<Until>,
) -> Result<Result<Handed, Refusal>, EvidenceFault>
    requires sound { IsSound state.old }
    requires accepted { recover_copy_refusal state.old tag.now until.now ≡ None }
    ensures hands { IfOk result (λ x. IfOk x (λ handed. Hands (D.held store.old) state.old (RecoverCopy tag.now until.now) handed state.new)) }
    ensures refuses { IfOk result (λ x. IfErr x (λ refusal. Refuses (D.held store.old) state.old (RecoverCopy tag.now until.now) refusal)) }
    ensures edits { OnOk result (EditsFollow edits.old.items edits.new.items state.old.catalog state.new.catalog) }
    ensures sound { OnOk result (IsSound state.new) }
    ensures ids { IfOk result (λ x. IfOk x (λ _. lacks_ids state.old 0 ≡ false)) }
    ensures refused { IfOk result (λ x. IfErr x (λ _. state.new ≡ state.old)) }
    ensures dates { IfOk result (λ x. IfOk x (λ handed. All IsPlain handed.lines)) }
    ensures date { IfOk result (λ x. IfErr x HasDate) }
    ensures same { D.held store.new ≡ D.held store.old }
    ensures failed { IsErrOf result EvidenceFault.StoreFault → Rose (D.faults store.old) (D.faults store.new) }
    ensures never_falls { D.faults store.old ≤ D.faults store.new }
{
    let Some(at) = recover_target(state, until) else {
        unreachable!()
    };
    let hand = at_hand(alloc, state)?;
    let AtHand { records, place } = hand;
    let evidence = evidence_of(rt, alloc, channels, state, store, &records, place)?;
    let made = renewals(alloc, state, &records, &evidence, tag, at)?;
    let copies = made.as_slice();
    if let Some(refusal) = renewed_refusal(state, copies) {
        return Ok(Err(refusal));
    }
    let skipped = keep_of_copies(state, tag, evidence.skipped);
    let mut handed = Handed {
        lines: skipped_lines(alloc, skipped.as_slice())?,
        objects: Seq::new(alloc),
        removes: Seq::new(alloc),
    };
    renew_all(alloc, state, edits, &mut handed, tag, copies)?;
    Ok(Ok(handed))
}
