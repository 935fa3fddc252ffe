//! The whole run, from the words and the source to the sink.
ghost use Rattle.std.specs.Prelude.{◌≡◌, ◌<◌, ◌∷◌, [], Contains, IfErr, IfOk, IfSome, IsErrOf, IsSome, OnOk, Some, None, List, length, true, false};
ghost use Rattle.rm_base.specs.Outside.{Appends, Rose};
ghost use Rattle.rm_catalog.specs.declared.record.Record.{Record};
ghost use Rattle.rm_tool_opening.specs.{Opens.{AreValid}, Opening.{WritesBadRecord, TellsValid}};
ghost use Rattle.rm_tool.specs.{Early.{Leaves, RoseFor, status_of as the_status_of}, Ends.{Counted, TakesMany}, Run.{watch}};
ghost use Rattle.rm_tool.specs.Session.{HasScript, Finishes, EndsEarly, WritesPart, IsDone, IsEarly, NoneRan, over_long};
ghost use Rattle.rm_tool.specs.Words.{accepts, drill_of};
ghost use Rattle.rm_tool_ends.specs.Writing.{bad_words};

use crate::early::{Early, status_of};
use crate::ends::script_of;
use crate::session::serve_session;
use crate::words::asked_in;
use rm_base::{Clock, Sink, Source, Store, Text};
use rm_catalog::Keeper;
use rm_channel::Gate;
use rm_lang_token::statements;
use rm_tool_opening::open_site;
use std::alloc::Global;
use std::sync::Wait;
use std::thread::Threads;

// The whole run. Answers whether a statement was refused.
fn session<R: Threads + Wait + Sync, G: Gate, S: Source, K: Sink, D: Store, C: Keeper, T: Clock>(
    rt: &R,
    alloc: Global,
    gate: &G,
    words: &[Text],
    source: &mut S,
    sink: &mut K,
    store: &mut D,
    keeper: &mut C,
    clock: &mut T,
) -> Result<bool, Early>
    ensures finishes { IfOk result (λ refused. Finishes (drill_of words.now) (S.left source.old) (S.left source.new) (watch (T.answers clock.old) (T.asked clock.old)) (watch (T.answers clock.new) (T.asked clock.new)) (K.contents sink.old) (K.contents sink.new) (D.held store.old) (C.kept keeper.old) (D.held store.new) (C.kept keeper.new) (the_status_of result)) }
    ensures ended { OnOk result (drill_of words.now ≡ None → S.at_end source.new ≡ true) }
    ensures valid { OnOk result (TellsValid (C.kept keeper.old)) }
    ensures left { IfErr result (Leaves words.now (S.left source.old) (S.left source.new) (watch (T.answers clock.old) (T.asked clock.old)) (watch (T.answers clock.new) (T.asked clock.new)) (K.contents sink.old) (K.contents sink.new) (D.held store.old) (C.kept keeper.old) (D.held store.new) (C.kept keeper.new)) }
    ensures rose { IfErr result (RoseFor (record { source = S.faults source.old; sink = K.faults sink.old; store = D.faults store.old; keeper = C.faults keeper.old })
        (record { source = S.faults source.new; sink = K.faults sink.new; store = D.faults store.new; keeper = C.faults keeper.new })) }

    // What is asked of the source.
    ensures drill_unread { IsSome (drill_of words.now) → source.new ≡ source.old }
    ensures words_first { accepts words.now ≡ false → source.new ≡ source.old }
    ensures words_only { accepts words.now ≡ false → Contains (2 ∷ 4 ∷ 7 ∷ []) (the_status_of result) }
    ensures long { IsErrOf result Early.TooLong → Counted (S.taken source.old) → TakesMany (S.taken source.old) (S.taken source.new) }
    ensures long_only { Counted (S.taken source.old) → TakesMany (S.taken source.old) (S.taken source.new) → Contains (8 ∷ 4 ∷ 7 ∷ []) (the_status_of result) }
{
    let asked = asked_in(alloc, words, sink)?;
    let script = script_of(alloc, source, sink, asked.drill)?;
    let found = statements(alloc, &script)?;
    let site = open_site(alloc, sink, store, keeper)?;
    let refused = serve_session(
        rt,
        alloc,
        gate,
        asked.channels,
        asked.drill,
        sink,
        site,
        store,
        keeper,
        clock,
        found.as_slice(),
    )?;
    Ok(refused)
}

/// Runs a script against the site of a store and a keeper, and answers the status of the program.
///
/// The words are read first, then the script to its end, then the site is opened, then each statement is a
/// step and its reply is written, and then the site is saved. With the word `--drill` the script is the drill's, the source is not
/// read, and before the site is saved one line is written in the place of all replies. Of which database `keeper` has the records, by the
/// word `--database`, and whether another one follows it, by `--control`, is the caller's matter. The clock is asked once for each statement of
/// the grammar. The channels of a statement are threads of `rt`, and so are the writers of a BACKUP; its threads call `gate` (of
/// which no clause tells). The status is
/// - 0 where no reply is a refusal, 1 where one is,
/// - 2 where the words are refused,
/// - 3 where the source failed, 4 where the sink failed,
/// - 5 where the store failed, 6 where the keeper failed,
/// - 7 where memory was wanting,
/// - 8 where the script has more than 4,194,304 bytes,
/// - 9 where the keeper's records are not valid.
pub fn run<R: Threads + Wait + Sync, G: Gate, S: Source, K: Sink, D: Store, C: Keeper, T: Clock>(
    rt: &R,
    alloc: Global,
    gate: &G,
    words: &[Text],
    source: &mut S,
    sink: &mut K,
    store: &mut D,
    keeper: &mut C,
    clock: &mut T,
) -> u8
    // 0 and 1: the headline.
    ensures done { IsDone result → Finishes (drill_of words.now) (S.left source.old) (S.left source.new) (watch (T.answers clock.old) (T.asked clock.old)) (watch (T.answers clock.new) (T.asked clock.new)) (K.contents sink.old) (K.contents sink.new) (D.held store.old) (C.kept keeper.old) (D.held store.new) (C.kept keeper.new) result }
    ensures ended { IsDone result → drill_of words.now ≡ None → S.at_end source.new ≡ true }
    ensures drill_unread { IsSome (drill_of words.now) → source.new ≡ source.old }
    ensures read { IsDone result → HasScript (drill_of words.now) (S.left source.old) (S.left source.new) }
    ensures done_from { IsDone result → TellsValid (C.kept keeper.old) }

    // 2: exactly where the words are refused, and their line was written.
    ensures words { result ≡ 2 → accepts words.now ≡ false }
    ensures words_line { result ≡ 2 → Appends (K.contents sink.old) (K.contents sink.new) bad_words }
    ensures words_only { accepts words.now ≡ false → Contains (2 ∷ 4 ∷ 7 ∷ []) result }
    ensures words_first { accepts words.now ≡ false → source.new ≡ source.old }

    // 3 and 4: only where the count of that object rose, and what was written and done then.
    ensures source { result ≡ 3 → Rose (S.faults source.old) (S.faults source.new) }
    ensures source_written { result ≡ 3 → K.contents sink.new ≡ K.contents sink.old }
    ensures sink { result ≡ 4 → Rose (K.faults sink.old) (K.faults sink.new) }
    ensures sink_written { result ≡ 4 → WritesPart words.now (S.left source.old) (S.left source.new) (watch (T.answers clock.old) (T.asked clock.old)) (watch (T.answers clock.new) (T.asked clock.new)) (K.contents sink.old) (K.contents sink.new) (D.held store.old) (C.kept keeper.old) (D.held store.new) (C.kept keeper.new) }

    // 5 and 6: only where the count of that object rose, and what was written and done then.
    ensures store { result ≡ 5 → Rose (D.faults store.old) (D.faults store.new) }
    ensures store_written { result ≡ 5 → EndsEarly (drill_of words.now) (S.left source.old) (S.left source.new) (watch (T.answers clock.old) (T.asked clock.old)) (watch (T.answers clock.new) (T.asked clock.new)) (K.contents sink.old) (K.contents sink.new) (D.held store.old) (C.kept keeper.old) (D.held store.new) (C.kept keeper.new) }
    ensures keeper { result ≡ 6 → Rose (C.faults keeper.old) (C.faults keeper.new) }
    ensures keeper_written { result ≡ 6 → EndsEarly (drill_of words.now) (S.left source.old) (S.left source.new) (watch (T.answers clock.old) (T.asked clock.old)) (watch (T.answers clock.new) (T.asked clock.new)) (K.contents sink.old) (K.contents sink.new) (D.held store.old) (C.kept keeper.old) (D.held store.new) (C.kept keeper.new) }

    // 7: what was written and done.
    ensures memory_written { result ≡ 7 → EndsEarly (drill_of words.now) (S.left source.old) (S.left source.new) (watch (T.answers clock.old) (T.asked clock.old)) (watch (T.answers clock.new) (T.asked clock.new)) (K.contents sink.old) (K.contents sink.new) (D.held store.old) (C.kept keeper.old) (D.held store.new) (C.kept keeper.new) }

    // 8: exactly where more than the limit was taken, and its line was written.
    ensures long { result ≡ 8 → Counted (S.taken source.old) → TakesMany (S.taken source.old) (S.taken source.new) }
    ensures long_left { result ≡ 8 → IfSome (S.left source.old) (λ bytes. 4194304 < length bytes) }
    ensures long_line { result ≡ 8 → Appends (K.contents sink.old) (K.contents sink.new) over_long }
    ensures long_only { Counted (S.taken source.old) → TakesMany (S.taken source.old) (S.taken source.new) → Contains (8 ∷ 4 ∷ 7 ∷ []) result }

    // 9: exactly where the records that the keeper tells are not valid, after the script was read; and the line of the first that breaks a rule was written.
    ensures bad { result ≡ 9 → WritesBadRecord (C.kept keeper.old) (K.contents sink.old) (K.contents sink.new) }
    ensures bad_read { result ≡ 9 → HasScript (drill_of words.now) (S.left source.old) (S.left source.new) }
    ensures bad_only { (rs : List Record) → accepts words.now ≡ true → Counted (S.taken source.old) → ¬ TakesMany (S.taken source.old) (S.taken source.new) → C.kept keeper.old ≡ Some rs → ¬ AreValid rs → Contains (9 ∷ 4 ∷ 3 ∷ 6 ∷ 7 ∷ []) result }

    // At 2, 3, 8 and 9 no statement ran.
    ensures same { IsEarly result → NoneRan (watch (T.answers clock.old) (T.asked clock.old)) (watch (T.answers clock.new) (T.asked clock.new)) (D.held store.old) (C.kept keeper.old) (D.held store.new) (C.kept keeper.new) }

    // There is no other status, and without a cause there is 0, 1 or 7, where the keeper tells.
    ensures statuses { Contains (0 ∷ 1 ∷ 2 ∷ 3 ∷ 4 ∷ 5 ∷ 6 ∷ 7 ∷ 8 ∷ 9 ∷ []) result }
    ensures complete { accepts words.now ≡ true → Counted (S.taken source.old) → ¬ TakesMany (S.taken source.old) (S.taken source.new) → (rs : List Record) → C.kept keeper.old ≡ Some rs → AreValid rs → ¬ Rose (S.faults source.old) (S.faults source.new) → ¬ Rose (K.faults sink.old) (K.faults sink.new) → ¬ Rose (D.faults store.old) (D.faults store.new) → ¬ Rose (C.faults keeper.old) (C.faults keeper.new) → Contains (0 ∷ 1 ∷ 7 ∷ []) result }
{
    status_of(session(rt, alloc, gate, words, source, sink, store, keeper, clock))
}
