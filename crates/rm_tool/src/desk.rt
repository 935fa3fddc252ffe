//! A session over one number of a shelf.
ghost use Rattle.std.specs.Prelude.{◌≡◌, ◌<◌, ◌∷◌, [], Contains, IfSome, IsSome, Some, None, List, length, true, false};
ghost use Rattle.rm_base.specs.Outside.{Appends, Rose};
ghost use Rattle.rm_catalog.specs.declared.record.Record.{Record};
ghost use Rattle.rm_shelf.specs.Shelved.{OthersStay, under};
ghost use Rattle.rm_tool_opening.specs.{Opens.{AreValid}, Opening.{WritesBadRecord, TellsValid}};
ghost use Rattle.rm_tool.specs.{Ends.{Counted, TakesMany}, Run.{watch}};
ghost use Rattle.rm_tool.specs.Session.{HasScript, Finishes, EndsEarly, WritesPart, IsDone, IsEarly, NoneRan, over_long};
ghost use Rattle.rm_tool.specs.Words.{accepts, drill_of};
ghost use Rattle.rm_tool_ends.specs.Writing.{bad_words};

use crate::run::run;
use rm_base::{Clock, Sink, Source, Store, Text};
use rm_channel::Gate;
use rm_shelf::{Desk, Noted, Shelf};
use std::alloc::Global;
use std::marker::Brand;
use std::sync::Wait;
use std::thread::Threads;

// The same, where it is noted what the shelf tells of the other numbers.
fn run_noted<
    R: Threads + Wait + Sync,
    G: Gate,
    S: Source,
    K: Sink,
    D: Store,
    H: Shelf + Drop,
    T: Clock,
    B: Noted,
>(
    rt: &R,
    alloc: Global,
    gate: &G,
    words: &[Text],
    source: &mut S,
    sink: &mut K,
    store: &mut D,
    shelf: H,
    number: u32,
    clock: &mut T,
) -> (u8, H)
    requires noted { B.noted ≡ Some (number, H.shelved shelf) }

    // The records of all other numbers stay, whatever the status is.
    ensures others { OthersStay number (H.shelved shelf) (H.shelved result.1) }

    // 0 and 1: the headline.
    ensures done { IsDone result.0 → Finishes (drill_of words.now) (S.left source.old) (S.left source.new) (watch (T.answers clock.old) (T.asked clock.old)) (watch (T.answers clock.new) (T.asked clock.new)) (K.contents sink.old) (K.contents sink.new) (D.held store.old) (under number (H.shelved shelf)) (D.held store.new) (under number (H.shelved result.1)) result.0 }
    ensures ended { IsDone result.0 → drill_of words.now ≡ None → S.at_end source.new ≡ true }
    ensures drill_unread { IsSome (drill_of words.now) → source.new ≡ source.old }
    ensures read { IsDone result.0 → HasScript (drill_of words.now) (S.left source.old) (S.left source.new) }
    ensures done_from { IsDone result.0 → TellsValid (under number (H.shelved shelf)) }

    // 2: exactly where the words are refused, and their line was written.
    ensures words { result.0 ≡ 2 → accepts words.now ≡ false }
    ensures words_line { result.0 ≡ 2 → Appends (K.contents sink.old) (K.contents sink.new) bad_words }
    ensures words_only { accepts words.now ≡ false → Contains (2 ∷ 4 ∷ 7 ∷ []) result.0 }
    ensures words_first { accepts words.now ≡ false → source.new ≡ source.old }

    // 3 and 4: only where the count of that object rose, and what was written and done then.
    ensures source { result.0 ≡ 3 → Rose (S.faults source.old) (S.faults source.new) }
    ensures source_written { result.0 ≡ 3 → K.contents sink.new ≡ K.contents sink.old }
    ensures sink { result.0 ≡ 4 → Rose (K.faults sink.old) (K.faults sink.new) }
    ensures sink_written { result.0 ≡ 4 → WritesPart words.now (S.left source.old) (S.left source.new) (watch (T.answers clock.old) (T.asked clock.old)) (watch (T.answers clock.new) (T.asked clock.new)) (K.contents sink.old) (K.contents sink.new) (D.held store.old) (under number (H.shelved shelf)) (D.held store.new) (under number (H.shelved result.1)) }

    // 5 and 6: only where the count of that object rose, and what was written and done then.
    ensures store { result.0 ≡ 5 → Rose (D.faults store.old) (D.faults store.new) }
    ensures store_written { result.0 ≡ 5 → EndsEarly (drill_of words.now) (S.left source.old) (S.left source.new) (watch (T.answers clock.old) (T.asked clock.old)) (watch (T.answers clock.new) (T.asked clock.new)) (K.contents sink.old) (K.contents sink.new) (D.held store.old) (under number (H.shelved shelf)) (D.held store.new) (under number (H.shelved result.1)) }
    ensures shelf { result.0 ≡ 6 → Rose (H.faults shelf) (H.faults result.1) }
    ensures shelf_written { result.0 ≡ 6 → EndsEarly (drill_of words.now) (S.left source.old) (S.left source.new) (watch (T.answers clock.old) (T.asked clock.old)) (watch (T.answers clock.new) (T.asked clock.new)) (K.contents sink.old) (K.contents sink.new) (D.held store.old) (under number (H.shelved shelf)) (D.held store.new) (under number (H.shelved result.1)) }

    // 7: what was written and done.
    ensures memory_written { result.0 ≡ 7 → EndsEarly (drill_of words.now) (S.left source.old) (S.left source.new) (watch (T.answers clock.old) (T.asked clock.old)) (watch (T.answers clock.new) (T.asked clock.new)) (K.contents sink.old) (K.contents sink.new) (D.held store.old) (under number (H.shelved shelf)) (D.held store.new) (under number (H.shelved result.1)) }

    // 8: exactly where more than the limit was taken, and its line was written.
    ensures long { result.0 ≡ 8 → Counted (S.taken source.old) → TakesMany (S.taken source.old) (S.taken source.new) }
    ensures long_left { result.0 ≡ 8 → IfSome (S.left source.old) (λ bytes. 4194304 < length bytes) }
    ensures long_line { result.0 ≡ 8 → Appends (K.contents sink.old) (K.contents sink.new) over_long }
    ensures long_only { Counted (S.taken source.old) → TakesMany (S.taken source.old) (S.taken source.new) → Contains (8 ∷ 4 ∷ 7 ∷ []) result.0 }

    // 9: exactly where the number's records are not valid, after the script was read; and the line of the first that breaks a rule was written.
    ensures bad { result.0 ≡ 9 → WritesBadRecord (under number (H.shelved shelf)) (K.contents sink.old) (K.contents sink.new) }
    ensures bad_read { result.0 ≡ 9 → HasScript (drill_of words.now) (S.left source.old) (S.left source.new) }
    ensures bad_only { (rs : List Record) → accepts words.now ≡ true → Counted (S.taken source.old) → ¬ TakesMany (S.taken source.old) (S.taken source.new) → under number (H.shelved shelf) ≡ Some rs → ¬ AreValid rs → Contains (9 ∷ 4 ∷ 3 ∷ 6 ∷ 7 ∷ []) result.0 }

    // At 2, 3, 8 and 9 no statement ran.
    ensures same { IsEarly result.0 → NoneRan (watch (T.answers clock.old) (T.asked clock.old)) (watch (T.answers clock.new) (T.asked clock.new)) (D.held store.old) (under number (H.shelved shelf)) (D.held store.new) (under number (H.shelved result.1)) }

    // There is no other status, and without a cause there is 0, 1 or 7.
    ensures statuses { Contains (0 ∷ 1 ∷ 2 ∷ 3 ∷ 4 ∷ 5 ∷ 6 ∷ 7 ∷ 8 ∷ 9 ∷ []) result.0 }
    ensures complete { accepts words.now ≡ true → Counted (S.taken source.old) → ¬ TakesMany (S.taken source.old) (S.taken source.new) → (rs : List Record) → under number (H.shelved shelf) ≡ Some rs → AreValid rs → ¬ Rose (S.faults source.old) (S.faults source.new) → ¬ Rose (K.faults sink.old) (K.faults sink.new) → ¬ Rose (D.faults store.old) (D.faults store.new) → ¬ Rose (H.faults shelf) (H.faults result.1) → Contains (0 ∷ 1 ∷ 7 ∷ []) result.0 }
{
    let mut desk: Desk<H, B> = Desk::new(shelf, number);
    let status = run(
        rt, alloc, gate, words, source, sink, store, &mut desk, clock,
    );
    (status, desk.close())
}

/// A session over one number of a shelf, which is handed back: `run` with the keeper of that number's records. It
/// reads and changes the records of that number alone. The answer's first part is the status, as of `run`; a shelf
/// that failed is a keeper that failed (6).
pub fn run_at<
    R: Threads + Wait + Sync,
    G: Gate,
    S: Source,
    K: Sink,
    D: Store,
    H: Shelf + Drop,
    T: Clock,
>(
    rt: &R,
    alloc: Global,
    gate: &G,
    words: &[Text],
    source: &mut S,
    sink: &mut K,
    store: &mut D,
    shelf: H,
    number: u32,
    clock: &mut T,
) -> (u8, H)
    // The records of all other numbers stay, whatever the status is.
    ensures others { OthersStay number (H.shelved shelf) (H.shelved result.1) }

    // 0 and 1: the headline.
    ensures done { IsDone result.0 → Finishes (drill_of words.now) (S.left source.old) (S.left source.new) (watch (T.answers clock.old) (T.asked clock.old)) (watch (T.answers clock.new) (T.asked clock.new)) (K.contents sink.old) (K.contents sink.new) (D.held store.old) (under number (H.shelved shelf)) (D.held store.new) (under number (H.shelved result.1)) result.0 }
    ensures ended { IsDone result.0 → drill_of words.now ≡ None → S.at_end source.new ≡ true }
    ensures drill_unread { IsSome (drill_of words.now) → source.new ≡ source.old }
    ensures read { IsDone result.0 → HasScript (drill_of words.now) (S.left source.old) (S.left source.new) }
    ensures done_from { IsDone result.0 → TellsValid (under number (H.shelved shelf)) }

    // 2: exactly where the words are refused, and their line was written.
    ensures words { result.0 ≡ 2 → accepts words.now ≡ false }
    ensures words_line { result.0 ≡ 2 → Appends (K.contents sink.old) (K.contents sink.new) bad_words }
    ensures words_only { accepts words.now ≡ false → Contains (2 ∷ 4 ∷ 7 ∷ []) result.0 }
    ensures words_first { accepts words.now ≡ false → source.new ≡ source.old }

    // 3 and 4: only where the count of that object rose, and what was written and done then.
    ensures source { result.0 ≡ 3 → Rose (S.faults source.old) (S.faults source.new) }
    ensures source_written { result.0 ≡ 3 → K.contents sink.new ≡ K.contents sink.old }
    ensures sink { result.0 ≡ 4 → Rose (K.faults sink.old) (K.faults sink.new) }
    ensures sink_written { result.0 ≡ 4 → WritesPart words.now (S.left source.old) (S.left source.new) (watch (T.answers clock.old) (T.asked clock.old)) (watch (T.answers clock.new) (T.asked clock.new)) (K.contents sink.old) (K.contents sink.new) (D.held store.old) (under number (H.shelved shelf)) (D.held store.new) (under number (H.shelved result.1)) }

    // 5 and 6: only where the count of that object rose, and what was written and done then.
    ensures store { result.0 ≡ 5 → Rose (D.faults store.old) (D.faults store.new) }
    ensures store_written { result.0 ≡ 5 → EndsEarly (drill_of words.now) (S.left source.old) (S.left source.new) (watch (T.answers clock.old) (T.asked clock.old)) (watch (T.answers clock.new) (T.asked clock.new)) (K.contents sink.old) (K.contents sink.new) (D.held store.old) (under number (H.shelved shelf)) (D.held store.new) (under number (H.shelved result.1)) }
    ensures shelf { result.0 ≡ 6 → Rose (H.faults shelf) (H.faults result.1) }
    ensures shelf_written { result.0 ≡ 6 → EndsEarly (drill_of words.now) (S.left source.old) (S.left source.new) (watch (T.answers clock.old) (T.asked clock.old)) (watch (T.answers clock.new) (T.asked clock.new)) (K.contents sink.old) (K.contents sink.new) (D.held store.old) (under number (H.shelved shelf)) (D.held store.new) (under number (H.shelved result.1)) }

    // 7: what was written and done.
    ensures memory_written { result.0 ≡ 7 → EndsEarly (drill_of words.now) (S.left source.old) (S.left source.new) (watch (T.answers clock.old) (T.asked clock.old)) (watch (T.answers clock.new) (T.asked clock.new)) (K.contents sink.old) (K.contents sink.new) (D.held store.old) (under number (H.shelved shelf)) (D.held store.new) (under number (H.shelved result.1)) }

    // 8: exactly where more than the limit was taken, and its line was written.
    ensures long { result.0 ≡ 8 → Counted (S.taken source.old) → TakesMany (S.taken source.old) (S.taken source.new) }
    ensures long_left { result.0 ≡ 8 → IfSome (S.left source.old) (λ bytes. 4194304 < length bytes) }
    ensures long_line { result.0 ≡ 8 → Appends (K.contents sink.old) (K.contents sink.new) over_long }
    ensures long_only { Counted (S.taken source.old) → TakesMany (S.taken source.old) (S.taken source.new) → Contains (8 ∷ 4 ∷ 7 ∷ []) result.0 }

    // 9: exactly where the number's records are not valid, after the script was read; and the line of the first that breaks a rule was written.
    ensures bad { result.0 ≡ 9 → WritesBadRecord (under number (H.shelved shelf)) (K.contents sink.old) (K.contents sink.new) }
    ensures bad_read { result.0 ≡ 9 → HasScript (drill_of words.now) (S.left source.old) (S.left source.new) }
    ensures bad_only { (rs : List Record) → accepts words.now ≡ true → Counted (S.taken source.old) → ¬ TakesMany (S.taken source.old) (S.taken source.new) → under number (H.shelved shelf) ≡ Some rs → ¬ AreValid rs → Contains (9 ∷ 4 ∷ 3 ∷ 6 ∷ 7 ∷ []) result.0 }

    // At 2, 3, 8 and 9 no statement ran.
    ensures same { IsEarly result.0 → NoneRan (watch (T.answers clock.old) (T.asked clock.old)) (watch (T.answers clock.new) (T.asked clock.new)) (D.held store.old) (under number (H.shelved shelf)) (D.held store.new) (under number (H.shelved result.1)) }

    // There is no other status, and without a cause there is 0, 1 or 7.
    ensures statuses { Contains (0 ∷ 1 ∷ 2 ∷ 3 ∷ 4 ∷ 5 ∷ 6 ∷ 7 ∷ 8 ∷ 9 ∷ []) result.0 }
    ensures complete { accepts words.now ≡ true → Counted (S.taken source.old) → ¬ TakesMany (S.taken source.old) (S.taken source.new) → (rs : List Record) → under number (H.shelved shelf) ≡ Some rs → AreValid rs → ¬ Rose (S.faults source.old) (S.faults source.new) → ¬ Rose (K.faults sink.old) (K.faults sink.new) → ¬ Rose (D.faults store.old) (D.faults store.new) → ¬ Rose (H.faults shelf) (H.faults result.1) → Contains (0 ∷ 1 ∷ 7 ∷ []) result.0 }
{
    run_noted::<R, G, S, K, D, H, T, Brand>(
        rt, alloc, gate, words, source, sink, store, shelf, number, clock,
    )
}
