//! A duplicate, from the words to the status.
ghost use Rattle.std.specs.Prelude.{◌≡◌, ◌≤◌, ◌⊎◌, ◌∷◌, [], Contains, IfErr, List, OnOk, Some, false};
ghost use Rattle.rm_base.specs.Outside.{Appends, Rose};
ghost use Rattle.rm_catalog.specs.declared.record.Record.{Record};
ghost use Rattle.rm_lang_words.specs.{Duplicate.{DuplicateSaid, duplicate_said}, Reading.{duplicate_of as said_of}};
ghost use Rattle.rm_shelf.specs.Shelved.{AllStay, OthersStay, under};
ghost use Rattle.rm_tool_opening.specs.{Opens.{AreValid}, Opening.{WritesBadRecord}};
ghost use Rattle.rm_tool_duplicate.specs.{Asked.{accepts, sides}, Ended.{EndsInText, EndsRefused, EndsStopped, Finishes, Leaves}};
ghost use Rattle.rm_tool_ends.specs.{Ended.{IsEarly, RoseFor}, Writing.{WritesFront, bad_words}};

use crate::carrying::carry;
use crate::preparing::prepare;
use crate::source::open_source;
use rm_base::{Sink, Store, Text};
use rm_lang_words::{DuplicateWords, WordsFault, read_duplicate};
use rm_shelf::Shelf;
use rm_tool_ends::{Ended, refuse_words, status_of, write_all};
use std::alloc::Global;
use std::sync::Wait;
use std::thread::Threads;

// The duplicate that is asked for. The shelf is handed back.
fn served<R: Threads + Wait + Sync, K: Sink, D: Store, E: Store, H: Shelf + Drop>(
    rt: &R,
    alloc: Global,
    said: &DuplicateWords,
    sink: &mut K,
    from: &mut D,
    to: &mut E,
    shelf: H,
) -> (Result<(), Ended>, H)
    requires dbid { 1 ≤ said.now.dbid }
    ensures finishes { OnOk result.0 (Finishes (said_of said.now) (sides (said_of said.now) (D.held from.old) (E.held to.old) (H.shelved shelf))
        (sides (said_of said.now) (D.held from.new) (E.held to.new) (H.shelved result.1)) (K.contents sink.old) (K.contents sink.new)) }
    ensures ended { IfErr result.0 (Leaves (said_of said.now) (sides (said_of said.now) (D.held from.old) (E.held to.old) (H.shelved shelf))
        (sides (said_of said.now) (D.held from.new) (E.held to.new) (H.shelved result.1)) (K.contents sink.old) (K.contents sink.new)) }
    ensures from { D.held from.new ≡ D.held from.old }
    ensures others { OthersStay said.now.number (H.shelved shelf) (H.shelved result.1) }
    ensures rose { IfErr result.0 (RoseFor (record { sink = K.faults sink.old; from = D.faults from.old; to = E.faults to.old; records = H.faults shelf })
        (record { sink = K.faults sink.new; from = D.faults from.new; to = E.faults to.new; records = H.faults result.1 })) }
{
    let (opened, mut shelf) = open_source(alloc, sink, from, shelf, said.from);
    let site = match opened {
        Ok(site) => site,
        Err(unopened) => return (Err(Ended::from(unopened)), shelf),
    };
    let ready = match prepare(rt, alloc, said, &site, sink, from, to, &mut shelf) {
        Ok(ready) => ready,
        Err(ended) => return (Err(ended), shelf),
    };
    let (carried, shelf) = carry(to, shelf, said.number, &ready.change);
    if let Err(stop) = carried {
        return (Err(Ended::from(stop)), shelf);
    }
    match write_all(sink, ready.text.as_slice()) {
        Ok(()) => (Ok(()), shelf),
        Err(_) => (Err(Ended::Sink), shelf),
    }
}

/// Makes a duplicate of a database, as it was until an SCN, under a number of its own and in a store of its own, and answers the status of
/// the program and the shelf.
///
/// The words are read first, then the source is opened: the site over its store and the records of its number. All that may refuse the
/// duplicate is looked at, and it is recovered from what is at hand of the source; then its copies are put, then its records are
/// applied, and then its lines are written. The blocks are put together by threads of `rt`. The source's store and the records of all other
/// numbers stay, at each status. It is
/// - 0 where the duplicate was made, 1 where it is refused, by one line, and nothing changed,
/// - 2 where the words are refused,
/// - 4 where the sink failed, 5 where a store failed, 6 where the shelf failed,
/// - 7 where memory was wanting,
/// - 9 where the source's records are not valid.
pub fn run_duplicate<R: Threads + Wait + Sync, K: Sink, D: Store, E: Store, H: Shelf + Drop>(
    rt: &R,
    alloc: Global,
    words: &[Text],
    sink: &mut K,
    from: &mut D,
    to: &mut E,
    shelf: H,
) -> (u8, H)
    // 0: the duplicate was made and told.
    ensures done { (x : DuplicateSaid) → duplicate_said words.now ≡ Some x → result.0 ≡ 0
        → Finishes x (sides x (D.held from.old) (E.held to.old) (H.shelved shelf)) (sides x (D.held from.new) (E.held to.new) (H.shelved result.1))
        (K.contents sink.old) (K.contents sink.new) }

    // 1: exactly where it is refused, and the line of that was written.
    ensures refused { (x : DuplicateSaid) → duplicate_said words.now ≡ Some x → result.0 ≡ 1
        → EndsRefused x (sides x (D.held from.old) (E.held to.old) (H.shelved shelf)) (K.contents sink.old) (K.contents sink.new) }

    // 2: exactly where the words are refused, and their line was written.
    ensures words { result.0 ≡ 2 → accepts words.now ≡ false }
    ensures words_line { result.0 ≡ 2 → Appends (K.contents sink.old) (K.contents sink.new) bad_words }
    ensures words_only { accepts words.now ≡ false → Contains (2 ∷ 4 ∷ 7 ∷ []) result.0 }
    ensures words_front { accepts words.now ≡ false → result.0 ≡ 4 → WritesFront (K.contents sink.old) (K.contents sink.new) bad_words }

    // 4, 5 and 6: only where the count of that object rose, and what was written and done then.
    ensures sink { result.0 ≡ 4 → Rose (K.faults sink.old) (K.faults sink.new) }
    ensures sink_written { (x : DuplicateSaid) → duplicate_said words.now ≡ Some x → result.0 ≡ 4
        → EndsInText x (sides x (D.held from.old) (E.held to.old) (H.shelved shelf)) (sides x (D.held from.new) (E.held to.new) (H.shelved result.1))
        (K.contents sink.old) (K.contents sink.new) }
    ensures store { result.0 ≡ 5 → Rose (D.faults from.old) (D.faults from.new) ⊎ Rose (E.faults to.old) (E.faults to.new) }
    ensures store_left { (x : DuplicateSaid) → duplicate_said words.now ≡ Some x → result.0 ≡ 5
        → EndsStopped x (sides x (D.held from.old) (E.held to.old) (H.shelved shelf)) (sides x (D.held from.new) (E.held to.new) (H.shelved result.1))
        (K.contents sink.old) (K.contents sink.new) }
    ensures shelf { result.0 ≡ 6 → Rose (H.faults shelf) (H.faults result.1) }
    ensures shelf_left { (x : DuplicateSaid) → duplicate_said words.now ≡ Some x → result.0 ≡ 6
        → EndsStopped x (sides x (D.held from.old) (E.held to.old) (H.shelved shelf)) (sides x (D.held from.new) (E.held to.new) (H.shelved result.1))
        (K.contents sink.old) (K.contents sink.new) }

    // 7: what was done. Nothing was written.
    ensures memory_left { (x : DuplicateSaid) → duplicate_said words.now ≡ Some x → result.0 ≡ 7
        → EndsStopped x (sides x (D.held from.old) (E.held to.old) (H.shelved shelf)) (sides x (D.held from.new) (E.held to.new) (H.shelved result.1))
        (K.contents sink.old) (K.contents sink.new) }
    ensures memory_silent { result.0 ≡ 7 → K.contents sink.new ≡ K.contents sink.old }

    // 9: exactly where the source's records are not valid, and the line of the first that breaks a rule was written.
    ensures bad { (x : DuplicateSaid) → duplicate_said words.now ≡ Some x → result.0 ≡ 9
        → WritesBadRecord (under x.from (H.shelved shelf)) (K.contents sink.old) (K.contents sink.new) }
    ensures bad_only { (x : DuplicateSaid) → duplicate_said words.now ≡ Some x → (rs : List Record) → under x.from (H.shelved shelf) ≡ Some rs
        → ¬ AreValid rs → Contains (9 ∷ 4 ∷ 6 ∷ 7 ∷ []) result.0 }

    // The source's store stays, and so do the records of all other numbers. At 1, 2 and 9, and where the words are refused, all stays.
    ensures from { D.held from.new ≡ D.held from.old }
    ensures others { (x : DuplicateSaid) → duplicate_said words.now ≡ Some x → OthersStay x.number (H.shelved shelf) (H.shelved result.1) }
    ensures to { IsEarly result.0 → E.held to.new ≡ E.held to.old }
    ensures numbers { IsEarly result.0 → AllStay (H.shelved shelf) (H.shelved result.1) }
    ensures to_unasked { accepts words.now ≡ false → E.held to.new ≡ E.held to.old }
    ensures numbers_unasked { accepts words.now ≡ false → AllStay (H.shelved shelf) (H.shelved result.1) }

    // There is no other status, and without a cause there is 0, 1 or 7.
    ensures statuses { Contains (0 ∷ 1 ∷ 2 ∷ 4 ∷ 5 ∷ 6 ∷ 7 ∷ 9 ∷ []) result.0 }
    ensures complete { (x : DuplicateSaid) → duplicate_said words.now ≡ Some x → (rs : List Record) → under x.from (H.shelved shelf) ≡ Some rs → AreValid rs
        → ¬ Rose (K.faults sink.old) (K.faults sink.new) → ¬ Rose (D.faults from.old) (D.faults from.new) → ¬ Rose (E.faults to.old) (E.faults to.new)
        → ¬ Rose (H.faults shelf) (H.faults result.1) → Contains (0 ∷ 1 ∷ 7 ∷ []) result.0 }
{
    let said = match read_duplicate(alloc, words) {
        Ok(said) => said,
        Err(WordsFault::Bad) => return (refuse_words(sink), shelf),
        Err(WordsFault::NoMemory) => return (7, shelf),
    };
    let (ended, shelf) = served(rt, alloc, &said, sink, from, to, shelf);
    (status_of(ended), shelf)
}
