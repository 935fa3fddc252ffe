//! A standby, from the words to the status.
ghost use Rattle.std.specs.Prelude.{◌≡◌, ◌⊎◌, ◌∷◌, [], Contains, IfErr, List, OnOk, Some, false, true};
ghost use Rattle.rm_base.specs.Outside.{Appends, Rose};
ghost use Rattle.rm_catalog.specs.declared.record.Record.{Record};
ghost use Rattle.rm_lang_words.specs.Standby.{StandbySaid, standby_said};
ghost use Rattle.rm_tool_opening.specs.{Opens.{AreValid}, Opening.{WritesBadRecord}};
ghost use Rattle.rm_tool_ends.specs.{Ended.{IsEarly, RoseFor}, Writing.{WritesFront, bad_words}};
ghost use Rattle.rm_tool_standby.specs.{Asked.{accepts, sides}, Ended.{EndsInText, EndsRefused, EndsStopped, Finishes, Leaves}};

use crate::keeping::carry;
use crate::preparing::prepare;
use rm_base::{Sink, Store, Text};
use rm_catalog::Keeper;
use rm_lang_words::{StandbyTask, WordsFault, read_standby};
use rm_tool_ends::{Ended, refuse_words, status_of, write_all};
use rm_tool_opening::open_site;
use std::alloc::Global;
use std::sync::Wait;
use std::thread::Threads;

// The task that is asked for.
fn served<R: Threads + Wait + Sync, K: Sink, D: Store, E: Store, C: Keeper>(
    rt: &R,
    alloc: Global,
    task: StandbyTask,
    sink: &mut K,
    from: &mut D,
    to: &mut E,
    keeper: &mut C,
) -> Result<(), Ended>
    ensures finishes { OnOk result (Finishes task (sides (D.held from.old) (C.kept keeper.old) (E.held to.old))
        (sides (D.held from.new) (C.kept keeper.new) (E.held to.new)) (K.contents sink.old) (K.contents sink.new)) }
    ensures ended { IfErr result (Leaves task (sides (D.held from.old) (C.kept keeper.old) (E.held to.old))
        (sides (D.held from.new) (C.kept keeper.new) (E.held to.new)) (K.contents sink.old) (K.contents sink.new)) }
    ensures from { D.held from.new ≡ D.held from.old }
    ensures records { C.kept keeper.new ≡ C.kept keeper.old }
    ensures rose { IfErr result (RoseFor (record { sink = K.faults sink.old; from = D.faults from.old; to = E.faults to.old; records = C.faults keeper.old })
        (record { sink = K.faults sink.new; from = D.faults from.new; to = E.faults to.new; records = C.faults keeper.new })) }
{
    let site = open_site(alloc, sink, from, keeper)?;
    let ready = prepare(rt, alloc, task, &site, sink, from, to)?;
    carry(to, &ready.change)?;
    write_all(sink, ready.text.as_slice())?;
    Ok(())
}

/// Makes a standby of a database as it was until an SCN, rolls the standby that stands in a store of its own forward by an increment, or
/// tells it, and answers the status of the program.
///
/// The words are read first, then the site over the database's store and records is opened. All that may refuse the task is looked at, and
/// the new standby is made in memory: of what is recovered from what is at hand, or of the standby that was found and the increment. Then it
/// is put under the next number, then that of before is removed, and then the lines are written. Blocks are put together by threads of `rt`.
/// The database's store and records stay, at each status. It is
/// - 0 where the task was done, 1 where it is refused, by one line, and nothing changed,
/// - 2 where the words are refused,
/// - 4 where the sink failed, 5 where a store failed, 6 where the catalog's keeper failed,
/// - 7 where memory was wanting,
/// - 9 where the database's records are not valid.
pub fn run_standby<R: Threads + Wait + Sync, K: Sink, D: Store, E: Store, C: Keeper>(
    rt: &R,
    alloc: Global,
    words: &[Text],
    sink: &mut K,
    from: &mut D,
    to: &mut E,
    keeper: &mut C,
) -> u8
    // 0: the task was done and told.
    ensures done { (x : StandbySaid) → standby_said words.now ≡ Some x → result ≡ 0
        → Finishes x.task (sides (D.held from.old) (C.kept keeper.old) (E.held to.old)) (sides (D.held from.new) (C.kept keeper.new) (E.held to.new))
        (K.contents sink.old) (K.contents sink.new) }

    // 1: exactly where it is refused, and the line of that was written.
    ensures refused { (x : StandbySaid) → standby_said words.now ≡ Some x → result ≡ 1
        → EndsRefused x.task (sides (D.held from.old) (C.kept keeper.old) (E.held to.old)) (K.contents sink.old) (K.contents sink.new) }

    // 2: exactly where the words are refused, and their line was written.
    ensures words { result ≡ 2 → accepts words.now ≡ false }
    ensures words_line { result ≡ 2 → Appends (K.contents sink.old) (K.contents sink.new) bad_words }
    ensures words_only { accepts words.now ≡ false → Contains (2 ∷ 4 ∷ 7 ∷ []) result }
    ensures words_front { accepts words.now ≡ false → result ≡ 4 → WritesFront (K.contents sink.old) (K.contents sink.new) bad_words }

    // 4, 5 and 6: only where the count of that object rose, and what was written and done then.
    ensures sink { result ≡ 4 → Rose (K.faults sink.old) (K.faults sink.new) }
    ensures sink_written { (x : StandbySaid) → standby_said words.now ≡ Some x → result ≡ 4
        → EndsInText x.task (sides (D.held from.old) (C.kept keeper.old) (E.held to.old)) (sides (D.held from.new) (C.kept keeper.new) (E.held to.new))
        (K.contents sink.old) (K.contents sink.new) }
    ensures store { result ≡ 5 → Rose (D.faults from.old) (D.faults from.new) ⊎ Rose (E.faults to.old) (E.faults to.new) }
    ensures store_left { (x : StandbySaid) → standby_said words.now ≡ Some x → result ≡ 5
        → EndsStopped x.task (sides (D.held from.old) (C.kept keeper.old) (E.held to.old)) (sides (D.held from.new) (C.kept keeper.new) (E.held to.new))
        (K.contents sink.old) (K.contents sink.new) }
    ensures keeper { result ≡ 6 → Rose (C.faults keeper.old) (C.faults keeper.new) }
    ensures keeper_left { result ≡ 6 → K.contents sink.new ≡ K.contents sink.old }

    // 7: what was done. Nothing was written.
    ensures memory_left { (x : StandbySaid) → standby_said words.now ≡ Some x → result ≡ 7
        → EndsStopped x.task (sides (D.held from.old) (C.kept keeper.old) (E.held to.old)) (sides (D.held from.new) (C.kept keeper.new) (E.held to.new))
        (K.contents sink.old) (K.contents sink.new) }
    ensures memory_silent { result ≡ 7 → K.contents sink.new ≡ K.contents sink.old }

    // 9: exactly where the database's records are not valid, and the line of the first that breaks a rule was written.
    ensures bad { result ≡ 9 → WritesBadRecord (C.kept keeper.old) (K.contents sink.old) (K.contents sink.new) }
    ensures bad_only { accepts words.now ≡ true → (rs : List Record) → C.kept keeper.old ≡ Some rs → ¬ AreValid rs → Contains (9 ∷ 4 ∷ 6 ∷ 7 ∷ []) result }

    // The database's store and records stay. At 1, 2, 6 and 9, and where the words are refused, all stays.
    ensures from { D.held from.new ≡ D.held from.old }
    ensures records { C.kept keeper.new ≡ C.kept keeper.old }
    ensures to { IsEarly result → E.held to.new ≡ E.held to.old }
    ensures to_keeper { result ≡ 6 → E.held to.new ≡ E.held to.old }
    ensures to_unasked { accepts words.now ≡ false → E.held to.new ≡ E.held to.old }

    // There is no other status, and without a cause there is 0, 1 or 7.
    ensures statuses { Contains (0 ∷ 1 ∷ 2 ∷ 4 ∷ 5 ∷ 6 ∷ 7 ∷ 9 ∷ []) result }
    ensures complete { accepts words.now ≡ true → (rs : List Record) → C.kept keeper.old ≡ Some rs → AreValid rs
        → ¬ Rose (K.faults sink.old) (K.faults sink.new) → ¬ Rose (D.faults from.old) (D.faults from.new) → ¬ Rose (E.faults to.old) (E.faults to.new)
        → ¬ Rose (C.faults keeper.old) (C.faults keeper.new) → Contains (0 ∷ 1 ∷ 7 ∷ []) result }
{
    let said = match read_standby(alloc, words) {
        Ok(said) => said,
        Err(WordsFault::Bad) => return refuse_words(sink),
        Err(WordsFault::NoMemory) => return 7,
    };
    status_of(served(rt, alloc, said.task, sink, from, to, keeper))
}
