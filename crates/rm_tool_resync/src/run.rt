//! A resync, from the words to the status.
ghost use Rattle.std.specs.Prelude.{◌≡◌, ◌≤◌, ◌∷◌, [], Contains, IfErr, IfOk, OnOk, true, false};
ghost use Rattle.rm_base.specs.Outside.{Appends, Rose};
ghost use Rattle.rm_control.specs.Control.{OneRose};
ghost use Rattle.rm_tool_ends.specs.Writing.{WritesFront, bad_words};
ghost use Rattle.rm_tool_resync.specs.Resynced.{EndsInLine, Finishes, Leaves, RoseInResync, StaysOrFollows, accepts, line_of as the_line_of};

use rm_base::{NoMemory, Seq, Sink, Text};
use rm_catalog::{Keeper, KeeperFail};
use rm_control::level;
use rm_lang_words::{WordsFault, read_resync};
use rm_report::{Line, bytes_of, reply_of};
use rm_tool_ends::{Ended, refuse_words, status_of, write_all};
use std::alloc::Global;

// The line of a resync of so many records, as text.
fn line_of(alloc: Global, number: u64) -> Result<Seq<u8>, NoMemory>
    ensures { IfOk result (λ text. text ≡ the_line_of number) }
{
    let mut lines = Seq::new(alloc);
    lines.push(Line::Resynced { records: number })?;
    bytes_of(alloc, &reply_of(lines))
}

// The resync that is asked for.
fn served<K: Sink, N: Keeper, F: Keeper>(
    alloc: Global,
    sink: &mut K,
    near: &mut N,
    far: &mut F,
) -> Result<(), Ended>
    ensures finishes { OnOk result (Finishes (N.kept near.old) (F.kept far.new) (K.contents sink.old) (K.contents sink.new)) }
    ensures ended { IfErr result (Leaves (N.kept near.old) (F.kept far.old) (F.kept far.new) (K.contents sink.old) (K.contents sink.new)) }
    ensures near { N.kept near.new ≡ N.kept near.old }
    ensures rose { IfErr result (RoseInResync (K.faults sink.old) (K.faults sink.new) (N.faults near.old) (N.faults near.new) (F.faults far.old)
        (F.faults far.new)) }
{
    let number = match level(alloc, near, far) {
        Ok(number) => number as u64,
        Err(KeeperFail::Failed) => return Err(Ended::Keeper),
        Err(KeeperFail::NoMemory) => return Err(Ended::NoMemory),
    };
    let text = line_of(alloc, number)?;
    write_all(sink, text.as_slice())?;
    Ok(())
}

/// Makes the records of a far keeper equal to those of a near one, and answers the status of the program and both keepers.
///
/// The words are read first. Both keepers are loaded, and the far one gets one list of edits where they differ; then the line of the number of the
/// near records is written. The near records stay, at each status; the far ones are as they were, or they are the near ones. It is
/// - 0 where the far records are the near ones and that was told,
/// - 2 where the words are refused,
/// - 4 where the sink failed, 6 where one of the keepers failed,
/// - 7 where memory was wanting.
pub fn run_resync<K: Sink, N: Keeper + Drop, F: Keeper + Drop>(
    alloc: Global,
    words: &[Text],
    sink: &mut K,
    near: N,
    far: F,
) -> (u8, N, F)
    // 0: the far records are the near ones, and exactly the line of their number was written.
    ensures done { result.0 ≡ 0 → Finishes (N.kept near) (F.kept result.2) (K.contents sink.old) (K.contents sink.new) }

    // 2: exactly where the words are refused, and their line was written.
    ensures words { result.0 ≡ 2 → accepts words.now ≡ false }
    ensures words_line { result.0 ≡ 2 → Appends (K.contents sink.old) (K.contents sink.new) bad_words }
    ensures words_only { accepts words.now ≡ false → Contains (2 ∷ 4 ∷ 7 ∷ []) result.0 }
    ensures words_front { accepts words.now ≡ false → result.0 ≡ 4 → WritesFront (K.contents sink.old) (K.contents sink.new) bad_words }

    // 4: only where the sink's count rose; the far records are the near ones, and a front of the line was written.
    ensures sink { result.0 ≡ 4 → Rose (K.faults sink.old) (K.faults sink.new) }
    ensures sink_written { accepts words.now ≡ true → result.0 ≡ 4 → EndsInLine (N.kept near) (F.kept result.2) (K.contents sink.old) (K.contents sink.new) }

    // 6: only where the count of one of the keepers rose. Nothing was changed or written.
    ensures keeper { result.0 ≡ 6 → OneRose (N.faults near) (N.faults result.1) (F.faults far) (F.faults result.2) }
    ensures keeper_left { result.0 ≡ 6 → F.kept result.2 ≡ F.kept far }
    ensures keeper_silent { result.0 ≡ 6 → K.contents sink.new ≡ K.contents sink.old }

    // 7: nothing was written.
    ensures memory { result.0 ≡ 7 → K.contents sink.new ≡ K.contents sink.old }

    // At each status the near records stay, and the far ones stay or are the near ones. They stay where the words are refused.
    ensures near { N.kept result.1 ≡ N.kept near }
    ensures far { StaysOrFollows (N.kept near) (F.kept far) (F.kept result.2) }
    ensures far_unasked { accepts words.now ≡ false → F.kept result.2 ≡ F.kept far }

    // There is no other status, and without a cause there is 0 or 7.
    ensures statuses { Contains (0 ∷ 2 ∷ 4 ∷ 6 ∷ 7 ∷ []) result.0 }
    ensures complete { accepts words.now ≡ true → ¬ Rose (K.faults sink.old) (K.faults sink.new) → ¬ Rose (N.faults near) (N.faults result.1)
        → ¬ Rose (F.faults far) (F.faults result.2) → Contains (0 ∷ 7 ∷ []) result.0 }
{
    match read_resync(alloc, words) {
        Ok(_) => (),
        Err(WordsFault::Bad) => return (refuse_words(sink), near, far),
        Err(WordsFault::NoMemory) => return (7, near, far),
    }
    let mut near = near;
    let mut far = far;
    let ended = served(alloc, sink, &mut near, &mut far);
    (status_of(ended), near, far)
}
