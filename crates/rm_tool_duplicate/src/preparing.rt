//! All that a duplicate wants before anything changes.
ghost use Rattle.std.specs.Prelude.{◌≡◌, ◌≤◌, IfErr, IfOk, OnOk};
ghost use Rattle.rm_lang_words.specs.Reading.{duplicate_of as said_of};
ghost use Rattle.rm_shelf.specs.Shelved.{AllStay, under};
ghost use Rattle.rm_tool_opening.specs.Opening.{IsSource};
ghost use Rattle.rm_tool_duplicate.specs.{Asked.{sides}, Ended.{IsReady, Leaves}};
ghost use Rattle.rm_tool_ends.specs.Ended.{NoneFalls, RoseFor};

use crate::carrying::commit_for;
use crate::making::duplicate_of;
use crate::telling::lines_text;
use rm_base::{Seq, Sink, Store};
use rm_commit::Commit;
use rm_dup::Duplicate;
use rm_lang_words::DuplicateWords;
use rm_shelf::Shelf;
use rm_tool_ends::{Ended, write_refusal};
use rm_tool_opening::Site;
use std::alloc::Global;
use std::thread::Threads;

/// What a duplicate changes outside, and the text that tells of it.
#[derive(Drop)]
pub(crate) struct Ready {
    pub change: Commit,
    pub text: Seq<u8>,
}

/// All memory is taken before anything changes. Where the duplicate is refused, the line of that is written.
pub(crate) fn prepare<R: Threads + Sync, K: Sink, D: Store, E: Store, H: Shelf>(
    rt: &R,
    alloc: Global,
    said: &DuplicateWords,
    site: &Site,
    sink: &mut K,
    from: &mut D,
    to: &mut E,
    shelf: &mut H,
) -> Result<Ready, Ended>
    requires dbid { 1 ≤ said.now.dbid }
    requires source { IsSource (D.held from.old) (under said.now.from (H.shelved shelf.old)) site.now }
    ensures ready { IfOk result (IsReady (said_of said.now) (sides (said_of said.now) (D.held from.old) (E.held to.old) (H.shelved shelf.old))) }
    ensures silent { OnOk result (K.contents sink.new ≡ K.contents sink.old) }
    ensures ended { IfErr result (Leaves (said_of said.now) (sides (said_of said.now) (D.held from.old) (E.held to.old) (H.shelved shelf.old))
        (sides (said_of said.now) (D.held from.new) (E.held to.new) (H.shelved shelf.new)) (K.contents sink.old) (K.contents sink.new)) }
    ensures from { D.held from.new ≡ D.held from.old }
    ensures to { E.held to.new ≡ E.held to.old }
    ensures shelf { AllStay (H.shelved shelf.old) (H.shelved shelf.new) }
    ensures rose { IfErr result (RoseFor (record { sink = K.faults sink.old; from = D.faults from.old; to = E.faults to.old; records = H.faults shelf.old })
        (record { sink = K.faults sink.new; from = D.faults from.new; to = E.faults to.new; records = H.faults shelf.new })) }
    ensures none_falls { NoneFalls (record { sink = K.faults sink.old; from = D.faults from.old; to = E.faults to.old; records = H.faults shelf.old })
        (record { sink = K.faults sink.new; from = D.faults from.new; to = E.faults to.new; records = H.faults shelf.new }) }
{
    let duplicate = match duplicate_of(rt, alloc, said, site.state(), from, to, shelf)? {
        Ok(duplicate) => duplicate,
        Err(refusal) => {
            write_refusal(alloc, sink, refusal)?;
            return Err(Ended::Refused);
        }
    };
    let text = lines_text(alloc, said, &duplicate)?;
    let Duplicate {
        pieces,
        records,
        ..
    } = duplicate;
    let change = commit_for(alloc, pieces.as_slice(), records)?;
    Ok(Ready { change, text })
}
