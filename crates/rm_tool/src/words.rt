//! The words of the program.
ghost use Rattle.std.specs.Prelude.{◌≡◌, ◌≤◌, IfErr, IfOk, IfSome, OnOk, true};
ghost use Rattle.rm_tool.specs.{Early.{EndsAtWords, RoseAtSink}, Words.{SaysChannels, accepts, drill_of}};

use crate::early::Early;
use rm_base::{Sink, Text};
use rm_lang_words::{WordsFault, read_words};
use rm_tool_ends::write_all;
use std::alloc::Global;

/// What the words ask for: so many channels, 1 to 16, and the drill of this number, where they say these.
#[derive(Clone, Copy, PartialEq, Eq)]
pub struct Asked {
    pub channels: Option<u32>,
    pub drill: Option<u64>,
}

/// What the words of the program ask for. Where they are refused the line of that is written.
pub fn asked_in<K: Sink>(alloc: Global, words: &[Text], sink: &mut K) -> Result<Asked, Early>
    ensures accepted { OnOk result (accepts words.now ≡ true) }
    ensures said { IfOk result (λ asked. SaysChannels words.now asked.channels) }
    ensures drill { IfOk result (λ asked. drill_of words.now ≡ asked.drill) }
    ensures channels { IfOk result (λ asked. IfSome asked.channels (λ n. (1 ≤ n) × (n ≤ 16))) }

    // What was written, and that only the sink failed.
    ensures ok { OnOk result (K.contents sink.new ≡ K.contents sink.old) }
    ensures ended { IfErr result (EndsAtWords words.now (K.contents sink.old) (K.contents sink.new)) }
    ensures rose { IfErr result (RoseAtSink (K.faults sink.old) (K.faults sink.new)) }
    ensures never_falls { K.faults sink.old ≤ K.faults sink.new }
{
    match read_words(alloc, words) {
        Ok(said) => Ok(Asked {
            channels: said.channels,
            drill: said.drill,
        }),
        Err(WordsFault::Bad) => {
            write_all(sink, b"rman: bad words\n")?;
            Err(Early::Words)
        }
        Err(WordsFault::NoMemory) => Err(Early::NoMemory),
    }
}
