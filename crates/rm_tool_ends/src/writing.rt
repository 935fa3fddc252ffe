//! All bytes to a sink, and the lines of words and statements that are refused.
ghost use Rattle.std.specs.Prelude.{◌≡◌, ◌≤◌, ◌∷◌, [], Contains, IfErr, OnErr, OnOk};
ghost use Rattle.rm_base.specs.Outside.{Appends, Rose};
ghost use Rattle.rm_report.specs.Reply.{HasDate};
ghost use Rattle.rm_tool_ends.specs.Writing.{RoseInRefusal, WritesFront, WritesRefusal, bad_words, refusal_line};

use crate::ended::Ended;
use rm_base::{Failed, Refusal, Sink};
use rm_report::{bytes_of, refusal_reply};
use std::alloc::Global;

/// Writes all bytes, in order. It stops at the first failure, and where a write takes none of them;
/// then some of the first bytes were written.
pub fn write_all<K: Sink>(sink: &mut K, bytes: &[u8]) -> Result<(), Failed>
    ensures ok { OnOk result (Appends (K.contents sink.old) (K.contents sink.new) bytes.now) }
    ensures failed { OnErr result (Rose (K.faults sink.old) (K.faults sink.new)) }
    ensures prefix { OnErr result (WritesFront (K.contents sink.old) (K.contents sink.new) bytes.now) }
    ensures never_falls { K.faults sink.old ≤ K.faults sink.new }
{
    let mut at = 0;
    while at < bytes.len() {
        let n = sink.write(&bytes[at..])?;
        if n == 0 {
            return Err(Failed);
        }
        at += n;
    }
    Ok(())
}

/// Writes the line of words that are refused, and answers its status, 2, or that of the sink's fault, 4; then a front of the line was written.
pub fn refuse_words<K: Sink>(sink: &mut K) -> u8
    ensures statuses { Contains (2 ∷ 4 ∷ []) result }
    ensures line { result ≡ 2 → Appends (K.contents sink.old) (K.contents sink.new) bad_words }
    ensures front { result ≡ 4 → WritesFront (K.contents sink.old) (K.contents sink.new) bad_words }
    ensures rose { result ≡ 4 → Rose (K.faults sink.old) (K.faults sink.new) }
{
    match write_all(sink, b"rman: bad words\n") {
        Ok(()) => 2,
        Err(_) => 4,
    }
}

/// Writes the line of a refusal. An error is a fault of the sink, and a front of the line was written, or want of memory, and nothing was.
pub fn write_refusal<K: Sink>(alloc: Global, sink: &mut K, refusal: Refusal) -> Result<(), Ended>
    requires date { HasDate refusal }
    ensures ok { OnOk result (Appends (K.contents sink.old) (K.contents sink.new) (refusal_line refusal)) }
    ensures err { IfErr result (WritesRefusal refusal (K.contents sink.old) (K.contents sink.new)) }
    ensures rose { IfErr result (RoseInRefusal (K.faults sink.old) (K.faults sink.new)) }
    ensures never_falls { K.faults sink.old ≤ K.faults sink.new }
{
    let reply = refusal_reply(alloc, refusal)?;
    let text = bytes_of(alloc, &reply)?;
    write_all(sink, text.as_slice())?;
    Ok(())
}
