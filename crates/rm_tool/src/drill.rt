//! The line of a drill.
ghost use Rattle.std.specs.{Prelude.{◌≤◌, ◌++◌, OnErr, OnOk}, Fmt.{decimal}};
ghost use Rattle.rm_base.specs.Outside.{Appends, Rose};
ghost use Rattle.rm_tool_ends.specs.Writing.{WritesFront};
ghost use Rattle.rm_tool.specs.Drill.{parts_text, summary_text};

use crate::tally::Tally;
use itoa::Buffer;
use rm_base::{Failed, Scn, Sink};
use rm_tool_ends::write_all;

/// A sink that keeps nothing and never fails.
#[derive(Clone, Copy)]
pub struct Nowhere;

impl Sink for Nowhere {
    ghost use Rattle.std.specs.Prelude.{None};

    ghost contents = { λ _. None };

    ghost faults = { λ _. 0 };

    fn write(&mut self, bytes: &[u8]) -> Result<usize, Failed> {
        Ok(bytes.len())
    }
}

/// What the line of a drill tells.
#[derive(Clone, Copy)]
pub struct Summary {
    /// The number of the drill.
    pub number: u64,
    pub statements: u64,
    pub tally: Tally,
    pub next_scn: Scn,
    /// How many logs and pieces are recorded.
    pub objects: u64,
}

// Writes a text, and a number behind it.
fn write_part<K: Sink>(sink: &mut K, text: &str, number: u64) -> Result<(), Failed>
    ensures ok { OnOk result (Appends (K.contents sink.old) (K.contents sink.new) (text.now ++ decimal number)) }
    ensures failed { OnErr result (Rose (K.faults sink.old) (K.faults sink.new)) }
    ensures front { OnErr result (WritesFront (K.contents sink.old) (K.contents sink.new) (text.now ++ decimal number)) }
    ensures never_falls { K.faults sink.old ≤ K.faults sink.new }
{
    write_all(sink, text.as_bytes())?;
    let mut digits = Buffer::new();
    write_all(sink, digits.format(number).as_bytes())
}

// Writes texts, and a number behind each.
fn write_parts<K: Sink>(sink: &mut K, parts: &[(&str, u64)]) -> Result<(), Failed>
    ensures ok { OnOk result (Appends (K.contents sink.old) (K.contents sink.new) (parts_text parts.now)) }
    ensures failed { OnErr result (Rose (K.faults sink.old) (K.faults sink.new)) }
    ensures front { OnErr result (WritesFront (K.contents sink.old) (K.contents sink.new) (parts_text parts.now)) }
    ensures never_falls { K.faults sink.old ≤ K.faults sink.new }
{
    for part in parts {
        write_part(sink, part.0, part.1)?;
    }
    Ok(())
}

/// Writes the line, and wants no memory for it. It stops at the first failure; then some of the first bytes were written.
#[tactic(auto, unfolding(crate::specs::Drill::summary_text))]
pub fn write_line<K: Sink>(sink: &mut K, summary: Summary) -> Result<(), Failed>
    ensures ok { OnOk result (Appends (K.contents sink.old) (K.contents sink.new) (summary_text summary)) }
    ensures failed { OnErr result (Rose (K.faults sink.old) (K.faults sink.new)) }
    ensures front { OnErr result (WritesFront (K.contents sink.old) (K.contents sink.new) (summary_text summary)) }
    ensures never_falls { K.faults sink.old ≤ K.faults sink.new }
{
    let parts = [
        ("drill ", summary.number),
        (": ", summary.statements),
        (" statements, ", summary.tally.refused),
        (" refused, ", summary.tally.writes),
        (" writes, next SCN ", summary.next_scn),
        (", ", summary.objects),
    ];
    write_parts(sink, &parts)?;
    write_all(sink, b" objects\n")
}
