//! All that a source gives, and the script of a session.
ghost use Rattle.std.specs.Prelude.{ℕ, ◌≡◌, ◌+◌, ◌<◌, ◌≤◌, length, true, None, IfErr, IfOk, IfSome, IsSome, OnOk, IsErrOf};
ghost use Rattle.rm_base.specs.Outside.{HasTaken, Rose};
ghost use Rattle.rm_tool.specs.{Early.{EndsAtScript, IsOfLong, RoseFor}, Ends.{Counted, TakesMany}, Session.{ScriptOf}};

use crate::early::Early;
pub use crate::early::ReadFault;
use rm_base::{Sink, Source};
use rm_drill::drill_script;
use rm_tool_ends::write_all;
use std::alloc::Global;

/// The most bytes of a script.
pub const MOST_SCRIPT_BYTES: usize = 4_194_304;

/// Reads to the end of the source, in pieces of at most 512 bytes. It stops at the first failure,
/// and where more than [`MOST_SCRIPT_BYTES`] bytes were taken. After want of memory nothing is known but
/// that the source's faults did not fall.
pub fn read_all<S: Source>(alloc: Global, source: &mut S) -> Result<Vec<u8>, ReadFault>
    ensures taken { IfOk result (λ script. HasTaken (S.left source.old) (S.left source.new) script.items) }
    ensures whole { IfOk result (λ script. IfSome (S.left source.old) (λ left. left ≡ script.items)) }
    ensures end { OnOk result (S.at_end source.new ≡ true) }
    ensures within { IfOk result (λ script. length script.items ≤ 4194304) }
    ensures counted { IfOk result (λ script. Counted (S.taken source.old) → S.taken source.new ≡ S.taken source.old + length script.items) }

    ensures failed { IsErrOf result ReadFault.Failed → Rose (S.faults source.old) (S.faults source.new) }
    ensures failed_early { IsErrOf result ReadFault.Failed → Counted (S.taken source.old) → S.taken source.new ≤ S.taken source.old + 4194304 }
    ensures long { IsErrOf result ReadFault.TooLong → Counted (S.taken source.old) → TakesMany (S.taken source.old) (S.taken source.new) }
    ensures long_left { IsErrOf result ReadFault.TooLong → IfSome (S.left source.old) (λ left. 4194304 < length left) }
    ensures never_falls { S.faults source.old ≤ S.faults source.new }
{
    let mut script = Vec::new(alloc);
    let mut piece = [0u8; 512];
    'reading: while script.len() <= MOST_SCRIPT_BYTES {
        let n = source.read(&mut piece)?;
        if n == 0 {
            return Ok(script);
        }
        script.extend_from_slice(&piece[..n])?;
    }
    Err(ReadFault::TooLong)
}

/// The script of a session: all that the source gives, or of a drill its own, and then the source is left alone. After want of memory
/// nothing is known but that the source's faults did not fall.
fn script_for<S: Source>(
    alloc: Global,
    source: &mut S,
    drill: Option<u64>,
) -> Result<Vec<u8>, ReadFault>
    ensures script { IfOk result (λ script. ScriptOf drill (S.left source.old) (S.left source.new) script.items) }
    ensures end { OnOk result (drill ≡ None → S.at_end source.new ≡ true) }
    ensures unread { IsSome drill → source.new ≡ source.old }
    ensures within { IfOk result (λ script. length script.items ≤ 4194304) }
    ensures few { OnOk result (Counted (S.taken source.old) → S.taken source.new ≤ S.taken source.old + 4194304) }

    ensures failed { IsErrOf result ReadFault.Failed → Rose (S.faults source.old) (S.faults source.new) }
    ensures failed_early { IsErrOf result ReadFault.Failed → Counted (S.taken source.old) → S.taken source.new ≤ S.taken source.old + 4194304 }
    ensures long { IsErrOf result ReadFault.TooLong → Counted (S.taken source.old) → TakesMany (S.taken source.old) (S.taken source.new) }
    ensures long_left { IsErrOf result ReadFault.TooLong → IfSome (S.left source.old) (λ left. 4194304 < length left) }
    ensures never_falls { S.faults source.old ≤ S.faults source.new }
{
    match drill {
        Some(number) => Ok(drill_script(alloc, number)?.into_vec()),
        None => read_all(alloc, source),
    }
}

/// The script of a session, as [`script_for`] has it. Where it is too long the line of that is written.
pub fn script_of<S: Source, K: Sink>(
    alloc: Global,
    source: &mut S,
    sink: &mut K,
    drill: Option<u64>,
) -> Result<Vec<u8>, Early>
    ensures script { IfOk result (λ script. ScriptOf drill (S.left source.old) (S.left source.new) script.items) }
    ensures end { OnOk result (drill ≡ None → S.at_end source.new ≡ true) }
    ensures unread { IsSome drill → source.new ≡ source.old }
    ensures within { IfOk result (λ script. length script.items ≤ 4194304) }
    ensures few { OnOk result (Counted (S.taken source.old) → S.taken source.new ≤ S.taken source.old + 4194304) }
    ensures long { IsErrOf result Early.TooLong → Counted (S.taken source.old) → TakesMany (S.taken source.old) (S.taken source.new) }
    ensures long_only { Counted (S.taken source.old) → TakesMany (S.taken source.old) (S.taken source.new) → IfErr result IsOfLong }

    // What was written, and that only the source and the sink failed.
    ensures ok { OnOk result (K.contents sink.new ≡ K.contents sink.old) }
    ensures ended { IfErr result (EndsAtScript (S.left source.old) (K.contents sink.old) (K.contents sink.new)) }
    ensures rose { (d c : ℕ) → IfErr result (RoseFor (record { source = S.faults source.old; sink = K.faults sink.old; store = d; keeper = c })
        (record { source = S.faults source.new; sink = K.faults sink.new; store = d; keeper = c })) }
    ensures none_falls { (S.faults source.old ≤ S.faults source.new) × (K.faults sink.old ≤ K.faults sink.new) }
{
    match script_for(alloc, source, drill) {
        Ok(script) => Ok(script),
        Err(ReadFault::Failed) => Err(Early::Source),
        Err(ReadFault::NoMemory) => Err(Early::NoMemory),
        Err(ReadFault::TooLong) => {
            write_all(sink, b"rman: script over 4194304 bytes\n")?;
            Err(Early::TooLong)
        }
    }
}
