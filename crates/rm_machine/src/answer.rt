//! What a statement comes to, and the stop that a fault makes of it.
ghost use Rattle.std.specs.Prelude.{◌≡◌};
ghost use Rattle.rm_machine.specs.Faults.{stop_of};

use crate::handed::Handed;
use rm_base::{Refusal, Seq};
use rm_commit::Stop;
use rm_evidence::EvidenceFault;
use rm_report::Line;

/// What a statement comes to.
#[derive(Drop)]
pub enum Answer {
    /// It is refused, and nothing changed.
    Refused(Refusal),
    /// It only tells, and nothing changed.
    Told(Seq<Line>),
    /// It is done, but for what is carried out.
    Done(Handed),
}

/// The stop that a fault at what the store holds makes.
pub fn stop_of(fault: EvidenceFault) -> Stop
    ensures { result ≡ stop_of fault }
{
    match fault {
        EvidenceFault::StoreFault => Stop::StoreFault,
        EvidenceFault::NoMemory => Stop::NoMemory,
    }
}
