//! What ends a restore or a preview.
ghost use Rattle.std.specs.Prelude.{◌≡◌, None};
ghost use Rattle.rm_apply.specs.{Faults.{of_evidence}, Recover.{IfGap, until_in}};

use rm_apply::RecoverFault;
use rm_evidence::EvidenceFault;

/// The fault, where the target lies within its incarnation, and no gap is told.
pub(crate) fn fault_of(fault: RecoverFault) -> EvidenceFault
    requires range { until_in fault ≡ None }
    requires no_gap { IfGap fault (λ _. ⊥) }
    ensures { of_evidence result ≡ fault }
{
    match fault {
        RecoverFault::StoreFault => EvidenceFault::StoreFault,
        RecoverFault::NoMemory => EvidenceFault::NoMemory,
        RecoverFault::Until(..) | RecoverFault::Gap(..) => unreachable!(),
    }
}
