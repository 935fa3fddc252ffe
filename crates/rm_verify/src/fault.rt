//! Why the records were not gone through.

use rm_evidence::EvidenceFault;

/// Why the records were not gone through: the store failed, and counted it, or there was no memory.
pub type VerifyFault = EvidenceFault;
