//! Why a site could not be loaded.

use rm_evidence::EvidenceFault;

/// Why a site could not be loaded: the store failed, and counted it, or there was no memory.
pub type SessionFault = EvidenceFault;
