//! Why a test did not come out.
ghost use Rattle.std.specs.Prelude.{◌≡◌, IsErr, IfErr};
ghost use Rattle.rm_test_harness.specs.Faults.{Tells};

use rm_base::NoMemory;
use std::alloc::{AllocError, AllocFailed, Global};

/// Why a test did not come out.
#[derive(Drop)]
pub enum Fault {
    /// What is not so.
    Differs(String),
    NoMemory,
}

impl From<NoMemory> for Fault {
    ghost use Rattle.rm_test_harness.specs.declared.fault.Fault.TheVariants.{NoMemory as WithoutMemory};

    ghost from_gives = { λ _ e. e ≡ WithoutMemory };

    fn from(_: NoMemory) -> Self {
        Fault::NoMemory
    }
}

impl From<AllocError> for Fault {
    ghost use Rattle.rm_test_harness.specs.declared.fault.Fault.TheVariants.{NoMemory as WithoutMemory};

    ghost from_gives = { λ _ e. e ≡ WithoutMemory };

    fn from(_: AllocError) -> Self {
        Fault::NoMemory
    }
}

impl<T: Drop> From<AllocFailed<T>> for Fault {
    ghost use Rattle.rm_test_harness.specs.declared.fault.Fault.TheVariants.{NoMemory as WithoutMemory};

    ghost from_gives = { λ _ e. e ≡ WithoutMemory };

    fn from(_: AllocFailed<T>) -> Self {
        Fault::NoMemory
    }
}

/// This is not so.
pub fn differs<T>(alloc: Global, what: &str) -> Result<T, Fault>
    ensures refused { IsErr result }
    ensures told { IfErr result (Tells what.now) }
{
    Err(Fault::Differs(String::from_str(alloc, what)?))
}
