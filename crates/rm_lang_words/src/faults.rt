//! Why the words were not read.
ghost use Rattle.std.specs.Prelude.{◌≡◌};

use rm_base::NoMemory;
use std::alloc::{AllocError, AllocFailed};

/// Why the words were not read.
#[derive(Clone, Copy, PartialEq, Eq)]
pub enum WordsFault {
    /// The words are refused.
    Bad,
    NoMemory,
}

impl From<AllocError> for WordsFault {
    ghost use Rattle.rm_lang_words.specs.declared.faults.WordsFault.TheVariants.{NoMemory as WithoutMemory};

    ghost from_gives = { λ _ e. e ≡ WithoutMemory };

    fn from(_: AllocError) -> Self {
        WordsFault::NoMemory
    }
}

impl From<NoMemory> for WordsFault {
    ghost use Rattle.rm_lang_words.specs.declared.faults.WordsFault.TheVariants.{NoMemory as WithoutMemory};

    ghost from_gives = { λ _ e. e ≡ WithoutMemory };

    fn from(_: NoMemory) -> Self {
        WordsFault::NoMemory
    }
}

impl<T: Drop> From<AllocFailed<T>> for WordsFault {
    ghost use Rattle.rm_lang_words.specs.declared.faults.WordsFault.TheVariants.{NoMemory as WithoutMemory};

    ghost from_gives = { λ _ e. e ≡ WithoutMemory };

    fn from(_: AllocFailed<T>) -> Self {
        WordsFault::NoMemory
    }
}
