//! What the program keeps objects in, and the clock. A store counts its faults, and the count never falls.
ghost use Rattle.std.specs.Prelude.{◌≡◌, ◌+◌, ◌≤◌, ℕ, Option, Some, None, IfOk, IfSome, OnOk, IsErrOf};
ghost use Rattle.rm_base.specs.{Outside.{Rose}, Store.{Held, Both, HasNow, SameBut, Ascends, AreTheNames, Answers, IsLater}};
ghost use Rattle.rm_base.specs.declared.store.StoreFail.TheVariants.{Failed};

use crate::seq::Seq;
use crate::text::Text;
use std::alloc::{AllocError, AllocFailed};

/// Why a call of a store gave nothing, or did not all.
#[derive(Clone, Copy, Debug, PartialEq, Eq)]
pub enum StoreFail {
    /// The store failed, and counted it.
    Failed,
    NoMemory,
}

impl From<AllocError> for StoreFail {
    ghost use Rattle.rm_base.specs.declared.store.StoreFail.TheVariants.{NoMemory as WithoutMemory};

    ghost from_gives = { λ _ e. e ≡ WithoutMemory };

    fn from(_: AllocError) -> Self {
        StoreFail::NoMemory
    }
}

impl<T: Drop> From<AllocFailed<T>> for StoreFail {
    ghost use Rattle.rm_base.specs.declared.store.StoreFail.TheVariants.{NoMemory as WithoutMemory};

    ghost from_gives = { λ _ e. e ≡ WithoutMemory };

    fn from(_: AllocFailed<T>) -> Self {
        StoreFail::NoMemory
    }
}

/// Bytes under names.
pub trait Store {
    /// The bytes under each name, where the store tells it.
    ghost held: { Self → Option Held };

    /// How often it has failed.
    ghost faults: { Self → ℕ };

    /// The bytes under the name; None where nothing stands there.
    fn get(&mut self, name: &str) -> Result<Option<Seq<u8>>, StoreFail>
        ensures found { IfOk result (λ bytes. IfSome (held self.old) (λ h. h name.now ≡ bytes)) }
        ensures same { held self.new ≡ held self.old }

        ensures failed { IsErrOf result Failed → Rose (faults self.old) (faults self.new) }
        ensures never_falls { faults self.old ≤ faults self.new };

    /// Puts the bytes under the name, in place of what stood there. A call that fails may leave any
    /// bytes under this name, or none.
    fn put(&mut self, name: &str, bytes: &[u8]) -> Result<(), StoreFail>
        ensures stands { OnOk result (Both (HasNow name.now (Some bytes.now)) (held self.old) (held self.new)) }
        ensures others { Both (SameBut name.now) (held self.old) (held self.new) }

        ensures failed { IsErrOf result Failed → Rose (faults self.old) (faults self.new) }
        ensures never_falls { faults self.old ≤ faults self.new };

    /// Takes away what stands under the name. That nothing stands there is no fault. A call that fails
    /// may leave any bytes under this name, or none.
    fn remove(&mut self, name: &str) -> Result<(), StoreFail>
        ensures gone { OnOk result (Both (HasNow name.now None) (held self.old) (held self.new)) }
        ensures others { Both (SameBut name.now) (held self.old) (held self.new) }

        ensures failed { IsErrOf result Failed → Rose (faults self.old) (faults self.new) }
        ensures never_falls { faults self.old ≤ faults self.new };

    /// The names under which something stands, ascending by their bytes.
    fn names(&mut self) -> Result<Seq<Text>, StoreFail>
        ensures ascending { IfOk result (λ names. Ascends names) }
        ensures exact { IfOk result (λ names. IfSome (held self.old) (AreTheNames names)) }
        ensures same { held self.new ≡ held self.old }

        ensures failed { IsErrOf result Failed → Rose (faults self.old) (faults self.new) }
        ensures never_falls { faults self.old ≤ faults self.new };
}

/// A clock, which cannot fail.
pub trait Clock {
    /// The answers to come, where the clock tells them.
    ghost answers: { Self → Option Answers };

    /// How often it was asked.
    ghost asked: { Self → ℕ };

    /// The time, in seconds since 1970-01-01 UTC.
    fn now(&mut self) -> u64
        ensures next { IfSome (answers self.old) (λ coming. result ≡ coming 0) }
        ensures later { Both IsLater (answers self.old) (answers self.new) }
        ensures count { asked self.new ≡ asked self.old + 1 };
}
