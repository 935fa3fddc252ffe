//! What the program reads from and writes to. Each object counts its faults, and the count never falls.
ghost use Rattle.std.specs.Prelude.{◌≡◌, ◌<◌, ◌≤◌, ℕ, Bool, List, Option, length, take, IfOk, OnErr};
ghost use Rattle.rm_base.specs.Outside.{HasTaken, Appends, Counts, EndsAt, Rose};

use crate::faults::Failed;

/// Where bytes are read from.
pub trait Source {
    /// What is left to be read, where the source tells it.
    ghost left: { Self → Option (List ℕ) };

    /// The number of bytes that were taken from it.
    ghost taken: { Self → ℕ };

    /// Whether its last read into a buffer that was not empty took 0 bytes.
    ghost at_end: { Self → Bool };

    /// How often it has failed.
    ghost faults: { Self → ℕ };

    /// Reads some bytes into the front of the buffer, and answers how many. 0 is the end of input,
    /// where the buffer is not empty. A call that fails takes nothing.
    fn read(&mut self, buf: &mut [u8]) -> Result<usize, Failed>
        ensures bound { IfOk result (λ n. n ≤ length buf.old) }
        ensures front { IfOk result (λ n. HasTaken (left self.old) (left self.new) (take n buf.new)) }
        ensures count { IfOk result (λ n. Counts (taken self.old) (taken self.new) n) }
        ensures end { IfOk result (λ n. 0 < length buf.old → EndsAt n (left self.old) (at_end self.new)) }
        ensures empty { IfOk result (λ _. length buf.old ≡ 0 → at_end self.new ≡ at_end self.old) }

        ensures failed { OnErr result (Rose (faults self.old) (faults self.new)) }
        ensures failed_left { OnErr result (left self.new ≡ left self.old) }
        ensures failed_count { OnErr result (taken self.new ≡ taken self.old) }
        ensures failed_end { OnErr result (at_end self.new ≡ at_end self.old) }
        ensures never_falls { faults self.old ≤ faults self.new };
}

/// Where bytes are written to.
pub trait Sink {
    /// What was written, where the sink tells it.
    ghost contents: { Self → Option (List ℕ) };

    /// How often it has failed.
    ghost faults: { Self → ℕ };

    /// Writes some of the first bytes, and answers how many. 0 is a fault, where there are bytes. A
    /// call that fails writes nothing.
    fn write(&mut self, bytes: &[u8]) -> Result<usize, Failed>
        ensures bound { IfOk result (λ n. n ≤ length bytes.now) }
        ensures grows { IfOk result (λ n. Appends (contents self.old) (contents self.new) (take n bytes.now)) }
        ensures zero { IfOk result (λ n. n ≡ 0 → 0 < length bytes.now → Rose (faults self.old) (faults self.new)) }

        ensures failed { OnErr result (Rose (faults self.old) (faults self.new)) }
        ensures failed_contents { OnErr result (contents self.new ≡ contents self.old) }
        ensures never_falls { faults self.old ≤ faults self.new };
}
