//! A switch of a redo thread.
ghost use Rattle.std.specs.Prelude.{◌≡◌};

use rm_base::{IncNo, Scn, ThreadNo};
use rm_history::Switch;

/// From its SCN on a redo thread is enabled, or it is not.
#[derive(Clone, Copy)]
pub struct ThreadSwitch {
    pub thread: ThreadNo,
    pub inc: IncNo,
    pub scn: Scn,
    /// Whether the thread is enabled from there on.
    pub on: bool,
    /// The sequence number that the thread's next log takes in that incarnation: at least 1.
    pub sequence: u32,
}

impl ThreadSwitch {
    ghost use Rattle.rm_catalog_typed.specs.Switches.{switch_of};

    /// The switch as a history has it.
    pub fn switch(&self) -> Switch
        ensures { result ≡ switch_of self.now }
    {
        Switch {
            thread: self.thread,
            inc: self.inc,
            scn: self.scn,
            on: self.on,
        }
    }
}
