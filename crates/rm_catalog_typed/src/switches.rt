//! The switches of redo threads: which threads are enabled at an address, and one switch more.
ghost use Rattle.std.specs.Prelude.{◌≡◌, ◌<◌, ◌≤◌, All, OnOk, OnErr, fold, map};
ghost use Rattle.rm_history.specs.{Threads.{applies, last_switch}, Tree.{IsThere}};
ghost use Rattle.rm_catalog_typed.specs.{Changes.{EditsFollow, with_switch}, Fitting.{FitsSwitch}};
ghost use Rattle.rm_catalog_typed.specs.Switches.{after_sequence, enabled_at, is_enabled_in, next_sequence, switch_of};

use crate::catalog::TypedCatalog;
use crate::edits::push;
use crate::thread_switch::ThreadSwitch;
use rm_base::{IncNo, NoMemory, Scn, ThreadNo};
use rm_catalog::{Edit, Record, SwitchEntry};
use rm_history::{Switch, Tree};

// The sequence number that the next log of a thread takes in an incarnation, after one switch more.
fn after_sequence(inc: IncNo, thread: ThreadNo, before: u32, switch: &ThreadSwitch) -> u32
    ensures { result ≡ after_sequence inc thread before switch.now }
{
    if switch.thread == thread && switch.inc == inc {
        switch.sequence
    } else {
        before
    }
}

// The sequence number that the next log of a thread takes in an incarnation.
fn next_sequence(switches: &[ThreadSwitch], inc: IncNo, thread: ThreadNo) -> u32
    ensures { result ≡ fold (after_sequence inc thread) 1 switches.now }
{
    let mut sequence = 1;
    for switch in switches {
        sequence = after_sequence(inc, thread, sequence, switch);
    }
    sequence
}

// The last switch of a thread up to the address (m, g).
fn last_switch(
    switches: &[ThreadSwitch],
    tree: &Tree,
    m: IncNo,
    g: Scn,
    thread: ThreadNo,
) -> Option<Switch>
    requires there { IsThere tree.now m }
    requires late { All (λ x. 0 < x.scn) switches.now }
    ensures { result ≡ last_switch (applies tree.now m g thread) (map switch_of switches.now) }
{
    let mut last = None;
    for switch in switches {
        last = switch.switch().after(last, tree, m, g, thread);
    }
    last
}

impl TypedCatalog {
    /// Switches 1, 2, 3 and so on.
    pub fn switches(&self) -> &[ThreadSwitch]
        ensures { result.now ≡ self.now.ledger.switches }
    {
        &self.switches
    }

    /// Whether a redo thread is enabled at the address (m, g).
    #[tactic(auto, unfolding(rm_history::specs::Threads::is_enabled))]
    pub fn enabled(&self, m: IncNo, g: Scn, thread: ThreadNo) -> bool
        requires there { IsThere self.now.ledger.tree m }
        ensures { result ≡ is_enabled_in self.now.ledger m g thread }
    {
        match last_switch(&self.switches, &self.tree, m, g, thread) {
            Some(switch) => switch.on,
            None => thread <= self.base.threads,
        }
    }

    /// Whether threads 1, 2, 3 and 4 are enabled at the address (m, g).
    pub fn enabled_at(&self, m: IncNo, g: Scn) -> [bool; 4]
        requires there { IsThere self.now.ledger.tree m }
        ensures { result ≡ enabled_at self.now.ledger m g }
    {
        [
            self.enabled(m, g, 1),
            self.enabled(m, g, 2),
            self.enabled(m, g, 3),
            self.enabled(m, g, 4),
        ]
    }

    /// The sequence number that the next log of a thread takes in the current incarnation: what the thread's
    /// last switch there says, else 1.
    pub fn next_sequence(&self, thread: ThreadNo) -> u32
        ensures value { result ≡ next_sequence self.now.ledger thread }
        ensures some { 1 ≤ result }
    {
        next_sequence(&self.switches, self.base.current, thread)
    }

    /// Adds a switch of a redo thread, which takes the next number.
    #[tactic(auto, using(crate::proofs::Changed::follows_switch, crate::proofs::Fitted::switch_fits))]
    pub fn add_switch(
        &mut self,
        edits: &mut Vec<Edit>,
        switch: ThreadSwitch,
    ) -> Result<(), NoMemory>
        requires fits { FitsSwitch self.old switch }
        ensures after { OnOk result (self.new ≡ with_switch self.old switch) }
        ensures edits { OnOk result (EditsFollow edits.old.items edits.new.items self.old self.new) }
        ensures same { OnErr result (self.new ≡ self.old) }
        ensures unedited { OnErr result (edits.new.items ≡ edits.old.items) }
    {
        edits.reserve(1)?;
        let id = self.switches.len() as u32 + 1;
        self.switches.push(switch)?;
        push(
            edits,
            Edit::Put(Record::Switch(SwitchEntry {
                id,
                thread: switch.thread,
                inc: switch.inc,
                scn: switch.scn,
                on: switch.on,
                sequence: switch.sequence,
            })),
        );
        Ok(())
    }
}
