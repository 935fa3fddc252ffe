//! What made databases do with their threads, counted.
use crate::branches::Made;
use crate::threads::BEGAN;
use rm_history::{Incarnation, Switch};

/// How many databases enable a thread again, have an incarnation that branched off above a switch of its parent, and have
/// one that branched off at or below a switch of it.
#[derive(Clone, Copy)]
pub struct Kinds {
    pub again: u32,
    pub above: u32,
    pub below: u32,
}

// Whether a thread with which the database began was disabled and is enabled again.
fn is_again(switches: &[Switch]) -> bool {
    switches
        .iter()
        .any(|switch| switch.on && switch.thread <= BEGAN)
}

// Whether the incarnation branched off above a switch of its parent, or else whether at or below one.
fn is_around(switches: &[Switch], branch: Incarnation, is_above: bool) -> bool {
    switches.iter().any(|switch| {
        switch.inc == branch.parent && (switch.scn < branch.reset) == is_above
    })
}

// Whether one of the incarnations did.
fn is_any_around(made: Made<'_>, is_above: bool) -> bool {
    for i in 2..5u32 {
        let branch = made.tree.get(i);
        if branch.is_some_and(|branch| is_around(made.switches, branch, is_above)) {
            return true;
        }
    }
    false
}

impl Kinds {
    /// Counts a database.
    pub fn add(&mut self, made: Made<'_>) {
        self.again = self
            .again
            .saturating_add(u32::from(is_again(made.switches)));
        self.above = self
            .above
            .saturating_add(u32::from(is_any_around(made, true)));
        self.below = self
            .below
            .saturating_add(u32::from(is_any_around(made, false)));
    }
}
