//! Which redo threads of a made database are enabled at an address, by its switches one after another. What it answers
//! is wished for, and nothing is proved of it.
use rm_base::{IncNo, Scn, ThreadNo};
use rm_history::{Switch, Tree};

/// How many threads the database began with.
pub const BEGAN: ThreadNo = 2;

// Whether the switch is one of the thread up to the SCN `g`, on the path of incarnation `m`.
fn does_count(tree: &Tree, switch: &Switch, m: IncNo, g: Scn, thread: ThreadNo) -> bool {
    switch.thread == thread && switch.scn <= g && tree.owner(m, switch.scn) == Some(switch.inc)
}

/// Whether the thread is enabled at the SCN `g` of incarnation `m`: its last switch says so, or it has none and the
/// database began with it.
pub fn is_enabled(tree: &Tree, switches: &[Switch], m: IncNo, g: Scn, thread: ThreadNo) -> bool {
    let mut on = thread <= BEGAN;
    let mut last = 0;
    for switch in switches {
        if does_count(tree, switch, m, g, thread) && last <= switch.scn {
            on = switch.on;
            last = switch.scn;
        }
    }
    on
}

/// The first of the four threads, from the one behind `after` on and around, that is enabled at the SCN `g` of
/// incarnation `m`.
pub fn enabled_behind(
    tree: &Tree,
    switches: &[Switch],
    m: IncNo,
    g: Scn,
    after: ThreadNo,
) -> Option<ThreadNo> {
    for step in 0..4u8 {
        let thread = 1 + after.wrapping_add(step) % 4;
        if is_enabled(tree, switches, m, g, thread) {
            return Some(thread);
        }
    }
    None
}
