//! A block that is written twice, and its states.
ghost use Rattle.std.specs.Prelude.{◌<◌, ◌≡◌, All, IfOk, length};

use rm_base::{Block, Change, NoMemory, Seq};
use rm_history::{Datafile, Switch, Tree, World};
use rm_test_harness::Fault;
use std::alloc::Global;

const FILE: Datafile = Datafile {
    inc: 1,
    creation: 1,
    blocks: 4,
};

// Incarnation 1, and one datafile of four blocks that was created at 1.
fn small(alloc: Global) -> Result<World, NoMemory>
    ensures { IfOk result (λ w. length w.tree ≡ 1) }
{
    let mut files = Seq::new(alloc);
    files.push(FILE)?;
    Ok(World {
        tree: Tree::new(alloc, 1)?,
        threads: 1,
        switches: Seq::new(alloc),
        files,
    })
}

// Block 0 gets 'AA' at 2 and 'BB' at 3.
fn two_writes() -> [Change; 2]
    ensures { All (λ c. 0 < c.scn) result }
{
    let first = Change {
        inc: 1,
        thread: 1,
        scn: 2,
        file: 1,
        block: 0,
        content: Block::padded(b"AA"),
    };
    let second = Change {
        scn: 3,
        content: Block::padded(b"BB"),
        ..first
    };
    [first, second]
}

/// A block has the state of its last change.
pub fn states(alloc: Global) -> Result<bool, Fault> {
    let world = small(alloc)?;
    let history = two_writes();
    for (s, version, text) in [(4, 3, "BB"), (3, 2, "AA"), (2, 1, "")] {
        let row = world.state(&history, 1, s, 1, 0);
        if row.version != version || row.content.trimmed() != text.as_bytes() {
            return Ok(false);
        }
    }
    Ok(true)
}

/// A datafile exists above its creation.
pub fn a_datafile(alloc: Global) -> Result<bool, Fault> {
    let world = small(alloc)?;
    let exists = [world.exists(1, 1, &FILE), world.exists(1, 2, &FILE)];
    let files = [world.file(1), world.file(0), world.file(2)];
    Ok(exists == [false, true] && files == [Some(FILE), None, None])
}

const ON: Switch = Switch {
    thread: 2,
    inc: 1,
    scn: 4,
    on: true,
};

const OFF: Switch = Switch {
    scn: 6,
    on: false,
    ..ON
};

// The same, where thread 2 is enabled at 4 and disabled at 6.
fn switched(alloc: Global) -> Result<World, NoMemory>
    ensures tree { IfOk result (λ w. length w.tree ≡ 1) }
    ensures scns { IfOk result (λ w. All (λ x. 0 < x.scn) w.switches) }
{
    let mut switches = Seq::new(alloc);
    switches.push(ON)?;
    switches.push(OFF)?;
    let world = small(alloc)?;
    Ok(World { switches, ..world })
}

/// A thread is enabled from its switch on, until the next one.
pub fn threads(alloc: Global) -> Result<bool, Fault> {
    let world = switched(alloc)?;
    let second = [
        world.is_enabled(1, 3, 2),
        world.is_enabled(1, 4, 2),
        world.is_enabled(1, 5, 2),
        world.is_enabled(1, 6, 2),
    ];
    let others = [world.is_enabled(1, 6, 1), world.is_enabled(1, 4, 3)];
    Ok(second == [false, true, true, false] && others == [true, false])
}
