//! An open database is mounted.
ghost use Rattle.std.specs.{Prelude.{◌≡◌, map}, Option.{option_map}};
ghost use Rattle.rm_blocks.specs.File.{standing};
ghost use Rattle.rm_machine.specs.{Mount.{as_mounted, mount_point, mounted}, Sound.{IsSound}};

use crate::damage::lose_damaged;
use crate::facts::{first_lost, now};
use crate::state::State;
use rm_base::{IncNo, Scn, Seq};
use rm_blocks::DataFile;
use rm_track::Tracker;
use std::alloc::Global;
use std::mem;

// Lets each datafile in place stand at a checkpoint of an incarnation.
fn stand_all(place: &mut Vec<Option<DataFile>>, inc: IncNo, checkpoint: Scn)
    ensures { place.new.items ≡ map (option_map (λ x. standing x inc checkpoint)) place.old.items }
{
    for file in place.iter_mut() {
        if let Some(file) = file {
            file.stand(inc, checkpoint);
        }
    }
}

// The point of an open database that is mounted.
fn mount_point(state: &State) -> Option<Scn>
    requires sound { IsSound state.now }
    ensures value { result ≡ mount_point state.now }
{
    let now = now(state);
    if first_lost(state, state.catalog.base().current, now).is_none() {
        Some(now)
    } else {
        None
    }
}

// Mounts an open database.
fn mount_open(alloc: Global, state: &mut State)
    requires sound { IsSound state.old }
    ensures value { state.new ≡ mounted state.old }
{
    let now = now(state);
    let point = mount_point(state);
    let current = state.catalog.base().current;
    let mut place = mem::replace(&mut state.instance.place, Seq::new(alloc)).into_vec();
    stand_all(&mut place, current, now);
    state.instance.place = Seq::from_vec(place);
    state.instance.point = point;
    state.instance.is_open = false;
    state.instance.tracker = Tracker::new(alloc);
}

/// Mounts an open database: each datafile of which a block is damaged is lost, and what is in place stands at `now`. A mounted
/// one stays as it is. It takes no memory.
pub fn become_mounted(alloc: Global, state: &mut State)
    requires sound { IsSound state.old }
    ensures value { state.new ≡ as_mounted state.old }
{
    if state.instance.is_open {
        lose_damaged(alloc, state);
        mount_open(alloc, state);
    }
}
