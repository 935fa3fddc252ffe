//! Datafiles that come to stand in place.
ghost use Rattle.std.specs.Prelude.{◌≡◌, All, length};
ghost use Rattle.rm_machine.specs.Recovery.{put_over, with_place};
ghost use Rattle.rm_step_recover.specs.Placing.{HasPlace};

use rm_base::{Scn, Seq};
use rm_blocks::DataFile;
use rm_machine::State;
use std::alloc::Global;
use std::mem;

// Puts each datafile at its place.
fn put_all(place: &mut Vec<Option<DataFile>>, files: Vec<DataFile>)
    requires { All (HasPlace (length place.old.items)) files.items }
    ensures { place.new.items ≡ put_over files.items place.old.items }
{
    for file in files {
        let index = file.file() as usize - 1;
        place[index] = Some(file);
    }
}

/// These datafiles come to stand in place, and the database at this point, if there is one. Takes no memory.
pub(crate) fn put_in_place(
    alloc: Global,
    state: &mut State,
    files: Seq<DataFile>,
    point: Option<Scn>,
)
    requires { All (HasPlace (length state.old.instance.place)) files }
    ensures { state.new ≡ with_place state.old point files }
{
    let mut place = mem::replace(&mut state.instance.place, Seq::new(alloc)).into_vec();
    put_all(&mut place, files.into_vec());
    state.instance.place = Seq::from_vec(place);
    state.instance.point = point;
}
