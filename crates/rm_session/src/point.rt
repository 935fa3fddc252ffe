//! The point of what is loaded.
ghost use Rattle.std.specs.Prelude.{◌≡◌, ◌↔◌, ◌<◌, All, IfSome, IsTrue, false, true};
ghost use Rattle.rm_history.specs.Tree.{IsThere};
ghost use Rattle.rm_machine.specs.{Loading.{IsHeadPoint, IsTheOne}, Mount.{mount_point}, Sound.{IsPoint, IsSound}, State.{tree}};
ghost use Rattle.rm_session.specs.Fit.{AllStand, IsPointBy, IsStanding, StandNow, with_point};

use rm_base::{IncNo, Scn};
use rm_blocks::DataFile;
use rm_catalog::HeadEntry;
use rm_machine::{State, facts};

// Whether the version of each row lies below the SCN.
fn lies_below(file: &DataFile, at: Scn) -> bool
    ensures { IsTrue result ↔ All (λ r. r.version < at) file.now.rows }
{
    file.rows().iter().all(|row| row.version < at)
}

// Whether what is in place is not lost and stands at this SCN of the incarnation, above all its versions.
fn stands_at(file: &Option<DataFile>, inc: IncNo, at: Scn) -> bool
    ensures { IsTrue result ↔ IsStanding inc at file.now }
{
    match file {
        Some(file) => file.inc() == inc && file.checkpoint() == at && lies_below(file, at),
        None => false,
    }
}

// Whether each datafile that exists at the address (i, s) stands there.
fn all_stand(state: &State, i: IncNo, s: Scn) -> bool
    requires sound { IsSound state.now }
    requires there { IsThere (tree state.now) i }
    ensures { IsTrue result ↔ AllStand state.now i s }
{
    let place = state.instance.place.as_slice();
    for (index, datafile) in state.catalog.files().iter().enumerate() {
        if facts::exists(state, i, s, datafile) && !stands_at(&place[index], i, s) {
            return false;
        }
    }
    true
}

// Whether the database has a point here.
fn is_point(state: &State, at: Scn) -> bool
    requires { IsSound state.now }
    ensures { IsTrue result ↔ IsPoint state.now at }
{
    let current = state.catalog.base().current;
    state.catalog.tree().reset_of(current) <= at
        && at <= facts::now(state)
        && all_stand(state, current, at)
}

// The point that the head tells, where it is one.
fn head_point(state: &State, head: HeadEntry) -> Option<Scn>
    requires { IsSound state.now }
    ensures { IsTheOne (IsHeadPoint state.now head) result }
{
    if head.inc == state.catalog.base().current && is_point(state, head.scn) {
        Some(head.scn)
    } else {
        None
    }
}

// The point of an open database that is mounted: `now`, where no datafile of the current path is lost.
fn mount_point(state: &State) -> Option<Scn>
    requires { IsSound state.now }
    ensures { result ≡ mount_point state.now }
{
    let now = facts::now(state);
    match facts::first_lost(state, state.catalog.base().current, now) {
        None => Some(now),
        Some(_) => None,
    }
}

/// The point of what is loaded: none of an open database; where a log of an open one is lost, that of one that was mounted
/// then; else the head's, where it is one.
pub(crate) fn point_of(state: &State) -> Option<Scn>
    requires sound { IsSound state.now }
    requires closed { IfSome state.now.catalog.saved (λ site. site.head.opened ≡ false → state.now.instance.is_open ≡ false) }
    requires stand { IfSome state.now.catalog.saved (λ site. site.head.opened ≡ true → StandNow state.now) }
    ensures told { IsPointBy state.now state.now.catalog.saved result }
    ensures sound { IsSound (with_point state.now result) }
{
    let head = state.catalog.saved()?.head();
    if state.instance.is_open {
        None
    } else if head.opened {
        mount_point(state)
    } else {
        head_point(state, head)
    }
}
