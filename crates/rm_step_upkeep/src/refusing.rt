//! Why a statement on a record is refused.
ghost use Rattle.std.specs.Prelude.{◌≡◌, ◌≤◌, None};
ghost use Rattle.rm_machine.specs.{Sound.{IsSound}, Upkeep.{is_unknown, record_refusal}};

use rm_base::{Limit, Refusal, Unknown};
use rm_machine::State;
use rm_machine::room::lacks_ids;

/// Whether no log, no piece and no set has the id.
pub(crate) fn is_unknown(state: &State, id: u64) -> bool
    requires sound { IsSound state.now }
    ensures value { result ≡ is_unknown state.now.catalog id }
{
    if id > u64::from(u32::MAX) {
        return true;
    }
    let id = id as u32;
    let catalog = &state.catalog;
    catalog.log(id).is_none() && catalog.piece(id).is_none() && catalog.set(id).is_none()
}

/// Why CHANGE BACKUP and DELETE BACKUP are refused, if they are: too few object ids are left (RM-11), or no log,
/// no piece and no set has the id (RM-12).
pub fn record_refusal(state: &State, id: u64) -> Option<Refusal>
    requires sound { IsSound state.now }
    ensures value { result ≡ record_refusal state.now id }
{
    if lacks_ids(state, 0) {
        Some(Refusal::Rm11(Limit::ObjectIds))
    } else if is_unknown(state, id) {
        Some(Refusal::Rm12(Unknown::Entry(id)))
    } else {
        None
    }
}

// The id of a record that is there.
pub(crate) fn known(state: &State, id: u64) -> u32
    requires sound { IsSound state.now }
    requires accepted { record_refusal state.now id ≡ None }
    ensures value { result ≡ id }
    ensures some { 1 ≤ result }
{
    id as u32
}
