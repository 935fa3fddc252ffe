//! The moment of a statement.
ghost use Rattle.std.specs.Prelude.{◌≡◌, IfSome};
ghost use Rattle.rm_machine.specs.Sound.{IsSound};
ghost use Rattle.rm_machine_laws.specs.Moments.{IsMomentIn, moment_of};

use rm_base::{LAST_MOMENT, Moment};
use rm_machine::State;

/// The moment of a statement: the clock's answer, or the latest moment that was kept, if that is later. None
/// is past `LAST_MOMENT`.
pub(crate) fn moment_of(state: &Option<State>, clock: Moment) -> Moment
    requires { IfSome state.now IsSound }
    ensures value { result ≡ moment_of state.now clock }
    ensures moment { IsMomentIn state.now result }
{
    let kept = match state {
        Some(state) => state.catalog.base().moment,
        None => 0,
    };
    clock.min(LAST_MOMENT).max(kept)
}
