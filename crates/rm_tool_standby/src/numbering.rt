//! The number of a new standby.
ghost use Rattle.std.specs.Prelude.{◌≡◌, None};
ghost use Rattle.rm_tool_standby.specs.{Kept.{next_number as the_next}, Refused.{number_refusal as the_refusal}};

use rm_base::{Limit, Refusal};
use rm_piece::Set;

/// Why there can be no new standby beside the one that was found: no number is left for it (RM-11).
pub(crate) fn number_refusal(found: &Option<(u32, Set)>) -> Option<Refusal>
    ensures { result ≡ the_refusal found.now }
{
    let standby = found.as_ref()?;
    if standby.0 < 4_294_967_295 {
        return None;
    }
    Some(Refusal::Rm11(Limit::ObjectIds))
}

/// The number of the next standby: 1 for the first one.
pub(crate) fn next_number(found: &Option<(u32, Set)>) -> u32
    requires { the_refusal found.now ≡ None }
    ensures { result ≡ the_next found.now }
{
    match found {
        Some(standby) => standby.0 + 1,
        None => 1,
    }
}
