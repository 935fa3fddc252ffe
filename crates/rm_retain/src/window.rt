//! Where a recovery window starts.
ghost use Rattle.std.specs.Prelude.{◌≡◌};
ghost use Rattle.rm_history.specs.Tree.{IsThere};
ghost use Rattle.rm_retain.specs.Window.{first_on_path, is_old, is_on_path, last_old, window_start};

use rm_base::{IncNo, Mark, Moment, Scn};
use rm_history::Tree;

// The seconds of a day.
const DAY: u64 = 86400;

// Whether the mark is on the current path.
fn is_on_path(tree: &Tree, current: IncNo, mark: &Mark) -> bool
    requires { IsThere tree.now current }
    ensures { result ≡ is_on_path tree.now current mark.now }
{
    tree.is_within(mark.inc, current, mark.scn)
}

// Whether it is, and at this moment it is at least so many days old.
fn is_old(tree: &Tree, current: IncNo, days: u32, moment: Moment, mark: &Mark) -> bool
    requires { IsThere tree.now current }
    ensures { result ≡ is_old tree.now current days moment mark.now }
{
    is_on_path(tree, current, mark)
        && mark.moment <= moment
        && u64::from(days) * DAY <= moment - mark.moment
}

// The SCN of the last mark on the current path that is so old.
fn last_old(tree: &Tree, current: IncNo, days: u32, moment: Moment, marks: &[Mark]) -> Option<Scn>
    requires { IsThere tree.now current }
    ensures { result ≡ last_old tree.now current days moment marks.now }
{
    let mark = marks
        .iter()
        .rev()
        .find(|mark| is_old(tree, current, days, moment, mark))?;
    Some(mark.scn)
}

// The SCN of the first mark on the current path.
fn first_on_path(tree: &Tree, current: IncNo, marks: &[Mark]) -> Option<Scn>
    requires { IsThere tree.now current }
    ensures { result ≡ first_on_path tree.now current marks.now }
{
    let mark = marks.iter().find(|mark| is_on_path(tree, current, mark))?;
    Some(mark.scn)
}

/// The SCN at which a window of so many days starts at this moment: that of the last mark on the current
/// path that is at least so many days old, or else of the first one on it. None where no mark is on it.
pub fn window_start(
    tree: &Tree,
    current: IncNo,
    days: u32,
    moment: Moment,
    marks: &[Mark],
) -> Option<Scn>
    requires current { IsThere tree.now current }
    ensures { result ≡ window_start tree.now current days moment marks.now }
{
    match last_old(tree, current, days, moment, marks) {
        Some(scn) => Some(scn),
        None => first_on_path(tree, current, marks),
    }
}
