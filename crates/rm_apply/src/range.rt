//! The SCNs of an incarnation.
ghost use Rattle.std.specs.Prelude.{◌≡◌};
ghost use Rattle.rm_history.specs.Tree.{IsThere};
ghost use Rattle.rm_apply.specs.Recover.{outside};

use rm_base::{IncNo, Scn};
use rm_history::Tree;

/// The resetlogs SCN of incarnation `i` and its end, where `s` lies below the one or above the other.
pub fn outside(tree: &Tree, i: IncNo, s: Scn) -> Option<(Scn, Scn)>
    requires there { IsThere tree.now i }
    ensures { result ≡ outside tree.now i s }
{
    let Some(found) = tree.get(i) else {
        unreachable!()
    };
    if s < found.reset || found.end < s {
        return Some((found.reset, found.end));
    }
    None
}
