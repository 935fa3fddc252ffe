//! What stands in place of the datafiles.
ghost use Rattle.std.specs.Prelude.{◌≡◌, ◌<◌, length, All};
ghost use Rattle.rm_history.specs.Tree.{IsThere};
ghost use Rattle.rm_machine.specs.{Open.{kept_in_place}, State.{ledger, tree, world}};

use rm_base::{IncNo, Scn};
use rm_blocks::DataFile;
use rm_machine::State;
use rm_machine::facts::exists;

/// Takes out of place what does not exist at the address (i, s).
pub(crate) fn keep_in_place(state: &State, place: &mut Vec<Option<DataFile>>, i: IncNo, s: Scn)
    requires there { IsThere (tree state.now) i }
    requires created { All (λ d. 0 < d.creation) (ledger state.now).files }
    requires many { length place.old.items ≡ length (ledger state.now).files }
    ensures { place.new.items ≡ kept_in_place (world state.now) i s (ledger state.now).files place.old.items }
{
    for (index, datafile) in state.catalog.files().iter().enumerate() {
        if !exists(state, i, s, datafile) {
            place[index] = None;
        }
    }
}
