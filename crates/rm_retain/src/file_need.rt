//! What the policy needs of one datafile.
ghost use Rattle.std.specs.Prelude.{◌<◌, AllPairs};

use rm_base::{FileNo, Scn};

/// The floor of a datafile on the current path, and the ids of its copies that are chosen, ascending.
#[derive(Drop)]
pub struct FileNeed {
    pub file: FileNo,
    pub floor: Scn,
    pub chosen: Vec<u32>,
    ghost ascends: { AllPairs (λ i j. i < j) chosen.items },
}
