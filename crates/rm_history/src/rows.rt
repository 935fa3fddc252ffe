//! The states of all blocks of a datafile, in one pass over a history.
ghost use Rattle.std.specs.Prelude.{ℕ, ◌≡◌, ◌<◌, All, IfOk, Some, None, length, slice_index_or, if◌then◌else◌};
ghost use Rattle.rm_history.specs.{Tree.{IsThere}, State.{states, concerns, latest, later as later_of}};

use crate::world::{World, later};
use rm_base::{Change, FileNo, IncNo, NoMemory, Row, Scn};
use std::alloc::Global;

impl World {
    // Takes note of a change, where it is one of this datafile below `s`, on the path of `i`, and is
    // later than what was noted of its block.
    fn note(&self, last: &mut Vec<Option<Change>>, i: IncNo, s: Scn, file: FileNo, change: Change)
        requires there { IsThere self.now.tree i }
        requires scn { 0 < change.scn }
        ensures len { length last.new.items ≡ length last.old.items }
        ensures each { (b : ℕ) → b < length last.old.items → slice_index_or last.new.items b None ≡ (if concerns self.now i s file b change then Some (later_of change (slice_index_or last.old.items b None)) else slice_index_or last.old.items b None) }
    {
        let block = change.block as usize;
        if block < last.len() && self.concerns(i, s, file, change.block, &change) {
            last[block] = Some(later(change, last[block]));
        }
    }

    // The last change of each block of a datafile below `s`, on the path of `i`.
    fn last_changes(
        &self,
        alloc: Global,
        history: &[Change],
        i: IncNo,
        s: Scn,
        file: FileNo,
        blocks: u32,
    ) -> Result<Vec<Option<Change>>, NoMemory>
        requires there { IsThere self.now.tree i }
        requires scns { All (λ c. 0 < c.scn) history.now }
        ensures len { IfOk result (λ last. length last.items ≡ blocks) }
        ensures each { IfOk result (λ last. (b : ℕ) → b < blocks → slice_index_or last.items b None ≡ latest (concerns self.now i s file b) history.now) }
    {
        let mut last: Vec<Option<Change>> = vec![in alloc; None; blocks as usize]?;
        for change in history.iter().rev() {
            self.note(&mut last, i, s, file, *change);
        }
        Ok(last)
    }

    /// The states of the first `blocks` blocks of a datafile at the address (i, s), by a whole history.
    pub fn states(
        &self,
        alloc: Global,
        history: &[Change],
        i: IncNo,
        s: Scn,
        file: FileNo,
        blocks: u32,
    ) -> Result<Vec<Row>, NoMemory>
        requires there { IsThere self.now.tree i }
        requires scns { All (λ c. 0 < c.scn) history.now }
        ensures { IfOk result (λ rows. rows.items ≡ states self.now history.now i s file blocks) }
    {
        let last = self.last_changes(alloc, history, i, s, file, blocks)?;
        let mut rows = Vec::with_capacity(alloc, blocks as usize)?;
        for block in 0..blocks {
            rows.push(self.row(file, block, last[block as usize]))?;
        }
        Ok(rows)
    }
}
