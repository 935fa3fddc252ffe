//! A database as recovery knows it, and what it holds at each address.
ghost use Rattle.std.specs.Prelude.{◌≡◌, ◌<◌, All};

use crate::tree::Tree;
use rm_base::{Block, BlockNo, Change, FileNo, IncNo, Row, Scn, Seq, ThreadNo};

/// A datafile as it was created: its incarnation and SCN, and how many blocks it has.
#[derive(Clone, Copy, PartialEq, Eq)]
pub struct Datafile {
    pub inc: IncNo,
    pub creation: Scn,
    pub blocks: u32,
}

/// From the SCN `scn` of incarnation `inc` on a redo thread is enabled, or it is not.
#[derive(Clone, Copy, PartialEq, Eq)]
pub struct Switch {
    pub thread: ThreadNo,
    pub inc: IncNo,
    pub scn: Scn,
    pub on: bool,
}

/// A database as recovery knows it: its incarnations, how many redo threads it began with, when threads
/// were switched on and off, and its datafiles 1, 2, 3 and so on.
#[derive(Drop)]
pub struct World {
    pub tree: Tree,
    pub threads: ThreadNo,
    pub switches: Seq<Switch>,
    pub files: Seq<Datafile>,
}

impl World {
    ghost use Rattle.rm_history.specs.{Tree.{IsThere}, World.{file_of, exists}, State.{state, concerns, row_of}};

    /// The datafile of this number. None where it is not there.
    pub fn file(&self, number: u64) -> Option<Datafile>
        ensures { result ≡ file_of self.now number }
    {
        let index = usize::try_from(number.checked_sub(1)?).ok()?;
        self.files.as_slice().get(index).copied()
    }

    /// Whether a datafile exists at the address (i, s): it was created below `s`, on the path of `i`.
    pub fn exists(&self, i: IncNo, s: Scn, file: &Datafile) -> bool
        requires there { IsThere self.now.tree i }
        requires created { 0 < file.now.creation }
        ensures { result ≡ exists self.now i s file.now }
    {
        self.tree.exists(i, s, file)
    }

    // Whether a change is one of this block below `s`, at an address that the path of `i` owns.
    pub(crate) fn concerns(
        &self,
        i: IncNo,
        s: Scn,
        file: FileNo,
        block: BlockNo,
        change: &Change,
    ) -> bool
        requires there { IsThere self.now.tree i }
        requires scn { 0 < change.now.scn }
        ensures { result ≡ concerns self.now i s file block change.now }
    {
        change.file == file
            && change.block == block
            && change.scn < s
            && self.tree.owner(i, change.scn) == Some(change.inc)
    }

    /// The state of a block at the address (i, s) by a whole history: the plain, slow way, one change
    /// after another.
    pub fn state(&self, history: &[Change], i: IncNo, s: Scn, file: FileNo, block: BlockNo) -> Row
        requires there { IsThere self.now.tree i }
        requires scns { All (λ c. 0 < c.scn) history.now }
        ensures { result ≡ state self.now history.now i s file block }
    {
        let mut last: Option<Change> = None;
        for change in history.iter().rev() {
            if self.concerns(i, s, file, block, change) {
                last = Some(later(*change, last));
            }
        }
        self.row(file, block, last)
    }

    // The row of a block by its last change, or as its datafile was created.
    pub(crate) fn row(&self, file: FileNo, block: BlockNo, last: Option<Change>) -> Row
        ensures { result ≡ row_of self.now file block last }
    {
        match last {
            Some(change) => Row {
                block,
                version: change.scn,
                content: change.content,
            },
            None => Row {
                block,
                version: self.file(u64::from(file)).map_or(0, |file| file.creation),
                content: Block::padded(b""),
            },
        }
    }
}

ghost use Rattle.rm_history.specs.State.{later as later_of};

// Of two changes the one of the greater SCN.
pub(crate) fn later(change: Change, other: Option<Change>) -> Change
    ensures { result ≡ later_of change other }
{
    match other {
        Some(other) if change.scn <= other.scn => other,
        _ => change,
    }
}
