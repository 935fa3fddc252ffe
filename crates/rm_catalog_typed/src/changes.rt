//! Changes of base facts, incarnations, datafiles and marks. Each adds the edits that make the records follow.
ghost use Rattle.std.specs.Prelude.{◌≡◌, ◌≤◌, OnOk, OnErr};
ghost use Rattle.rm_base.specs.Numbers.{last_moment, last_scn};
ghost use Rattle.rm_history.specs.Tree.{IsThere, end_of};
ghost use Rattle.rm_catalog_typed.specs.Changes.{EditsFollow, with_base, with_end_at, with_file, with_incarnation, with_mark, with_moment};
ghost use Rattle.rm_catalog_typed.specs.Fitting.{FitsBase, FitsBranch, FitsFile, FitsMark};

use crate::catalog::TypedCatalog;
use crate::edits::{push, push_both};
use rm_base::{IncNo, Mark, Moment, NoMemory, Scn};
use rm_catalog::{BaseEntry, DatafileEntry, Edit, IncarnationEntry, MarkEntry, Record};
use rm_history::{Datafile, TreeFault};

impl TypedCatalog {
    /// Sets the base facts: the next id and the latest moment do not fall.
    #[tactic(auto, using(crate::proofs::Changed::follows_base))]
    pub fn set_base(&mut self, edits: &mut Vec<Edit>, base: BaseEntry) -> Result<(), NoMemory>
        requires fits { FitsBase self.old base }
        ensures after { OnOk result (self.new ≡ with_base self.old base) }
        ensures edits { OnOk result (EditsFollow edits.old.items edits.new.items self.old self.new) }
        ensures same { OnErr result (self.new ≡ self.old) }
        ensures unedited { OnErr result (edits.new.items ≡ edits.old.items) }
    {
        edits.push(Edit::Put(Record::Base(base)))?;
        self.base = base;
        Ok(())
    }

    /// Sets the latest moment, which does not fall and is at most 253,402,300,799.
    pub fn set_moment(&mut self, edits: &mut Vec<Edit>, moment: Moment) -> Result<(), NoMemory>
        requires kept { self.old.ledger.base.moment ≤ moment }
        requires last { moment ≤ last_moment }
        ensures after { OnOk result (self.new ≡ with_moment self.old moment) }
        ensures edits { OnOk result (EditsFollow edits.old.items edits.new.items self.old self.new) }
        ensures same { OnErr result (self.new ≡ self.old) }
        ensures unedited { OnErr result (edits.new.items ≡ edits.old.items) }
    {
        let base = BaseEntry {
            moment,
            ..self.base
        };
        self.set_base(edits, base)
    }

    /// Raises the end of an incarnation that is there, to `LAST_SCN` at most.
    #[tactic(auto, using(crate::proofs::Changed::follows_end, crate::proofs::Fitted::end_fits))]
    pub fn raise_end(&mut self, edits: &mut Vec<Edit>, inc: IncNo, end: Scn) -> Result<(), NoMemory>
        requires there { IsThere self.old.ledger.tree inc }
        requires up { end_of self.old.ledger.tree inc ≤ end }
        requires last { end ≤ last_scn }
        ensures after { OnOk result (self.new ≡ with_end_at self.old inc end) }
        ensures edits { OnOk result (EditsFollow edits.old.items edits.new.items self.old self.new) }
        ensures same { OnErr result (self.new ≡ self.old) }
        ensures unedited { OnErr result (edits.new.items ≡ edits.old.items) }
    {
        let Some(node) = self.tree.get(inc) else {
            unreachable!()
        };
        edits.push(Edit::Put(Record::Incarnation(IncarnationEntry {
            inc,
            parent: node.parent,
            reset: node.reset,
            end,
        })))?;
        self.tree.set_end(inc, end);
        Ok(())
    }

    /// Adds a datafile, which takes the next number.
    #[tactic(auto, using(crate::proofs::Changed::follows_file, crate::proofs::Fitted::file_fits))]
    pub fn add_file(&mut self, edits: &mut Vec<Edit>, file: Datafile) -> Result<(), NoMemory>
        requires fits { FitsFile self.old file }
        ensures after { OnOk result (self.new ≡ with_file self.old file) }
        ensures edits { OnOk result (EditsFollow edits.old.items edits.new.items self.old self.new) }
        ensures same { OnErr result (self.new ≡ self.old) }
        ensures unedited { OnErr result (edits.new.items ≡ edits.old.items) }
    {
        edits.reserve(1)?;
        let number = self.files.len() as u32 + 1;
        self.files.push(file)?;
        push(
            edits,
            Edit::Put(Record::Datafile(DatafileEntry {
                file: number,
                inc: file.inc,
                creation: file.creation,
                blocks: file.blocks,
            })),
        );
        Ok(())
    }

    /// Adds a mark, which takes the next number.
    #[tactic(auto, using(crate::proofs::Changed::follows_mark, crate::proofs::Fitted::mark_fits))]
    pub fn add_mark(&mut self, edits: &mut Vec<Edit>, mark: Mark) -> Result<(), NoMemory>
        requires fits { FitsMark self.old mark }
        ensures after { OnOk result (self.new ≡ with_mark self.old mark) }
        ensures edits { OnOk result (EditsFollow edits.old.items edits.new.items self.old self.new) }
        ensures same { OnErr result (self.new ≡ self.old) }
        ensures unedited { OnErr result (edits.new.items ≡ edits.old.items) }
    {
        edits.reserve(1)?;
        let id = self.marks.len() as u32 + 1;
        self.marks.push(mark)?;
        push(
            edits,
            Edit::Put(Record::Mark(MarkEntry {
                id,
                moment: mark.moment,
                inc: mark.inc,
                scn: mark.scn,
            })),
        );
        Ok(())
    }

    /// Adds an incarnation, which branches off from its parent and takes the next number, and its first mark
    /// at this moment. It begins and ends at this SCN.
    #[tactic(auto, using(crate::proofs::Changed::follows_branch, crate::proofs::Fitted::branch_fits))]
    pub fn branch(
        &mut self,
        edits: &mut Vec<Edit>,
        parent: IncNo,
        at: Scn,
        moment: Moment,
    ) -> Result<(), NoMemory>
        requires fits { FitsBranch self.old parent at moment }
        ensures after { OnOk result (self.new ≡ with_incarnation self.old parent at moment) }
        ensures edits { OnOk result (EditsFollow edits.old.items edits.new.items self.old self.new) }
        ensures same { OnErr result (self.new ≡ self.old) }
        ensures unedited { OnErr result (edits.new.items ≡ edits.old.items) }
    {
        edits.reserve(2)?;
        self.marks.reserve(1)?;
        let id = self.marks.len() as u32 + 1;
        let inc = match self.tree.branch(parent, at) {
            Ok(inc) => inc,
            Err(TreeFault::NoMemory) => return Err(NoMemory),
            Err(TreeFault::NoSuch | TreeFault::Outside) => unreachable!(),
        };
        let mark = Mark {
            moment,
            inc,
            scn: at,
        };
        if self.marks.push(mark).is_err() {
            unreachable!()
        }
        let node = IncarnationEntry {
            inc,
            parent,
            reset: at,
            end: at,
        };
        let entry = MarkEntry {
            id,
            moment,
            inc,
            scn: at,
        };
        push_both(
            edits,
            Edit::Put(Record::Incarnation(node)),
            Edit::Put(Record::Mark(entry)),
        );
        Ok(())
    }
}
