//! Changes of backup sets. Each adds the edit that makes the records follow.
ghost use Rattle.std.specs.Prelude.{◌≡◌, ◌≤◌, OnOk, OnErr};
ghost use Rattle.rm_catalog_typed.specs.{Changes.{EditsFollow, with_new_set, with_set, without_set}, Fitting.{FitsNewSet, FitsSet}};

use crate::by_id;
use crate::catalog::TypedCatalog;
use crate::edits::{push, push_both};
use rm_base::NoMemory;
use rm_catalog::{BaseEntry, Edit, Key, Record, SetEntry};
use std::alloc::Global;

impl TypedCatalog {
    /// Puts a set in place of that of its id, or at its place.
    #[tactic(auto, using(crate::proofs::Changed::follows_set, crate::proofs::Fitted::set_fits))]
    pub fn put_set(
        &mut self,
        alloc: Global,
        edits: &mut Vec<Edit>,
        set: SetEntry,
    ) -> Result<(), NoMemory>
        requires fits { FitsSet self.old set }
        ensures after { OnOk result (self.new ≡ with_set self.old set) }
        ensures edits { OnOk result (EditsFollow edits.old.items edits.new.items self.old self.new) }
        ensures same { OnErr result (self.new ≡ self.old) }
        ensures unedited { OnErr result (edits.new.items ≡ edits.old.items) }
    {
        edits.reserve(1)?;
        let copy = set.copy(alloc)?;
        by_id::put(&mut self.sets, set)?;
        push(edits, Edit::Put(Record::Set(copy)));
        Ok(())
    }

    /// Adds a set under the next id, which is below 4,294,967,295 and is raised.
    pub fn add_set(
        &mut self,
        alloc: Global,
        edits: &mut Vec<Edit>,
        set: SetEntry,
    ) -> Result<(), NoMemory>
        requires fits { FitsNewSet self.old set }
        ensures after { OnOk result (self.new ≡ with_new_set self.old set) }
        ensures edits { OnOk result (EditsFollow edits.old.items edits.new.items self.old self.new) }
        ensures same { OnErr result (self.new ≡ self.old) }
        ensures unedited { OnErr result (edits.new.items ≡ edits.old.items) }
    {
        edits.reserve(2)?;
        let copy = set.copy(alloc)?;
        let next_id = set.id + 1;
        self.sets.push(set)?;
        self.base = BaseEntry {
            next_id,
            ..self.base
        };
        push_both(
            edits,
            Edit::Put(Record::Base(self.base)),
            Edit::Put(Record::Set(copy)),
        );
        Ok(())
    }

    /// Takes away the set of an id, at least 1, if it is there.
    #[tactic(auto, using(crate::proofs::Fitted::no_set_fits))]
    pub fn drop_set(&mut self, edits: &mut Vec<Edit>, id: u32) -> Result<(), NoMemory>
        requires some { 1 ≤ id }
        ensures after { OnOk result (self.new ≡ without_set self.old id) }
        ensures edits { OnOk result (EditsFollow edits.old.items edits.new.items self.old self.new) }
        ensures same { OnErr result (self.new ≡ self.old) }
        ensures unedited { OnErr result (edits.new.items ≡ edits.old.items) }
    {
        edits.push(Edit::Drop(Key { kind: 9, id }))?;
        by_id::remove(&mut self.sets, id);
        Ok(())
    }
}
