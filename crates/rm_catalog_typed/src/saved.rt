//! The saved site of a catalog: it is set, and cleared.
ghost use Rattle.std.specs.Prelude.{◌≡◌, ◌++◌, OnOk, OnErr, None};
ghost use Rattle.rm_catalog_typed.specs.{Changes.{EditsFollow, saved_edits, unsaved_edits, with_saved, without_saved}, Facts.{IsSaved}};

use crate::catalog::{Saved, TypedCatalog};
use crate::edits::{drop_parts, push, put_parts};
use rm_base::NoMemory;
use rm_catalog::{Edit, Key, Record};

// Puts a saved site.
#[tactic(auto, using(crate::proofs::Changed::site_more))]
fn put_site(edits: &mut Vec<Edit>, saved: &Saved) -> Result<(), NoMemory>
    ensures items { OnOk result (edits.new.items ≡ edits.old.items ++ saved_edits saved.now) }
    ensures unedited { OnErr result (edits.new.items ≡ edits.old.items) }
{
    edits.reserve(saved.parts.len() + 1)?;
    put_parts(edits, &saved.parts);
    push(edits, Edit::Put(Record::Head(saved.head)));
    Ok(())
}

// Drops a saved site, if there is one.
pub(crate) fn drop_site(edits: &mut Vec<Edit>, saved: &Option<Saved>) -> Result<(), NoMemory>
    ensures items { OnOk result (edits.new.items ≡ edits.old.items ++ unsaved_edits saved.now) }
    ensures unedited { OnErr result (edits.new.items ≡ edits.old.items) }
{
    if let Some(saved) = saved {
        edits.reserve(saved.parts.len() + 1)?;
        drop_parts(edits, &saved.parts);
        push(edits, Edit::Drop(Key { kind: 8, id: 0 }));
    }
    Ok(())
}

impl TypedCatalog {
    /// Sets the saved site, where there is none.
    #[tactic(auto, using(crate::proofs::Changed::follows_saved, crate::proofs::Changed::saved_fits))]
    pub fn set_saved(&mut self, edits: &mut Vec<Edit>, saved: Saved) -> Result<(), NoMemory>
        requires none { self.old.saved ≡ None }
        requires fits { IsSaved self.old.ledger saved }
        ensures after { OnOk result (self.new ≡ with_saved self.old saved) }
        ensures edits { OnOk result (EditsFollow edits.old.items edits.new.items self.old self.new) }
        ensures same { OnErr result (self.new ≡ self.old) }
        ensures unedited { OnErr result (edits.new.items ≡ edits.old.items) }
    {
        put_site(edits, &saved)?;
        self.saved = Some(saved);
        Ok(())
    }

    /// Takes away the saved site, if there is one.
    #[tactic(auto, using(crate::proofs::Changed::follows_unsaved, crate::proofs::Changed::unsaved_fits))]
    pub fn clear_saved(&mut self, edits: &mut Vec<Edit>) -> Result<(), NoMemory>
        ensures after { OnOk result (self.new ≡ without_saved self.old) }
        ensures edits { OnOk result (EditsFollow edits.old.items edits.new.items self.old self.new) }
        ensures same { OnErr result (self.new ≡ self.old) }
        ensures unedited { OnErr result (edits.new.items ≡ edits.old.items) }
    {
        drop_site(edits, &self.saved)?;
        self.saved = None;
        Ok(())
    }
}
