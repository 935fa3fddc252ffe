//! A new catalog, and a catalog at the moment of a statement.
ghost use Rattle.std.specs.Prelude.{◌≡◌, ◌≤◌, IfOk, OnOk, None};
ghost use Rattle.rm_base.specs.Numbers.{last_moment, last_scn};
ghost use Rattle.rm_catalog_typed.specs.{Fresh.{fresh}, Changes.{EditsFollow, with_moment, without_saved}, Facts.{IsTypedCatalog}};
ghost use Rattle.rm_catalog_typed.specs.Starting.{with_earlier};

use crate::catalog::{Saved, TypedCatalog};
use crate::saved::drop_site;
use rm_base::{Mark, Moment, NoMemory, Policy, Scn, ThreadNo};
use rm_catalog::{BaseEntry, Edit};
use rm_history::Tree;
use std::alloc::Global;
use std::mem;

/// What stood in a catalog before a statement, and stands there again where that is refused.
#[derive(Drop)]
pub struct Earlier {
    /// The latest moment that was kept.
    pub moment: Moment,
    /// The saved site, if there was one.
    pub saved: Option<Saved>,
}

impl TypedCatalog {
    /// The catalog of a new database: incarnation 1 alone, which begins and ends at `scn`, no datafile, one
    /// mark, and no switch. An error is want of memory.
    pub fn fresh(
        alloc: Global,
        dbid: u32,
        threads: ThreadNo,
        scn: Scn,
        moment: Moment,
    ) -> Result<TypedCatalog, NoMemory>
        requires dbid { 1 ≤ dbid }
        requires threads { (1 ≤ threads) × (threads ≤ 4) }
        requires scn { (1 ≤ scn) × (scn ≤ last_scn) }
        requires moment { moment ≤ last_moment }
        ensures { IfOk result (λ c. c ≡ record { ledger = fresh dbid threads scn moment; saved = None }) }
    {
        let tree = Tree::new(alloc, scn)?;
        let mut marks = Vec::new(alloc);
        marks.push(Mark {
            moment,
            inc: 1,
            scn,
        })?;
        let base = BaseEntry {
            dbid,
            threads,
            current: 1,
            next_id: 1,
            moment,
            policy: Policy::Redundancy(1),
            parallelism: 1,
            tracking: false,
        };
        Ok(TypedCatalog {
            base,
            tree,
            files: Vec::new(alloc),
            logs: Vec::new(alloc),
            pieces: Vec::new(alloc),
            sets: Vec::new(alloc),
            marks,
            switches: Vec::new(alloc),
            saved: None,
        })
    }

    // Takes the saved site out, if there is one, and answers it.
    #[tactic(auto, using(crate::proofs::Changed::follows_unsaved, crate::proofs::Changed::unsaved_fits))]
    fn take_saved(&mut self, edits: &mut Vec<Edit>) -> Result<Option<Saved>, NoMemory>
        ensures after { OnOk result (self.new ≡ without_saved self.old) }
        ensures edits { OnOk result (EditsFollow edits.old.items edits.new.items self.old self.new) }
        ensures saved { IfOk result (λ saved. saved ≡ self.old.saved) }
    {
        drop_site(edits, &self.saved)?;
        Ok(mem::replace(&mut self.saved, None))
    }

    /// Begins a statement at its moment, which is kept from now on; the saved site goes. Answers what stood
    /// there before. After an error, which is want of memory, nothing is said of the catalog and the edits.
    pub fn begin(&mut self, edits: &mut Vec<Edit>, moment: Moment) -> Result<Earlier, NoMemory>
        requires kept { self.old.ledger.base.moment ≤ moment }
        requires last { moment ≤ last_moment }
        ensures after { OnOk result (self.new ≡ without_saved (with_moment self.old moment)) }
        ensures edits { OnOk result (EditsFollow edits.old.items edits.new.items self.old self.new) }
        ensures moment { IfOk result (λ earlier. earlier.moment ≡ self.old.ledger.base.moment) }
        ensures saved { IfOk result (λ earlier. earlier.saved ≡ self.old.saved) }
    {
        let earlier = self.base.moment;
        self.set_moment(edits, moment)?;
        let saved = self.take_saved(edits)?;
        Ok(Earlier {
            moment: earlier,
            saved,
        })
    }

    /// Puts back what stood there before a statement, which is refused.
    pub fn revert(&mut self, earlier: Earlier)
        requires { IsTypedCatalog (with_earlier self.old earlier.moment earlier.saved) }
        ensures { self.new ≡ with_earlier self.old earlier.moment earlier.saved }
    {
        let Earlier { moment, saved } = earlier;
        self.base.moment = moment;
        self.saved = saved;
    }
}
