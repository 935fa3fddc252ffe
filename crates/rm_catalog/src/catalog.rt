//! All records of a database.
ghost use Rattle.std.specs.{Prelude.{◌≡◌, ◌<◌, ◌^◌, List, IfOk, IfErr, IfSome, IfNone, OnOk, OnErr}, Option.{option_copied}};
ghost use Rattle.rm_catalog.specs.{Keys.{place_of_key, InOrder, at}, Faults.{IsBadRow, IsTaken, IsTold}};
ghost use Rattle.rm_catalog.specs.{Rules.{HasDatabase, IsValid, IsOrderOf, IsCatalog, IsFirstBad}, Switches.{began_with, switches}};
ghost use Rattle.rm_catalog.specs.{Trees.{nodes, as_tree}, Edits.{after_edits}, declared.record.{Record.{Record}, Key.{Key}}};
ghost use Rattle.rm_history.specs.{Threads.{is_enabled}, Tree.{IsThere}};

use crate::find::{count_before, find};
use crate::record::{Edit, Key, Record};
use crate::rules::obeys;
use crate::switches::{began_with, is_on, last_switch};
use crate::{copies, edits, tree};
use rm_base::{IncNo, NoMemory, Scn, Seq, ThreadNo};
use rm_history::Tree;
use std::alloc::Global;
use std::marker::Model;

/// Why records are no catalog.
#[derive(Clone, Copy, PartialEq, Eq)]
pub enum CatalogFault {
    /// The kind and the id of the first record that breaks a rule.
    BadRow(u8, u32),
    NoMemory,
}

/// The records of a database, seen as a list that ascends by kind and then id.
#[derive(Drop)]
pub struct Catalog {
    records: Vec<Record>,
    tree: Option<Tree>,
}

impl From<NoMemory> for CatalogFault {
    ghost use Rattle.rm_catalog.specs.declared.catalog.CatalogFault.TheVariants.{NoMemory as WithoutMemory};

    ghost from_gives = { λ _ e. e ≡ WithoutMemory };

    fn from(_: NoMemory) -> Self {
        CatalogFault::NoMemory
    }
}

impl Model for Catalog {
    ghost use Rattle.std.specs.Prelude.{List};
    ghost use Rattle.rm_catalog.specs.{Rules.{IsCatalog}, Trees.{HasTree}, declared.record.Record.{Record}};

    ghost Value = { List Record };

    ghost view = { λ c. c.records.items };

    ghost invariant = { λ c. HasTree c.records.items c.tree };
}

/// The records, ascending by kind and then id.
pub fn in_order(mut records: Vec<Record>) -> Vec<Record>
    ensures { IsOrderOf result.items records.items }
{
    records.sort_unstable_by_key(|r| r.place());
    records
}

// The first record that breaks a rule.
fn first_bad(records: &[Record]) -> Option<Key>
    requires { InOrder records.now }
    ensures none { IfNone result (IsValid records.now) }
    ensures some { IfSome result (λ key. IsFirstBad records.now key) }
    ensures id { IfSome result (λ key. key.id < 2 ^ 32) }
{
    for r in records {
        if !obeys(records, r) {
            return Some(r.key());
        }
    }
    None
}

// The tree of records, whose incarnations stand in front of the datafiles.
fn tree_now(alloc: Global, records: &[Record]) -> Result<Option<Tree>, NoMemory>
    requires { IsCatalog records.now }
    ensures { IfOk result (λ t. t ≡ as_tree (nodes records.now)) }
{
    let n = count_before(records, FIRST_DATAFILE.place());
    tree::build(alloc, &records[..n])
}

// The tree of the records after edits.
fn tree_after(alloc: Global, records: &[Record], edits: &[Edit]) -> Result<Option<Tree>, NoMemory>
    requires order { InOrder records.now }
    requires catalog { IsCatalog (after_edits edits.now records.now) }
    ensures { IfOk result (λ t. t ≡ as_tree (nodes (after_edits edits.now records.now))) }
{
    let place = FIRST_DATAFILE.place();
    let n = count_before(records, place);
    let mut front = copies::records(alloc, &records[..n])?;
    edits::make(&mut front, copies::edits_below(alloc, edits, place)?)?;
    tree::build(alloc, &front)
}

// No incarnation has this key or a later one.
const FIRST_DATAFILE: Key = Key { kind: 3, id: 0 };

impl Catalog {
    /// The catalog of valid records, which may come in any order.
    pub fn from_records(records: Seq<Record>) -> Result<Catalog, CatalogFault>
        ensures order { IfOk result (λ c. IsOrderOf c records) }
        ensures valid { IfOk result (λ c. IsValid c) }
        ensures bad { IfErr result (IsBadRow records) }
        ensures only { (s : List Record) → IsOrderOf s records → IsValid s → IsTaken result s }
        ensures told { (s : List Record) (key : Key) → key.id < 2 ^ 32 → IsOrderOf s records → IsFirstBad s key → IsTold result key }
    {
        let records = in_order(records.into_vec());
        if let Some(key) = first_bad(&records) {
            return Err(CatalogFault::BadRow(key.kind, key.id));
        }
        Ok(Catalog::from_valid(Seq::from_vec(records))?)
    }

    /// The catalog of records that obey all rules and ascend by kind and then id, as those that a catalog gave do:
    /// nothing is checked anew. `from_records` takes any records, and checks them. An error is want of memory.
    pub fn from_valid(records: Seq<Record>) -> Result<Catalog, NoMemory>
        requires { IsCatalog records }
        ensures { IfOk result (λ c. c ≡ records) }
    {
        let records = records.into_vec();
        let tree = tree_now(*records.allocator(), &records)?;
        Ok(Catalog { records, tree })
    }

    /// The records, ascending by kind and then id.
    pub fn records(&self) -> &[Record]
        ensures records { result.now ≡ self.now }
        ensures catalog { IsCatalog self.now }
    {
        &self.records
    }

    /// The tree of the incarnations, where there is a database.
    pub fn tree(&self) -> &Tree
        requires database { HasDatabase self.now }
        ensures { result.now ≡ nodes self.now }
    {
        match &self.tree {
            Some(tree) => tree,
            None => unreachable!(),
        }
    }

    /// Whether a redo thread is enabled at the address (m, g).
    pub fn enabled(&self, m: IncNo, g: Scn, thread: ThreadNo) -> bool
        requires database { HasDatabase self.now }
        requires there { IsThere (nodes self.now) m }
        ensures { result ≡ is_enabled (nodes self.now) (began_with self.now) (switches self.now) m g thread }
    {
        let records = self.records();
        let last = last_switch(records, self.tree(), m, g, thread);
        is_on(began_with(records), thread, last)
    }

    /// The records, ascending by kind and then id, and the tree, where there is a database.
    pub fn into_parts(self) -> (Seq<Record>, Option<Tree>)
        ensures records { result.0 ≡ self }
        ensures catalog { IsCatalog self }
        ensures tree { result.1 ≡ as_tree (nodes self) }
    {
        let Catalog { records, tree } = self;
        (Seq::from_vec(records), tree)
    }

    /// The record of this key. None where it is not there.
    pub fn find(&self, key: Key) -> Option<&Record>
        ensures { option_copied result ≡ at (place_of_key key) self.now }
    {
        find(&self.records, key.place())
    }

    /// Makes the edits in order, all of them or, without memory, none. The outcome is valid.
    pub fn apply(&mut self, edits: &[Edit]) -> Result<(), NoMemory>
        requires valid { IsValid (after_edits edits.now self.old) }
        ensures ok { OnOk result (self.new ≡ after_edits edits.now self.old) }
        ensures err { OnErr result (self.new ≡ self.old) }
    {
        let tree = tree_after(*self.records.allocator(), &self.records, edits)?;
        edits::apply(&mut self.records, edits)?;
        self.tree = tree;
        Ok(())
    }
}
