//! Valid records become a catalog.
ghost use Rattle.std.specs.Prelude.{◌≡◌, ◌≤◌, ◌<◌, ◌^◌, List, IfOk, IfErr, OnOk, []};
ghost use Rattle.rm_catalog.specs.{Faults.{IsBadRow, IsTaken, IsTold}, Rules.{IsCatalog, IsFirstBad, IsOrderOf, IsValid}, Trees.{nodes}};
ghost use Rattle.rm_catalog.specs.declared.record.{Key.{Key}, Record.{Record}};
ghost use Rattle.rm_catalog_typed.specs.{Kinds.{AreSmall, IsSmall, told_by, with_record}, Facts.{IsTypedCatalog}};
ghost use Rattle.rm_catalog_typed.specs.{Loading.{gathered, records_in}, TypedCatalog.{all_records, records_of}};

use crate::catalog::{Saved, TypedCatalog};
use crate::thread_switch::ThreadSwitch;
use rm_base::{Mark, NoMemory, Seq};
use rm_catalog::{
    BaseEntry, CatalogFault, HeadEntry, LogEntry, PartEntry, PieceEntry, Record, SetEntry,
};
use rm_history::{Datafile, Tree};
use std::alloc::Global;
use std::marker::Model;

// What records of each kind say, in order.
#[derive(Drop)]
struct Kinds {
    bases: Vec<BaseEntry>,
    files: Vec<Datafile>,
    logs: Vec<LogEntry>,
    pieces: Vec<PieceEntry>,
    marks: Vec<Mark>,
    parts: Vec<PartEntry>,
    heads: Vec<HeadEntry>,
    sets: Vec<SetEntry>,
    switches: Vec<ThreadSwitch>,
}

impl Model for Kinds {
    ghost use Rattle.rm_catalog_typed.specs.Kinds.{Told};

    ghost Value = { Told };

    ghost view = { λ k. record { bases = k.bases.items; files = k.files.items; logs = k.logs.items; pieces = k.pieces.items; marks = k.marks.items; parts = k.parts.items; heads = k.heads.items; sets = k.sets.items; switches = k.switches.items } };
}

impl Kinds {
    fn new(alloc: Global) -> Kinds
        ensures { result ≡ told_by [] }
    {
        Kinds {
            bases: Vec::new(alloc),
            files: Vec::new(alloc),
            logs: Vec::new(alloc),
            pieces: Vec::new(alloc),
            marks: Vec::new(alloc),
            parts: Vec::new(alloc),
            heads: Vec::new(alloc),
            sets: Vec::new(alloc),
            switches: Vec::new(alloc),
        }
    }

    // Takes one record more.
    fn take(&mut self, row: Record) -> Result<(), NoMemory>
        ensures small { IsSmall row }
        ensures taken { OnOk result (self.new ≡ with_record row self.old) }
    {
        match row {
            Record::Base(base) => self.bases.push(base)?,
            Record::Incarnation(_) => {}
            Record::Datafile(file) => self.files.push(Datafile {
                inc: file.inc,
                creation: file.creation,
                blocks: file.blocks,
            })?,
            Record::Log(log) => self.logs.push(log)?,
            Record::Piece(piece) => self.pieces.push(piece)?,
            Record::Mark(mark) => self.marks.push(Mark {
                moment: mark.moment,
                inc: mark.inc,
                scn: mark.scn,
            })?,
            Record::Part(part) => self.parts.push(part)?,
            Record::Head(head) => self.heads.push(head)?,
            Record::Set(set) => self.sets.push(set)?,
            Record::Switch(switch) => self.switches.push(ThreadSwitch {
                thread: switch.thread,
                inc: switch.inc,
                scn: switch.scn,
                on: switch.on,
                sequence: switch.sequence,
            })?,
        }
        Ok(())
    }
}

// What records of each kind say.
fn sorted(alloc: Global, records: Vec<Record>) -> Result<Kinds, NoMemory>
    ensures small { IfOk result (λ k. AreSmall records.items) }
    ensures told { IfOk result (λ k. k ≡ told_by records.items) }
{
    let mut kinds = Kinds::new(alloc);
    for record in records {
        kinds.take(record)?;
    }
    Ok(kinds)
}

// What valid records say, as a catalog.
fn assembled(base: BaseEntry, tree: Tree, kinds: Kinds) -> TypedCatalog
    requires { base.next_id ≤ 4294967295 → IsTypedCatalog (gathered base tree kinds) }
    ensures { result ≡ gathered base tree kinds }
{
    let Kinds {
        bases: _,
        files,
        logs,
        pieces,
        marks,
        parts,
        heads,
        sets,
        switches,
    } = kinds;
    let saved = match heads.first() {
        None => None,
        Some(head) => Some(Saved { parts, head: *head }),
    };
    TypedCatalog {
        base,
        tree,
        files,
        logs,
        pieces,
        sets,
        marks,
        switches,
        saved,
    }
}

// The catalog of valid records in order.
fn of_valid(records: Vec<Record>, tree: Tree) -> Result<TypedCatalog, NoMemory>
    requires catalog { IsCatalog records.items }
    requires tree { tree ≡ nodes records.items }
    ensures { IfOk result (λ c. records_of c ≡ records.items) }
{
    let kinds = sorted(*records.allocator(), records)?;
    match kinds.bases.first().copied() {
        Some(base) => Ok(assembled(base, tree, kinds)),
        None => unreachable!(),
    }
}

// The catalog of all records; none without any.
fn of_whole(whole: rm_catalog::Catalog) -> Result<Option<TypedCatalog>, NoMemory>
    ensures { IfOk result (λ c. all_records c ≡ whole) }
{
    let (records, tree) = whole.into_parts();
    match tree {
        None => Ok(None),
        Some(tree) => Ok(Some(of_valid(records.into_vec(), tree)?)),
    }
}

impl TypedCatalog {
    /// The catalog of valid records, which may come in any order; none without any.
    pub fn from_records(records: Seq<Record>) -> Result<Option<TypedCatalog>, CatalogFault>
        ensures order { IfOk result (λ c. IsOrderOf (all_records c) records) }
        ensures valid { IfOk result (λ c. IsValid (all_records c)) }
        ensures bad { IfErr result (IsBadRow records) }
        ensures only { (s : List Record) → IsOrderOf s records → IsValid s → IsTaken (records_in result) s }
        ensures told { (s : List Record) (key : Key) → key.id < 2 ^ 32 → IsOrderOf s records → IsFirstBad s key → IsTold (records_in result) key }
    {
        match rm_catalog::Catalog::from_records(records) {
            Ok(whole) => Ok(of_whole(whole)?),
            Err(fault) => Err(fault),
        }
    }
}
