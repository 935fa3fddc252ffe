//! The records of a database, kind by kind.
ghost use Rattle.std.specs.{Prelude.{◌≡◌, ◌==◌, find}, Option.{option_copied}};
ghost use Rattle.rm_catalog_typed.specs.Facts.{IsTypedCatalog};

use crate::by_id;
use crate::thread_switch::ThreadSwitch;
use rm_base::{Mark, Seq};
use rm_catalog::{BaseEntry, HeadEntry, LogEntry, PartEntry, PieceEntry, SetEntry};
use rm_history::{Datafile, Tree};
use std::marker::Model;

/// A saved site.
#[derive(Drop)]
pub struct Saved {
    pub(crate) parts: Vec<PartEntry>,
    pub(crate) head: HeadEntry,
}

impl Model for Saved {
    ghost use Rattle.rm_catalog_typed.specs.TypedCatalog.{Saved as Site};

    ghost Value = { Site };

    ghost view = { λ s. record { parts = s.parts.items; head = s.head } };
}

/// The records of a database and of its saved site.
#[derive(Drop)]
pub struct TypedCatalog {
    pub(crate) base: BaseEntry,
    pub(crate) tree: Tree,
    pub(crate) files: Vec<Datafile>,
    pub(crate) logs: Vec<LogEntry>,
    pub(crate) pieces: Vec<PieceEntry>,
    pub(crate) sets: Vec<SetEntry>,
    pub(crate) marks: Vec<Mark>,
    pub(crate) switches: Vec<ThreadSwitch>,
    pub(crate) saved: Option<Saved>,
}

impl Model for TypedCatalog {
    ghost use Rattle.rm_catalog_typed.specs.{Facts.{IsTypedCatalog}, TypedCatalog.{TypedCatalog}};

    ghost Value = { TypedCatalog };

    ghost view = { λ c. record { ledger = record { base = c.base; tree = c.tree; files = c.files.items; logs = c.logs.items; pieces = c.pieces.items; sets = c.sets.items; marks = c.marks.items; switches = c.switches.items }; saved = c.saved } };

    ghost invariant = { λ c. IsTypedCatalog (record { ledger = record { base = c.base; tree = c.tree; files = c.files.items; logs = c.logs.items; pieces = c.pieces.items; sets = c.sets.items; marks = c.marks.items; switches = c.switches.items }; saved = c.saved }) };
}

impl Saved {
    /// A saved site: its parts by ascending id, and its head.
    pub fn new(parts: Seq<PartEntry>, head: HeadEntry) -> Saved
        ensures parts { result.parts ≡ parts }
        ensures head { result.head ≡ head }
    {
        Saved {
            parts: parts.into_vec(),
            head,
        }
    }

    /// The parts, by ascending id.
    pub fn parts(&self) -> &[PartEntry]
        ensures { result.now ≡ self.now.parts }
    {
        &self.parts
    }

    /// The head.
    pub fn head(&self) -> HeadEntry
        ensures { result ≡ self.now.head }
    {
        self.head
    }
}

impl TypedCatalog {
    /// The base facts. The catalog keeps the rules.
    pub fn base(&self) -> BaseEntry
        ensures value { result ≡ self.now.ledger.base }
        ensures rules { IsTypedCatalog self.now }
    {
        self.base
    }

    /// All incarnations.
    pub fn tree(&self) -> &Tree
        ensures { result.now ≡ self.now.ledger.tree }
    {
        &self.tree
    }

    /// Datafiles 1, 2, 3 and so on.
    pub fn files(&self) -> &[Datafile]
        ensures { result.now ≡ self.now.ledger.files }
    {
        &self.files
    }

    /// The logs, by ascending id.
    pub fn logs(&self) -> &[LogEntry]
        ensures { result.now ≡ self.now.ledger.logs }
    {
        &self.logs
    }

    /// The pieces, by ascending id.
    pub fn pieces(&self) -> &[PieceEntry]
        ensures { result.now ≡ self.now.ledger.pieces }
    {
        &self.pieces
    }

    /// The backup sets, by ascending id.
    pub fn sets(&self) -> &[SetEntry]
        ensures { result.now ≡ self.now.ledger.sets }
    {
        &self.sets
    }

    /// Marks 1, 2, 3 and so on.
    pub fn marks(&self) -> &[Mark]
        ensures { result.now ≡ self.now.ledger.marks }
    {
        &self.marks
    }

    /// The saved site, if there is one.
    pub fn saved(&self) -> Option<&Saved>
        ensures { option_copied result ≡ self.now.saved }
    {
        self.saved.as_ref()
    }

    /// The log of an id.
    pub fn log(&self, id: u32) -> Option<&LogEntry>
        ensures { option_copied result ≡ find (λ x. x.id == id) self.now.ledger.logs }
    {
        by_id::get(&self.logs, id)
    }

    /// The piece of an id.
    pub fn piece(&self, id: u32) -> Option<&PieceEntry>
        ensures { option_copied result ≡ find (λ x. x.id == id) self.now.ledger.pieces }
    {
        by_id::get(&self.pieces, id)
    }

    /// The backup set of an id.
    pub fn set(&self, id: u32) -> Option<&SetEntry>
        ensures { option_copied result ≡ find (λ x. x.id == id) self.now.ledger.sets }
    {
        by_id::get(&self.sets, id)
    }
}
