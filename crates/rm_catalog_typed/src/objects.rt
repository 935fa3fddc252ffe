//! Changes of logs and pieces. Each adds the edit that makes the records follow.
ghost use Rattle.std.specs.Prelude.{◌≡◌, ◌≤◌, OnOk, OnErr};
ghost use Rattle.rm_catalog_typed.specs.Changes.{EditsFollow, with_log, with_new_log, with_new_piece, with_piece, without_log, without_piece};
ghost use Rattle.rm_catalog_typed.specs.Fitting.{FitsLog, FitsNewLog, FitsNewPiece, FitsPiece};

use crate::by_id;
use crate::catalog::TypedCatalog;
use crate::edits::{push, push_both};
use rm_base::NoMemory;
use rm_catalog::{BaseEntry, Edit, Key, LogEntry, PieceEntry, Record};
use std::alloc::Global;

impl TypedCatalog {
    /// Puts a log in place of that of its id, or at its place.
    #[tactic(auto, using(crate::proofs::Changed::follows_log, crate::proofs::Fitted::log_fits))]
    pub fn put_log(&mut self, edits: &mut Vec<Edit>, log: LogEntry) -> Result<(), NoMemory>
        requires fits { FitsLog self.old log }
        ensures after { OnOk result (self.new ≡ with_log self.old log) }
        ensures edits { OnOk result (EditsFollow edits.old.items edits.new.items self.old self.new) }
        ensures same { OnErr result (self.new ≡ self.old) }
        ensures unedited { OnErr result (edits.new.items ≡ edits.old.items) }
    {
        edits.reserve(1)?;
        by_id::put(&mut self.logs, log)?;
        push(edits, Edit::Put(Record::Log(log)));
        Ok(())
    }

    /// Adds a log under the next id, which is below 4,294,967,295 and is raised.
    pub fn add_log(&mut self, edits: &mut Vec<Edit>, log: LogEntry) -> Result<(), NoMemory>
        requires fits { FitsNewLog self.old log }
        ensures after { OnOk result (self.new ≡ with_new_log self.old log) }
        ensures edits { OnOk result (EditsFollow edits.old.items edits.new.items self.old self.new) }
        ensures same { OnErr result (self.new ≡ self.old) }
        ensures unedited { OnErr result (edits.new.items ≡ edits.old.items) }
    {
        edits.reserve(2)?;
        self.logs.push(log)?;
        self.base = BaseEntry {
            next_id: self.base.next_id + 1,
            ..self.base
        };
        push_both(
            edits,
            Edit::Put(Record::Base(self.base)),
            Edit::Put(Record::Log(log)),
        );
        Ok(())
    }

    /// Takes away the log of an id, at least 1, if it is there.
    #[tactic(auto, using(crate::proofs::Fitted::no_log_fits))]
    pub fn drop_log(&mut self, edits: &mut Vec<Edit>, id: u32) -> Result<(), NoMemory>
        requires some { 1 ≤ id }
        ensures after { OnOk result (self.new ≡ without_log self.old id) }
        ensures edits { OnOk result (EditsFollow edits.old.items edits.new.items self.old self.new) }
        ensures same { OnErr result (self.new ≡ self.old) }
        ensures unedited { OnErr result (edits.new.items ≡ edits.old.items) }
    {
        edits.push(Edit::Drop(Key { kind: 4, id }))?;
        by_id::remove(&mut self.logs, id);
        Ok(())
    }

    /// Puts a piece in place of that of its id, or at its place.
    #[tactic(auto, using(crate::proofs::Changed::follows_piece, crate::proofs::Fitted::piece_fits))]
    pub fn put_piece(
        &mut self,
        alloc: Global,
        edits: &mut Vec<Edit>,
        piece: PieceEntry,
    ) -> Result<(), NoMemory>
        requires fits { FitsPiece self.old piece }
        ensures after { OnOk result (self.new ≡ with_piece self.old piece) }
        ensures edits { OnOk result (EditsFollow edits.old.items edits.new.items self.old self.new) }
        ensures same { OnErr result (self.new ≡ self.old) }
        ensures unedited { OnErr result (edits.new.items ≡ edits.old.items) }
    {
        edits.reserve(1)?;
        let copy = piece.copy(alloc)?;
        by_id::put(&mut self.pieces, piece)?;
        push(edits, Edit::Put(Record::Piece(copy)));
        Ok(())
    }

    /// Adds a piece under the next id, which is below 4,294,967,295 and is raised.
    pub fn add_piece(
        &mut self,
        alloc: Global,
        edits: &mut Vec<Edit>,
        piece: PieceEntry,
    ) -> Result<(), NoMemory>
        requires fits { FitsNewPiece self.old piece }
        ensures after { OnOk result (self.new ≡ with_new_piece self.old piece) }
        ensures edits { OnOk result (EditsFollow edits.old.items edits.new.items self.old self.new) }
        ensures same { OnErr result (self.new ≡ self.old) }
        ensures unedited { OnErr result (edits.new.items ≡ edits.old.items) }
    {
        edits.reserve(2)?;
        let copy = piece.copy(alloc)?;
        let next_id = piece.id + 1;
        self.pieces.push(piece)?;
        self.base = BaseEntry {
            next_id,
            ..self.base
        };
        push_both(
            edits,
            Edit::Put(Record::Base(self.base)),
            Edit::Put(Record::Piece(copy)),
        );
        Ok(())
    }

    /// Takes away the piece of an id, at least 1, if it is there.
    #[tactic(auto, using(crate::proofs::Fitted::no_piece_fits))]
    pub fn drop_piece(&mut self, edits: &mut Vec<Edit>, id: u32) -> Result<(), NoMemory>
        requires some { 1 ≤ id }
        ensures after { OnOk result (self.new ≡ without_piece self.old id) }
        ensures edits { OnOk result (EditsFollow edits.old.items edits.new.items self.old self.new) }
        ensures same { OnErr result (self.new ≡ self.old) }
        ensures unedited { OnErr result (edits.new.items ≡ edits.old.items) }
    {
        edits.push(Edit::Drop(Key { kind: 5, id }))?;
        by_id::remove(&mut self.pieces, id);
        Ok(())
    }
}
