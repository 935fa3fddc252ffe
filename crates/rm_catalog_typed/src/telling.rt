//! The records of a catalog, one kind after the other.
ghost use Rattle.std.specs.Prelude.{◌≡◌, ◌<◌, ◌++◌, IfOk, OnOk, length, map};
ghost use Rattle.rm_catalog.specs.declared.record.Record.TheVariants as kind;
ghost use Rattle.rm_catalog_typed.specs.Ledger.{datafile_record, incarnation_record, mark_record, numbered, switch_record};
ghost use Rattle.rm_catalog_typed.specs.TypedCatalog.{records_of, saved_records};

use crate::catalog::{Saved, TypedCatalog};
use crate::thread_switch::ThreadSwitch;
use rm_base::{Mark, NoMemory, Seq};
use rm_catalog::{
    DatafileEntry, IncarnationEntry, LogEntry, MarkEntry, PartEntry, PieceEntry, Record, SetEntry,
    SwitchEntry,
};
use rm_history::{Datafile, Tree};
use std::alloc::Global;

fn tell_incarnations(records: &mut Vec<Record>, tree: &Tree) -> Result<(), NoMemory>
    ensures { OnOk result (records.new.items ≡ records.old.items ++ numbered incarnation_record 1 tree.now) }
{
    for k in 0..tree.count() {
        let Some(node) = tree.get(k + 1) else {
            unreachable!()
        };
        records.push(Record::Incarnation(IncarnationEntry {
            inc: k + 1,
            parent: node.parent,
            reset: node.reset,
            end: node.end,
        }))?;
    }
    Ok(())
}

fn tell_files(records: &mut Vec<Record>, files: &[Datafile]) -> Result<(), NoMemory>
    requires { length files.now < 65536 }
    ensures { OnOk result (records.new.items ≡ records.old.items ++ numbered datafile_record 1 files.now) }
{
    let mut number = 1;
    for file in files {
        records.push(Record::Datafile(DatafileEntry {
            file: number,
            inc: file.inc,
            creation: file.creation,
            blocks: file.blocks,
        }))?;
        number += 1;
    }
    Ok(())
}

fn tell_logs(records: &mut Vec<Record>, logs: &[LogEntry]) -> Result<(), NoMemory>
    ensures { OnOk result (records.new.items ≡ records.old.items ++ map kind.Log logs.now) }
{
    for log in logs {
        records.push(Record::Log(*log))?;
    }
    Ok(())
}

fn tell_pieces(
    alloc: Global,
    records: &mut Vec<Record>,
    pieces: &[PieceEntry],
) -> Result<(), NoMemory>
    ensures { OnOk result (records.new.items ≡ records.old.items ++ map kind.Piece pieces.now) }
{
    for piece in pieces {
        records.push(Record::Piece(piece.copy(alloc)?))?;
    }
    Ok(())
}

fn tell_marks(records: &mut Vec<Record>, marks: &[Mark]) -> Result<(), NoMemory>
    requires { length marks.now < 65537 }
    ensures { OnOk result (records.new.items ≡ records.old.items ++ numbered mark_record 1 marks.now) }
{
    let mut id = 1;
    for mark in marks {
        records.push(Record::Mark(MarkEntry {
            id,
            moment: mark.moment,
            inc: mark.inc,
            scn: mark.scn,
        }))?;
        id += 1;
    }
    Ok(())
}

fn tell_parts(records: &mut Vec<Record>, parts: &[PartEntry]) -> Result<(), NoMemory>
    ensures { OnOk result (records.new.items ≡ records.old.items ++ map kind.Part parts.now) }
{
    for part in parts {
        records.push(Record::Part(*part))?;
    }
    Ok(())
}

fn tell_saved(records: &mut Vec<Record>, saved: &Option<Saved>) -> Result<(), NoMemory>
    ensures { OnOk result (records.new.items ≡ records.old.items ++ saved_records saved.now) }
{
    if let Some(saved) = saved {
        tell_parts(records, &saved.parts)?;
        records.push(Record::Head(saved.head))?;
    }
    Ok(())
}

fn tell_sets(alloc: Global, records: &mut Vec<Record>, sets: &[SetEntry]) -> Result<(), NoMemory>
    ensures { OnOk result (records.new.items ≡ records.old.items ++ map kind.Set sets.now) }
{
    for set in sets {
        records.push(Record::Set(set.copy(alloc)?))?;
    }
    Ok(())
}

fn tell_switches(records: &mut Vec<Record>, switches: &[ThreadSwitch]) -> Result<(), NoMemory>
    requires { length switches.now < 65537 }
    ensures { OnOk result (records.new.items ≡ records.old.items ++ numbered switch_record 1 switches.now) }
{
    let mut id = 1;
    for switch in switches {
        records.push(Record::Switch(SwitchEntry {
            id,
            thread: switch.thread,
            inc: switch.inc,
            scn: switch.scn,
            on: switch.on,
            sequence: switch.sequence,
        }))?;
        id += 1;
    }
    Ok(())
}

impl TypedCatalog {
    /// All records, ascending by kind and then id. An error is want of memory.
    pub fn records(&self, alloc: Global) -> Result<Seq<Record>, NoMemory>
        ensures { IfOk result (λ records. records ≡ records_of self.now) }
    {
        let mut records = Vec::new(alloc);
        records.push(Record::Base(self.base))?;
        tell_incarnations(&mut records, &self.tree)?;
        tell_files(&mut records, &self.files)?;
        tell_logs(&mut records, &self.logs)?;
        tell_pieces(alloc, &mut records, &self.pieces)?;
        tell_marks(&mut records, &self.marks)?;
        tell_saved(&mut records, &self.saved)?;
        tell_sets(alloc, &mut records, &self.sets)?;
        tell_switches(&mut records, &self.switches)?;
        Ok(Seq::from_vec(records))
    }
}
