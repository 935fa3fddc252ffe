//! DELETE EXPIRED
ghost use Rattle.std.specs.Prelude.{◌≡◌, [], IfOk, OnOk, Option};
ghost use Rattle.rm_apply.specs.Files.{AreExactly};
ghost use Rattle.rm_base.specs.Store.{Held};
ghost use Rattle.rm_evidence.specs.Gathered.{Lists};
ghost use Rattle.rm_lang_statement.specs.declared.command.Command.TheVariants.{DeleteExpired};
ghost use Rattle.rm_machine.specs.{Hands.{Hands}, Sound.{IsSound}, Upkeep.{IsExpired}};
ghost use Rattle.rm_catalog_typed.specs.Changes.{EditsFollow};
ghost use Rattle.rm_step_upkeep.specs.Expired.{Alone, expired, when_expired};

use rm_base::{Class, NoMemory, Seq, Status};
use rm_catalog::{Catalog, Edit, Record};
use rm_evidence::by_id;
use rm_machine::drops::drop_records;
use rm_machine::recorded::records_of;
use rm_machine::{Handed, State};
use rm_verify::found::add;
use rm_verify::is_of;
use std::alloc::Global;

// The id, as an item of a list by id, where it is that of an expired record.
fn when_expired(id: u32, status: Status) -> Option<(u32, ())>
    ensures { result ≡ when_expired id status }
{
    match status {
        Status::Expired => Some((id, ())),
        _ => None,
    }
}

// The id of the record, where it is expired and of the class.
fn expired(class: Class, row: &Record) -> Option<(u32, ())>
    ensures { result ≡ expired class row.now }
{
    if !is_of(class, row) {
        return None;
    }
    match row {
        Record::Log(log) => when_expired(log.id, log.status),
        Record::Piece(piece) => when_expired(piece.id, piece.status),
        Record::Set(set) => when_expired(set.id, set.status),
        _ => None,
    }
}

// The expired records of the class, ascending by id.
fn expired_in(alloc: Global, catalog: &Catalog, class: Class) -> Result<Seq<(u32, ())>, NoMemory>
    ensures { IfOk result (λ list. Lists Alone [] (λ id _. IsExpired catalog.now class id) list) }
{
    let mut list = Seq::new(alloc);
    let records = catalog.records();
    for row in records {
        add(&mut list, expired(class, row))?;
    }
    Ok(by_id(list))
}

// Their ids, ascending.
fn expired_ids(alloc: Global, catalog: &Catalog, class: Class) -> Result<Vec<u32>, NoMemory>
    ensures { IfOk result (λ ids. AreExactly (IsExpired catalog.now class) ids.items) }
{
    let list = expired_in(alloc, catalog, class)?;
    Ok(list.as_slice().iter().map(|x| x.0).collect(alloc)?)
}

/// DELETE EXPIRED: the expired records of the class go, ascending by id; what may stand under their names stays. A line
/// tells each, and a last one how many they are. An error is want of memory; then nothing is said of the state and the
/// edits.
pub fn delete_expired(
    alloc: Global,
    state: &mut State,
    edits: &mut Vec<Edit>,
    class: Class,
) -> Result<Handed, NoMemory>
    requires sound { IsSound state.old }
    ensures hands { IfOk result (λ x. (held : Option Held) → Hands held state.old (DeleteExpired class) x state.new) }
    ensures edits { OnOk result (EditsFollow edits.old.items edits.new.items state.old.catalog state.new.catalog) }
{
    let records = records_of(alloc, state)?;
    let ids = expired_ids(alloc, &records, class)?;
    Ok(Handed {
        lines: drop_records(alloc, state, edits, &ids)?,
        objects: Seq::new(alloc),
        removes: Seq::new(alloc),
    })
}
