//! The names under which objects stand.
ghost use Rattle.std.specs.Prelude.{◌≡◌, ◌<◌, ◌^◌, IfOk};
ghost use Rattle.rm_evidence.specs.{Names.{log_name, object_id, piece_name, roll_name, set_name, site_name}, Taking.{HasId}};

use rm_base::{NoMemory, Text};
use rm_catalog::Record;
use std::alloc::Global;

/// The name of an archived log, or of a backup of one: `log_` and the id.
pub fn log_name(alloc: Global, id: u32) -> Result<Text, NoMemory>
    ensures { IfOk result (λ name. name ≡ log_name id) }
{
    Ok(Text::from_string(format!(in alloc; "log_{id}")?))
}

/// The name of an image copy, `copy_` and the id, or else of a backup piece, `piece_` and the id.
pub fn piece_name(alloc: Global, copy: bool, id: u32) -> Result<Text, NoMemory>
    ensures { IfOk result (λ name. name ≡ piece_name copy id) }
{
    let name = if copy {
        format!(in alloc; "copy_{id}")?
    } else {
        format!(in alloc; "piece_{id}")?
    };
    Ok(Text::from_string(name))
}

/// The name of a backup set: `set_` and the id.
pub fn set_name(alloc: Global, id: u32) -> Result<Text, NoMemory>
    ensures { IfOk result (λ name. name ≡ set_name id) }
{
    Ok(Text::from_string(format!(in alloc; "set_{id}")?))
}

/// The name of an increment for a standby: `roll_` and the id. A number that is no id is a name all the same.
pub fn roll_name(alloc: Global, id: u64) -> Result<Text, NoMemory>
    ensures { IfOk result (λ name. name ≡ roll_name id) }
{
    Ok(Text::from_string(format!(in alloc; "roll_{id}")?))
}

/// The name of a saved part of what stands in place: `site_` and the id.
pub fn site_name(alloc: Global, id: u32) -> Result<Text, NoMemory>
    ensures { IfOk result (λ name. name ≡ site_name id) }
{
    Ok(Text::from_string(format!(in alloc; "site_{id}")?))
}

// An id is one of four bytes.
fn fits(id: u32)
    ensures { id < 2 ^ 32 }
{
    let _ = id;
}

/// The id of the object of a log, a piece or a set. None of another record.
pub fn object_id(row: &Record) -> Option<u32>
    ensures { result ≡ object_id row.now }
{
    match row {
        Record::Log(entry) => Some(entry.id),
        Record::Piece(entry) => Some(entry.id),
        Record::Set(entry) => Some(entry.id),
        Record::Base(_) | Record::Incarnation(_) | Record::Datafile(_) => None,
        Record::Mark(_) | Record::Part(_) | Record::Head(_) | Record::Switch(_) => None,
    }
}

/// The id of a log, a piece or a set is one of four bytes, so its name tells it. Nothing is done.
pub fn id_fits(row: &Record)
    ensures { HasId row.now }
{
    match row {
        Record::Log(entry) => fits(entry.id),
        Record::Piece(entry) => fits(entry.id),
        Record::Set(entry) => fits(entry.id),
        _ => {}
    }
}
