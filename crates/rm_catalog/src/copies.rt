//! Copies of records and of edits.
ghost use Rattle.std.specs.{Prelude.{◌≡◌, IfOk, nat_lt}, List.{filter}};
ghost use Rattle.rm_catalog.specs.Edits.{place_of_edit};

use crate::record::{Edit, Record};
use rm_base::NoMemory;
use std::alloc::Global;

/// Equal records.
pub fn records(alloc: Global, records: &[Record]) -> Result<Vec<Record>, NoMemory>
    ensures { IfOk result (λ rs. rs.items ≡ records.now) }
{
    let mut made = Vec::with_capacity(alloc, records.len())?;
    for row in records {
        made.push(row.copy(alloc)?)?;
    }
    Ok(made)
}

/// Equal edits.
pub fn edits(alloc: Global, edits: &[Edit]) -> Result<Vec<Edit>, NoMemory>
    ensures { IfOk result (λ es. es.items ≡ edits.now) }
{
    let mut made = Vec::with_capacity(alloc, edits.len())?;
    for edit in edits {
        made.push(edit.copy(alloc)?)?;
    }
    Ok(made)
}

/// Equal edits, of those that stand below a place.
pub fn edits_below(alloc: Global, edits: &[Edit], place: u64) -> Result<Vec<Edit>, NoMemory>
    ensures { IfOk result (λ es. es.items ≡ filter (λ e. nat_lt (place_of_edit e) place) edits.now) }
{
    let mut made = Vec::new(alloc);
    for edit in edits {
        if edit.place() < place {
            made.push(edit.copy(alloc)?)?;
        }
    }
    Ok(made)
}
