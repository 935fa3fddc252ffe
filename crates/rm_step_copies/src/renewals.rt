//! What becomes of the copies that are taken.
ghost use Rattle.std.specs.Prelude.{◌≡◌, ◌≤◌, IfNone, IfOk, IfSome, length};
ghost use Rattle.rm_backup.specs.Renewed.{IsRenewed};
ghost use Rattle.rm_evidence.specs.Known.{FitsTree};
ghost use Rattle.rm_machine.specs.{RecoverCopy.{AreRenewed, HasTaken}, Sound.{IsSound}, State.{tree}};
ghost use Rattle.rm_catalog_typed.specs.TypedCatalog.{records_of};

use rm_backup::{Renewed, recover_copy};
use rm_base::{FileNo, NoMemory, Scn};
use rm_catalog::Catalog;
use rm_evidence::Evidence;
use rm_machine::State;
use rm_machine::facts::on_path;
use std::alloc::Global;

// What becomes of the copy of a datafile. None where the datafile is not on the current path, or no copy is taken.
fn renewal(
    alloc: Global,
    state: &State,
    records: &Catalog,
    evidence: &Evidence,
    file: FileNo,
    tag: &str,
    at: Scn,
) -> Result<Option<Renewed>, NoMemory>
    requires sound { IsSound state.now }
    requires records { records.now ≡ records_of state.now.catalog }
    requires fits { FitsTree (tree state.now) evidence.now }
    ensures some { IfOk result (λ o. IfSome o (λ r. HasTaken state.now tag.now file × IsRenewed (records_of state.now.catalog) evidence.now file tag.now at r)) }
    ensures none { IfOk result (λ o. IfNone o (¬ HasTaken state.now tag.now file)) }
{
    if on_path(state, u64::from(file)).is_none() {
        return Ok(None);
    }
    recover_copy(alloc, records, evidence, file, tag, at)
}

/// What becomes of the copies that are taken, at most 64, each with the number of its datafile, ascending.
pub(crate) fn renewals(
    alloc: Global,
    state: &State,
    records: &Catalog,
    evidence: &Evidence,
    tag: &str,
    at: Scn,
) -> Result<Vec<(FileNo, Renewed)>, NoMemory>
    requires sound { IsSound state.now }
    requires records { records.now ≡ records_of state.now.catalog }
    requires fits { FitsTree (tree state.now) evidence.now }
    ensures renewed { IfOk result (λ xs. AreRenewed state.now evidence.now tag.now at xs.items) }
    ensures few { IfOk result (λ xs. length xs.items ≤ 64) }
{
    let mut copies = Vec::new(alloc);
    let files = state.catalog.files().len() as FileNo;
    for file in 1..files + 1 {
        if let Some(renewed) = renewal(alloc, state, records, evidence, file, tag, at)? {
            copies.push((file, renewed))?;
        }
    }
    Ok(copies)
}
