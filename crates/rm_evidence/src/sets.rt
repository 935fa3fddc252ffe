//! Sets from their bytes.
ghost use Rattle.std.specs.Prelude.{◌↔◌, ◌≤◌, ◌-◌, IfNone, IfOk, IfSome, IsSomeAnd, IsTrue, All, slice_get};
ghost use Rattle.rm_history.specs.World.{file_of};
ghost use Rattle.rm_piece.specs.declared.set.Set.{Set};
ghost use Rattle.rm_evidence.specs.Database.{database_in, datafiles, world_of};
ghost use Rattle.rm_evidence.specs.Objects.{AreParts, HasPartFields, HasSetFields, IsAsCreated, IsSetObject};

use crate::database::{datafile, dbid_of};
use crate::reading::recorded_body;
use rm_base::{FormatFault, NoMemory};
use rm_catalog::{Catalog, SetEntry, SetPart};
use rm_piece::{Set, SetFile, count_written, set_of_body};
use std::alloc::Global;

// Whether the member has the fields of its part of the record.
fn has_part_fields(part: &SetPart, member: &SetFile) -> bool
    ensures { IsTrue result ↔ HasPartFields part.now member.now }
{
    member.piece.file == part.file
        && member.piece.kind == part.kind
        && member.piece.from == part.from
        && member.piece.high == part.high
        && count_written(member.piece.rows.as_slice(), member.creation) == part.rows as usize
}

// Whether there is one member for each part, in order, with its fields.
fn are_parts(parts: &[SetPart], members: &[SetFile]) -> bool
    ensures { IsTrue result ↔ AreParts parts.now members.now }
{
    if parts.len() != members.len() {
        return false;
    }
    for k in 0..parts.len() {
        if !has_part_fields(&parts[k], &members[k]) {
            return false;
        }
    }
    true
}

// Whether the member is of its datafile, as it was created.
fn is_as_created(catalog: &Catalog, member: &SetFile) -> bool
    ensures { IsTrue result ↔ IsSomeAnd (file_of (world_of catalog.now) member.now.piece.file) (IsAsCreated member.now) }
{
    match datafile(catalog, member.piece.file) {
        Some(file) => member.creation == file.creation && member.piece.blocks == file.blocks,
        None => false,
    }
}

// Whether each member is.
fn are_as_created(catalog: &Catalog, members: &[SetFile]) -> bool
    requires { All (λ m. 1 ≤ m.piece.file) members.now }
    ensures { IsTrue result ↔ All (λ m. IsSomeAnd (slice_get (datafiles catalog.now) (m.piece.file - 1)) (IsAsCreated m)) members.now }
{
    members.iter().all(|member| is_as_created(catalog, member))
}

// Whether the set has the fields that its record has, and is of this database.
fn has_set_fields(catalog: &Catalog, entry: &SetEntry, set: &Set) -> bool
    requires { All (λ m. 1 ≤ m.piece.file) set.now.members }
    ensures { IsTrue result ↔ HasSetFields (database_in catalog.now) entry.now set.now }
{
    let members = set.members.as_slice();
    set.dbid == dbid_of(catalog)
        && set.inc == entry.inc
        && set.checkpoint == entry.checkpoint
        && are_parts(entry.parts.as_slice(), members)
        && are_as_created(catalog, members)
}

/// The set that the bytes spell. None where they are not the object of the record, or the set is not of the catalog's
/// database and of its datafiles as they were created.
pub fn set_object(
    alloc: Global,
    catalog: &Catalog,
    entry: &SetEntry,
    bytes: &[u8],
) -> Result<Option<Set>, NoMemory>
    ensures some { IfOk result (λ found. IfSome found (λ set. IsSetObject (database_in catalog.now) entry.now bytes.now set)) }
    ensures none { IfOk result (λ found. IfNone found ((set : Set) → ¬ IsSetObject (database_in catalog.now) entry.now bytes.now set)) }
{
    let Some(body) = recorded_body(bytes, entry.size, &entry.sha) else {
        return Ok(None);
    };
    match set_of_body(alloc, body) {
        Ok(set) => {
            if has_set_fields(catalog, entry, &set) {
                Ok(Some(set))
            } else {
                Ok(None)
            }
        }
        Err(FormatFault::Bad) => Ok(None),
        Err(FormatFault::NoMemory) => Err(NoMemory),
    }
}
