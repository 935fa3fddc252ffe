//! What the policy needs of each datafile on the current path.
ghost use Rattle.std.specs.Prelude.{◌≡◌, ◌<◌, ◌↔◌, ◌&&◌, ◌||◌, ◌==◌, AllPairs, IfOk, IfSome, IfNone, IsTrue, map, nat_lt};
ghost use Rattle.std.specs.Option.{option_map_or};
ghost use Rattle.rm_catalog.specs.{Rules.{HasDatabase}, Trees.{nodes}};
ghost use Rattle.rm_history.specs.{Tree.{IsThere, end_of}, World.{exists, creation_of}};
ghost use Rattle.rm_evidence.specs.Database.{world_of};
ghost use Rattle.rm_retain.specs.Catalogued.{backup_of, by_records, copies_in, on_copies};
ghost use Rattle.rm_retain.specs.Chosen.{nth_newest, wanted, chosen as chosen_of, Ascend, AscendById};
ghost use Rattle.rm_retain.specs.{Needs.{AreFileNeeds, AreNeeds, HaveFileNeeds, IsFileNeed, needed_by}, Obsolete.{IsOnPath}};

use crate::copies::{Backup, candidates, newest_ids, nth_newest, wanted};
use crate::file_need::FileNeed;
use rm_base::{FileNo, IncNo, NoMemory, Policy, Scn};
use rm_catalog::Catalog;
use rm_evidence::{Evidence, current_of, datafile};
use rm_history::Datafile;
use rm_piece::Piece;
use std::alloc::Global;

/// What the policy needs of each datafile on the current path, and what that follows from.
#[derive(Drop)]
pub struct Needs {
    pub current: IncNo,
    pub policy: Policy,
    pub start: Scn,
    pub copies: Vec<Backup>,
    pub files: Vec<FileNeed>,
}

// The greatest number of a datafile.
const LAST_FILE: FileNo = 64;

fn backup_of(piece: &(u32, Piece)) -> Backup
    ensures { result ≡ backup_of piece.now }
{
    Backup {
        id: piece.0,
        inc: piece.1.inc,
        file: piece.1.file,
        checkpoint: piece.1.checkpoint,
        high: piece.1.high,
    }
}

fn has_record(piece: &(u32, Piece)) -> bool
    ensures { result ≡ nat_lt 0 piece.now.0 }
{
    piece.0 > 0
}

// The copies at hand that have a record.
fn copies(alloc: Global, evidence: &Evidence) -> Result<Vec<Backup>, NoMemory>
    ensures { IfOk result (λ xs. xs.items ≡ copies_in evidence.now) }
{
    let mut found = Vec::new(alloc);
    for piece in evidence.bases.as_slice() {
        if has_record(piece) {
            found.push(backup_of(piece))?;
        }
    }
    Ok(found)
}

// Whether the piece stands behind one of this id and datafile: its id is greater, or its datafile in the same set.
fn is_behind(id: u32, file: FileNo, piece: &(u32, Piece)) -> bool
    ensures { result ≡ (nat_lt id piece.now.0 || ((id == piece.now.0) && nat_lt file piece.now.1.file)) }
{
    id < piece.0 || (id == piece.0 && file < piece.1.file)
}

/// Whether the copies at hand ascend by id, and those of one set by datafile, as those do that are gathered.
pub fn do_ascend(evidence: &Evidence) -> bool
    ensures { IsTrue result ↔ Ascend (copies_in evidence.now) }
{
    let mut id = 0;
    let mut file = 0;
    let bases = evidence.bases.as_slice();
    for piece in bases {
        if has_record(piece) {
            if !is_behind(id, file, piece) {
                return false;
            }
            id = piece.0;
            file = piece.1.file;
        }
    }
    true
}

// Whether the datafile is on the current path.
fn is_on_path(catalog: &Catalog, current: IncNo, found: Datafile) -> bool
    requires database { HasDatabase catalog.now }
    requires there { IsThere (nodes catalog.now) current }
    requires created { 0 < found.creation }
    ensures { result ≡ exists (world_of catalog.now) current (end_of (nodes catalog.now) current) found }
{
    let tree = catalog.tree();
    tree.exists(current, tree.end_of(current), &found)
}

// The checkpoint of the last copy that is wanted, or else the creation.
fn floor_on(
    alloc: Global,
    copies: &[Backup],
    policy: Policy,
    creation: Scn,
) -> Result<Scn, NoMemory>
    requires ascend { AscendById copies.now }
    ensures { IfOk result (λ n. n ≡ option_map_or (λ x. x.checkpoint) (nth_newest (wanted policy) copies.now) creation) }
{
    let last = nth_newest(alloc, copies, wanted(policy))?;
    Ok(last.map_or(creation, |copy| copy.checkpoint))
}

// What is needed of a datafile that was created at this SCN.
fn need_on(
    alloc: Global,
    catalog: &Catalog,
    copies: &[Backup],
    policy: Policy,
    start: Scn,
    file: FileNo,
    creation: Scn,
) -> Result<FileNeed, NoMemory>
    requires database { HasDatabase catalog.now }
    requires ascend { Ascend copies.now }
    requires creation { creation ≡ creation_of (world_of catalog.now) file }
    ensures { IfOk result (λ x. IsFileNeed (on_copies catalog.now policy start copies.now) file x) }
{
    let current = current_of(catalog);
    let among = candidates(alloc, catalog.tree(), current, policy, start, file, copies)?;
    Ok(FileNeed {
        file,
        floor: floor_on(alloc, &among, policy, creation)?,
        chosen: newest_ids(alloc, &among, wanted(policy))?,
    })
}

// What is needed of this datafile. None where it is not on the current path.
fn need_of(
    alloc: Global,
    catalog: &Catalog,
    copies: &[Backup],
    policy: Policy,
    start: Scn,
    file: FileNo,
) -> Result<Option<FileNeed>, NoMemory>
    requires database { HasDatabase catalog.now }
    requires ascend { Ascend copies.now }
    ensures some { IfOk result (λ o. IfSome o (λ x. IsOnPath (on_copies catalog.now policy start copies.now) file × IsFileNeed (on_copies catalog.now policy start copies.now) file x)) }
    ensures none { IfOk result (λ o. IfNone o (¬ IsOnPath (on_copies catalog.now policy start copies.now) file)) }
{
    // They are a catalog's, so each datafile was created at 1 or later.
    let _ = catalog.records();
    match datafile(catalog, file) {
        Some(found) if is_on_path(catalog, current_of(catalog), found) => {
            let need = need_on(alloc, catalog, copies, policy, start, file, found.creation)?;
            Ok(Some(need))
        }
        _ => Ok(None),
    }
}

// What is needed of each datafile on the current path.
fn file_needs(
    alloc: Global,
    catalog: &Catalog,
    copies: &[Backup],
    policy: Policy,
    start: Scn,
) -> Result<Vec<FileNeed>, NoMemory>
    requires database { HasDatabase catalog.now }
    requires ascend { Ascend copies.now }
    ensures sound { IfOk result (λ xs. AreFileNeeds (on_copies catalog.now policy start copies.now) xs.items) }
    ensures complete { IfOk result (λ xs. HaveFileNeeds (on_copies catalog.now policy start copies.now) 65 xs.items) }
{
    let mut found = Vec::new(alloc);
    for file in 1..LAST_FILE + 1 {
        if let Some(need) = need_of(alloc, catalog, copies, policy, start, file)? {
            found.push(need)?;
        }
    }
    Ok(found)
}

/// What the policy needs by the evidence at hand.
pub(crate) fn needs_of(
    alloc: Global,
    catalog: &Catalog,
    evidence: &Evidence,
    policy: Policy,
    start: Scn,
) -> Result<Needs, NoMemory>
    requires database { HasDatabase catalog.now }
    requires ascend { Ascend (copies_in evidence.now) }
    ensures are { IfOk result (λ x. AreNeeds catalog.now x) }
    ensures by { IfOk result (λ x. needed_by catalog.now x ≡ by_records catalog.now evidence.now policy start) }
{
    // They are a catalog's, so no datafile has a greater number.
    let _ = catalog.records();
    let copies = copies(alloc, evidence)?;
    let files = file_needs(alloc, catalog, &copies, policy, start)?;
    Ok(Needs {
        current: current_of(catalog),
        policy,
        start,
        copies,
        files,
    })
}

/// The ids of the copies of a datafile that the policy chooses, ascending: none without a policy. A copy in a set has
/// the set's id. `start` is the SCN at which the window of the policy begins.
pub fn chosen(
    alloc: Global,
    catalog: &Catalog,
    evidence: &Evidence,
    policy: Policy,
    start: Scn,
    file: FileNo,
) -> Result<Vec<u32>, NoMemory>
    requires database { HasDatabase catalog.now }
    requires ascend { Ascend (copies_in evidence.now) }
    ensures exact { IfOk result (λ ids. ids.items ≡ map (λ x. x.id) (chosen_of (by_records catalog.now evidence.now policy start) file)) }
    ensures ascends { IfOk result (λ ids. AllPairs (λ i j. i < j) ids.items) }
{
    let copies = copies(alloc, evidence)?;
    let current = current_of(catalog);
    let among = candidates(alloc, catalog.tree(), current, policy, start, file, &copies)?;
    Ok(newest_ids(alloc, &among, wanted(policy))?)
}
