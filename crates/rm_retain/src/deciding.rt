//! Which records the policy does not need.
ghost use Rattle.std.specs.{Prelude.{◌≡◌, ◌≢◌, ◌<◌, ◌↔◌, ◌==◌, ℕ, false, All, AllPairs, Contains, IfOk, IsTrue}, List.{list_any}};
ghost use Rattle.rm_base.specs.declared.kinds.Policy.TheVariants.{Nothing as OfNothing};
ghost use Rattle.rm_catalog.specs.{Keys.{part_piece}, Rules.{HasDatabase}, Trees.{nodes}};
ghost use Rattle.rm_evidence.specs.Taking.{HasIncarnation};
ghost use Rattle.rm_history.specs.Tree.{IsThere};
ghost use Rattle.rm_retain.specs.Catalogued.{backup_in, backups_of, by_records, copies_in, AreObsolete, IsObsoleteRecord};
ghost use Rattle.rm_retain.specs.{Chosen.{Ascend}, Needs.{needed_by, needs_backup, needs_clip, AreNeeds}};
ghost use Rattle.rm_retain.specs.Obsolete.{IsClip, IsNeedlessBackup, IsObsoleteBackup, IsObsoleteLog, IsObsoleteSet};

use crate::copies::Backup;
use crate::file_need::FileNeed;
use crate::needs::{Needs, needs_of};
use rm_base::{FileNo, IncNo, NoMemory, Policy, Scn};
use rm_catalog::{Catalog, LogEntry, PieceEntry, Record, SetEntry, SetPart};
use rm_evidence::Evidence;
use rm_history::Tree;
use std::alloc::Global;

// The SCN below which lies all of the current path that an incarnation may tell below `high`.
fn clip(tree: &Tree, current: IncNo, inc: IncNo, high: Scn) -> Scn
    requires current { IsThere tree.now current }
    requires there { IsThere tree.now inc }
    ensures { IsClip tree.now current inc high result }
{
    if inc == current {
        return high;
    }
    match tree.shared(inc, current) {
        Some(shared) => high.min(shared),
        None => unreachable!(),
    }
}

// Whether some datafile needs a log with this clip.
fn needs_log(files: &[FileNeed], clip: Scn) -> bool
    ensures { result ≡ list_any (needs_clip clip) files.now }
{
    files.iter().any(|need| need.floor < clip)
}

fn is_chosen(chosen: &[u32], id: u32) -> bool
    requires { AllPairs (λ i j. i < j) chosen.now }
    ensures { result ≡ list_any (λ y. y == id) chosen.now }
{
    match chosen.binary_search(&id) {
        Ok(_) => true,
        Err(_) => false,
    }
}

fn does_need(need: &FileNeed, file: FileNo, id: u32, clip: Scn) -> bool
    ensures { result ≡ needs_backup file id clip need.now }
{
    need.file == file && (need.floor < clip || is_chosen(&need.chosen, id))
}

// Whether its datafile needs a backup with this id and clip.
fn needs_backup(files: &[FileNeed], file: FileNo, id: u32, clip: Scn) -> bool
    ensures { result ≡ list_any (needs_backup file id clip) files.now }
{
    for need in files {
        if does_need(need, file, id, clip) {
            return true;
        }
    }
    false
}

// Whether the policy lets records go, and this is none to be kept.
fn may_go(policy: Policy, keep: bool) -> bool
    ensures { IsTrue result ↔ ((policy ≢ OfNothing) × (keep ≡ false)) }
{
    match policy {
        Policy::Window(_) | Policy::Redundancy(_) => !keep,
        Policy::Nothing => false,
    }
}

fn is_obsolete_log(catalog: &Catalog, needs: &Needs, log: &LogEntry) -> bool
    requires needs { AreNeeds catalog.now needs.now }
    requires there { IsThere (nodes catalog.now) log.now.inc }
    ensures { IsTrue result ↔ IsObsoleteLog (needed_by catalog.now needs.now) log.now.inc log.now.next log.now.keep }
{
    let clip = clip(catalog.tree(), needs.current, log.inc, log.next);
    may_go(needs.policy, log.keep) && !needs_log(&needs.files, clip)
}

fn backup_in(piece: &PieceEntry) -> Backup
    ensures { result ≡ backup_in piece.now }
{
    Backup {
        id: piece.id,
        inc: piece.inc,
        file: piece.file,
        checkpoint: piece.checkpoint,
        high: piece.high,
    }
}

// Whether the policy does not need a backup.
fn is_needless(catalog: &Catalog, needs: &Needs, copy: Backup) -> bool
    requires needs { AreNeeds catalog.now needs.now }
    requires there { IsThere (nodes catalog.now) copy.inc }
    ensures { IsTrue result ↔ IsNeedlessBackup (needed_by catalog.now needs.now) copy }
{
    let clip = clip(catalog.tree(), needs.current, copy.inc, copy.high);
    !needs_backup(&needs.files, copy.file, copy.id, clip)
}

fn is_obsolete_piece(catalog: &Catalog, needs: &Needs, piece: &PieceEntry) -> bool
    requires needs { AreNeeds catalog.now needs.now }
    requires there { IsThere (nodes catalog.now) piece.now.inc }
    ensures { IsTrue result ↔ IsObsoleteBackup (needed_by catalog.now needs.now) (backup_in piece.now) piece.now.keep }
{
    may_go(needs.policy, piece.keep) && is_needless(catalog, needs, backup_in(piece))
}

// Whether the policy does not need what a set has of one datafile.
fn is_part_needless(catalog: &Catalog, needs: &Needs, set: &SetEntry, part: &SetPart) -> bool
    requires needs { AreNeeds catalog.now needs.now }
    requires there { IsThere (nodes catalog.now) set.now.inc }
    ensures { IsTrue result ↔ IsNeedlessBackup (needed_by catalog.now needs.now) (backup_in (part_piece set.now part.now)) }
{
    let copy = Backup {
        id: set.id,
        inc: set.inc,
        file: part.file,
        checkpoint: set.checkpoint,
        high: part.high,
    };
    is_needless(catalog, needs, copy)
}

// Whether it needs nothing that the set has.
fn are_parts_needless(catalog: &Catalog, needs: &Needs, set: &SetEntry) -> bool
    requires needs { AreNeeds catalog.now needs.now }
    requires there { IsThere (nodes catalog.now) set.now.inc }
    ensures { IsTrue result ↔ All (λ p. IsNeedlessBackup (needed_by catalog.now needs.now) (backup_in (part_piece set.now p))) set.now.parts }
{
    let parts = set.parts.as_slice();
    parts
        .iter()
        .all(|part| is_part_needless(catalog, needs, set, part))
}

fn is_obsolete_set(catalog: &Catalog, needs: &Needs, set: &SetEntry) -> bool
    requires needs { AreNeeds catalog.now needs.now }
    requires there { IsThere (nodes catalog.now) set.now.inc }
    ensures { IsTrue result ↔ IsObsoleteSet (needed_by catalog.now needs.now) (backups_of set.now) set.now.keep }
{
    may_go(needs.policy, set.keep) && are_parts_needless(catalog, needs, set)
}

// Whether the record is one of a log, a piece or a set, and is obsolete.
fn is_obsolete(catalog: &Catalog, needs: &Needs, row: &Record) -> bool
    requires needs { AreNeeds catalog.now needs.now }
    requires there { HasIncarnation (nodes catalog.now) row.now }
    ensures { IsTrue result ↔ IsObsoleteRecord (needed_by catalog.now needs.now) row.now }
{
    match row {
        Record::Log(log) => is_obsolete_log(catalog, needs, log),
        Record::Piece(piece) => is_obsolete_piece(catalog, needs, piece),
        Record::Set(set) => is_obsolete_set(catalog, needs, set),
        _ => false,
    }
}

// The ids of the records that are obsolete.
fn obsolete_ids(alloc: Global, catalog: &Catalog, needs: &Needs) -> Result<Vec<u32>, NoMemory>
    requires needs { AreNeeds catalog.now needs.now }
    ensures exact { IfOk result (λ ids. AreObsolete catalog.now (needed_by catalog.now needs.now) ids.items) }
    ensures apart { IfOk result (λ ids. AllPairs (λ i j. i ≢ j) ids.items) }
{
    let mut ids = Vec::new(alloc);
    let records = catalog.records();
    for row in records {
        if is_obsolete(catalog, needs, row) {
            ids.push(row.key().id)?;
        }
    }
    Ok(ids)
}

// The same ids, ascending.
fn in_order(mut ids: Vec<u32>) -> Vec<u32>
    ensures same { (id : ℕ) → Contains result.items id ↔ Contains ids.items id }
    ensures ascends { AllPairs (λ i j. i ≢ j) ids.items → AllPairs (λ i j. i < j) result.items }
{
    ids.sort_unstable();
    ids
}

/// The ids of the obsolete records, ascending. A set goes as a whole, where it has nothing that is needed. `start` is
/// the SCN at which the window of the policy begins.
pub fn obsolete(
    alloc: Global,
    catalog: &Catalog,
    evidence: &Evidence,
    policy: Policy,
    start: Scn,
) -> Result<Vec<u32>, NoMemory>
    requires database { HasDatabase catalog.now }
    requires ascend { Ascend (copies_in evidence.now) }
    ensures exact { IfOk result (λ ids. AreObsolete catalog.now (by_records catalog.now evidence.now policy start) ids.items) }
    ensures ascends { IfOk result (λ ids. AllPairs (λ i j. i < j) ids.items) }
{
    let needs = needs_of(alloc, catalog, evidence, policy, start)?;
    Ok(in_order(obsolete_ids(alloc, catalog, &needs)?))
}
