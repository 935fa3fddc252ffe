//! Restores, from backups or else as datafiles were created.
ghost use Rattle.std.specs.Prelude.{◌≡◌, ◌≢◌, ◌<◌, ◌≤◌, ◌∷◌, [], ℕ, All, AllPairs, IfErr, IfOk, IfSome, IsErrOf, List, Option, length, map, slice_get};
ghost use Rattle.rm_base.specs.{Numbers.{last_scn}, Outside.{Rose}};
ghost use Rattle.rm_blocks.specs.File.{IsInOrder};
ghost use Rattle.rm_catalog.specs.{Rules.{HasDatabase}, Trees.{nodes}};
ghost use Rattle.rm_evidence.specs.{Place.{FitsPlace}, Database.{world_of}};
ghost use Rattle.rm_history.specs.{Tree.{IsThere}, declared.tree.Incarnation.{Incarnation}};
ghost use Rattle.rm_piece.specs.declared.piece.Piece.{Piece};
ghost use Rattle.rm_apply.specs.{Files.{IsTargetFile}, Recover.{IfGap, outside, until_of}};
ghost use Rattle.rm_apply.specs.{Restore.{AreRestored, IsBackupFor, Restores, backed_up, file_by}, Taking.{Stays, base_at}};
ghost use Rattle.rm_apply.specs.declared.targets.TargetFile.{TargetFile};

use crate::choice::{base_at, choose, origin_by};
use crate::fault::RecoverFault;
use crate::origin::Origin;
use crate::range::outside;
use crate::recovering::Recovered;
use crate::targets::{TargetFile, datafiles_at};
use rm_base::{FileNo, IncNo, NoMemory, Scn, Seq, Store};
use rm_blocks::DataFile;
use rm_catalog::Catalog;
use rm_evidence::{InPlace, gather_by};
use rm_history::Datafile;
use rm_piece::Piece;
use std::alloc::Global;
use std::mem;
use std::thread::Threads;

// The datafile as it stood in the backup at this place, which gives up its rows: none is copied.
fn backed_up(alloc: Global, bases: &mut [(u32, Piece)], place: usize) -> DataFile
    requires inside { place < length bases.old }
    requires order { IfSome (slice_get bases.old place) (λ x. IsInOrder x.1.rows) }
    ensures file { IfSome (slice_get bases.old place) (λ x. result ≡ backed_up x.1) }
    ensures others { (tree : List Incarnation) (i s f : ℕ) → IfSome (slice_get bases.old place) (λ x. x.1.file ≢ f) → Stays tree i s bases.old bases.new f }
{
    let piece = &mut bases[place].1;
    let rows = mem::replace(&mut piece.rows, Seq::new(alloc));
    DataFile::from_rows(piece.file, piece.inc, piece.checkpoint, rows)
}

// The datafile as it stood in the backup at this place, which gives up its rows, or else as it was created.
fn file_by(
    alloc: Global,
    target: TargetFile,
    bases: &mut [(u32, Piece)],
    place: Option<usize>,
) -> Result<DataFile, NoMemory>
    requires creation { target.datafile.creation < last_scn }
    requires blocks { (1 ≤ target.datafile.blocks) × (target.datafile.blocks ≤ 65536) }
    requires order { IfSome (base_at bases.old place) (λ x. IsInOrder x.1.rows) }
    ensures file { IfOk result (λ x. x ≡ file_by target.number target.datafile (base_at bases.old place)) }
    ensures others { (tree : List Incarnation) (i s f : ℕ) → IfSome (base_at bases.old place) (λ x. x.1.file ≢ f) → Stays tree i s bases.old bases.new f }
{
    let TargetFile { number, datafile } = target;
    let Datafile {
        inc,
        creation,
        blocks,
    } = datafile;
    match place {
        Some(k) if k < bases.len() => Ok(backed_up(alloc, bases, k)),
        _ => DataFile::empty(alloc, number, inc, creation, blocks),
    }
}

// The datafile from its backup, which gives up its rows, or else as it was created, and its origin. It is what
// is restored by all bases that there were, where the choice for it has stayed.
fn restore_file(
    alloc: Global,
    bases: &mut [(u32, Piece)],
    catalog: &Catalog,
    i: IncNo,
    s: Scn,
    target: TargetFile,
) -> Result<(DataFile, Origin), NoMemory>
    requires database { HasDatabase catalog.now }
    requires target { IsTargetFile (world_of catalog.now) i s target }
    requires order { (o : Option (ℕ × Piece)) → IsBackupFor (nodes catalog.now) bases.old i s target.number o → IfSome o (λ x. IsInOrder x.1.rows) }
    ensures restored { IfOk result (λ x. (all : List (ℕ × Piece)) → Stays (nodes catalog.now) i s all bases.old target.number → AreRestored (world_of catalog.now) all i s (target.number ∷ []) (x.0 ∷ []) (x.1 ∷ [])) }
    ensures others { (f : ℕ) → f ≢ target.number → Stays (nodes catalog.now) i s bases.old bases.new f }
{
    // They are a catalog's, so the datafile was created below the end of its incarnation.
    let _ = catalog.records();
    let place = choose(catalog.tree(), bases, i, s, target.number);
    let origin = origin_by(base_at(bases, place));
    let file = file_by(alloc, target, bases, place)?;
    Ok((file, origin))
}

// The datafiles, in order, and their origins. The backups from which they are restored give up their rows.
fn restore_files(
    alloc: Global,
    bases: &mut [(u32, Piece)],
    catalog: &Catalog,
    i: IncNo,
    s: Scn,
    targets: &[TargetFile],
) -> Result<(Seq<DataFile>, Seq<Origin>), NoMemory>
    requires database { HasDatabase catalog.now }
    requires order { (f : ℕ) (o : Option (ℕ × Piece)) → IsBackupFor (nodes catalog.now) bases.old i s f o → IfSome o (λ x. IsInOrder x.1.rows) }
    requires apart { AllPairs (λ (a b : TargetFile). a.number < b.number) targets.now }
    requires each { All (IsTargetFile (world_of catalog.now) i s) targets.now }
    ensures { IfOk result (λ x. AreRestored (world_of catalog.now) bases.old i s (map (λ t. t.number) targets.now) x.0 x.1) }
{
    let mut files = Seq::new(alloc);
    let mut origins = Seq::new(alloc);
    for target in targets {
        let (file, origin) = restore_file(alloc, bases, catalog, i, s, *target)?;
        files.push(file)?;
        origins.push(origin)?;
    }
    Ok((files, origins))
}

/// What `restore` gives. What is in place is moved into what is at hand, and the rows of a backup into the
/// datafile that is restored from it: no row is copied.
pub fn restore_from<R: Threads + Sync, D: Store>(
    rt: &R,
    alloc: Global,
    catalog: &Catalog,
    store: &mut D,
    place: InPlace,
    i: IncNo,
    s: Scn,
    file: Option<FileNo>,
    channels: u32,
) -> Result<(Recovered, Seq<Origin>), RecoverFault>
    requires database { HasDatabase catalog.now }
    requires place { FitsPlace catalog.now place }
    requires there { IsThere (nodes catalog.now) i }
    ensures until { until_of result ≡ outside (nodes catalog.now) i s }
    ensures restored { IfOk result (λ x. Restores (D.held store.old) catalog.now place i s file x.0 x.1) }
    ensures no_gap { IfErr result (λ x. IfGap x (λ _. ⊥)) }
    ensures same { D.held store.new ≡ D.held store.old }
    ensures failed { IsErrOf result RecoverFault.StoreFault → Rose (D.faults store.old) (D.faults store.new) }
    ensures never_falls { D.faults store.old ≤ D.faults store.new }
{
    if let Some((low, high)) = outside(catalog.tree(), i, s) {
        return Err(RecoverFault::Until(low, high));
    }
    let evidence = gather_by(rt, alloc, catalog, store, place, channels)?;
    let targets = datafiles_at(alloc, catalog, i, s, file)?;
    let mut bases = evidence.bases.into_vec();
    let lent = bases.as_mut_slice();
    let (files, origins) = restore_files(alloc, lent, catalog, i, s, targets.as_slice())?;
    let recovered = Recovered {
        files,
        skipped: evidence.skipped,
    };
    Ok((recovered, origins))
}
