//! What a restore and a recovery would do.
ghost use Rattle.std.specs.Prelude.{◌≡◌, ◌≤◌, ◌∷◌, [], All, IfErr, IfOk, IsErrOf, map};
ghost use Rattle.rm_base.specs.Outside.{Rose};
ghost use Rattle.rm_catalog.specs.{Rules.{HasDatabase}, Trees.{nodes}};
ghost use Rattle.rm_evidence.specs.{Place.{FitsPlace}, Database.{world_of}};
ghost use Rattle.rm_history.specs.Tree.{IsThere};
ghost use Rattle.rm_apply.specs.{Files.{IsTargetFile}, Preview.{AreOrigins, Previews}, Recover.{IfGap, outside, until_of}};

use crate::choice::{base_at, choose, origin_by};
use crate::fault::RecoverFault;
use crate::origin::Origin;
use crate::range::outside;
use crate::targets::{TargetFile, datafiles_at};
use rm_base::{Bad, IncNo, NoMemory, Scn, Seq, Store};
use rm_catalog::Catalog;
use rm_evidence::{Evidence, InPlace, gather_by};
use rm_plan::{Gap, first_gap};
use std::alloc::Global;
use std::thread::Threads;

// From where the datafile would be restored.
fn origin(evidence: &Evidence, catalog: &Catalog, i: IncNo, s: Scn, target: TargetFile) -> Origin
    requires database { HasDatabase catalog.now }
    requires there { IsThere (nodes catalog.now) i }
    requires target { IsTargetFile (world_of catalog.now) i s target }
    ensures { AreOrigins (world_of catalog.now) evidence.now.bases i s (target.number ∷ []) (result ∷ []) }
{
    let bases = evidence.bases.as_slice();
    let place = choose(catalog.tree(), bases, i, s, target.number);
    origin_by(base_at(bases, place))
}

// The origins of the datafiles, in order.
fn origins(
    alloc: Global,
    evidence: &Evidence,
    catalog: &Catalog,
    i: IncNo,
    s: Scn,
    targets: &[TargetFile],
) -> Result<Seq<Origin>, NoMemory>
    requires database { HasDatabase catalog.now }
    requires there { IsThere (nodes catalog.now) i }
    requires each { All (IsTargetFile (world_of catalog.now) i s) targets.now }
    ensures { IfOk result (AreOrigins (world_of catalog.now) evidence.now.bases i s (map (λ t. t.number) targets.now)) }
{
    let mut origins = Seq::new(alloc);
    for target in targets {
        origins.push(origin(evidence, catalog, i, s, *target))?;
    }
    Ok(origins)
}

/// What `preview` tells. What is in place is moved into what is at hand: no row of it is copied.
pub fn preview_from<R: Threads + Sync, D: Store>(
    rt: &R,
    alloc: Global,
    catalog: &Catalog,
    store: &mut D,
    place: InPlace,
    i: IncNo,
    s: Scn,
    channels: u32,
) -> Result<(Seq<Origin>, Option<Gap>, Seq<(u32, Bad)>), RecoverFault>
    requires database { HasDatabase catalog.now }
    requires place { FitsPlace catalog.now place }
    requires there { IsThere (nodes catalog.now) i }
    ensures until { until_of result ≡ outside (nodes catalog.now) i s }
    ensures previews { IfOk result (λ x. Previews (D.held store.old) catalog.now place i s x.0 x.1 x.2) }
    ensures no_gap { IfErr result (λ x. IfGap x (λ _. ⊥)) }
    ensures same { D.held store.new ≡ D.held store.old }
    ensures failed { IsErrOf result RecoverFault.StoreFault → Rose (D.faults store.old) (D.faults store.new) }
    ensures never_falls { D.faults store.old ≤ D.faults store.new }
{
    if let Some((low, high)) = outside(catalog.tree(), i, s) {
        return Err(RecoverFault::Until(low, high));
    }
    let evidence = gather_by(rt, alloc, catalog, store, place, channels)?;
    let targets = datafiles_at(alloc, catalog, i, s, None)?;
    let origins = origins(alloc, &evidence, catalog, i, s, targets.as_slice())?;
    let gap = first_gap(alloc, &evidence, catalog, i, s)?;
    Ok((origins, gap, evidence.skipped))
}
