//! Planning a made datafile, and gathering what tells of it beside a digest of the same bytes.
ghost use Rattle.std.specs.Prelude.{IsTrue};
ghost use Rattle.rm_catalog.specs.Rules.{HasDatabase};
ghost use Rattle.rm_evidence.specs.Database.{world_of};
ghost use Rattle.rm_plan.specs.Plan.{IsFileTarget};

use crate::formats::micros_since;
use crate::made::{Made, Shape, content_at, made_of};
use crate::tell;
use rm_base::sealed::digest_of;
use rm_base::{NoMemory, Part, Scn, Seq, Store};
use rm_catalog::Catalog;
use rm_evidence::{Evidence, InPlace, datafile, fits_place, gather, has_database};
use rm_plan::plan_file;
use std::alloc::AllocError;
use std::time::Instant;
use std::{io, mem};

const SMALL: Shape = Shape {
    blocks: 64,
    rounds: 16,
    changes: 20,
    is_cumulative: false,
    until: 322,
};

const SMALL_ASTRAY: Shape = Shape {
    is_cumulative: true,
    until: 12,
    ..SMALL
};

const FEW_BLOCKS: Shape = Shape {
    blocks: 4096,
    rounds: 16,
    changes: 2560,
    is_cumulative: false,
    until: 40_962,
};

const MANY_BLOCKS: Shape = Shape {
    blocks: 65_536,
    ..FEW_BLOCKS
};

// Each level 1 lists nearly each block at an SCN above the target.
const ASTRAY: Shape = Shape {
    blocks: 65_536,
    rounds: 16,
    changes: 40_960,
    is_cumulative: true,
    until: 6_555,
};

/// Tells whether made datafiles are planned as they were made, and for `large` the times as well.
pub fn run(rt: &HostRuntime, large: bool) -> io::Result<()> {
    if large {
        tell_shape(rt, FEW_BLOCKS, true)?;
        tell_shape(rt, MANY_BLOCKS, true)?;
        tell_shape(rt, ASTRAY, true)
    } else {
        tell_shape(rt, SMALL, false)?;
        tell_shape(rt, SMALL_ASTRAY, false)
    }
}

// What a call gave, or want of memory.
fn kept<T>(outcome: Result<T, NoMemory>) -> Result<T, AllocError> {
    outcome.map_err(|_| AllocError)
}

// Whether there is a database, and its datafile 1 exists at this SCN.
fn is_file(catalog: &Catalog, until: Scn) -> bool
    ensures database { IsTrue result → HasDatabase catalog.now }
    ensures target { IsTrue result → IsFileTarget (world_of catalog.now) 1 until 1 }
{
    if !has_database(catalog) {
        return false;
    }
    let tree = catalog.tree();
    match datafile(catalog, 1) {
        Some(found) => found.creation > 0 && tree.is_there(1) && tree.exists(1, until, &found),
        None => false,
    }
}

// Makes a datafile of this shape, gathers what tells of it, and plans it.
fn tell_shape(rt: &HostRuntime, shape: Shape, large: bool) -> io::Result<()> {
    let alloc = rt.alloc();
    let mut made = kept(made_of(alloc, shape))?;
    let records = mem::replace(&mut made.records, Seq::new(alloc));
    match Catalog::from_records(records) {
        Ok(catalog) if is_file(&catalog, shape.until) => {
            tell_plan(rt, &catalog, &mut made, shape.until, large)
        }
        _ => tell(rt, "gather", false),
    }
}

fn tell_plan(
    rt: &HostRuntime,
    catalog: &Catalog,
    made: &mut Made,
    until: Scn,
    large: bool,
) -> io::Result<()>
    requires database { HasDatabase catalog.now }
    requires target { IsFileTarget (world_of catalog.now) 1 until 1 }
{
    let alloc = rt.alloc();
    let nothing = InPlace {
        files: Seq::new(alloc),
        logs: Seq::new(alloc),
    };
    if !fits_place(catalog, &nothing) {
        return tell(rt, "gather", false);
    }
    let start = Instant::now(rt)?;
    let gathered = gather(alloc, catalog, &mut made.store, &nothing);
    let gather_micros = micros_since(rt, start)?;
    let Ok(evidence) = gathered else {
        return tell(rt, "gather", false);
    };
    let start = Instant::now(rt)?;
    let planned = plan_file(alloc, &evidence, catalog, 1, until, 1);
    let plan_micros = micros_since(rt, start)?;
    if large {
        tell_gather(rt, made, gather_micros)?;
        tell_blocks(rt, made, &evidence, plan_micros)?;
    }
    tell(rt, "gather", evidence.skipped.is_empty())?;
    let parts = planned.unwrap_or_else(|_| Seq::new(alloc));
    tell(rt, "plan", are_wanted(parts.as_slice(), &made.wanted))
}

// How long gathering took, beside getting each object and making its digest.
fn tell_gather(rt: &HostRuntime, made: &mut Made, micros: u128) -> io::Result<()> {
    let mut len = 0usize;
    let mut sum = 0u32;
    let start = Instant::now(rt)?;
    for name in &made.names {
        if let Ok(Some(bytes)) = made.store.get(name.as_str()) {
            let [first, ..] = digest_of(bytes.as_slice());
            len = len.saturating_add(bytes.len());
            sum = sum.saturating_add(u32::from(first));
        }
    }
    let digests = micros_since(rt, start)?;
    let percent = micros.saturating_mul(100).checked_div(digests).unwrap_or(0);
    let objects = made.names.len();
    println!(rt;
        "gather: {objects} objects of {len} bytes {micros} us, getting them and SHA-256 {digests} us (first bytes {sum}), gather / SHA-256 {percent} %"
    )
}

// How long planning took.
fn tell_blocks(rt: &HostRuntime, made: &Made, evidence: &Evidence, micros: u128) -> io::Result<()> {
    let blocks = made.versions.len();
    let later = made
        .versions
        .iter()
        .zip(&made.wanted)
        .filter(|(version, wanted)| version != wanted)
        .count();
    let (copies, level1s) = (evidence.bases.len(), evidence.level1s.len());
    let logs = evidence.logs.len();
    println!(rt;
        "plan: {blocks} blocks, {later} changed behind the target, {copies} copies, {level1s} level 1s, {logs} logs {micros} us"
    )
}

// Whether each block has the version and content that are wanted.
fn are_wanted(parts: &[Part], wanted: &[Scn]) -> bool {
    let same = parts.iter().zip(wanted).all(|(part, version)| part.version == *version
        && part.content == content_at(*version));
    same && parts.len() == wanted.len()
}
