//! The bitmaps of a database that is opened or loaded, or of which the setting is changed.
ghost use Rattle.std.specs.Prelude.{◌≡◌, ◌<◌, if◌then◌else◌, IfOk, OnOk};
ghost use Rattle.rm_history.specs.{Tree.{end_of}, World.{exists}};
ghost use Rattle.rm_track.specs.Bitmaps.{fresh, with_file};
ghost use Rattle.rm_catalog_typed.specs.{Facts.{IsTypedCatalog}, Worlds.{world_of}};
ghost use Rattle.rm_machine.specs.Tracked.{first_tracker, fresh_from};

use rm_base::{FileNo, NoMemory};
use rm_catalog_typed::TypedCatalog;
use rm_history::Datafile;
use rm_track::Tracker;
use std::alloc::Global;

// Tracks a datafile of this number from `now` on, where it is on the current path.
fn add_current(
    alloc: Global,
    tracker: &mut Tracker,
    catalog: &TypedCatalog,
    number: FileNo,
    file: &Datafile,
) -> Result<(), NoMemory>
    requires rules { IsTypedCatalog catalog.now }
    requires created { 0 < file.now.creation }
    ensures { let l = catalog.now.ledger in
        let now = end_of l.tree l.base.current in
        OnOk result (tracker.new ≡ (if exists (world_of l) l.base.current now file.now then with_file tracker.old (fresh number file.now.blocks now) else tracker.old)) }
{
    let current = catalog.base().current;
    let now = catalog.tree().end_of(current);
    if catalog.tree().exists(current, now, file) {
        tracker.add_file(alloc, number, file.blocks, now)?;
    }
    Ok(())
}

// The bitmaps of all datafiles of the current path, from `now` on.
fn all_tracked(alloc: Global, catalog: &TypedCatalog) -> Result<Tracker, NoMemory>
    requires { IsTypedCatalog catalog.now }
    ensures { let l = catalog.now.ledger in
        IfOk result (λ t. t ≡ fresh_from (world_of l) l.base.current (end_of l.tree l.base.current) 1 l.files) }
{
    let mut tracker = Tracker::new(alloc);
    for (index, file) in catalog.files().iter().enumerate() {
        add_current(alloc, &mut tracker, catalog, index as FileNo + 1, file)?;
    }
    Ok(tracker)
}

/// The bitmaps with which a database begins in this mode: of each datafile of the current path from `now` on, where it
/// is open and its setting is on; else none. An error is want of memory.
pub fn first_tracker(
    alloc: Global,
    catalog: &TypedCatalog,
    is_open: bool,
) -> Result<Tracker, NoMemory>
    ensures { IfOk result (λ t. t ≡ first_tracker is_open catalog.now.ledger) }
{
    let base = catalog.base();
    if is_open && base.tracking {
        all_tracked(alloc, catalog)
    } else {
        Ok(Tracker::new(alloc))
    }
}
