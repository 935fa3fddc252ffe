//! A database as it is at hand: its catalog, and what runs. Nothing stands in both.
use rm_base::{BlockId, Scn, Seq};
use rm_blocks::DataFile;
use rm_catalog_typed::TypedCatalog;
use rm_redo::OnlineLogs;
use rm_track::Tracker;

/// What runs: nothing of it stands in the catalog.
#[derive(Drop)]
pub struct Instance {
    /// Its mode: open, or mounted.
    pub is_open: bool,
    /// The SCN of the current incarnation at which each datafile that exists there stands in place, where
    /// one is known.
    pub point: Option<Scn>,
    /// What stands in place of datafiles 1, 2, 3 and so on; none where one is lost.
    pub place: Seq<Option<DataFile>>,
    /// The online logs; each may be lost.
    pub logs: OnlineLogs,
    /// The blocks in place that are damaged, ascending by datafile and block; none where the database is mounted.
    pub damaged: Seq<BlockId>,
    /// The bitmaps of the datafiles, where the database is open and changes are tracked; else none.
    pub tracker: Tracker,
}

/// A database.
#[derive(Drop)]
pub struct State {
    pub catalog: TypedCatalog,
    pub instance: Instance,
}
