//! What the definitions of a planner's answers rest on.
ghost use Rattle.std.specs.Prelude.{List};
ghost use Rattle.rm_catalog.specs.{Rules.{HasDatabase, IsCatalog}, declared.record.Record.{Record}};
ghost use Rattle.rm_history.specs.Unknown.{IsWorld};
ghost use Rattle.rm_evidence.specs.Database.{world_of};

/// The database of a catalog is one of which the laws on gaps speak: its incarnations are a tree, and each
/// datafile was created at or above the resetlogs SCN of its incarnation.
pub fn a_catalogs_database_is_a_world()
    ensures { (rs : List Record) → IsCatalog rs → HasDatabase rs → IsWorld (world_of rs) }
{}
