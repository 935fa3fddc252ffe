//! What the definitions of the database of a catalog mean.
ghost use Rattle.std.specs.{Prelude.{ℕ, ◌≡◌, List}, Option.{option_map}};
ghost use Rattle.rm_catalog.specs.{Keys.{datafile}, Rules.{HasDatabase, IsCatalog}, declared.record.Record.{Record}};
ghost use Rattle.rm_history.specs.World.{file_of};
ghost use Rattle.rm_evidence.specs.Database.{created_by, world_of, IsSoundWorld};

/// The datafiles of a catalog have the numbers 1, 2, 3 and so on: each is that of the record of its
/// number.
pub fn the_datafiles_are_those_of_the_records()
    ensures { (rs : List Record) (f : ℕ) → IsCatalog rs → file_of (world_of rs) f ≡ option_map created_by (datafile f rs) }
{}

/// The incarnations of a catalog are a tree, each datafile was created on one of them, and no two switches of threads
/// have one address.
pub fn a_catalog_has_a_world()
    ensures { (rs : List Record) → IsCatalog rs → HasDatabase rs → IsSoundWorld (world_of rs) }
{}
