//! What the records of a database tell of it.
ghost use Rattle.std.specs.Prelude.{◌≡◌, Option};
ghost use Rattle.rm_catalog_typed.specs.TypedCatalog.{TypedCatalog, all_records};

/// Records tell of one database alone.
pub fn records_tell_one_catalog()
    ensures { (a b : Option TypedCatalog) → all_records a ≡ all_records b → a ≡ b }
{}
