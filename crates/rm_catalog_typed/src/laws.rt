//! What the definitions of a typed catalog mean.
ghost use Rattle.std.specs.Prelude.{◌≡◌, ◌≤◌, ◌↔◌, Contains, List, Some};
ghost use Rattle.rm_catalog.specs.{Keys.{base}, Rules.{IsCatalog}, declared.record.{BaseEntry.{BaseEntry}, LogEntry.{LogEntry}}};
ghost use Rattle.rm_catalog.specs.declared.record.{PieceEntry.{PieceEntry}, Record.{Record}, SetEntry.{SetEntry}};
ghost use Rattle.rm_catalog.specs.declared.record.Record.TheVariants as kind;
ghost use Rattle.rm_catalog_typed.specs.{Facts.{IsTypedCatalog}, Kinds.{AreSmall, typed_catalog_in}};
ghost use Rattle.rm_catalog_typed.specs.TypedCatalog.{TypedCatalog, records_of};

/// Valid records are those of the typed catalog that they tell.
pub fn valid_records_are_a_typed_catalog()
    ensures records { (rs : List Record) (b : BaseEntry) → IsCatalog rs → base rs ≡ Some b → AreSmall rs → records_of (typed_catalog_in b rs) ≡ rs }
    ensures rules { (rs : List Record) (b : BaseEntry) → IsCatalog rs → base rs ≡ Some b → AreSmall rs → b.next_id ≤ 4294967295 → IsTypedCatalog (typed_catalog_in b rs) }
{}

/// The records have the base facts, the logs, the pieces and the sets of the typed catalog, and no others.
pub fn records_have_what_stands()
    ensures base { (r : TypedCatalog) → base (records_of r) ≡ Some r.ledger.base }
    ensures logs { (r : TypedCatalog) (e : LogEntry) → IsTypedCatalog r → Contains (records_of r) (kind.Log e) ↔ Contains r.ledger.logs e }
    ensures pieces { (r : TypedCatalog) (e : PieceEntry) → IsTypedCatalog r → Contains (records_of r) (kind.Piece e) ↔ Contains r.ledger.pieces e }
    ensures sets { (r : TypedCatalog) (e : SetEntry) → IsTypedCatalog r → Contains (records_of r) (kind.Set e) ↔ Contains r.ledger.sets e }
{}

/// The records of a typed catalog are a catalog's.
pub fn a_typed_catalog_is_valid()
    ensures { (r : TypedCatalog) → IsTypedCatalog r → IsCatalog (records_of r) }
{}
