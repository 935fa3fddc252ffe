//! What the definitions of a ledger mean.
ghost use Rattle.std.specs.Prelude.{ℕ, ◌≡◌, ◌≤◌, []};
ghost use Rattle.rm_base.specs.Numbers.{last_scn, last_moment};
ghost use Rattle.rm_catalog.specs.{Edits.{after_edits}, Rules.{IsCatalog}};
ghost use Rattle.rm_catalog_typed.specs.{LedgerFacts.{IsLedger}, Fresh.{fresh, fresh_edits}, Ledger.{Ledger, ledger_records}};

/// The records of a ledger are a catalog's.
pub fn a_ledger_is_valid()
    ensures { (l : Ledger) → IsLedger l → IsCatalog (ledger_records l) }
{}

/// A new database has a ledger, and the edits of its records make them.
pub fn a_new_database_has_a_ledger()
    ensures ledger { (dbid threads scn moment : ℕ) → 1 ≤ dbid → 1 ≤ threads → threads ≤ 4 → 1 ≤ scn → scn ≤ last_scn → moment ≤ last_moment → IsLedger (fresh dbid threads scn moment) }
    ensures records { (dbid threads scn moment : ℕ) → after_edits (fresh_edits (fresh dbid threads scn moment)) [] ≡ ledger_records (fresh dbid threads scn moment) }
{}
