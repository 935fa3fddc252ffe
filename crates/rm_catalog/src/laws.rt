//! What the definitions of records, edits and trees mean.
ghost use Rattle.std.specs.Prelude.{ℕ, ◌≡◌, ◌+◌, ◌<◌, ◌≤◌, ◌^◌, ◌==◌, ◌⊎◌, ◌↔◌, Contains, List, Some, if◌then◌else◌, length, take};
ghost use Rattle.rm_history.specs.{Threads.{is_enabled}, Tree.{IsThere, owner, incarnation as in_tree}};
ghost use Rattle.rm_catalog.specs.{Keys.{place_of_key, at, InOrder, incarnation}, Edits.{place_of_edit, put_by, after_edit, after_edits}};
ghost use Rattle.rm_catalog.specs.{Objects.{owner_in}, Rules.{IsCatalog}, Switches.{began_with, switches, was_enabled}};
ghost use Rattle.rm_catalog.specs.{Trees.{node, nodes}, declared.record.{Key.{Key}, Edit.{Edit}, IncarnationEntry.{IncarnationEntry}}};
ghost use Rattle.rm_catalog.specs.declared.record.{Record.{Record, TheVariants.{Switch}}, SwitchEntry.{SwitchEntry}};

/// Keys stand in order of kind and then of id.
pub fn keys_stand_by_kind_and_id()
    ensures { (a b : Key) → a.id < 2 ^ 32 → b.id < 2 ^ 32 → (place_of_key a < place_of_key b) ↔ ((a.kind < b.kind) ⊎ ((a.kind ≡ b.kind) × (a.id < b.id))) }
{}

/// After an edit its key has the record that was put, or none, and each other key has what it had.
/// Edits keep the order.
pub fn an_edit_changes_one_key()
    ensures found { (e : Edit) (rs : List Record) (p : ℕ) → at p (after_edit e rs) ≡ (if place_of_edit e == p then put_by e else at p rs) }
    ensures order { (es : List Edit) (rs : List Record) → InOrder rs → InOrder (after_edits es rs) }
{}

/// The tree has exactly the incarnations of the records, and the path over the records is its path.
pub fn the_tree_is_that_of_the_records()
    ensures incarnations { (rs : List Record) (n : ℕ) (i : IncarnationEntry) → IsCatalog rs → incarnation n rs ≡ Some i → in_tree (nodes rs) n ≡ Some (node i) }
    ensures paths { (rs : List Record) (i g : ℕ) → IsCatalog rs → IsThere (nodes rs) i → owner_in 256 i g rs ≡ owner (nodes rs) i g }
{}

/// Rule and history agree on switches: what those of lower numbers say of a thread is that it is enabled by those that stand before.
pub fn switches_tell_who_is_enabled()
    ensures { (rs : List Record) (x : SwitchEntry) (n t : ℕ) → IsCatalog rs → ((y : SwitchEntry) → Contains rs (Switch y) → y.id < 2 ^ 32) → n ≤ length (switches rs) → x.id ≡ n + 1 → IsThere (nodes rs) x.inc → was_enabled rs x t ≡ is_enabled (nodes rs) (began_with rs) (take n (switches rs)) x.inc x.scn t }
{}
