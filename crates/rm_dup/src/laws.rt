//! What a duplicate is good for.
ghost use Rattle.std.specs.Prelude.{◌≡◌, ◌<◌, ◌≤◌, ◌^◌, ℕ, List, None, Option, Some, map};
ghost use Rattle.rm_apply.specs.{Files.{AreExactly}, Recover.{FindsGap, TellsAll, outside}, Restore.{Restores, backed_up}};
ghost use Rattle.rm_apply.specs.declared.{origin.Origin.{Origin}, recovering.Recovered.{Recovered}};
ghost use Rattle.rm_base.specs.{Store.{Held}, declared.block.Change.{Change}};
ghost use Rattle.rm_catalog.specs.{Rules.{HasDatabase, IsCatalog}, Trees.{nodes}, declared.record.Record.{Record}};
ghost use Rattle.rm_evidence.specs.{Database.{world_of}, Known.{known_of}, declared.evidence.InPlace.{InPlace}};
ghost use Rattle.rm_history.specs.{Evidence.{Agrees}, History.{IsHistory}, Tree.{IsThere}};
ghost use Rattle.rm_plan.specs.{Plan.{IsFileTarget}, declared.plan.Gap.{Gap}};
ghost use Rattle.rm_dup.specs.{Copies.{made_of}, Duplicate.{IsDuplicate}, Entries.{AreLater, HoldsCopies, nothing, restored}};
ghost use Rattle.rm_dup.specs.declared.database.Duplicate.{Duplicate};

/// A duplicate comes back: over its records, at whatever later moment, and a store that has its copies, with nothing in
/// place or with the copies restored, a recovery to incarnation 1 at the target is in range, and leaves no gap; and with
/// nothing in place a restore to that target puts exactly the copies there.
pub fn a_duplicate_comes_back()
    ensures range { (held : Option Held) (rs : List Record) (place : InPlace) (i s dbid : ℕ) (d : Duplicate)
        → IsCatalog rs → HasDatabase rs → IsThere (nodes rs) i → outside (nodes rs) i s ≡ None → (1 ≤ dbid) × (dbid < 2 ^ 32)
        → IsDuplicate held rs place i s dbid d → IsThere (nodes d.records) 1 × (outside (nodes d.records) 1 s ≡ None) }
    ensures no_gap { (held : Option Held) (rs : List Record) (place : InPlace) (i s dbid : ℕ) (d : Duplicate)
        (later : List Record) (to : Held) (x : Gap)
        → IsCatalog rs → HasDatabase rs → IsThere (nodes rs) i → outside (nodes rs) i s ≡ None → (1 ≤ dbid) × (dbid < 2 ^ 32)
        → IsDuplicate held rs place i s dbid d → AreLater d.records later → HoldsCopies to d.pieces → ¬ FindsGap (Some to) later nothing 1 s x }
    ensures no_gap_restored { (held : Option Held) (rs : List Record) (place : InPlace) (i s dbid : ℕ) (d : Duplicate)
        (later : List Record) (to : Held) (x : Gap)
        → IsCatalog rs → HasDatabase rs → IsThere (nodes rs) i → outside (nodes rs) i s ≡ None → (1 ≤ dbid) × (dbid < 2 ^ 32)
        → IsDuplicate held rs place i s dbid d → AreLater d.records later → HoldsCopies to d.pieces
        → ¬ FindsGap (Some to) later (restored d.pieces) 1 s x }
    ensures restored { (held : Option Held) (rs : List Record) (place : InPlace) (i s dbid : ℕ) (d : Duplicate)
        (later : List Record) (to : Held) (back : Recovered) (origins : List Origin)
        → IsCatalog rs → HasDatabase rs → IsThere (nodes rs) i → outside (nodes rs) i s ≡ None → (1 ≤ dbid) × (dbid < 2 ^ 32)
        → IsDuplicate held rs place i s dbid d → AreLater d.records later → HoldsCopies to d.pieces
        → Restores (Some to) later nothing 1 s None back origins → back.files ≡ map backed_up d.pieces }
{}

/// What comes back, at whatever later moment, is the source, with nothing in place or with the copies restored: exactly
/// the datafiles that exist at the target, each with the blocks that the source's history made of it, where what was at
/// hand of the source agrees with that history.
pub fn a_duplicate_is_the_source()
    ensures datafiles { (held : Option Held) (rs : List Record) (place : InPlace) (i s dbid : ℕ) (d : Duplicate)
        → IsDuplicate held rs place i s dbid d → AreExactly (IsFileTarget (world_of rs) i s) d.from }
    ensures blocks { (held : Option Held) (rs : List Record) (place : InPlace) (i s dbid : ℕ) (d : Duplicate)
        (later : List Record) (to : Held) (h : List Change) (back : Recovered)
        → IsCatalog rs → HasDatabase rs → IsThere (nodes rs) i → outside (nodes rs) i s ≡ None → (1 ≤ dbid) × (dbid < 2 ^ 32)
        → (is : IsDuplicate held rs place i s dbid d) → AreLater d.records later
        → HoldsCopies to d.pieces → IsHistory (world_of rs) h → Agrees (world_of rs) h (known_of is.tells.evidence)
        → TellsAll (Some to) later nothing 1 s back → back.files ≡ made_of (world_of rs) h i s d.from }
    ensures blocks_restored { (held : Option Held) (rs : List Record) (place : InPlace) (i s dbid : ℕ) (d : Duplicate)
        (later : List Record) (to : Held) (h : List Change) (back : Recovered)
        → IsCatalog rs → HasDatabase rs → IsThere (nodes rs) i → outside (nodes rs) i s ≡ None → (1 ≤ dbid) × (dbid < 2 ^ 32)
        → (is : IsDuplicate held rs place i s dbid d) → AreLater d.records later
        → HoldsCopies to d.pieces → IsHistory (world_of rs) h → Agrees (world_of rs) h (known_of is.tells.evidence)
        → TellsAll (Some to) later (restored d.pieces) 1 s back → back.files ≡ made_of (world_of rs) h i s d.from }
{}
