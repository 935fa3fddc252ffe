//! What the definitions of recovery and restore mean.
ghost use Rattle.std.specs.Prelude.{ℕ, ◌≡◌, ◌<◌, ◌↔◌, Option, Some, List, Contains};
ghost use Rattle.rm_base.specs.{Store.{Held}, declared.block.Change.{Change}};
ghost use Rattle.rm_blocks.specs.File.{File, base_of};
ghost use Rattle.rm_catalog.specs.{Rules.{IsCatalog}, declared.record.Record.{Record}};
ghost use Rattle.rm_evidence.specs.{Gathered.{IsBaseOf, IsGathered}, Known.{known_of}, Database.{world_of}};
ghost use Rattle.rm_evidence.specs.declared.evidence.{Evidence.{Evidence}, InPlace.{InPlace}};
ghost use Rattle.rm_history.specs.{Agrees.{BaseAgrees}, History.{IsHistory}, State.{states}, World.{blocks_of}, Evidence.{Agrees}};
ghost use Rattle.rm_piece.specs.declared.piece.Piece.{Piece};
ghost use Rattle.rm_plan.specs.declared.plan.Gap.{Gap};
ghost use Rattle.rm_apply.specs.{Recover.{FindsGap, TellsAll}, Restore.{Restores}, declared.origin.Origin.{Origin}};
ghost use Rattle.rm_apply.specs.declared.recovering.Recovered.{Recovered};

/// What recovery brings back is what the history made of each block, where what is at hand agrees with it.
pub fn what_comes_back_is_true()
    ensures { (held : Option Held) (rs : List Record) (place : InPlace) (i s : ℕ) (r : Recovered) (tells : TellsAll held rs place i s r) (h : List Change) (x : File) → IsHistory (world_of rs) h → Agrees (world_of rs) h (known_of tells.evidence) → Contains r.files x → x.rows ≡ states (world_of rs) h i s x.file (blocks_of (world_of rs) x.file) }
{}

/// What a restore puts in place agrees with each history with which what is at hand agrees.
pub fn what_is_restored_agrees()
    ensures { (held : Option Held) (rs : List Record) (place : InPlace) (i s : ℕ) (only : Option ℕ) (r : Recovered) (origins : List Origin) (back : Restores held rs place i s only r origins) (h : List Change) (x : File) → IsHistory (world_of rs) h → Agrees (world_of rs) h (known_of back.evidence) → Contains r.files x → BaseAgrees (world_of rs) h (base_of x) }
{}

/// What is at hand is one, and it decides between the two answers: where it leaves a gap, nothing comes back.
pub fn either_all_comes_back_or_there_is_a_gap()
    ensures one { (held : Held) (rs : List Record) (place : InPlace) (e d : Evidence) → IsGathered held rs place e → IsGathered held rs place d → e ≡ d }
    ensures either { (held : Held) (rs : List Record) (place : InPlace) (i s : ℕ) (r : Recovered) (x : Gap) → TellsAll (Some held) rs place i s r → ¬ FindsGap (Some held) rs place i s x }
{}

/// The backups among what is at hand are exactly the full and level 0 pieces that the store has, each of a
/// record of its own or in a record's set.
pub fn backups_are_those_of_the_records()
    ensures { (held : Held) (rs : List Record) (place : InPlace) (e : Evidence) (id : ℕ) (a : Piece) → IsCatalog rs → IsGathered held rs place e → ((0 < id) × Contains e.bases (id, a)) ↔ IsBaseOf held rs id a }
{}
