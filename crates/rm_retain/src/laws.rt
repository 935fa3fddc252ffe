//! Why no target of the window is lost with the records that the policy does not need.
ghost use Rattle.std.specs.Prelude.{ℕ, ◌≡◌, ◌≤◌, List, [], ◌∷◌};
ghost use Rattle.rm_base.specs.{Content.{padded}, Store.{Held}, declared.{block.{Block.{Block}, Change.{Change}}, kinds.Policy.{Policy}}};
ghost use Rattle.rm_base.specs.declared.kinds.Policy.TheVariants.{Window};
ghost use Rattle.rm_catalog.specs.{Rules.{HasDatabase, IsCatalog}, Trees.{nodes}, declared.record.Record.{Record}};
ghost use Rattle.rm_evidence.specs.{Gathered.{IsGathered}, Known.{known_of}, Database.{current_in, database_in, world_of}};
ghost use Rattle.rm_evidence.specs.declared.evidence.{Evidence.{Evidence as Gathered}, InPlace.{InPlace}};
ghost use Rattle.rm_history.specs.{History.{IsHistory}, Tree.{reset_of}, Evidence.{Evidence, Agrees}, Known.{Determined}};
ghost use Rattle.rm_history.specs.FirstGap.{IsTarget, IsDetermined, IsRecoverable};
ghost use Rattle.rm_retain.specs.{Catalogued.{by_records, IsObsoleteRecord}, Chosen.{Retention, IsChosen, floor}, Cleared.{IsCleared}};
ghost use Rattle.rm_retain.specs.Example.{world, history, second, late, before, after, backup, window};
ghost use Rattle.rm_retain.specs.{Losing.{FitsHistory, LosesNeedless}, Obsolete.{IsOnPath, IsNeedlessBackup, IsNeedlessLog}};
ghost use Rattle.rm_retain.specs.{Remaining.{AreRemaining, with_copies}, Window.{IsInWindow, IsTargetOf}, declared.copies.Backup.{Backup}};

/// Whatever the evidence tells of a block at a target of the window, it tells when needless records are
/// gone: a target that was recoverable stays so.
pub fn safe_retention()
    ensures told { (h : List Change) (r : Retention) (old new : Evidence) (days i s f b v : ℕ) (x : Block) → r.policy ≡ Window days → FitsHistory h r old → LosesNeedless r old new → IsInWindow r i s → IsTarget r.world i s f b → Determined r.world old i s f b v x → Determined r.world new i s f b v x }
    ensures recoverable { (h : List Change) (r : Retention) (old new : Evidence) (days i s : ℕ) → r.policy ≡ Window days → FitsHistory h r old → LosesNeedless r old new → IsInWindow r i s → IsRecoverable r.world old i s → IsRecoverable r.world new i s }
{}

/// The same of the records of a catalog and the objects of a store, where the database stays the same.
pub fn safe_deletion()
    ensures told { (h : List Change) (held now : Held) (rs left : List Record) (place : InPlace) (old new : Gathered) (days start i s f b v : ℕ) (x : Block) → IsCatalog rs → HasDatabase rs → IsGathered held rs place old → IsGathered now left place new → database_in left ≡ database_in rs → IsHistory (world_of rs) h → Agrees (world_of rs) h (known_of old) → IsCleared (by_records rs old (Window days) start) rs left held now → IsInWindow (by_records rs old (Window days) start) i s → IsTarget (world_of rs) i s f b → Determined (world_of rs) (known_of old) i s f b v x → Determined (world_of rs) (known_of new) i s f b v x }
    ensures recoverable { (h : List Change) (held now : Held) (rs left : List Record) (place : InPlace) (old new : Gathered) (days start i s : ℕ) → IsCatalog rs → HasDatabase rs → IsGathered held rs place old → IsGathered now left place new → database_in left ≡ database_in rs → IsHistory (world_of rs) h → Agrees (world_of rs) h (known_of old) → IsCleared (by_records rs old (Window days) start) rs left held now → IsInWindow (by_records rs old (Window days) start) i s → IsRecoverable (world_of rs) (known_of old) i s → IsRecoverable (world_of rs) (known_of new) i s }
{}

/// When needless copies went, the floors are what they were, what was chosen is chosen, and only what
/// was needless before is needless: a second time nothing goes.
pub fn nothing_goes_twice()
    ensures floor { (r : Retention) (left : List Backup) (f : ℕ) → AreRemaining r left → IsOnPath r f → floor (with_copies r left) f ≡ floor r f }
    ensures chosen { (r : Retention) (left : List Backup) (f id : ℕ) → AreRemaining r left → IsOnPath r f → IsChosen r f id → IsChosen (with_copies r left) f id }
    ensures backup { (r : Retention) (left : List Backup) (x : Backup) → AreRemaining r left → IsNeedlessBackup (with_copies r left) x → IsNeedlessBackup r x }
    ensures log { (r : Retention) (left : List Backup) (inc next : ℕ) → AreRemaining r left → IsNeedlessLog (with_copies r left) inc next → IsNeedlessLog r inc next }
{}

/// Of the records that are left none is obsolete that was not: where all obsolete ones went, a second
/// deletion at the same moment finds none.
pub fn deletion_leaves_nothing_obsolete()
    ensures { (held now : Held) (rs left : List Record) (place : InPlace) (old new : Gathered) (policy : Policy) (start : ℕ) (row : Record) → IsGathered held rs place old → IsGathered now left place new → IsCleared (by_records rs old policy start) rs left held now → world_of left ≡ world_of rs → database_in left ≡ database_in rs → current_in left ≡ current_in rs → IsObsoleteRecord (by_records left new policy start) row → IsObsoleteRecord (by_records rs old policy start) row }
{}

/// Each target of the window is one of the incarnation that owns it, where the window starts no earlier
/// than the first incarnation.
pub fn targets_are_of_their_owners()
    ensures { (rs : List Record) (e : Gathered) (policy : Policy) (start i s : ℕ) → IsCatalog rs → HasDatabase rs → reset_of (nodes rs) 1 ≤ start → IsInWindow (by_records rs e policy start) i s → IsTargetOf (nodes rs) (current_in rs) i s }
{}

/// A database, its history and a window of which a backup and a log fall out meet all that the law asks
/// for: the block is told at SCN 4, where the window starts.
pub fn the_premises_can_be_met()
    ensures fits { FitsHistory history (window 4) (before second) }
    ensures loses { LosesNeedless (window 4) (before second) (after second) }
    ensures target { IsInWindow (window 4) 1 4 }
    ensures block { IsTarget world 1 4 1 0 }
    ensures told { Determined world (before second) 1 4 1 0 2 (padded (65 ∷ [])) }
{}

/// Where a backup was made while the database went on writing, its checkpoint does not do in place of
/// `high`: by a record that says so, the first backup and the log are needless, and without them what was
/// told at SCN 4 is lost. By the true `high` the first backup is chosen.
pub fn a_checkpoint_is_not_enough()
    ensures fits { FitsHistory history (window 4) (before late) }
    ensures backup { IsNeedlessBackup (window 4) (backup 1 3 3) }
    ensures log { IsNeedlessLog (window 4) 1 4 }
    ensures target { IsInWindow (window 4) 1 4 }
    ensures block { IsTarget world 1 4 1 0 }
    ensures told { Determined world (before late) 1 4 1 0 2 (padded (65 ∷ [])) }
    ensures lost { ¬ IsDetermined world (after late) 1 4 1 0 }
    ensures chosen { IsChosen (window 5) 1 1 }
{}
