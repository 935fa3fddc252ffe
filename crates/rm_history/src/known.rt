//! What the evidence makes known, and what nobody could know from it.
ghost use Rattle.std.specs.Prelude.{ℕ, ◌≡◌, List, [], ◌∷◌, ◌++◌, Contains, AllPairs};
ghost use Rattle.rm_base.specs.{Content.{padded}, declared.block.{Block.{Block}, Change.{Change}}};
ghost use Rattle.rm_history.specs.{History.{IsHistory}, Agrees.{ComesBefore}, Artefacts.{Log}};
ghost use Rattle.rm_history.specs.{Evidence.{Evidence, Agrees, AgreesInAnyOrder}, Known.{Determined}};
ghost use Rattle.rm_history.specs.FirstGap.{IsTarget, IsDetermined, HasGap, IsRecoverable, IsFirstGap};
ghost use Rattle.rm_history.specs.Unknown.{IsWorld, IsKnown, IsKnownInAnyOrder, IsOrdered, IsUnknown, IsUnknownInAnyOrder};
ghost use Rattle.rm_history.specs.{Growth.{IsPast}, Example.{world, change, history, evidence, smaller, whole}};
ghost use Rattle.rm_history.specs.declared.world.World.{World};

/// What is determined is so in every history that agrees with the evidence.
pub fn told_is_true()
    ensures { (w : World) (e : Evidence) (i s f b v : ℕ) (x : Block) → IsTarget w i s f b → Determined w e i s f b v x → IsKnown w e i s f b v x }
{}

/// Behind a gap stand two histories: in one the block is at the greatest version that is seen, in the
/// other it was changed at the gap, to any content.
pub fn nothing_more_could_be_known()
    ensures { (w : World) (e : Evidence) (i s f b m g : ℕ) → IsWorld w → IsTarget w i s f b → HasGap w e i s f b m g → IsUnknown w e i s f b m g }
{}

/// A history is free to list its changes in any order: where the logs list them, and the rest agrees, a history
/// of the same changes agrees. And one that agrees does so in any order, where the logs ascend.
pub fn the_order_of_a_history_is_free()
    ensures ordered { (w : World) (k : List Change) (e : Evidence) → IsHistory w k → AgreesInAnyOrder w k e → (h : List Change) × IsOrdered w k e h }
    ensures any { (w : World) (h : List Change) (e : Evidence) → Agrees w h e → ((a : Log) → Contains e.logs a → AllPairs ComesBefore a.changes) → AgreesInAnyOrder w h e }
{}

/// So what is determined is so in every history that agrees in any order, and behind a gap stand two histories
/// whichever of them it was.
pub fn what_is_known_goes_by_no_order()
    ensures told { (w : World) (e : Evidence) (i s f b v : ℕ) (x : Block) → IsTarget w i s f b → Determined w e i s f b v x → IsKnownInAnyOrder w e i s f b v x }
    ensures gap { (w : World) (e : Evidence) (i s f b m g : ℕ) → IsWorld w → IsTarget w i s f b → HasGap w e i s f b m g → IsUnknownInAnyOrder w e i s f b m g }
{}

/// A block that is determined has no gap.
pub fn determined_has_no_gap()
    ensures { (w : World) (e : Evidence) (i s f b m g : ℕ) → IsDetermined w e i s f b → ¬ HasGap w e i s f b m g }
{}

/// There is one first gap at most, and where there is one not every block is determined.
pub fn the_first_gap_is_one()
    ensures one { (w : World) (e : Evidence) (i s f b m g c d n k : ℕ) → IsFirstGap w e i s f b m g → IsFirstGap w e i s c d n k → (f ≡ c) × (b ≡ d) × (m ≡ n) × (g ≡ k) }
    ensures only { (w : World) (e : Evidence) (i s f b m g : ℕ) → IsFirstGap w e i s f b m g → ¬ IsRecoverable w e i s }
{}

/// A history that grows by a change past the evidence goes on to agree with it.
pub fn growth_past_the_evidence_keeps_agreement()
    ensures { (w : World) (h : List Change) (e : Evidence) (c : Change) → Agrees w h e → IsHistory w (h ++ c ∷ []) → IsPast w e c → Agrees w (h ++ c ∷ []) e }
{}

/// A database, its history and evidence that agrees with it meet all that the laws ask for: the block
/// is determined until SCN 3, until SCN 4 it has a gap at 3, and a change at 4 lies past the evidence.
pub fn the_premises_can_be_met()
    ensures world { IsWorld world }
    ensures history { IsHistory world history }
    ensures agrees { Agrees world history evidence }
    ensures told { IsTarget world 1 3 1 0 × Determined world evidence 1 3 1 0 2 (padded (65 ∷ [])) }
    ensures target { IsTarget world 1 4 1 0 }
    ensures gap { HasGap world evidence 1 4 1 0 1 3 }
    ensures first { IsFirstGap world evidence 1 4 1 0 1 3 }
    ensures longer { IsHistory world (history ++ change 2 4 67 ∷ []) }
    ensures past { IsPast world evidence (change 2 4 67) }
{}

/// Where a thread went, no log of it is asked for: the block is determined until SCN 5, though no log of thread 2
/// holds 4.
pub fn a_thread_that_went_needs_no_log()
    ensures history { IsHistory smaller history }
    ensures agrees { Agrees smaller history whole }
    ensures target { IsTarget smaller 1 5 1 0 }
    ensures told { Determined smaller whole 1 5 1 0 3 (padded (66 ∷ [])) }
{}
