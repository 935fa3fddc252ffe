//! What the definitions of the history mean.
ghost use Rattle.std.specs.Prelude.{ℕ, ◌≡◌, ◌≢◌, ◌+◌, ◌<◌, ◌≤◌, ◌↔◌, ◌⊎◌, ◌∷◌, [], ◌++◌, length, List, Contains, Some, false, true};
ghost use Rattle.rm_base.specs.declared.block.{Change.{Change}, Row.{Row}};
ghost use Rattle.rm_history.specs.Threads.{applies, is_enabled};
ghost use Rattle.rm_history.specs.Tree.{HasBranchesWithin, IsThere, IsTree, IsProperAncestor, path, segment_end, standing, owner, parent_of, reset_of, end_of, with_end, with_branch};
ghost use Rattle.rm_history.specs.{World.{exists, with_tree, with_file, with_switch}, History.{IsChange, IsHistory, SameChanges}};
ghost use Rattle.rm_history.specs.{State.{state, concerns, IsState}, Artefacts.{Base, Level1, Log, high_of}};
ghost use Rattle.rm_history.specs.{Agrees.{BaseAgrees, Level1Agrees, LogAgrees, is_of}, declared.tree.Incarnation.{Incarnation}};
ghost use Rattle.rm_history.specs.declared.{tree.Standing.TheVariants.{Current, Parent, Orphan}, world.Datafile.{Datafile}};
ghost use Rattle.rm_history.specs.declared.world.{Switch.{Switch}, World.{World}};

/// No change that concerns a block lies above the version of its state, and one of them made it, or
/// there is none.
pub fn state_is_held()
    ensures { (w : World) (h : List Change) (i s f b : ℕ) → IsState w h i s f (state w h i s f b) }
{}

/// A history makes one state of a block at each address.
pub fn state_is_one()
    ensures { (w : World) (h : List Change) (i s f : ℕ) (r : Row) → IsHistory w h → IsState w h i s f r → r ≡ state w h i s f r.block }
{}

/// The order in which a history lists its changes makes no difference.
pub fn order_changes_no_state()
    ensures { (w : World) (h k : List Change) (i s f b : ℕ) → IsHistory w k → ((c : Change) → Contains h c ↔ Contains k c) → state w h i s f b ≡ state w k i s f b }
{}

/// And so what a copy and an increment say of it.
pub fn order_changes_no_agreement()
    ensures base { (w : World) (h k : List Change) (a : Base) → IsHistory w k → SameChanges h k → BaseAgrees w h a ↔ BaseAgrees w k a }
    ensures level1 { (w : World) (h k : List Change) (a : Level1) → IsHistory w k → SameChanges h k → Level1Agrees w h a ↔ Level1Agrees w k a }
{}

/// A change more makes the state of a block that it concerns where none that does lies above it, and
/// changes no block that it doesn't concern.
pub fn one_change_more()
    ensures other { (w : World) (h : List Change) (c : Change) (i s f b : ℕ) → concerns w i s f b c ≡ false → state w (h ++ c ∷ []) i s f b ≡ state w h i s f b }
    ensures top { (w : World) (h : List Change) (c : Change) (i s f b : ℕ) → IsHistory w (h ++ c ∷ []) → concerns w i s f b c ≡ true → ((d : Change) → Contains h d → concerns w i s f b d ≡ true → d.scn ≤ c.scn) → state w (h ++ c ∷ []) i s f b ≡ record { block = b; version = c.scn; content = c.content } }
{}

/// A copy and an increment go on to agree where the history gains a change that lies at or after
/// their checkpoint, or not on their path.
pub fn growth_keeps_agreement()
    ensures base { (w : World) (h : List Change) (c : Change) (a : Base) → IsHistory w (h ++ c ∷ []) → BaseAgrees w h a → (owner w.tree a.inc c.scn ≡ c.inc → a.checkpoint ≤ c.scn) → BaseAgrees w (h ++ c ∷ []) a }
    ensures level1 { (w : World) (h : List Change) (c : Change) (a : Level1) → IsHistory w (h ++ c ∷ []) → Level1Agrees w h a → (owner w.tree a.inc c.scn ≡ c.inc → a.checkpoint ≤ c.scn) → Level1Agrees w (h ++ c ∷ []) a }
{}

/// A log goes on to agree where the history gains a change that is not of the log.
pub fn growth_keeps_logs()
    ensures { (h : List Change) (c : Change) (a : Log) → LogAgrees h a → is_of a c ≡ false → LogAgrees (h ++ c ∷ []) a }
{}

/// The owner of an SCN is there. It began at or below the SCN, or 1 owns all up to there. Up to the
/// SCN its path has the same owners. From its resetlogs SCN on an incarnation owns its own path.
pub fn owners()
    ensures there { (tree : List Incarnation) (i g : ℕ) → IsTree tree → IsThere tree i → IsThere tree (owner tree i g) }
    ensures begun { (tree : List Incarnation) (i g : ℕ) → IsTree tree → IsThere tree i → (reset_of tree (owner tree i g) ≤ g) ⊎ ((c : ℕ) → c ≤ g → owner tree i c ≡ 1) }
    ensures below { (tree : List Incarnation) (i g c : ℕ) → IsTree tree → IsThere tree i → c ≤ g → owner tree (owner tree i g) c ≡ owner tree i c }
    ensures own { (tree : List Incarnation) (i g : ℕ) → IsTree tree → IsThere tree i → reset_of tree i ≤ g → owner tree i g ≡ i }
{}

/// A standing tells where an incarnation lies to the current path.
pub fn standings()
    ensures current { (tree : List Incarnation) (i current : ℕ) → (standing tree i current ≡ Current) ↔ (i ≡ current) }
    ensures parent { (tree : List Incarnation) (i current : ℕ) → (standing tree i current ≡ Parent) ↔ IsProperAncestor tree i current }
    ensures orphan { (tree : List Incarnation) (i current : ℕ) → (standing tree i current ≡ Orphan) ↔ ((i ≢ current) × (¬ Contains (path tree current) i)) }
{}

/// The segment end of a parent on a path is the resetlogs SCN of its child there.
pub fn segments_end_where_the_child_began()
    ensures { (tree : List Incarnation) (i child : ℕ) → IsTree tree → Contains (path tree i) child → 0 < parent_of tree child → segment_end tree (parent_of tree child) i ≡ Some (reset_of tree child) }
{}

/// What an artefact shows lies below its high SCN, which is its checkpoint or just above a version.
pub fn high_is_the_greatest()
    ensures checkpoint { (checkpoint : ℕ) (rows : List Row) → checkpoint ≤ high_of checkpoint rows }
    ensures versions { (checkpoint : ℕ) (rows : List Row) (r : Row) → Contains rows r → r.version < high_of checkpoint rows }
    ensures held { (checkpoint : ℕ) (rows : List Row) → (high_of checkpoint rows ≡ checkpoint) ⊎ ((r : Row) × Contains rows r × (r.version + 1 ≡ high_of checkpoint rows)) }
{}

/// Another end of an incarnation changes no owner.
pub fn ends_change_no_owner()
    ensures { (tree : List Incarnation) (j end i g : ℕ) → IsThere tree j → owner (with_end tree j end) i g ≡ owner tree i g }
{}

/// Another end of an incarnation changes nothing that a history makes.
pub fn ends_change_no_state()
    ensures tree { (tree : List Incarnation) (j end : ℕ) → IsTree tree → IsThere tree j → IsTree (with_end tree j end) }
    ensures history { (w : World) (j end : ℕ) (h : List Change) → IsThere w.tree j → IsHistory w h → IsHistory (with_tree w (with_end w.tree j end)) h }
    ensures state { (w : World) (j end : ℕ) (h : List Change) (i s f b : ℕ) → IsThere w.tree j → state (with_tree w (with_end w.tree j end)) h i s f b ≡ state w h i s f b }
    ensures exists { (w : World) (j end i s : ℕ) (d : Datafile) → IsThere w.tree j → exists (with_tree w (with_end w.tree j end)) i s d ≡ exists w i s d }
    ensures base { (w : World) (j end : ℕ) (h : List Change) (a : Base) → IsThere w.tree j → BaseAgrees w h a → BaseAgrees (with_tree w (with_end w.tree j end)) h a }
    ensures level1 { (w : World) (j end : ℕ) (h : List Change) (a : Level1) → IsThere w.tree j → Level1Agrees w h a → Level1Agrees (with_tree w (with_end w.tree j end)) h a }
{}

/// A branch leaves a tree, and each incarnation that was there as it was.
pub fn branches_keep_the_tree()
    ensures tree { (tree : List Incarnation) (p at : ℕ) → IsTree tree → length tree < 256 → IsThere tree p → reset_of tree p ≤ at → IsTree (with_branch tree p at) }
    ensures parent { (tree : List Incarnation) (p at i : ℕ) → IsThere tree i → parent_of (with_branch tree p at) i ≡ parent_of tree i }
    ensures reset { (tree : List Incarnation) (p at i : ℕ) → IsThere tree i → reset_of (with_branch tree p at) i ≡ reset_of tree i }
    ensures end { (tree : List Incarnation) (p at i : ℕ) → IsThere tree i → end_of (with_branch tree p at) i ≡ end_of tree i }
    ensures owner { (tree : List Incarnation) (p at i g : ℕ) → IsTree tree → IsThere tree p → IsThere tree i → owner (with_branch tree p at) i g ≡ owner tree i g }
{}

/// The incarnation that branched off owns its path from there on, and below it has its parent's
/// owners.
pub fn a_branch_has_its_parents_owners()
    ensures own { (tree : List Incarnation) (p at g : ℕ) → IsTree tree → IsThere tree p → at ≤ g → owner (with_branch tree p at) (length tree + 1) g ≡ length tree + 1 }
    ensures below { (tree : List Incarnation) (p at g : ℕ) → IsTree tree → IsThere tree p → g < at → owner (with_branch tree p at) (length tree + 1) g ≡ owner tree p g }
{}

/// A branch changes nothing that a history makes on the paths that were there.
pub fn branches_change_no_state()
    ensures change { (w : World) (p at : ℕ) (c : Change) → IsTree w.tree → IsThere w.tree p → IsChange w c → IsChange (with_tree w (with_branch w.tree p at)) c }
    ensures history { (w : World) (p at : ℕ) (h : List Change) → IsTree w.tree → IsThere w.tree p → IsHistory w h → IsHistory (with_tree w (with_branch w.tree p at)) h }
    ensures state { (w : World) (p at : ℕ) (h : List Change) (i s f b : ℕ) → IsTree w.tree → IsThere w.tree p → IsThere w.tree i → state (with_tree w (with_branch w.tree p at)) h i s f b ≡ state w h i s f b }
    ensures exists { (w : World) (p at i s : ℕ) (d : Datafile) → IsTree w.tree → IsThere w.tree p → IsThere w.tree i → exists (with_tree w (with_branch w.tree p at)) i s d ≡ exists w i s d }
    ensures base { (w : World) (p at : ℕ) (h : List Change) (a : Base) → IsTree w.tree → IsThere w.tree p → IsThere w.tree a.inc → BaseAgrees w h a → BaseAgrees (with_tree w (with_branch w.tree p at)) h a }
    ensures level1 { (w : World) (p at : ℕ) (h : List Change) (a : Level1) → IsTree w.tree → IsThere w.tree p → IsThere w.tree a.inc → Level1Agrees w h a → Level1Agrees (with_tree w (with_branch w.tree p at)) h a }
{}

/// Up to where it branched off an incarnation has what its parent has.
pub fn a_branch_has_its_parents_states()
    ensures state { (w : World) (p at : ℕ) (h : List Change) (s f b : ℕ) → IsTree w.tree → IsThere w.tree p → s ≤ at → state (with_tree w (with_branch w.tree p at)) h (length w.tree + 1) s f b ≡ state w h p s f b }
    ensures exists { (w : World) (p at s : ℕ) (d : Datafile) → IsTree w.tree → IsThere w.tree p → s ≤ at → exists (with_tree w (with_branch w.tree p at)) (length w.tree + 1) s d ≡ exists w p s d }
{}

/// A switch of a thread changes nothing that a history makes.
pub fn switches_change_no_state()
    ensures state { (w : World) (x : Switch) (h : List Change) (i s f b : ℕ) → state (with_switch w x) h i s f b ≡ state w h i s f b }
    ensures exists { (w : World) (x : Switch) (i s : ℕ) (d : Datafile) → exists (with_switch w x) i s d ≡ exists w i s d }
    ensures base { (w : World) (x : Switch) (h : List Change) (a : Base) → BaseAgrees w h a → BaseAgrees (with_switch w x) h a }
    ensures level1 { (w : World) (x : Switch) (h : List Change) (a : Level1) → Level1Agrees w h a → Level1Agrees (with_switch w x) h a }
{}

/// A history stays one where a thread is switched at or above the end of the switch's incarnation, if each
/// change lies below the end of its own.
pub fn switches_keep_histories()
    ensures { (w : World) (x : Switch) (h : List Change) → IsTree w.tree → HasBranchesWithin w.tree → end_of w.tree x.inc ≤ x.scn → ((c : Change) → Contains h c → c.scn < end_of w.tree c.inc) → IsHistory w h → IsHistory (with_switch w x) h }
{}

/// Up to an SCN the same threads are enabled on the path of an incarnation and on that of the SCN's owner.
pub fn owners_have_their_threads()
    ensures { (tree : List Incarnation) (threads : ℕ) (xs : List Switch) (i g t : ℕ) → IsTree tree → is_enabled tree threads xs (owner tree i g) g t ≡ is_enabled tree threads xs i g t }
{}

/// A switch enables or disables its own thread from its address on, where none of that thread lies above it on the path, and no
/// other thread.
pub fn a_switch_is_of_its_thread()
    ensures own { (tree : List Incarnation) (threads : ℕ) (xs : List Switch) (x : Switch) (m g : ℕ) → applies tree m g x.thread x ≡ true → ((y : Switch) → Contains xs y → applies tree m g x.thread y ≡ true → y.scn ≤ x.scn) → is_enabled tree threads (xs ++ x ∷ []) m g x.thread ≡ x.on }
    ensures other { (tree : List Incarnation) (threads : ℕ) (xs : List Switch) (x : Switch) (m g t : ℕ) → x.thread ≢ t → is_enabled tree threads (xs ++ x ∷ []) m g t ≡ is_enabled tree threads xs m g t }
    ensures below { (tree : List Incarnation) (threads : ℕ) (xs : List Switch) (x : Switch) (m g t : ℕ) → g < x.scn → is_enabled tree threads (xs ++ x ∷ []) m g t ≡ is_enabled tree threads xs m g t }
{}

/// A datafile more changes nothing that a history makes of the others.
pub fn datafiles_change_no_state()
    ensures history { (w : World) (new : Datafile) (h : List Change) → IsHistory w h → IsHistory (with_file w new) h }
    ensures state { (w : World) (new : Datafile) (h : List Change) (i s f b : ℕ) → f ≤ length w.files → state (with_file w new) h i s f b ≡ state w h i s f b }
    ensures base { (w : World) (new : Datafile) (h : List Change) (a : Base) → a.file ≤ length w.files → BaseAgrees w h a → BaseAgrees (with_file w new) h a }
    ensures level1 { (w : World) (new : Datafile) (h : List Change) (a : Level1) → a.file ≤ length w.files → Level1Agrees w h a → Level1Agrees (with_file w new) h a }
{}
