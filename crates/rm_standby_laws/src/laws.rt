//! What a set holds of a machine.
ghost use Rattle.std.specs.Prelude.{ℕ, ◌≡◌, All, Bool, Contains, List, None, Some, false};
ghost use Rattle.rm_base.specs.declared.block.{Change.{Change}, Row.{Row}};
ghost use Rattle.rm_blocks.specs.File.{File};
ghost use Rattle.rm_history.specs.History.{IsHistory};
ghost use Rattle.rm_piece.specs.{Rows.{from_on}, Sets.{IsSet}, declared.set.Set.{Set}};
ghost use Rattle.rm_standby.specs.{Image.{imaged}, Rolling.{Meets, rolled}, Standby.{HoldsStates}};
ghost use Rattle.rm_evidence.specs.Names.{roll_name};
ghost use Rattle.rm_lang_statement.specs.declared.command.{Command.{Command, TheVariants.{BackupFrom}}, Until.TheVariants.{Scn}};
ghost use Rattle.rm_report.specs.declared.line.Reply.{Reply};
ghost use Rattle.rm_machine.specs.{Laws.{IsMomentOf}, Machine.{IsSoundMachine, Machine}, RecoverTest.{test_refusal}, Rest.{Rest, Wakes}};
ghost use Rattle.rm_machine.specs.{Roll.{increment}, Sound.{IsSound}, State.{at_moment, current_of, ledger, tree, world}};
ghost use Rattle.rm_machine.specs.{Step.{Step, names_in}, declared.state.State.{State}};
ghost use Rattle.rm_machine_laws.specs.{Moments.{IsMomentIn}, Saves.{IsEnded}, Stopped.{IsLeft, Stopped}};
ghost use Rattle.rm_standby_laws.specs.{Lasting.{HoldsIn, IsHeld, RestsHeld, StaysHeld, StopsHeld}, Standing.{RestsIn, StandsIn}};

/// What a set holds of the states at its address, all of them or those of a version at or above an SCN, it holds after each statement
/// too, where the world is honest.
pub fn what_a_set_holds_stays()
    ensures states { StaysHeld (λ rows. rows) }
    ensures since { (from : ℕ) → StaysHeld (from_on from) }
{}

/// A stop in the middle of a statement leaves what a set holds, likewise.
pub fn a_stop_leaves_what_a_set_holds()
    ensures states { StopsHeld (λ rows. rows) }
    ensures since { (from : ℕ) → StopsHeld (from_on from) }
{}

/// From one session to the next: the end of the one, also where its save is stopped, and the beginning of the other leave what a set holds.
pub fn what_a_set_holds_rests()
    ensures ends { (m : Machine) (r : Rest) (applied : Bool) (pick : List Row → List Row) (a : Set)
        → IsEnded applied m r → IsHeld m pick a → RestsHeld r pick a }
    ensures left { (m : Machine) (r : Rest) (given : List (List ℕ)) (pick : List Row → List Row) (a : Set)
        → IsLeft given m r → IsHeld m pick a → RestsHeld r pick a }
    ensures wakes { (m : Machine) (r : Rest) (pick : List Row → List Row) (a : Set) → Wakes r m → RestsHeld r pick a → IsHeld m pick a }
{}

/// The increment of a BACKUP INCREMENTAL FROM SCN that was not refused holds the states at or above the SCN of the machine of which it was
/// taken: so they are held from then on. Each member begins at that SCN.
pub fn an_increment_is_held()
    ensures begins { (s : State) (scn : ℕ) → All (λ m. m.piece.from ≡ scn) (increment s scn).members }
    ensures holds { (m n : Machine) (s : State) (scn moment : ℕ) (reply : Reply) → m.state ≡ Some s → IsSoundMachine m → IsMomentOf s moment
        → Step m (BackupFrom scn) moment reply n → reply.refused ≡ false → IsHeld m (from_on scn) (increment (at_moment s moment) scn) }
{}

/// The increment of a BACKUP INCREMENTAL FROM SCN that was not refused stands under the name of the id that it drew.
pub fn an_increment_is_put()
    ensures { (m n : Machine) (s : State) (scn moment : ℕ) (reply : Reply) → m.state ≡ Some s → Step m (BackupFrom scn) moment reply n
        → reply.refused ≡ false → StandsIn n (ledger s).base.next_id (increment (at_moment s moment) scn) }
{}

/// There it stands after each statement, also where one is stopped, and from one session to the next, as long as HOST does not give its name.
pub fn an_increment_stands()
    ensures stays { (m n : Machine) (c : Command) (moment : ℕ) (reply : Reply) (id : ℕ) (a : Set) → IsSoundMachine m → IsMomentIn m.state moment
        → Step m c moment reply n → ¬ Contains (names_in c) (roll_name id) → StandsIn m id a → StandsIn n id a }
    ensures stops { (m : Machine) (r : Rest) (c : Command) (moment : ℕ) (id : ℕ) (a : Set) → IsSoundMachine m → IsMomentIn m.state moment
        → Stopped m c moment r → ¬ Contains (names_in c) (roll_name id) → StandsIn m id a → RestsIn r id a }
    ensures ends { (m : Machine) (r : Rest) (applied : Bool) (id : ℕ) (a : Set) → IsEnded applied m r → StandsIn m id a → RestsIn r id a }
    ensures left { (m : Machine) (r : Rest) (given : List (List ℕ)) (id : ℕ) (a : Set)
        → IsLeft given m r → ¬ Contains given (roll_name id) → StandsIn m id a → RestsIn r id a }
    ensures wakes { (m : Machine) (r : Rest) (id : ℕ) (a : Set) → Wakes r m → RestsIn r id a → StandsIn m id a }
{}

/// A standby that is made until an SCN, to which a RECOVER TEST is not refused, holds all states there from then on.
pub fn a_made_standby_is_held()
    ensures { (s : State) (h : List Change) (until : ℕ) (files : List File) (new : Set) → IsSound s → test_refusal s (Some (Scn until)) None ≡ None
        → new ≡ imaged (world s) (ledger s).base.dbid (current_of s) until files → IsSet new → HoldsStates (world s) h new
        → HoldsIn (world s) h (λ rows. rows) new }
{}

/// A standby that is rolled by an increment which meets it holds all states at the increment's address, where the standby held those at
/// its own, and the increment those at or above the SCN at which it begins: each of one history, at whatever time it was made.
pub fn a_rolled_standby_is_held()
    ensures { (s : State) (h : List Change) (from : ℕ) (standby increment : Set) → IsSound s → IsHistory (world s) h
        → Meets (tree s) standby increment → IsSet (rolled standby increment) → All (λ m. m.piece.from ≡ from) increment.members
        → HoldsIn (world s) h (λ rows. rows) standby → HoldsIn (world s) h (from_on from) increment
        → HoldsIn (world s) h (λ rows. rows) (rolled standby increment) }
{}
