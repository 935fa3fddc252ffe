//! What the frame makes of a statement.
ghost use Rattle.std.specs.Prelude.{ℕ, ◌≡◌, ◌≤◌, false, List, Option};
ghost use Rattle.rm_base.specs.Store.{Held};
ghost use Rattle.rm_catalog.specs.declared.record.Record.{Record};
ghost use Rattle.rm_lang_statement.specs.declared.command.Command.{Command, TheVariants.{CreateDatabase}};
ghost use Rattle.rm_report.specs.declared.line.{Line.{Line}, Reply.{Reply}};
ghost use Rattle.rm_machine.specs.{Effect.{Effect, done}, Laws.{LeadsOn, StaysSound}, Machine.{Machine}, Marks.{lacks_ids}, Rest.{at_rest}};
ghost use Rattle.rm_machine.specs.{Sound.{IsSound}, State.{ledger}, Step.{IsOutcome}, declared.state.State.{State}};
ghost use Rattle.rm_machine_laws.specs.{Carries.{CarriesOn, LeadsOnWithout, StopsWell}, Holds.{Holds, HoldsRest, View}, Loose.{StaysLoose}};
ghost use Rattle.rm_machine_laws.specs.Steps.{DeletesSafely, Steps};

/// Where what is at hand leads the machine on, what a statement hands out and is carried out is a step of the
/// whole machine. And a stop leaves the machine before the statement or the one after it, at rest, where the
/// statement touches no name of a record.
pub fn what_leads_on_is_carried_on()
    ensures carries { (c : Command) → LeadsOn c → StaysSound c → CarriesOn c }
    ensures stops { (c : Command) → LeadsOn c → StaysSound c → StaysLoose c → StopsWell c }
{}

/// CREATE DATABASE, where there is none: a sound machine comes of it.
pub fn a_new_database_leads_on()
    ensures { (dbid threads scn : ℕ) → LeadsOnWithout (CreateDatabase dbid threads scn) }
{}

/// No statement touches a name of a record, but those of HOST that give it.
pub fn names_of_records_stay()
    ensures { (c : Command) → StaysLoose c }
{}

/// So each statement is carried on, and a stop leaves the machine before it or the one after it.
pub fn each_statement_is_carried_on()
    ensures carries { (c : Command) → CarriesOn c }
    ensures stops { (c : Command) → StopsWell c }
{}

/// Whatever the devices hold, and whatever was ever written, each statement leaves a sound state.
pub fn each_statement_keeps_a_state_sound()
    ensures { (c : Command) → StaysSound c }
{}

/// What the store and the keeper hold of a machine they hold of it at rest.
pub fn a_machine_rests()
    ensures { (held : Option Held) (kept : Option (List Record)) (m : Machine) → Holds held kept m → HoldsRest held kept (at_rest m) }
{}

/// What is done leaves the ids of a save: 68 object ids.
pub fn each_statement_leaves_the_ids_of_a_save()
    ensures { (c : Command) (s : State) (held : Held) (lines : List Line) (e : Effect) (t : State) → IsSound s → IsOutcome s held c (done lines e t) → lacks_ids t 0 ≡ false }
{}

/// No id is given twice: what is done leaves the next one as it was, or raises it.
pub fn no_id_is_given_twice()
    ensures { (c : Command) (s : State) (held : Held) (lines : List Line) (e : Effect) (t : State) → IsSound s → IsOutcome s held c (done lines e t) → (ledger s).base.next_id ≤ (ledger t).base.next_id }
{}

/// A step of DELETE OBSOLETE keeps the targets of the window, whatever site stands for the machine.
pub fn a_deletion_by_the_policy_is_safe()
    ensures { (held held' : Option Held) (kept kept' : Option (List Record)) (v v' : View) (c : Command) (clock : ℕ) (reply : Reply) → Steps held kept v c clock reply held' kept' v' → DeletesSafely held kept v c clock reply held' v' }
{}
