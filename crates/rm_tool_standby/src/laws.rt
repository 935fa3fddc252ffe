//! What the next call finds of a standby.
ghost use Rattle.std.specs.Prelude.{ℕ, ◌≡◌, ◌⊎◌, List, None, Option, Some, true};
ghost use Rattle.rm_base.specs.Store.{Held};
ghost use Rattle.rm_lang_words.specs.declared.standby.StandbyTask.{StandbyTask};
ghost use Rattle.rm_machine.specs.declared.state.State.{State};
ghost use Rattle.rm_piece.specs.{Sets.{IsSet}, declared.set.Set.{Set}};
ghost use Rattle.rm_report.specs.declared.line.Line.{Line};
ghost use Rattle.rm_standby.specs.Standby.{is_standby};
ghost use Rattle.rm_standby_store.specs.Names.{IsStandby};
ghost use Rattle.rm_tool_standby.specs.{Asked.{Sides}, Done.{ComesTo}, Ended.{Finishes}};
ghost use Rattle.rm_tool_standby.specs.{Kept.{Finds, StoppedIn, TornSpellsNone, found_after, next_number}, Refused.{number_refusal}};

/// What is made and what is rolled is a standby, by which the next call goes on.
pub fn what_is_new_is_a_standby()
    ensures { (a : Sides) (s : State) (task : StandbyTask) (found : Option (ℕ × Set)) (new : Set) (lines : List Line) → ComesTo a s task found (Some new) lines
        → is_standby new ≡ true }
{}

/// After a task that was done the next call finds the new standby, under the next number, or without a new one that of before.
pub fn what_is_done_is_found()
    ensures { (task : StandbyTask) (a b : Sides) (before now : Option (List ℕ)) (x : Finishes task a b before now) → Finds b.to (found_after x.found x.new) }
{}

/// Where a new standby was to take the place of that of before and was stopped, the one of before is found, or the new one. That bytes of a
/// put which was torn spell no other standby is a premise.
pub fn a_stop_leaves_one_standby()
    ensures { (found : Option (ℕ × Set)) (new : Set) (before after : Held) → IsStandby before found → number_refusal found ≡ None → IsSet new
        → is_standby new ≡ true → StoppedIn found new before after → TornSpellsNone found new after
        → IsStandby after found ⊎ IsStandby after (Some (next_number found, new)) }
{}
