//! What a saved site is worth.
ghost use Rattle.std.specs.Prelude.{◌≡◌, None, Some, false};
ghost use Rattle.rm_machine.specs.{Damage.{without_damaged}, Loading.{IsLoaded}, Machine.{IsSoundMachine, Machine}, Marks.{lacks_ids}};
ghost use Rattle.rm_machine.specs.{Rest.{IsSoundRest, Rest}, Saving.{IsSavedAs, rested}, declared.state.State.{State}};

/// What was saved, where each datafile with a damaged block was lost before, is at rest: each part has its artefact, which agrees with the history.
pub fn what_is_saved_rests()
    ensures { (m : Machine) (s : State) (r : Rest) → IsSoundMachine m → m.state ≡ Some s → s.catalog.saved ≡ None → lacks_ids s 0 ≡ false → IsSavedAs m (without_damaged s) r → IsSoundRest r }
{}

/// What is loaded of it is what stood in place then.
pub fn what_is_saved_is_loaded()
    ensures { (m : Machine) (s : State) (r : Rest) → IsSoundMachine m → m.state ≡ Some s → s.catalog.saved ≡ None → lacks_ids s 0 ≡ false → IsSavedAs m (without_damaged s) r → IsLoaded r.objects (rested (without_damaged s)) }
{}
