//! What is loaded, and what a machine that wakes is.
ghost use Rattle.std.specs.Prelude.{◌≡◌, IfSome};
ghost use Rattle.rm_base.specs.Store.{Held};
ghost use Rattle.rm_machine.specs.{Loading.{IsLoaded}, Machine.{IsSoundMachine, Machine}, Rest.{IsSoundRest, PartsTell, Rest, Wakes}};
ghost use Rattle.rm_machine.specs.{Sound.{IsSound}, declared.state.State.{State}};

/// Where digests tell of its parts, a machine that wakes is sound: what is loaded fits the history.
pub fn what_is_loaded_fits_the_history()
    ensures { (r : Rest) (m : Machine) → IsSoundRest r → PartsTell r → Wakes r m → IfSome m.state IsSound → IsSoundMachine m }
{}

/// A site is loaded in one way.
pub fn a_site_is_loaded_in_one_way()
    ensures { (held : Held) (s t : State) → t.catalog ≡ s.catalog → IsLoaded held s → IsLoaded held t → t.instance ≡ s.instance }
{}
