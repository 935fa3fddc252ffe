//! The site: a database or none, which is stepped over a store and a keeper.
ghost use Rattle.std.specs.{Prelude.{◌≡◌, ◌+◌, IfSome, is_some, length}, Option.{option_copied}};
ghost use Rattle.rm_machine.specs.{Sound.{IsSound}, State.{ledger}};
ghost use Rattle.rm_site.specs.Shown.{next_scn, objects_in};

use rm_base::Scn;
use rm_machine::State;
use rm_machine::facts::now;
use std::alloc::Global;
use std::marker::Model;

/// The live site: a database or none, over a store of objects and a keeper of records.
#[derive(Drop)]
pub struct Site {
    pub(crate) alloc: Global,
    pub(crate) state: Option<State>,
    pub(crate) live: bool,
    pub(crate) applied: bool,
}

impl Model for Site {
    ghost use Rattle.std.specs.Prelude.{IfSome};
    ghost use Rattle.rm_machine.specs.Sound.{IsSound};
    ghost use Rattle.rm_machine_laws.specs.Holds.{View};

    ghost Value = { View };

    ghost view = { λ s. record { state = s.state; live = s.live; applied = s.applied } };

    ghost invariant = { λ s. IfSome s.state IsSound };
}

impl Site {
    /// Whether a statement can be stepped: none was stopped, and the site was not saved.
    pub fn live(&self) -> bool
        ensures { result ≡ self.now.live }
    {
        self.live
    }

    /// Whether there is a database.
    pub fn has_database(&self) -> bool
        ensures { result ≡ is_some self.now.state }
    {
        self.state.is_some()
    }

    /// The database as it is at hand; none without a database.
    pub fn state(&self) -> Option<&State>
        ensures is { option_copied result ≡ self.now.state }
        ensures sound { IfSome self.now.state IsSound }
    {
        self.state.as_ref()
    }

    /// The SCN that the next change takes; 0 without a database.
    pub fn next_scn(&self) -> Scn
        ensures { result ≡ next_scn self.now.state }
    {
        match &self.state {
            Some(state) => now(state),
            None => 0,
        }
    }

    /// How many logs and pieces are recorded; 0 without a database.
    pub fn objects(&self) -> u64
        ensures { result ≡ objects_in self.now.state }
    {
        match &self.state {
            Some(state) => object_count(state),
            None => 0,
        }
    }
}

// How many logs and pieces are recorded.
fn object_count(state: &State) -> u64
    ensures { result ≡ length (ledger state.now).logs + length (ledger state.now).pieces }
{
    state.catalog.logs().len() as u64 + state.catalog.pieces().len() as u64
}
