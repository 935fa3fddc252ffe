//! A session ends: its site is saved.
ghost use Rattle.std.specs.Prelude.{◌≡◌, ◌≤◌, ◌⊎◌, true, false, is_none, None, IsTrue, OnOk, OnErr, IsErrOf};
ghost use Rattle.rm_base.specs.Outside.{Rose};
ghost use Rattle.rm_commit.specs.declared.commit.Stop.TheVariants.{StoreFault, KeeperFault};
ghost use Rattle.rm_machine_laws.specs.Saves.{Saves, StopsSaving};
ghost use Rattle.rm_machine.specs.{Marks.{lacks_ids}, Sound.{IsSound}};
ghost use Rattle.rm_site.specs.{Saved.{EndsOut, PutsSite, SavesAt, StopsSavingAt}, Untouched.{AreSame}};

use crate::site::Site;
use rm_base::{Seq, Store};
use rm_catalog::Keeper;
use rm_commit::{Commit, Stop, carry_out};
use rm_machine::State;
use rm_machine::room::lacks_ids;
use rm_session::put_place;
use std::alloc::Global;
use std::mem;

// Whether a site is to be saved: none is, and the ids of a save are left.
fn can_save(state: &State) -> bool
    requires { IsSound state.now }
    ensures unsaved { IsTrue result → state.now.catalog.saved ≡ None }
    ensures ids { IsTrue result → lacks_ids state.now 0 ≡ false }
    ensures otherwise { result ≡ false → (is_none state.now.catalog.saved ≡ false) ⊎ (lacks_ids state.now 0 ≡ true) }
{
    state.catalog.saved().is_none() && !lacks_ids(state, 0)
}

// Saves what runs.
fn save_state<D: Store, C: Keeper>(
    alloc: Global,
    state: State,
    store: &mut D,
    keeper: &mut C,
) -> Result<(), Stop>
    requires sound { IsSound state }
    requires unsaved { state.catalog.saved ≡ None }
    requires ids { lacks_ids state 0 ≡ false }
    ensures saved { OnOk result (SavesAt (D.held store.old) (C.kept keeper.old) state (D.held store.new) (C.kept keeper.new)) }
    ensures puts { OnOk result (PutsSite (D.held store.old) (C.kept keeper.old) state (D.held store.new) (C.kept keeper.new)) }
    ensures stopped { OnErr result (StopsSavingAt (D.held store.old) (C.kept keeper.old) state (D.held store.new) (C.kept keeper.new)) }
    ensures store { IsErrOf result StoreFault → Rose (D.faults store.old) (D.faults store.new) }
    ensures keeper { IsErrOf result KeeperFault → Rose (C.faults keeper.old) (C.faults keeper.new) }
    ensures none_falls { (D.faults store.old ≤ D.faults store.new) × (C.faults keeper.old ≤ C.faults keeper.new) }
{
    let mut state = state;
    let mut edits = Vec::new(alloc);
    let objects = put_place(alloc, &mut state, &mut edits)?;
    let change = Commit {
        objects,
        edits: Seq::from_vec(edits),
        removes: Seq::new(alloc),
    };
    carry_out(store, keeper, &change)
}

impl Site {
    /// Ends the session. Where it has applied a list, what runs is saved: each datafile of which a block is damaged is lost, each
    /// other one in place and each online log that is not lost is put as an object, and then the records come to tell of them.
    /// Else all stays as it is. The site is spent.
    ///
    /// An error is a stop: a fault of the store or the keeper, which that object counted, or want of memory. It leaves
    /// nothing of the save recorded, or all of it.
    pub fn save<D: Store, C: Keeper>(&mut self, store: &mut D, keeper: &mut C) -> Result<(), Stop>
        requires live { self.old.live ≡ true }
        ensures saved { OnOk result (Saves (D.held store.old) (C.kept keeper.old) self.old (D.held store.new) (C.kept keeper.new)) }
        ensures ends { OnOk result (EndsOut self.old.applied (D.held store.old) (C.kept keeper.old) self.old.state (D.held store.new) (C.kept keeper.new)) }
        ensures stopped { OnErr result (StopsSaving (D.held store.old) (C.kept keeper.old) self.old (D.held store.new) (C.kept keeper.new)) }
        ensures spent { self.new ≡ record { state = None; live = false; applied = self.old.applied } }
        ensures unapplied { self.old.applied ≡ false → AreSame (D.held store.old) (C.kept keeper.old) (D.held store.new) (C.kept keeper.new) }
        ensures store { IsErrOf result StoreFault → Rose (D.faults store.old) (D.faults store.new) }
        ensures keeper { IsErrOf result KeeperFault → Rose (C.faults keeper.old) (C.faults keeper.new) }
        ensures none_falls { (D.faults store.old ≤ D.faults store.new) × (C.faults keeper.old ≤ C.faults keeper.new) }
    {
        self.live = false;
        let Some(state) = mem::replace(&mut self.state, None) else {
            return Ok(());
        };
        if !self.applied {
            return Ok(());
        }
        if !can_save(&state) {
            return Ok(());
        }
        save_state(self.alloc, state, store, keeper)
    }
}
