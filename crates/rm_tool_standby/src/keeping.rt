//! How a new standby takes the place of that of before.
ghost use Rattle.std.specs.{Prelude.{ℕ, ◌≡◌, ◌≤◌, IfOk, IsErrOf, IsSome, None, OnErr, OnOk, Option}, Option.{option_map}};
ghost use Rattle.rm_base.specs.{Outside.{Rose}, Store.{Both}, declared.store.StoreFail.TheVariants.{Failed}};
ghost use Rattle.rm_piece.specs.{Sets.{IsSet}, declared.set.Set.{Set}};
ghost use Rattle.rm_standby_store.specs.Names.{standby_name};
ghost use Rattle.rm_tool_standby.specs.{Ended.{Takes}, Kept.{IsGone, OthersAre, Replaces, Stops}};
ghost use Rattle.rm_tool_standby.specs.Prepared.{IsFit, StopsAt, change_of as the_change, changes as the_changes};
ghost use Rattle.rm_tool_standby.specs.Refused.{number_refusal};

use crate::numbering::next_number;
use rm_base::{NoMemory, Seq, Store, StoreFail, Text};
use rm_commit::Stop;
use rm_piece::{Set, encode_set};
use rm_standby_store::standby_name;
use std::alloc::Global;

/// The new standby, as bytes under its name, and the name of that of before, which goes behind it.
#[derive(Drop)]
pub(crate) struct Change {
    pub name: Text,
    pub bytes: Seq<u8>,
    pub old: Option<Text>,
}

// The name of the standby that was found.
fn old_name(alloc: Global, found: &Option<(u32, Set)>) -> Result<Option<Text>, NoMemory>
    ensures { IfOk result (λ old. old ≡ option_map (λ x. standby_name x.0) found.now) }
{
    match found {
        Some(standby) => Ok(Some(standby_name(alloc, standby.0)?)),
        None => Ok(None),
    }
}

// What is put and what goes where this new standby takes the place of the one that was found.
fn change_of(alloc: Global, found: &Option<(u32, Set)>, new: &Set) -> Result<Change, NoMemory>
    requires left { number_refusal found.now ≡ None }
    requires valid { IsSet new.now }
    ensures { IfOk result (λ change. change ≡ the_change found.now new.now) }
{
    Ok(Change {
        name: standby_name(alloc, next_number(found))?,
        bytes: encode_set(alloc, new)?,
        old: old_name(alloc, found)?,
    })
}

/// What is put and what goes where a new standby takes the place of the one that was found; nothing without a new one.
pub(crate) fn changes(
    alloc: Global,
    found: &Option<(u32, Set)>,
    new: &Option<Set>,
) -> Result<Option<Change>, NoMemory>
    requires fit { IsFit found.now new.now }
    ensures { IfOk result (λ change. change ≡ the_changes found.now new.now) }
{
    match new {
        Some(new) => Ok(Some(change_of(alloc, found, new)?)),
        None => Ok(None),
    }
}

// Takes away what stands under this name, where there is one.
fn remove_old<E: Store>(to: &mut E, old: &Option<Text>) -> Result<(), StoreFail>
    ensures gone { OnOk result (Both (IsGone old.now) (E.held to.old) (E.held to.new)) }
    ensures others { Both (OthersAre old.now) (E.held to.old) (E.held to.new) }
    ensures some { OnErr result (IsSome old.now) }
    ensures failed { IsErrOf result Failed → Rose (E.faults to.old) (E.faults to.new) }
    ensures never_falls { E.faults to.old ≤ E.faults to.new }
{
    match old {
        Some(name) => to.remove(name.as_str()),
        None => Ok(()),
    }
}

// The new standby is put, and then that of before goes.
fn replace<E: Store>(to: &mut E, change: &Change) -> Result<(), Stop>
    ensures replaced { (found : Option (ℕ × Set)) (new : Set) → number_refusal found ≡ None → change.now ≡ the_change found new
        → OnOk result (Replaces found new (E.held to.old) (E.held to.new)) }
    ensures stopped { (found : Option (ℕ × Set)) (new : Set) → number_refusal found ≡ None → change.now ≡ the_change found new
        → OnErr result (Stops found new (E.held to.old) (E.held to.new)) }
    ensures store { IsErrOf result Stop.StoreFault → Rose (E.faults to.old) (E.faults to.new) }
    ensures keeper { ¬ IsErrOf result Stop.KeeperFault }
    ensures never_falls { E.faults to.old ≤ E.faults to.new }
{
    to.put(change.name.as_str(), change.bytes.as_slice())?;
    remove_old(to, &change.old)?;
    Ok(())
}

/// The new standby takes the place of that of before, where there is a new one. An error is a fault of the store, which is counted, or want
/// of memory; then what was put, or what was to go, may have any bytes.
pub(crate) fn carry<E: Store>(to: &mut E, change: &Option<Change>) -> Result<(), Stop>
    ensures takes { (found : Option (ℕ × Set)) (new : Option Set) → IsFit found new → change.now ≡ the_changes found new
        → OnOk result (Takes found new (E.held to.old) (E.held to.new)) }
    ensures stopped { (found : Option (ℕ × Set)) (new : Option Set) → IsFit found new → change.now ≡ the_changes found new
        → OnErr result (StopsAt found new (E.held to.old) (E.held to.new)) }
    ensures store { IsErrOf result Stop.StoreFault → Rose (E.faults to.old) (E.faults to.new) }
    ensures keeper { ¬ IsErrOf result Stop.KeeperFault }
    ensures never_falls { E.faults to.old ≤ E.faults to.new }
{
    match change {
        Some(change) => replace(to, change),
        None => Ok(()),
    }
}
