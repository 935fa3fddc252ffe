//! What a statement does outside: new objects, then one list of edits, then objects that go.
ghost use Rattle.std.specs.Prelude.{◌≡◌, ◌≤◌, IsErrOf, OnOk, OnErr};
ghost use Rattle.rm_base.specs.{Outside.{Rose}, Store.{Both}, declared.store.StoreFail.TheVariants.{Failed}};
ghost use Rattle.rm_commit.specs.Names.{HasPuts, SameBeyondPuts, HasRemoves, SameBeyondRemoves};
ghost use Rattle.rm_commit.specs.Carrying.{Carried, Halted, HaltedBefore, PutsFront};
ghost use Rattle.rm_commit.specs.declared.commit.Stop.TheVariants.{StoreFault, KeeperFault};

use rm_base::{NoMemory, Seq, Store, StoreFail, Text};
use rm_catalog::{Edit, Keeper, KeeperFail};

/// Why a statement was stopped, without a reply.
#[derive(Clone, Copy, PartialEq, Eq)]
pub enum Stop {
    /// The store failed, and counted it.
    StoreFault,
    /// The keeper failed, and counted it.
    KeeperFault,
    NoMemory,
}

impl From<StoreFail> for Stop {
    ghost use Rattle.rm_commit.specs.Faults.{stop_of_store};

    ghost from_gives = { λ e s. s ≡ stop_of_store e };

    fn from(fail: StoreFail) -> Self {
        match fail {
            StoreFail::Failed => Stop::StoreFault,
            StoreFail::NoMemory => Stop::NoMemory,
        }
    }
}

impl From<KeeperFail> for Stop {
    ghost use Rattle.rm_commit.specs.Faults.{stop_of_keeper};

    ghost from_gives = { λ e s. s ≡ stop_of_keeper e };

    fn from(fail: KeeperFail) -> Self {
        match fail {
            KeeperFail::Failed => Stop::KeeperFault,
            KeeperFail::NoMemory => Stop::NoMemory,
        }
    }
}

impl From<NoMemory> for Stop {
    ghost use Rattle.rm_commit.specs.declared.commit.Stop.TheVariants.{NoMemory as WithoutMemory};

    ghost from_gives = { λ _ e. e ≡ WithoutMemory };

    fn from(_: NoMemory) -> Self {
        Stop::NoMemory
    }
}

/// An object: its name and its bytes.
#[derive(Drop)]
pub struct Object {
    pub name: Text,
    pub bytes: Seq<u8>,
}

/// What one statement changes outside.
#[derive(Drop)]
pub struct Commit {
    /// New objects; a later one of a name replaces an earlier one.
    pub objects: Seq<Object>,
    /// The edits of the records, made all or not at all.
    pub edits: Seq<Edit>,
    /// The names of objects that no record names any longer.
    pub removes: Seq<Text>,
}

// Puts each object under its name.
fn put_all<D: Store>(store: &mut D, objects: &[Object]) -> Result<(), StoreFail>
    ensures puts { OnOk result (Both (HasPuts objects.now) (D.held store.old) (D.held store.new)) }
    ensures others { Both (SameBeyondPuts objects.now) (D.held store.old) (D.held store.new) }
    ensures front { OnErr result (Both (PutsFront objects.now) (D.held store.old) (D.held store.new)) }
    ensures failed { IsErrOf result Failed → Rose (D.faults store.old) (D.faults store.new) }
    ensures never_falls { D.faults store.old ≤ D.faults store.new }
{
    for object in objects {
        store.put(object.name.as_str(), object.bytes.as_slice())?;
    }
    Ok(())
}

// Takes away what stands under each name.
fn remove_all<D: Store>(store: &mut D, names: &[Text]) -> Result<(), StoreFail>
    ensures removes { OnOk result (Both (HasRemoves names.now) (D.held store.old) (D.held store.new)) }
    ensures others { Both (SameBeyondRemoves names.now) (D.held store.old) (D.held store.new) }
    ensures failed { IsErrOf result Failed → Rose (D.faults store.old) (D.faults store.new) }
    ensures never_falls { D.faults store.old ≤ D.faults store.new }
{
    for name in names {
        store.remove(name.as_str())?;
    }
    Ok(())
}

/// Carries a change out: puts the objects, makes the edits, and removes what is to go, in this order.
/// An error is a stop: the records are, whole, those before it or those after it, and after it each new
/// object was wholly put. Before it each of them was, but one whose put failed and those behind it. Where the
/// keeper failed nothing was removed.
pub fn carry_out<D: Store, C: Keeper>(
    store: &mut D,
    keeper: &mut C,
    change: &Commit,
) -> Result<(), Stop>
    ensures carried { OnOk result (Carried change.now (D.held store.old) (C.kept keeper.old) (D.held store.new) (C.kept keeper.new)) }
    ensures stopped { OnErr result (Halted change.now (D.held store.old) (C.kept keeper.old) (D.held store.new) (C.kept keeper.new)) }
    ensures before { IsErrOf result KeeperFault → HaltedBefore change.now (D.held store.old) (C.kept keeper.old) (D.held store.new) (C.kept keeper.new) }
    ensures store { IsErrOf result StoreFault → Rose (D.faults store.old) (D.faults store.new) }
    ensures keeper { IsErrOf result KeeperFault → Rose (C.faults keeper.old) (C.faults keeper.new) }
    ensures none_falls { (D.faults store.old ≤ D.faults store.new) × (C.faults keeper.old ≤ C.faults keeper.new) }
{
    put_all(store, change.objects.as_slice())?;
    keeper.apply(change.edits.as_slice())?;
    remove_all(store, change.removes.as_slice())?;
    Ok(())
}
