//! The site is opened, or the line of a record is written.
ghost use Rattle.std.specs.Prelude.{◌≡◌, ◌≤◌, true, false, IfErr, IfOk, OnOk};
ghost use Rattle.rm_site.specs.Opens.{Opens, Shows};
ghost use Rattle.rm_tool_opening.specs.Opening.{RoseUnopened, TellsValid, WritesUnopened, bad_record};

use rm_base::{Failed, NoMemory, Sink, Store, Text};
use rm_catalog::{Keeper, Key};
use rm_site::{OpenFault, Site};
use rm_tool_ends::{Ended, write_all};
use std::alloc::Global;

/// Why no site was opened.
#[derive(Clone, Copy, PartialEq, Eq)]
pub enum Unopened {
    /// A record of the keeper breaks a rule, and the line of the first was written.
    BadRecord,
    /// The sink failed in that line.
    Sink,
    /// The store failed, and counted it.
    Store,
    /// The keeper failed, and counted it.
    Keeper,
    NoMemory,
}

impl From<NoMemory> for Unopened {
    ghost use Rattle.rm_tool_opening.specs.declared.opening.Unopened.TheVariants.{NoMemory as WithoutMemory};

    ghost from_gives = { λ _ e. e ≡ WithoutMemory };

    fn from(_: NoMemory) -> Self {
        Unopened::NoMemory
    }
}

impl From<Failed> for Unopened {
    ghost use Rattle.rm_tool_opening.specs.declared.opening.Unopened.TheVariants.{Sink as OfSink};

    ghost from_gives = { λ _ e. e ≡ OfSink };

    fn from(_: Failed) -> Self {
        Unopened::Sink
    }
}

impl From<Unopened> for Ended {
    ghost use Rattle.rm_tool_opening.specs.Opening.{of_unopened};

    ghost from_gives = { λ unopened e. e ≡ of_unopened unopened };

    fn from(unopened: Unopened) -> Self {
        match unopened {
            Unopened::BadRecord => Ended::BadRecord,
            Unopened::Sink => Ended::Sink,
            Unopened::Store => Ended::Store,
            Unopened::Keeper => Ended::Keeper,
            Unopened::NoMemory => Ended::NoMemory,
        }
    }
}

// The line of status 9.
fn bad_record(alloc: Global, key: Key) -> Result<Text, NoMemory>
    ensures { IfOk result (λ line. line ≡ bad_record key) }
{
    let Key { kind, id } = key;
    Ok(Text::from_string(format!(in alloc; "rman: bad record {kind} {id}\n")?))
}

/// Opens the site over the store and the keeper. Where the keeper's records are not valid, the line of the first that
/// breaks a rule is written, by kind and then by id; else nothing is.
pub fn open_site<K: Sink, D: Store, C: Keeper>(
    alloc: Global,
    sink: &mut K,
    store: &mut D,
    keeper: &mut C,
) -> Result<Site, Unopened>
    ensures opened { IfOk result (Opens (D.held store.old) (C.kept keeper.old)) }
    ensures shows { IfOk result (Shows (D.held store.old) (C.kept keeper.old)) }
    ensures live { IfOk result (λ site. site.live ≡ true) }
    ensures applied { IfOk result (λ site. site.applied ≡ false) }
    ensures valid { IfOk result (λ _. TellsValid (C.kept keeper.old)) }
    ensures held { D.held store.new ≡ D.held store.old }
    ensures kept { C.kept keeper.new ≡ C.kept keeper.old }

    // What was written, and whose count rose. The store fails only where the keeper's records are valid.
    ensures ok { OnOk result (K.contents sink.new ≡ K.contents sink.old) }
    ensures written { IfErr result (WritesUnopened (C.kept keeper.old) (K.contents sink.old) (K.contents sink.new)) }
    ensures rose { IfErr result (RoseUnopened (K.faults sink.old) (K.faults sink.new) (D.faults store.old) (D.faults store.new) (C.faults keeper.old) (C.faults keeper.new)) }
    ensures none_falls { (K.faults sink.old ≤ K.faults sink.new) × (D.faults store.old ≤ D.faults store.new) × (C.faults keeper.old ≤ C.faults keeper.new) }
{
    match Site::open(alloc, store, keeper) {
        Ok(site) => Ok(site),
        Err(OpenFault::StoreFault) => Err(Unopened::Store),
        Err(OpenFault::KeeperFault) => Err(Unopened::Keeper),
        Err(OpenFault::NoMemory) => Err(Unopened::NoMemory),
        Err(OpenFault::BadRow(kind, id)) => {
            let line = bad_record(alloc, Key { kind, id })?;
            write_all(sink, line.as_bytes())?;
            Err(Unopened::BadRecord)
        }
    }
}
