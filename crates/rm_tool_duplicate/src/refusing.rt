//! Why a duplicate is refused before the source's backups are read.
ghost use Rattle.std.specs.Prelude.{◌≡◌, ◌≤◌, ◌<◌, IfOk, IsErrOf};
ghost use Rattle.rm_base.specs.Outside.{Rose};
ghost use Rattle.rm_catalog.specs.{Rules.{HasDatabase}, Trees.{nodes}, declared.keeper.KeeperFail.TheVariants.{Failed}};
ghost use Rattle.rm_evidence.specs.Database.{world_of};
ghost use Rattle.rm_history.specs.Tree.{IsThere};
ghost use Rattle.rm_machine.specs.Sound.{IsSound};
ghost use Rattle.rm_lang_words.specs.Reading.{duplicate_of};
ghost use Rattle.rm_shelf.specs.Shelved.{AllStay, under};
ghost use Rattle.rm_tool_duplicate.specs.Refused.{HasRecords, IsNameReason, IsNumberReason, is_among, first_taken as the_first_taken};

use rm_apply::datafiles_at;
use rm_base::{IncNo, NoMemory, Refusal, Scn, Store, Text};
use rm_catalog::{Catalog, KeeperFail};
use rm_commit::Stop;
use rm_evidence::piece_name;
use rm_lang_statement::Until;
use rm_lang_words::DuplicateWords;
use rm_machine::State;
use rm_shelf::Shelf;
use rm_step_recover::test_refusal;
use std::alloc::Global;

// Whether the number has records.
fn has_records<H: Shelf>(shelf: &mut H, number: u32) -> Result<bool, KeeperFail>
    ensures told { IfOk result (HasRecords (under number (H.shelved shelf.old))) }
    ensures same { AllStay (H.shelved shelf.old) (H.shelved shelf.new) }
    ensures failed { IsErrOf result Failed → Rose (H.faults shelf.old) (H.faults shelf.new) }
    ensures never_falls { H.faults shelf.old ≤ H.faults shelf.new }
{
    let records = shelf.load_of(number)?;
    Ok(!records.is_empty())
}

/// Why a duplicate of this source is refused by its numbers: a database stands under its own (RM-03), or its target is out of range (RM-06),
/// or that of an incarnation that is not there (RM-07).
pub(crate) fn number_refusal<H: Shelf>(
    said: &DuplicateWords,
    state: &State,
    shelf: &mut H,
) -> Result<Option<Refusal>, KeeperFail>
    requires sound { IsSound state.now }
    ensures reason { IfOk result (IsNumberReason (duplicate_of said.now) (under said.now.number (H.shelved shelf.old)) state.now) }
    ensures same { AllStay (H.shelved shelf.old) (H.shelved shelf.new) }
    ensures failed { IsErrOf result Failed → Rose (H.faults shelf.old) (H.faults shelf.new) }
    ensures never_falls { H.faults shelf.old ≤ H.faults shelf.new }
{
    if has_records(shelf, said.number)? {
        return Ok(Some(Refusal::Rm03));
    }
    let until = Some(Until::Scn(said.until));
    Ok(test_refusal(state, &until, said.incarnation))
}

// Whether the name is one of these.
fn is_among(names: &[Text], name: &str) -> bool
    ensures { result ≡ is_among names.now name.now }
{
    names.iter().any(|taken| name == taken.as_str())
}

// Of the copies of n datafiles, numbered from 1 on, the first whose name is one of these.
fn first_taken(alloc: Global, names: &[Text], n: u32) -> Result<Option<Text>, NoMemory>
    requires few { n ≤ 64 }
    ensures { IfOk result (λ o. o ≡ the_first_taken (is_among names.now) 1 n) }
{
    for number in 1..n + 1 {
        let name = piece_name(alloc, true, number)?;
        if is_among(names, name.as_str()) {
            return Ok(Some(name));
        }
    }
    Ok(None)
}

/// Why a duplicate of the datafiles that exist at (i, s) is refused by its copies: the store has the name of one (RM-13).
pub(crate) fn name_refusal<E: Store>(
    alloc: Global,
    records: &Catalog,
    i: IncNo,
    s: Scn,
    to: &mut E,
) -> Result<Option<Refusal>, Stop>
    requires database { HasDatabase records.now }
    requires there { IsThere (nodes records.now) i }
    ensures reason { IfOk result (IsNameReason (world_of records.now) i s (E.held to.old)) }
    ensures same { E.held to.new ≡ E.held to.old }
    ensures store { IsErrOf result Stop.StoreFault → Rose (E.faults to.old) (E.faults to.new) }
    ensures shelf { ¬ IsErrOf result Stop.KeeperFault }
    ensures never_falls { E.faults to.old ≤ E.faults to.new }
{
    // They are a catalog's, so there are at most 64 datafiles.
    let _ = records.records();
    let files = datafiles_at(alloc, records, i, s, None)?;
    let names = to.names()?;
    let taken = first_taken(alloc, names.as_slice(), files.len() as u32)?;
    match taken {
        Some(name) => Ok(Some(Refusal::Rm13 { name })),
        None => Ok(None),
    }
}
