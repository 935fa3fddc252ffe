//! The site of the source, opened over a shelf.
ghost use Rattle.std.specs.Prelude.{◌≡◌, ◌≤◌, IfErr, IfOk, OnOk, Some};
ghost use Rattle.rm_shelf.specs.Shelved.{AllStay, under};
ghost use Rattle.rm_tool_opening.specs.{Opens.{Opens, Shows}, Opening.{RoseUnopened, WritesUnopened, TellsValid}};

use rm_base::{Sink, Store};
use rm_shelf::{Desk, Noted, Shelf};
use rm_tool_opening::{Site, Unopened, open_site};
use std::alloc::Global;
use std::marker::Brand;

// The same, where it is noted what the shelf tells of the other numbers.
fn open_noted<K: Sink, D: Store, H: Shelf + Drop, B: Noted>(
    alloc: Global,
    sink: &mut K,
    from: &mut D,
    shelf: H,
    number: u32,
) -> (Result<Site, Unopened>, H)
    requires noted { B.noted ≡ Some (number, H.shelved shelf) }
    ensures opens { IfOk result.0 (Opens (D.held from.old) (under number (H.shelved shelf))) }
    ensures shows { IfOk result.0 (Shows (D.held from.old) (under number (H.shelved shelf))) }
    ensures valid { OnOk result.0 (TellsValid (under number (H.shelved shelf))) }
    ensures silent { OnOk result.0 (K.contents sink.new ≡ K.contents sink.old) }
    ensures written { IfErr result.0 (WritesUnopened (under number (H.shelved shelf)) (K.contents sink.old) (K.contents sink.new)) }
    ensures rose { IfErr result.0 (RoseUnopened (K.faults sink.old) (K.faults sink.new) (D.faults from.old) (D.faults from.new) (H.faults shelf) (H.faults result.1)) }
    ensures same { D.held from.new ≡ D.held from.old }
    ensures shelf { AllStay (H.shelved shelf) (H.shelved result.1) }
    ensures none_falls { (K.faults sink.old ≤ K.faults sink.new) × (D.faults from.old ≤ D.faults from.new) × (H.faults shelf ≤ H.faults result.1) }
{
    let mut desk: Desk<H, B> = Desk::new(shelf, number);
    let opened = open_site(alloc, sink, from, &mut desk);
    (opened, desk.close())
}

/// Opens the site of the records of this number, and hands the shelf back, of which all numbers stay. Where these records are not valid, the
/// line of the first that breaks a rule is written; else nothing is.
pub(crate) fn open_source<K: Sink, D: Store, H: Shelf + Drop>(
    alloc: Global,
    sink: &mut K,
    from: &mut D,
    shelf: H,
    number: u32,
) -> (Result<Site, Unopened>, H)
    ensures opens { IfOk result.0 (Opens (D.held from.old) (under number (H.shelved shelf))) }
    ensures shows { IfOk result.0 (Shows (D.held from.old) (under number (H.shelved shelf))) }
    ensures valid { OnOk result.0 (TellsValid (under number (H.shelved shelf))) }
    ensures silent { OnOk result.0 (K.contents sink.new ≡ K.contents sink.old) }
    ensures written { IfErr result.0 (WritesUnopened (under number (H.shelved shelf)) (K.contents sink.old) (K.contents sink.new)) }
    ensures rose { IfErr result.0 (RoseUnopened (K.faults sink.old) (K.faults sink.new) (D.faults from.old) (D.faults from.new) (H.faults shelf) (H.faults result.1)) }
    ensures same { D.held from.new ≡ D.held from.old }
    ensures shelf { AllStay (H.shelved shelf) (H.shelved result.1) }
    ensures none_falls { (K.faults sink.old ≤ K.faults sink.new) × (D.faults from.old ≤ D.faults from.new) × (H.faults shelf ≤ H.faults result.1) }
{
    open_noted::<K, D, H, Brand>(alloc, sink, from, shelf, number)
}
