//! The standby that a store has.
ghost use Rattle.std.specs.Prelude.{ℕ, ◌≡◌, ◌++◌, ◌∷◌, [], ◌↔◌, ◌≤◌, ◌<◌, List, IfOk, IfSome, IsErrOf, IsTrue, Some};
ghost use Rattle.rm_base.specs.{Outside.{Rose}, declared.store.StoreFail.TheVariants.{Failed}};
ghost use Rattle.rm_piece.specs.Sets.{IsSet};
ghost use Rattle.rm_standby_store.specs.Names.{IsAmong, IsBelow, IsStandby, SpellsSet};

use crate::names::standby_number;
use rm_base::{FormatFault, Store, StoreFail};
use rm_piece::{Set, decode_set};
use rm_standby::is_standby;
use std::alloc::Global;

/// The set that the object of this name spells. None where nothing stands there, or bytes of no valid set. An error is a
/// fault of the store, which is counted, or want of memory.
pub fn set_under<D: Store>(
    alloc: Global,
    store: &mut D,
    name: &str,
) -> Result<Option<Set>, StoreFail>
    ensures found { IfOk result (λ found. IfSome (D.held store.old) (λ held. SpellsSet held name.now found)) }
    ensures valid { IfOk result (λ found. IfSome found IsSet) }
    ensures same { D.held store.new ≡ D.held store.old }
    ensures failed { IsErrOf result Failed → Rose (D.faults store.old) (D.faults store.new) }
    ensures never_falls { D.faults store.old ≤ D.faults store.new }
{
    let Some(bytes) = store.get(name)? else {
        return Ok(None);
    };
    match decode_set(alloc, bytes.as_slice()) {
        Ok(set) => Ok(Some(set)),
        Err(FormatFault::Bad) => Ok(None),
        Err(FormatFault::NoMemory) => Err(StoreFail::NoMemory),
    }
}

// Whether no standby was found, or one of a lower number.
fn is_below(best: &Option<(u32, Set)>, number: u32) -> bool
    ensures { IsTrue result ↔ IsBelow best.now number }
{
    match best {
        Some((greatest, _)) => *greatest < number,
        None => true,
    }
}

// The standby of a name, where its number is above that of the best one so far. Else the best one.
fn better<D: Store>(
    alloc: Global,
    store: &mut D,
    name: &str,
    best: Option<(u32, Set)>,
) -> Result<Option<(u32, Set)>, StoreFail>
    requires valid { IfSome best (λ x. IsSet x.1) }
    ensures among { IfOk result (λ found. IfSome (D.held store.old) (λ held. (names : List (List ℕ)) → IsAmong held names best → IsAmong held (names ++ name.now ∷ []) found)) }
    ensures valid { IfOk result (λ found. IfSome found (λ x. IsSet x.1)) }
    ensures same { D.held store.new ≡ D.held store.old }
    ensures failed { IsErrOf result Failed → Rose (D.faults store.old) (D.faults store.new) }
    ensures never_falls { D.faults store.old ≤ D.faults store.new }
{
    let Some(number) = standby_number(name) else {
        return Ok(best);
    };
    if !is_below(&best, number) {
        return Ok(best);
    }
    let Some(set) = set_under(alloc, store, name)? else {
        return Ok(best);
    };
    if !is_standby(&set) {
        return Ok(best);
    }
    Ok(Some((number, set)))
}

/// The standby of the greatest number that stands in the store, and its number. An object is read only where its number is
/// above that of the best one so far. An error is a fault of the store, which is counted, or want of memory.
pub fn find_standby<D: Store>(alloc: Global, store: &mut D) -> Result<Option<(u32, Set)>, StoreFail>
    ensures found { IfOk result (λ found. IfSome (D.held store.old) (λ held. IsStandby held found)) }
    ensures valid { IfOk result (λ found. IfSome found (λ x. IsSet x.1)) }
    ensures same { D.held store.new ≡ D.held store.old }
    ensures failed { IsErrOf result Failed → Rose (D.faults store.old) (D.faults store.new) }
    ensures never_falls { D.faults store.old ≤ D.faults store.new }
{
    let names = store.names()?;
    let mut best = None;
    for name in names.as_slice() {
        best = better(alloc, store, name.as_str(), best)?;
    }
    Ok(best)
}
