//! What the name of an object tells.
ghost use Rattle.std.specs.Prelude.{◌≡◌, ℕ, IfNone, IfOk, IfSome, ◌≤◌, ◌<◌, Some};
ghost use Rattle.rm_machine.specs.CatalogName.{IsNamed};
ghost use Rattle.rm_step_upkeep.specs.Catalogued.{IsOf, id_in};

use rm_base::NoMemory;
use rm_evidence::{log_name, piece_name};
use std::alloc::Global;

/// What a name is of: a log, or a piece or else an image copy, and its id.
#[derive(Clone, Copy)]
pub(crate) enum Named {
    Log(u32),
    Piece { copy: bool, id: u32 },
}

impl Named {
    /// Its id.
    pub(crate) fn id(self) -> u32
        ensures { result ≡ id_in self }
    {
        match self {
            Named::Log(id) => id,
            Named::Piece { id, .. } => id,
        }
    }
}

// The number behind the first `_`.
fn number_in(name: &str) -> Option<u32>
    ensures { (id : ℕ) → IsNamed name.now id → result ≡ Some id }
{
    let Some((_, digits)) = name.split_once('_') else {
        return None;
    };
    digits.parse::<u32>().ok()
}

// What a name of this id is of, if it is of anything.
fn named_by(alloc: Global, name: &str, id: u32) -> Result<Option<Named>, NoMemory>
    requires some { 1 ≤ id }
    requires last { id < 4294967295 }
    ensures some { IfOk result (λ o. IfSome o (IsOf name.now)) }
    ensures none { IfOk result (λ o. IfNone o (¬ IsNamed name.now id)) }
{
    if log_name(alloc, id)?.as_str() == name {
        return Ok(Some(Named::Log(id)));
    }
    if piece_name(alloc, false, id)?.as_str() == name {
        return Ok(Some(Named::Piece { copy: false, id }));
    }
    if piece_name(alloc, true, id)?.as_str() == name {
        return Ok(Some(Named::Piece { copy: true, id }));
    }
    Ok(None)
}

/// What a name is of: the name of a log, a piece or an image copy with an id from 1 to 4,294,967,294. None for any other name.
pub(crate) fn read_name(alloc: Global, name: &str) -> Result<Option<Named>, NoMemory>
    ensures some { IfOk result (λ o. IfSome o (IsOf name.now)) }
    ensures none { IfOk result (λ o. IfNone o ((id : ℕ) → ¬ IsNamed name.now id)) }
{
    match number_in(name) {
        Some(id) if 1 <= id && id < u32::MAX => named_by(alloc, name, id),
        _ => Ok(None),
    }
}
