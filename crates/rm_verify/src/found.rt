//! Lists of what is found.
ghost use Rattle.std.specs.Prelude.{◌≡◌, OnOk};
ghost use Rattle.rm_verify.specs.Told.{with_found};

use rm_base::{NoMemory, Seq};

/// Adds what was found, if anything was. An error is want of memory.
pub fn add<T: Drop>(list: &mut Seq<(u32, T)>, found: Option<(u32, T)>) -> Result<(), NoMemory>
    ensures { OnOk result (list.new ≡ with_found list.old found) }
{
    match found {
        Some(one) => list.push(one),
        None => Ok(()),
    }
}
