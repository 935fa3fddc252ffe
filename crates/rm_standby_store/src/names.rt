//! The name of a standby in its store, and its number.
ghost use Rattle.std.specs.Prelude.{ℕ, ◌≡◌, ◌↔◌, ◌<◌, ◌++◌, IfOk, IsTrue, Some, codes, slice_index};
ghost use Rattle.rm_standby_store.specs.Names.{standby_name, IsNumbered};

use rm_base::{NoMemory, Text};
use std::alloc::Global;

/// The name of a standby: `standby_` and its number. An error is want of memory.
pub fn standby_name(alloc: Global, number: u32) -> Result<Text, NoMemory>
    ensures { IfOk result (λ name. name ≡ standby_name number) }
{
    Ok(Text::from_string(format!(in alloc; "standby_{number}")?))
}

// Whether the text begins with a byte behind that of 0, as a number without a leading zero or a sign does.
fn begins_above_zero(text: &str) -> bool
    ensures { IsTrue result ↔ (48 < slice_index text.now 0) }
{
    match text.as_bytes().first() {
        Some(byte) => b'0' < *byte,
        None => false,
    }
}

// The number of a standby with these digits in its name, from 1 to 4,294,967,295 and without a leading zero. None of any other text.
fn number_of(digits: &str) -> Option<u32>
    ensures { (k : ℕ) → result ≡ Some k ↔ IsNumbered (codes "standby_" ++ digits.now) k }
{
    if !begins_above_zero(digits) {
        return None;
    }
    digits.parse::<u32>().ok()
}

/// The number of the standby of this name, from 1 to 4,294,967,295. None where it is no such name.
pub fn standby_number(name: &str) -> Option<u32>
    ensures { (k : ℕ) → result ≡ Some k ↔ IsNumbered name.now k }
{
    let digits = name.strip_prefix("standby_")?;
    number_of(digits)
}
