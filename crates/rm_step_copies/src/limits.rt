//! Why changed copies can't be put.
ghost use Rattle.std.specs.Prelude.{◌≡◌, ◌≤◌, All, length, sum_by};
ghost use Rattle.rm_machine.specs.{RecoverCopy.{changed, copy_bytes, renewed_refusal}, Sound.{IsSound}};
ghost use Rattle.rm_step_copies.specs.Fit.{IsShort};

use rm_backup::Renewed;
use rm_base::{FileNo, Limit, Refusal};
use rm_machine::State;
use rm_machine::room::{lacks_bytes, lacks_ids};

// The bytes of the copy: 82, and 76 for each row; 0 where it stays.
fn copy_bytes(copy: &(FileNo, Renewed)) -> u64
    requires { IsShort copy.now }
    ensures value { result ≡ copy_bytes copy.now }
    ensures most { result ≤ 4980818 }
{
    match &copy.1.merged {
        Some(last) => 82 + 76 * last.rows.len() as u64,
        None => 0,
    }
}

// The bytes of these copies.
fn bytes_of(copies: &[(FileNo, Renewed)]) -> u64
    requires few { length copies.now ≤ 64 }
    requires short { All IsShort copies.now }
    ensures { result ≡ sum_by copy_bytes copies.now }
{
    let mut bytes = 0;
    for copy in copies {
        bytes += copy_bytes(copy);
    }
    bytes
}

// How many of these copies changed.
fn changed_count(copies: &[(FileNo, Renewed)]) -> u64
    ensures { result ≡ length (changed copies.now) }
{
    copies.iter().filter(|copy| copy.1.merged.is_some()).count() as u64
}

/// Why these copies can't be put, if they can't: no bytes are left for those that changed, or no ids (RM-11).
pub(crate) fn renewed_refusal(state: &State, copies: &[(FileNo, Renewed)]) -> Option<Refusal>
    requires sound { IsSound state.now }
    requires few { length copies.now ≤ 64 }
    requires short { All IsShort copies.now }
    ensures { result ≡ renewed_refusal state.now copies.now }
{
    if lacks_bytes(state, bytes_of(copies)) {
        Some(Refusal::Rm11(Limit::Bytes))
    } else if lacks_ids(state, changed_count(copies)) {
        Some(Refusal::Rm11(Limit::ObjectIds))
    } else {
        None
    }
}
