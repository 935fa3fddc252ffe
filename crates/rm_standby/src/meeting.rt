//! Whether an increment meets a standby.
ghost use Rattle.std.specs.{Prelude.{◌≡◌, ◌≢◌, ◌↔◌, ◌≤◌, IsTrue, IsSomeAnd, IfNone, All, length, slice_get}, Option.{option_copied}};
ghost use Rattle.rm_base.specs.declared.kinds.Kind.TheVariants.{Level1};
ghost use Rattle.rm_standby.specs.{Standby.{has_all, is_standby}, Rolling.{member_at, BeginsBy, IsSameFile, Meets}};

use rm_base::Kind;
use rm_history::Tree;
use rm_piece::{Set, SetFile};

/// The member of a datafile. None where there is none.
pub(crate) fn member_at(members: &[SetFile], file: u32) -> Option<&SetFile>
    ensures { option_copied result ≡ member_at members.now file }
{
    members.iter().find(|member| member.piece.file == file)
}

fn has_all(member: &SetFile) -> bool
    ensures { result ≡ has_all member.now.piece.kind }
{
    member.piece.kind != Kind::Level1
}

/// Whether the set is a standby: each of its members has every block.
pub fn is_standby(set: &Set) -> bool
    ensures is { result ≡ is_standby set.now }
    ensures full { IsTrue result ↔ All (λ m. m.piece.kind ≢ Level1) set.now.members }
{
    set.members.as_slice().iter().all(|member| has_all(member))
}

fn is_alike(member: &SetFile, first: &SetFile) -> bool
    ensures { IsTrue result ↔ ((member.now.piece.kind ≡ Level1) × (member.now.piece.from ≡ first.now.piece.from)) }
{
    member.piece.kind == Kind::Level1 && member.piece.from == first.piece.from
}

fn begins_by(standby: &Set, increment: &Set, first: &SetFile) -> bool
    ensures { IsTrue result ↔ BeginsBy standby.now increment.now first.now }
{
    first.piece.from <= standby.checkpoint
        && increment
            .members
            .as_slice()
            .iter()
            .all(|member| is_alike(member, first))
}

fn begins(standby: &Set, increment: &Set) -> bool
    ensures { IsTrue result ↔ IsSomeAnd (slice_get increment.now.members 0) (BeginsBy standby.now increment.now) }
{
    match increment.members.as_slice().first() {
        Some(first) => begins_by(standby, increment, first),
        None => false,
    }
}

fn is_same_file(member: &SetFile, other: &SetFile) -> bool
    ensures { IsTrue result ↔ IsSameFile member.now other.now }
{
    other.creation == member.creation && other.piece.blocks == member.piece.blocks
}

fn is_kept(increment: &Set, member: &SetFile) -> bool
    ensures { IsTrue result ↔ IsSomeAnd (member_at increment.now.members member.now.piece.file) (IsSameFile member.now) }
{
    match member_at(increment.members.as_slice(), member.piece.file) {
        Some(other) => is_same_file(member, other),
        None => false,
    }
}

fn are_kept(increment: &Set, members: &[SetFile]) -> bool
    ensures { IsTrue result ↔ All (λ m. IsSomeAnd (member_at increment.now.members m.piece.file) (IsSameFile m)) members.now }
{
    members.iter().all(|member| is_kept(increment, member))
}

fn is_added(standby: &Set, member: &SetFile) -> bool
    ensures { IsTrue result ↔ IfNone (member_at standby.now.members member.now.piece.file) (length member.now.piece.rows ≡ member.now.piece.blocks) }
{
    match member_at(standby.members.as_slice(), member.piece.file) {
        Some(_) => true,
        None => member.piece.rows.len() == member.piece.blocks as usize,
    }
}

fn are_added(standby: &Set, members: &[SetFile]) -> bool
    ensures { IsTrue result ↔ All (λ n. IfNone (member_at standby.now.members n.piece.file) (length n.piece.rows ≡ n.piece.blocks)) members.now }
{
    members.iter().all(|member| is_added(standby, member))
}

/// Whether the increment tells of each change of each datafile from the standby's address on.
pub fn meets(standby: &Set, increment: &Set, tree: &Tree) -> bool
    ensures { IsTrue result ↔ Meets tree.now standby.now increment.now }
{
    standby.dbid == increment.dbid
        && tree.is_there(standby.inc)
        && tree.is_there(increment.inc)
        && standby.checkpoint <= increment.checkpoint
        && begins(standby, increment)
        && is_standby(standby)
        && tree.is_within(standby.inc, increment.inc, standby.checkpoint)
        && are_kept(increment, standby.members.as_slice())
        && are_added(standby, increment.members.as_slice())
}
