//! The rules of a valid set.
ghost use Rattle.std.specs.{Prelude.{◌≡◌, ◌≢◌, ◌↔◌, ◌<◌, ◌≤◌, ◌^◌, IsTrue, All, length}, List.{AllPairs}};
ghost use Rattle.rm_base.specs.declared.kinds.Kind.TheVariants.{Place};
ghost use Rattle.rm_piece.specs.Sets.{blocks_in, IsBeforeMember, IsMember, IsOf, IsSet, IsSince};

use crate::set::{Set, SetFile};
use crate::valid::is_valid;
use rm_base::{IncNo, Kind, Row, Scn};
use rm_lanes::is_zero;

/// The most blocks of all datafiles of a database together.
pub const MOST_BLOCKS: u32 = 131_072;

/// The most datafiles of a database.
pub const MOST_FILES: usize = 64;

fn is_since(row: &Row, creation: Scn) -> bool
    ensures { IsTrue result ↔ IsSince creation row.now }
{
    creation < row.version || (row.version == creation && is_zero(&row.content))
}

fn are_since(rows: &[Row], creation: Scn) -> bool
    ensures { IsTrue result ↔ All (IsSince creation) rows.now }
{
    rows.iter().all(|row| is_since(row, creation))
}

// Whether the piece is of the set's database, incarnation and checkpoint.
fn is_of(set: &Set, member: &SetFile) -> bool
    ensures { IsTrue result ↔ IsOf set.now member.now }
{
    member.piece.dbid == set.dbid
        && member.piece.inc == set.inc
        && member.piece.checkpoint == set.checkpoint
}

// Whether the piece was taken of a datafile that did not stand in place.
fn is_backup(kind: Kind) -> bool
    ensures { IsTrue result ↔ (kind ≢ Place) }
{
    match kind {
        Kind::Full | Kind::Level0 | Kind::Level1 => true,
        Kind::Place => false,
    }
}

// Whether every block is listed, where the rows go back to the creation.
fn is_whole(member: &SetFile) -> bool
    ensures { IsTrue result ↔ (member.now.piece.from ≤ member.now.creation → length member.now.piece.rows ≡ member.now.piece.blocks) }
{
    member.creation < member.piece.from || member.piece.rows.len() == member.piece.blocks as usize
}

/// Whether this may be a member of the set.
pub fn is_member(set: &Set, member: &SetFile) -> bool
    ensures { IsTrue result ↔ IsMember set.now member.now }
{
    is_of(set, member)
        && is_backup(member.piece.kind)
        && 1 <= member.creation
        && member.creation < set.checkpoint
        && is_whole(member)
        && are_since(member.piece.rows.as_slice(), member.creation)
        && is_valid(&member.piece)
}

fn are_members(set: &Set, members: &[SetFile]) -> bool
    ensures { IsTrue result ↔ All (IsMember set.now) members.now }
{
    members.iter().all(|member| is_member(set, member))
}

/// Whether the datafiles ascend strictly.
pub fn members_ascend(members: &[SetFile]) -> bool
    ensures { IsTrue result ↔ AllPairs IsBeforeMember members.now }
{
    for i in 1..members.len() {
        if members[i].piece.file <= members[i - 1].piece.file {
            return false;
        }
    }
    true
}

// Whether the datafiles have at most so many blocks together.
fn have_room(members: &[SetFile]) -> bool
    ensures { IsTrue result ↔ (blocks_in members.now ≤ 131072) }
{
    let mut left = MOST_BLOCKS;
    for member in members {
        if left < member.piece.blocks {
            return false;
        }
        left -= member.piece.blocks;
    }
    true
}

// Whether the numbers fit their types. They do, and by value they bring that along.
fn fit(dbid: u32, inc: IncNo, checkpoint: Scn) -> bool
    ensures { IsTrue result ↔ ((dbid < 2 ^ 32) × (inc < 2 ^ 32) × (checkpoint < 2 ^ 64)) }
{
    true
}

/// Whether the set is valid, so that its spelling is read as this set.
pub fn is_valid_set(set: &Set) -> bool
    ensures { IsTrue result ↔ IsSet set.now }
{
    let members = set.members.as_slice();
    fit(set.dbid, set.inc, set.checkpoint)
        && members.len() <= MOST_FILES
        && members_ascend(members)
        && have_room(members)
        && are_members(set, members)
}
