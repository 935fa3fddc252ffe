//! A standby that takes over an increment.
ghost use Rattle.std.specs.Prelude.{ℕ, ◌≡◌, ◌≢◌, ◌↔◌, ◌<◌, ◌≤◌, List, IfOk, IfSome, IsErrOf, All, length, map};
ghost use Rattle.rm_base.specs.{Created.{created_row}, Numbers.{last_scn}, declared.block.Change.{Change}};
ghost use Rattle.rm_base.specs.declared.kinds.Kind.TheVariants.{Level1};
ghost use Rattle.rm_history.specs.{History.{IsHistory}, State.{rows_from}, Tree.{IsTree}, declared.world.World.{World}};
ghost use Rattle.rm_piece.specs.{Filling.{over}, Rows.{IsWhole}, Sets.{IsMember, IsSet}};
ghost use Rattle.rm_standby.specs.Rolling.{changed, changed_in, full_member, is_other, member_at, old_rows, rolled, rolled_member, row_at, IsSameFile, Meets};
ghost use Rattle.rm_standby.specs.Standby.{HoldsSince, HoldsStates};

use crate::meeting::{meets, member_at};
use rm_base::{Kind, NoMemory, Row, Scn, Seq};
use rm_history::Tree;
use rm_lanes::same;
use rm_piece::set_filling::{created_row, take_next};
use rm_piece::{Piece, Set, SetFile, high_of};
use std::alloc::Global;

/// Why nothing was rolled.
#[derive(Clone, Copy, Debug, PartialEq, Eq)]
pub enum RollFault {
    /// The sets do not meet.
    Apart,
    NoMemory,
}

impl From<NoMemory> for RollFault {
    ghost use Rattle.rm_standby.specs.declared.rolling.RollFault.TheVariants.{NoMemory as WithoutMemory};

    ghost from_gives = { λ _ e. e ≡ WithoutMemory };

    fn from(_: NoMemory) -> Self {
        RollFault::NoMemory
    }
}

// A datafile as it was created.
fn created_rows(alloc: Global, creation: Scn, blocks: u32) -> Result<Vec<Row>, NoMemory>
    ensures { IfOk result (λ rows. rows.items ≡ rows_from (created_row creation) 0 blocks) }
{
    let mut rows = Vec::with_capacity(alloc, blocks as usize)?;
    for block in 0..blocks {
        rows.push(created_row(block, creation))?;
    }
    Ok(rows)
}

// The rows, and in the place of each the listed row of its block.
fn replaced(alloc: Global, old: &[Row], listed: &[Row]) -> Result<Vec<Row>, NoMemory>
    ensures { IfOk result (λ rows. rows.items ≡ over old.now listed.now) }
{
    let mut rows = Vec::with_capacity(alloc, old.len())?;
    let mut left = listed;
    for row in old {
        let (next, after) = take_next(left, *row);
        rows.push(next)?;
        left = after;
    }
    Ok(rows)
}

// Whether the row has another content than its block had.
fn is_other(old: &[Row], new: &Row) -> bool
    requires whole { IsWhole old.now }
    requires inside { new.now.block < length old.now }
    ensures { result ≡ is_other (row_at old.now new.now.block) new.now }
{
    !same(&old[new.block as usize].content, &new.content)
}

// How many of the listed rows have another content than their block had.
fn changed_in(old: &[Row], listed: &[Row]) -> u32
    requires whole { IsWhole old.now }
    requires inside { All (λ r. r.block < length old.now) listed.now }
    requires few { length listed.now ≤ 65536 }
    ensures { result ≡ changed_in old.now listed.now }
{
    let mut changed = 0;
    for new in listed {
        if is_other(old, new) {
            changed += 1;
        }
    }
    changed
}

// The increment's member over these rows, with every block, and how many of them got another content.
fn roll_over(alloc: Global, old: &[Row], member: &SetFile) -> Result<(SetFile, u32), NoMemory>
    requires whole { IsWhole old.now }
    requires inside { All (λ r. r.block < length old.now) member.now.piece.rows }
    requires few { length member.now.piece.rows ≤ 65536 }
    requires versions { All (λ r. r.version < last_scn) (over old.now member.now.piece.rows) }
    ensures member { IfOk result (λ r. r.0 ≡ full_member member.now (over old.now member.now.piece.rows)) }
    ensures changed { IfOk result (λ r. r.1 ≡ changed_in old.now member.now.piece.rows) }
{
    let listed = member.piece.rows.as_slice();
    let changed = changed_in(old, listed);
    let rows = replaced(alloc, old, listed)?;
    let high = high_of(member.piece.checkpoint, &rows);
    let piece = Piece {
        kind: Kind::Full,
        dbid: member.piece.dbid,
        inc: member.piece.inc,
        file: member.piece.file,
        blocks: member.piece.blocks,
        from: 0,
        checkpoint: member.piece.checkpoint,
        high,
        rows: Seq::from_vec(rows),
    };
    let creation = member.creation;
    Ok((SetFile { creation, piece }, changed))
}

// The increment's member over the standby's of the same datafile, or over the datafile as it was created.
fn roll_member(
    alloc: Global,
    standby: &Set,
    increment: &Set,
    member: &SetFile,
) -> Result<(SetFile, u32), NoMemory>
    requires standby { IsSet standby.now }
    requires member { IsMember increment.now member.now }
    requires full { All (λ m. m.piece.kind ≢ Level1) standby.now.members }
    requires same { IfSome (member_at standby.now.members member.now.piece.file) (λ m. IsSameFile m member.now) }
    ensures member { IfOk result (λ r. r.0 ≡ rolled_member standby.now member.now) }
    ensures changed { IfOk result (λ r. r.1 ≡ changed_in (old_rows (member_at standby.now.members member.now.piece.file) member.now) member.now.piece.rows) }
{
    match member_at(standby.members.as_slice(), member.piece.file) {
        Some(old) => roll_over(alloc, old.piece.rows.as_slice(), member),
        None => {
            let created = created_rows(alloc, member.creation, member.piece.blocks)?;
            roll_over(alloc, &created, member)
        }
    }
}

// The members of the rolled standby, and how many blocks got another content.
fn rolled_members(
    alloc: Global,
    standby: &Set,
    increment: &Set,
) -> Result<(Seq<SetFile>, u32), NoMemory>
    requires standby { IsSet standby.now }
    requires increment { IsSet increment.now }
    requires full { All (λ m. m.piece.kind ≢ Level1) standby.now.members }
    requires same { All (λ n. IfSome (member_at standby.now.members n.piece.file) (λ m. IsSameFile m n)) increment.now.members }
    ensures members { IfOk result (λ r. r.0 ≡ map (rolled_member standby.now) increment.now.members) }
    ensures changed { IfOk result (λ r. r.1 ≡ changed standby.now increment.now) }
{
    let mut members = Vec::with_capacity(alloc, increment.members.len())?;
    let mut changed = 0;
    for member in increment.members.as_slice() {
        let (rolled, count) = roll_member(alloc, standby, increment, member)?;
        members.push(rolled)?;
        changed += count;
    }
    Ok((Seq::from_vec(members), changed))
}

/// The rolled standby: the increment's address and datafiles, each listed row in the place of its block's. And
/// how many blocks got another content. Apart exactly where they do not meet.
pub fn roll(
    alloc: Global,
    standby: &Set,
    increment: &Set,
    tree: &Tree,
) -> Result<(Set, u32), RollFault>
    requires standby { IsSet standby.now }
    requires increment { IsSet increment.now }
    ensures rolled { IfOk result (λ r. r.0 ≡ rolled standby.now increment.now) }
    ensures changed { IfOk result (λ r. r.1 ≡ changed standby.now increment.now) }
    ensures valid { IfOk result (λ r. IsSet r.0) }
    ensures met { IfOk result (λ r. Meets tree.now standby.now increment.now) }
    ensures apart { IsErrOf result RollFault.Apart ↔ (¬ Meets tree.now standby.now increment.now) }
    // What held the states at its address holds them at the increment's.
    ensures holds { IfOk result (λ r. (w : World) (h : List Change) (from : ℕ) → w.tree ≡ tree.now → IsTree w.tree → IsHistory w h → HoldsStates w h standby.now → HoldsSince w h from increment.now → HoldsStates w h r.0) }
{
    if !meets(standby, increment, tree) {
        return Err(RollFault::Apart);
    }
    let (members, changed) = rolled_members(alloc, standby, increment)?;
    let rolled = Set {
        dbid: increment.dbid,
        inc: increment.inc,
        checkpoint: increment.checkpoint,
        members,
    };
    Ok((rolled, changed))
}
