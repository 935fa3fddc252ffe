//! HOST CORRUPT DATAFILE f BLOCK b
ghost use Rattle.std.specs.{Prelude.{◌≡◌, ◌-◌, ◌<◌, IfOk, None, OnErr, OnOk, Option, length}, Option.{option_map}};
ghost use Rattle.rm_base.specs.Store.{Held};
ghost use Rattle.rm_blocks.specs.File.{put};
ghost use Rattle.rm_lang_statement.specs.declared.command.Command.TheVariants.{Corrupt};
ghost use Rattle.rm_machine.specs.{Corrupt.{corrupt_refusal, corrupted, flipped}, Events.{with_placed_row}, Hands.{Hands}, Sound.{IsSound}};

use rm_base::{Absent, Block, BlockId, BlockNo, FileNo, NoMemory, Refusal, Row, Seq};
use rm_blocks::DataFile;
use rm_machine::damage::{is_damaged, with_block};
use rm_machine::facts::{on_path, placed, placed_row};
use rm_machine::handed::of_line;
use rm_machine::room::ids_refusal;
use rm_machine::{Handed, State};
use rm_report::Line;
use std::alloc::Global;
use std::mem;

/// Why HOST CORRUPT is refused, if it is: the database is mounted (RM-04); there is no such datafile on the current path,
/// or no such block (RM-05, in this order); the datafile is lost (RM-09); or too few object ids are left (RM-11).
pub fn corrupt_refusal(state: &State, file: u64, block: u64) -> Option<Refusal>
    requires sound { IsSound state.now }
    ensures value { result ≡ corrupt_refusal state.now file block }
{
    if !state.instance.is_open {
        return Some(Refusal::Rm04 { mounted: true });
    }
    let Some(datafile) = on_path(state, file) else {
        return Some(Refusal::Rm05(Absent::File(file)));
    };
    if block >= u64::from(datafile.blocks) {
        Some(Refusal::Rm05(Absent::Block { block, file }))
    } else if placed(state, file).is_none() {
        Some(Refusal::Rm09 { file: file as u32 })
    } else {
        ids_refusal(state)
    }
}

// The content, of which each byte is its exclusive or with 255: 255 less it.
fn flipped(content: Block) -> Block
    ensures { result ≡ flipped content }
{
    let mut bytes = content.0;
    for byte in bytes.iter_mut() {
        *byte = 255 - *byte;
    }
    Block(bytes)
}

// Puts the row in place of the one of its block, where the datafile is not lost.
fn put_in(slot: &mut Option<DataFile>, row: Row)
    ensures { slot.new ≡ option_map (λ x. put x row) slot.old }
{
    if let Some(file) = slot {
        file.put(row);
    }
}

// Puts the row into its datafile in place.
fn put_row(alloc: Global, state: &mut State, file: FileNo, row: Row)
    requires some { 0 < file }
    requires there { file - 1 < length state.old.instance.place }
    ensures { state.new ≡ with_placed_row state.old file row }
{
    let mut place = mem::replace(&mut state.instance.place, Seq::new(alloc)).into_vec();
    put_in(&mut place[file as usize - 1], row);
    state.instance.place = Seq::from_vec(place);
}

// Damages the block of the row in place. One that was damaged before stays as it is.
fn damage(alloc: Global, state: &mut State, file: FileNo, row: Row) -> Result<(), NoMemory>
    requires some { 0 < file }
    requires there { file - 1 < length state.old.instance.place }
    ensures ok { OnOk result (state.new ≡ corrupted state.old file row) }
    ensures same { OnErr result (state.new ≡ state.old) }
{
    if is_damaged(state, u64::from(file), u64::from(row.block)) {
        return Ok(());
    }
    let id = BlockId {
        file,
        block: row.block,
    };
    let damaged = with_block(alloc, state.instance.damaged.as_slice(), id)?;
    let content = flipped(row.content);
    put_row(alloc, state, file, Row { content, ..row });
    state.instance.damaged = damaged;
    Ok(())
}

/// HOST CORRUPT: the block in place is damaged, if it was not: each byte of its content is its exclusive or with 255. The
/// catalog stays. An error is want of memory; then nothing changes.
pub fn corrupt(alloc: Global, state: &mut State, file: u64, block: u64) -> Result<Handed, NoMemory>
    requires sound { IsSound state.old }
    requires accepted { corrupt_refusal state.old file block ≡ None }
    ensures hands { IfOk result (λ x. (held : Option Held) → Hands held state.old (Corrupt file block) x state.new) }
    ensures catalog { OnOk result (state.new.catalog ≡ state.old.catalog) }
    ensures same { OnErr result (state.new ≡ state.old) }
{
    let Some(row) = placed_row(state, file, block as BlockNo) else {
        unreachable!()
    };
    let file = file as FileNo;
    let block = block as BlockNo;
    let handed = of_line(alloc, Line::BlockDamaged { file, block })?;
    damage(alloc, state, file, row)?;
    Ok(handed)
}
