//! Why BLOCKRECOVER is refused by the state.
ghost use Rattle.std.specs.{Prelude.{◌≡◌, None, find, nat_le}, Option.{option_and_then}};
ghost use Rattle.rm_machine.specs.{Asked.{asked}, BackupRefusal.{absent_of}};
ghost use Rattle.rm_machine.specs.BlockRecoverRefusal.{absent_named, lost_named, repair_damage_refusal, repair_lost_refusal, repair_refusal, repair_room_refusal, sound_named};
ghost use Rattle.rm_machine.specs.Sound.{IsSound};
ghost use Rattle.rm_step_repair.specs.Named.{AreThere, sound_refusal};

use rm_base::{Absent, BlockNo, FileNo, Limit, Refusal};
use rm_history::Datafile;
use rm_lang_statement::{NamedBlocks, RepairForm};
use rm_machine::State;
use rm_machine::damage::is_damaged;
use rm_machine::during::{absent_of, damaged_write, lacks_logs, lacks_scns, lost_of, marks_for};
use rm_machine::facts::{on_path, placed};
use rm_machine::room::{lacks_ids, lacks_room};
use rm_machine::writers::asked;

// The least of these blocks that is not one of the datafile.
fn absent_block(datafile: &Datafile, blocks: &[u64]) -> Option<u64>
    ensures { result ≡ find (λ b. nat_le datafile.now.blocks b) blocks.now }
{
    let count = u64::from(datafile.blocks);
    blocks.iter().find(|block| count <= **block).copied()
}

// What is named that is not there: its datafile on the current path, or else the least block that is not one of it.
fn absent_named(state: &State, named: &NamedBlocks) -> Option<Absent>
    requires sound { IsSound state.now }
    ensures { result ≡ absent_named state.now named.now }
{
    let Some(datafile) = on_path(state, named.file) else {
        return Some(Absent::File(named.file));
    };
    let block = absent_block(&datafile, named.blocks.as_slice())?;
    Some(Absent::Block {
        block,
        file: named.file,
    })
}

// The same of the form.
fn absent(state: &State, form: &RepairForm) -> Option<Absent>
    requires sound { IsSound state.now }
    ensures { result ≡ option_and_then (absent_named state.now) form.now.blocks }
{
    absent_named(state, form.blocks.as_ref()?)
}

// The datafile that is named, where it is lost.
fn lost_named(state: &State, named: &NamedBlocks) -> Option<FileNo>
    requires sound { IsSound state.now }
    requires there { absent_named state.now named.now ≡ None }
    ensures { result ≡ lost_named state.now named.now }
{
    if placed(state, named.file).is_none() {
        Some(named.file as FileNo)
    } else {
        None
    }
}

// The same of the form.
fn lost(state: &State, form: &RepairForm) -> Option<FileNo>
    requires sound { IsSound state.now }
    requires there { AreThere state.now form.now }
    ensures { result ≡ option_and_then (lost_named state.now) form.now.blocks }
{
    lost_named(state, form.blocks.as_ref()?)
}

// The least block that is named and that is not damaged.
fn sound_named(state: &State, named: &NamedBlocks) -> Option<u64>
    ensures { result ≡ sound_named state.now named.now }
{
    let blocks = named.blocks.as_slice();
    blocks
        .iter()
        .find(|block| !is_damaged(state, named.file, **block))
        .copied()
}

// The refusal of a named block that is not damaged.
fn sound_refusal(state: &State, form: &RepairForm) -> Option<Refusal>
    requires sound { IsSound state.now }
    requires there { AreThere state.now form.now }
    ensures { result ≡ sound_refusal state.now form.now }
{
    let named = form.blocks.as_ref()?;
    let block = sound_named(state, named)?;
    Some(Refusal::Rm18 {
        file: named.file as FileNo,
        block: block as BlockNo,
    })
}

// A write names a damaged block, or a block that is named is not damaged.
fn damage_refusal(state: &State, form: &RepairForm) -> Option<Refusal>
    requires sound { IsSound state.now }
    requires named { AreThere state.now form.now }
    requires there { absent_of state.now (asked form.now.during) ≡ None }
    ensures { result ≡ repair_damage_refusal state.now form.now }
{
    match damaged_write(state, asked(&form.during)) {
        Some(id) => Some(Refusal::Rm17 {
            file: id.file,
            block: id.block,
        }),
        None => sound_refusal(state, form),
    }
}

// Why the writes can't be kept, or the blocks not be mended.
fn room_refusal(state: &State, form: &RepairForm) -> Option<Refusal>
    requires sound { IsSound state.now }
    requires named { AreThere state.now form.now }
    requires there { absent_of state.now (asked form.now.during) ≡ None }
    ensures { result ≡ repair_room_refusal state.now form.now }
{
    let writes = asked(&form.during);
    if lacks_room(state, marks_for(state, &form.during)) {
        Some(Refusal::Rm11(Limit::Records))
    } else if lacks_ids(state, 0) {
        Some(Refusal::Rm11(Limit::ObjectIds))
    } else if lacks_logs(state, writes) {
        Some(Refusal::Rm11(Limit::LogRecords))
    } else if lacks_scns(state, writes.len() as u64) {
        Some(Refusal::Rm15)
    } else {
        damage_refusal(state, form)
    }
}

// Why it is refused, where all that it names is there.
fn lost_refusal(state: &State, form: &RepairForm) -> Option<Refusal>
    requires sound { IsSound state.now }
    requires named { AreThere state.now form.now }
    requires there { absent_of state.now (asked form.now.during) ≡ None }
    ensures { result ≡ repair_lost_refusal state.now form.now }
{
    if let Some(file) = lost(state, form) {
        return Some(Refusal::Rm09 { file });
    }
    if let Some(file) = lost_of(state, asked(&form.during)) {
        return Some(Refusal::Rm09 { file });
    }
    room_refusal(state, form)
}

/// Why a BLOCKRECOVER is refused by the state, if it is: the database is mounted (RM-04); its datafile is not on the current path, or a
/// named block is not one of it, or a write's thread, datafile on the current path or block is not there (RM-05); its datafile or a
/// write's is lost (RM-09); too few records, ids or log records are left (RM-11, in this order), or too few SCNs (RM-15); a write names a
/// damaged block (RM-17); or a named block is not damaged (RM-18). Of several with one number the blocks that it names come first, then
/// the writes in the order of the text.
pub fn repair_refusal(state: &State, form: &RepairForm) -> Option<Refusal>
    requires sound { IsSound state.now }
    ensures value { result ≡ repair_refusal state.now form.now }
{
    if !state.instance.is_open {
        return Some(Refusal::Rm04 { mounted: true });
    }
    if let Some(absent) = absent(state, form) {
        return Some(Refusal::Rm05(absent));
    }
    if let Some(absent) = absent_of(state, asked(&form.during)) {
        return Some(Refusal::Rm05(absent));
    }
    lost_refusal(state, form)
}
