//! Parts put into rows.
ghost use Rattle.std.specs.Prelude.{◌≤◌, IfOk, length};
ghost use Rattle.rm_channel.specs.Applied.{Ascend};

use rm_base::{Block, BlockNo, NoMemory, Part, Row, Scn};
use rm_channel::{apply_in_order, apply_rows};
use std::alloc::Global;
use std::thread::Threads;

// Five rows as a datafile is created.
fn rows(alloc: Global) -> Result<Vec<Row>, NoMemory> {
    let mut rows = Vec::new(alloc);
    for block in 0..5u32 {
        rows.push(Row {
            block,
            version: 1,
            content: Block::padded(b""),
        })?;
    }
    Ok(rows)
}

fn part(block: BlockNo, version: Scn, text: &[u8]) -> Part
    requires { length text.now ≤ 64 }
{
    Part {
        block,
        version,
        content: Block::padded(text),
    }
}

// These rows with the parts, by so many channels.
fn applied<R: Threads + Sync>(
    rt: &R,
    alloc: Global,
    parts: &[Part],
    channels: u32,
) -> Result<Vec<Row>, NoMemory> {
    let mut rows = rows(alloc)?;
    apply_rows(rt, rows.as_mut_slice(), parts, channels);
    Ok(rows)
}

// The parts by block; those of one block stay in their order.
fn by_block(parts: Vec<Part>) -> Result<Vec<Part>, NoMemory>
    ensures { IfOk result (λ sorted. Ascend sorted.items) }
{
    let mut sorted = parts;
    sorted.sort_by_key(|part| part.block)?;
    Ok(sorted)
}

// The rows with parts that are put in order before.
fn applied_in_order<R: Threads + Sync>(
    rt: &R,
    alloc: Global,
    parts: [Part; 5],
    channels: u32,
) -> Result<Vec<Row>, NoMemory> {
    let mut rows = rows(alloc)?;
    let sorted = by_block(Vec::from_array(alloc, parts)?)?;
    apply_in_order(rt, rows.as_mut_slice(), sorted.as_slice(), channels);
    Ok(rows)
}

// Whether a row is this part.
fn is_part(row: Option<&Row>, part: Part) -> bool {
    row.is_some_and(|row| row.version == part.version && row.content == part.content)
}

/// Each number of channels has the answer of one.
pub fn same_rows<R: Threads + Sync>(rt: &R, alloc: Global) -> Result<bool, NoMemory> {
    let parts = [
        part(4, 5, b"A"),
        part(0, 6, b"B"),
        part(2, 7, b"C"),
        part(4, 8, b"D"),
        part(9, 9, b"E"),
    ];
    let one = applied(rt, alloc, &parts, 1)?;
    let two = applied(rt, alloc, &parts, 2)?;
    let many = applied(rt, alloc, &parts, 16)?;
    let are_same = one.as_slice() == two.as_slice() && one.as_slice() == many.as_slice();
    let are_put = is_part(one.get(0), parts[1]) && is_part(one.get(2), parts[2]);
    Ok(are_same && are_put && is_part(one.get(4), parts[3]))
}

/// A part of a block beyond the rows changes nothing.
pub fn beyond<R: Threads + Sync>(rt: &R, alloc: Global) -> Result<bool, NoMemory> {
    let parts = [part(5, 5, b"A"), part(4_294_967_295, 6, b"B")];
    let before = rows(alloc)?;
    let after = applied(rt, alloc, &parts, 2)?;
    Ok(before.as_slice() == after.as_slice())
}

/// Of two parts of one block the last counts.
pub fn last<R: Threads + Sync>(rt: &R, alloc: Global) -> Result<bool, NoMemory> {
    let parts = [part(3, 9, b"A"), part(3, 5, b"B")];
    let after = applied(rt, alloc, &parts, 2)?;
    Ok(is_part(after.get(3), parts[1]))
}

/// Of parts that ascend by block each thread looks at its own, with the same answer.
pub fn in_order<R: Threads + Sync>(rt: &R, alloc: Global) -> Result<bool, NoMemory> {
    let parts = [
        part(0, 6, b"A"),
        part(2, 9, b"B"),
        part(2, 7, b"C"),
        part(3, 8, b"D"),
        part(9, 5, b"E"),
    ];
    let one = applied_in_order(rt, alloc, parts, 1)?;
    let two = applied_in_order(rt, alloc, parts, 2)?;
    let many = applied_in_order(rt, alloc, parts, 16)?;
    let are_same = one.as_slice() == two.as_slice() && one.as_slice() == many.as_slice();
    let are_put = is_part(one.get(0), parts[0]) && is_part(one.get(2), parts[2]);
    let others = [part(1, 1, b""), part(4, 1, b"")];
    let are_left = is_part(one.get(1), others[0]) && is_part(one.get(4), others[1]);
    Ok(are_same && are_put && are_left && is_part(one.get(3), parts[3]))
}
