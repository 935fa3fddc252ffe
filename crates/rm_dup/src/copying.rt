//! The copies of a duplicate.
ghost use Rattle.std.specs.Prelude.{◌≡◌, ◌≤◌, All, IfOk, length, map};
ghost use Rattle.rm_dup.specs.Copies.{copies_of, copy_as as copied};

use rm_base::{FileNo, Kind, NoMemory, Scn, Seq};
use rm_blocks::DataFile;
use rm_piece::Piece;
use std::alloc::Global;

// The copy of a datafile that was recovered until `s`, as datafile `number`.
fn copy_as(
    alloc: Global,
    dbid: u32,
    s: Scn,
    number: FileNo,
    file: &DataFile,
) -> Result<Piece, NoMemory>
    requires { length file.now.rows ≤ 65536 }
    ensures { IfOk result (λ a. a ≡ copied dbid s (number, file.now)) }
{
    let rows = file.rows();
    Ok(Piece {
        kind: Kind::Level0,
        dbid,
        inc: 1,
        file: number,
        blocks: rows.len() as u32,
        from: 0,
        checkpoint: s,
        high: s,
        rows: Seq::from_vec(Vec::from_slice(alloc, rows)?),
    })
}

/// The copies of the recovered datafiles, which are numbered from 1 on.
pub(crate) fn copies(
    alloc: Global,
    dbid: u32,
    s: Scn,
    files: &[DataFile],
) -> Result<Seq<Piece>, NoMemory>
    requires few { length files.now ≤ 64 }
    requires rows { All (λ x. length x.rows ≤ 65536) files.now }
    ensures { IfOk result (λ pieces. pieces ≡ copies_of dbid s files.now) }
{
    let mut pieces = Vec::new(alloc);
    let mut number = 1;
    for file in files {
        pieces.push(copy_as(alloc, dbid, s, number, file)?)?;
        number += 1;
    }
    Ok(Seq::from_vec(pieces))
}

/// The number that each datafile had.
pub(crate) fn numbers(alloc: Global, files: &[DataFile]) -> Result<Seq<FileNo>, NoMemory>
    ensures { IfOk result (λ ns. ns ≡ map (λ x. x.file) files.now) }
{
    let mut numbers = Vec::new(alloc);
    for file in files {
        numbers.push(file.file())?;
    }
    Ok(Seq::from_vec(numbers))
}
