//! A datafile in place, each of its calls once.
use rm_base::{Block, Row, Seq};
use rm_blocks::DataFile;
use rm_test_harness::Fault;
use std::alloc::Global;

/// A created datafile has zero blocks.
pub fn created(alloc: Global) -> Result<bool, Fault> {
    let made = DataFile::empty(alloc, 2, 1, 5, 3)?;
    let is_there = (made.file(), made.inc(), made.checkpoint()) == (2, 1, 6);
    let row = Row {
        block: 2,
        version: 5,
        content: Block::padded(b""),
    };
    let is_read = made.read(2) == Some(row) && made.read(3).is_none();
    Ok(is_there && made.rows().len() == 3 && is_read)
}

/// A write gives one block another content.
pub fn a_write(alloc: Global) -> Result<bool, Fault> {
    let mut made = DataFile::empty(alloc, 1, 1, 1, 2)?;
    let content = Block::padded(b"AA");
    let are_written = [made.write(1, 7, content), made.write(2, 8, content)];
    let row = Row {
        block: 1,
        version: 7,
        content,
    };
    let is_other_kept = made.read(0).is_some_and(|row| row.version == 1);
    Ok(are_written == [true, false] && made.read(1) == Some(row) && is_other_kept)
}

/// A datafile stands elsewhere.
pub fn moved(alloc: Global) -> Result<bool, Fault> {
    let mut rows = Seq::new(alloc);
    rows.push(Row {
        block: 0,
        version: 4,
        content: Block::padded(b"AA"),
    })?;
    let mut file = DataFile::from_rows(3, 1, 9, rows);
    let was = file.checkpoint();
    file.stand(2, 11);
    let now = (file.file(), file.inc(), file.checkpoint());
    Ok(was == 9 && now == (3, 2, 11) && file.rows().len() == 1)
}
