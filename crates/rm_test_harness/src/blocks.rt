//! Blocks and rows of a datafile, as the tables say them.
ghost use Rattle.std.specs.{Prelude.{◌≡◌, ◌≢◌, [], codes}, Str.{IsUtf8}};
ghost use Rattle.rm_base.specs.Content.{trimmed};

use crate::fault::{Fault, differs};
use crate::words::numbers;
use rm_base::{Block, Row, Seq};
use std::alloc::Global;

// A block of this text. `-` is none.
fn block_of(alloc: Global, text: &str) -> Result<Block, Fault> {
    let bytes = text.as_bytes();
    if text == "-" {
        return Ok(Block::padded(b""));
    }
    if bytes.len() > 64 {
        return differs(alloc, text);
    }
    Ok(Block::padded(bytes))
}

/// The text of a block. `-` is none.
pub fn text_of(block: &Block) -> &str
    ensures none { trimmed block.now.0 ≡ [] → result.now ≡ codes "-" }
    ensures some { trimmed block.now.0 ≢ [] → IsUtf8 (trimmed block.now.0) → result.now ≡ trimmed block.now.0 }
{
    match str::from_utf8(block.trimmed()) {
        Ok("") => "-",
        Ok(text) => text,
        Err(_) => "?",
    }
}

// The row of these words: BLOCK VERSION TEXT.
fn row(alloc: Global, words: &str) -> Result<Row, Fault> {
    let (front, text) = words.rsplit_once(" ").unwrap_or(("", words));
    let content = block_of(alloc, text)?;
    match numbers::<u32>(alloc, front)?.as_slice() {
        [block, version] => Ok(Row {
            block: *block,
            version: u64::from(*version),
            content,
        }),
        _ => differs(alloc, words),
    }
}

/// The rows of this text: BLOCK VERSION TEXT, and so on.
pub fn rows(alloc: Global, text: &str) -> Result<Seq<Row>, Fault> {
    let mut rows = Seq::new(alloc);
    for words in text.split(", ") {
        if !words.is_empty() {
            rows.push(row(alloc, words)?)?;
        }
    }
    Ok(rows)
}

/// The text of rows.
pub fn rows_text(alloc: Global, rows: &[Row]) -> Result<String, Fault> {
    let mut out = String::new(alloc);
    for row in rows {
        let comma = if out.is_empty() { "" } else { ", " };
        let text = text_of(&row.content);
        write!(out, "{comma}{} {} {text}", row.block, row.version)?;
    }
    Ok(out)
}
