//! Pieces of datafile 1 as the tables say them: KIND INC FROM CHECKPOINT HIGH: BLOCK VERSION TEXT, and so on; and what
//! comes of pieces.
use rm_base::Scn;
use rm_piece::Piece;
use rm_test_harness::{Fault, differs, head, kind_of, numbers, rows, rows_text, word_of};
use std::alloc::Global;

/// The text of these parts: what stands before a colon, and the rows behind it.
pub fn halves(text: &str) -> (&str, &str) {
    let (front, rows) = text.split_once(":").unwrap_or((text, ""));
    (front, rows.trim_start())
}

/// The piece of this text. Datafile 1 has two blocks.
pub fn piece_of(alloc: Global, text: &str) -> Result<Piece, Fault> {
    let (front, told) = halves(text);
    let (word, rest) = head(front);
    let kind = kind_of(alloc, word)?;
    let numbers = numbers::<u32>(alloc, rest)?;
    let [inc, from, checkpoint, high] = numbers.as_slice() else {
        return differs(alloc, text);
    };
    Ok(Piece {
        kind,
        dbid: 1,
        inc: *inc,
        file: 1,
        blocks: 2,
        from: u64::from(*from),
        checkpoint: u64::from(*checkpoint),
        high: u64::from(*high),
        rows: rows(alloc, told)?,
    })
}

/// The text of a copy: KIND INC CHECKPOINT HIGH: BLOCK VERSION TEXT, and so on.
pub fn copy_text(alloc: Global, copy: &Piece) -> Result<String, Fault> {
    let rows = rows_text(alloc, copy.rows.as_slice())?;
    let kind = word_of(copy.kind);
    let (inc, checkpoint, high) = (copy.inc, copy.checkpoint, copy.high);
    Ok(format!(in alloc; "{kind} {inc} {checkpoint} {high}: {}", rows.as_str())?)
}

/// The ids and SCNs, or `none`.
pub fn pairs_text(alloc: Global, pairs: &[(u32, Scn)]) -> Result<String, Fault> {
    let mut out = String::from_str(alloc, if pairs.is_empty() { "none" } else { "" })?;
    for (id, scn) in pairs {
        let comma = if out.is_empty() { "" } else { ", " };
        write!(out, "{comma}{id} {scn}")?;
    }
    Ok(out)
}
