//! The table of what is picked for a level 1, and of what a copy becomes by it.
use crate::made::{catalog_of, three_branches};
use crate::pieces::{copy_text, halves, piece_of};
use rm_evidence::has_database;
use rm_merge::{MergeFault, merge};
use rm_piece::{Piece, is_valid, pick};
use rm_test_harness::{Fault, Told, differs, head, numbers, rows, rows_text};
use std::alloc::Global;

/// The copy of the case.
#[derive(Drop)]
pub struct Merging {
    pub copy: Option<Piece>,
}

// The merge of valid parts, where the incarnation of the level 1 is there. None where they are apart.
fn merged(alloc: Global, copy: &Piece, level1: &Piece) -> Result<Option<Piece>, Fault> {
    let catalog = catalog_of(alloc, three_branches(alloc, 1)?)?;
    if !has_database(&catalog) || !is_valid(copy) || !is_valid(level1) {
        return differs(alloc, "not valid");
    }
    let tree = catalog.tree();
    if tree.get(level1.inc).is_none() {
        return differs(alloc, "no such incarnation");
    }
    match merge(alloc, copy, level1, tree) {
        Ok(merged) => Ok(Some(merged)),
        Err(MergeFault::Apart) => Ok(None),
        Err(MergeFault::NoMemory) => Err(Fault::NoMemory),
    }
}

// The rows from an SCN on: FROM: BLOCK VERSION TEXT, and so on.
fn picked(alloc: Global, text: &str) -> Result<String, Fault> {
    let (front, told) = halves(text);
    let rows = rows(alloc, told)?;
    match numbers::<u64>(alloc, front)?.as_slice() {
        [from] => {
            let picked = pick(alloc, rows.as_slice(), *from)?;
            rows_text(alloc, picked.as_slice())
        }
        _ => differs(alloc, text),
    }
}

impl Merging {
    // The copy takes over the level 1, or stays as it is.
    fn take_over(&mut self, alloc: Global, level1: &Piece) -> Result<String, Fault> {
        let Some(copy) = &self.copy else {
            return differs(alloc, "no copy");
        };
        let Some(merged) = merged(alloc, copy, level1)? else {
            return Ok(String::from_str(alloc, "apart")?);
        };
        let text = copy_text(alloc, &merged)?;
        self.copy = Some(merged);
        Ok(text)
    }
}

impl Told for Merging {
    fn say(&mut self, alloc: Global, line: &str) -> Result<(), Fault> {
        match head(line) {
            ("copy", text) => self.copy = Some(piece_of(alloc, text)?),
            _ => return differs(alloc, line),
        }
        Ok(())
    }

    fn told(&mut self, alloc: Global, asked: &str) -> Result<String, Fault> {
        match head(asked) {
            ("pick", text) => picked(alloc, text),
            ("merge", text) => self.take_over(alloc, &piece_of(alloc, text)?),
            _ => differs(alloc, asked),
        }
    }
}
