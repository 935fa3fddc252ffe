//! The table of parents, and of the copies that are taken.
use crate::made::{catalog_of, three_branches};
use crate::pieces::pairs_text;
use rm_backup::{parent, start_above, taken};
use rm_base::{FileNo, Scn, Seq, Text};
use rm_catalog::{Catalog, PieceEntry, Record};
use rm_evidence::has_database;
use rm_test_harness::{Fault, Told, differs, head, kind_of, numbers, status_of};
use std::alloc::Global;

/// The records of the row, of which there is a catalog from its first case on.
#[derive(Drop)]
pub struct Parents {
    records: Option<Seq<Record>>,
    catalog: Option<Catalog>,
}

// The record of a backup of these words: STATUS FORM TAG KIND ID INC FROM CHECKPOINT HIGH.
fn backup(alloc: Global, line: &str) -> Result<PieceEntry, Fault> {
    let (status, rest) = head(line);
    let (form, rest) = head(rest);
    let (tag, rest) = head(rest);
    let (kind, rest) = head(rest);
    let status = status_of(alloc, status)?;
    let kind = kind_of(alloc, kind)?;
    let tag = Text::from_string(String::from_str(alloc, tag)?);
    let numbers = numbers::<u32>(alloc, rest)?;
    let [id, inc, from, checkpoint, high] = numbers.as_slice() else {
        return differs(alloc, line);
    };
    Ok(PieceEntry {
        id: *id,
        copy: form == "copy",
        kind,
        inc: *inc,
        file: 1,
        from: u64::from(*from),
        checkpoint: u64::from(*checkpoint),
        high: u64::from(*high),
        rows: 2,
        size: 0,
        sha: [0; 32],
        status,
        keep: false,
        tag,
        moment: 0,
    })
}

// The id and the SCN, or `none`.
fn pair_text(alloc: Global, pair: Option<(u32, Scn)>) -> Result<String, Fault> {
    match pair {
        Some(pair) => pairs_text(alloc, &[pair]),
        None => Ok(String::from_str(alloc, "none")?),
    }
}

// The parent of a level 1 of a datafile.
fn parent_told(
    alloc: Global,
    catalog: &Catalog,
    file: FileNo,
    cumulative: bool,
) -> Result<String, Fault> {
    if has_database(catalog) {
        pair_text(alloc, parent(catalog, file, cumulative, None))
    } else {
        differs(alloc, "no database")
    }
}

// The parent of a level 1 of datafile 1 with this tag.
fn parent_of_tag(alloc: Global, catalog: &Catalog, tag: &str) -> Result<String, Fault> {
    if has_database(catalog) {
        pair_text(alloc, parent(catalog, 1, false, Some(tag)))
    } else {
        differs(alloc, "no database")
    }
}

// The copy of datafile 1 with this tag that is taken.
fn taken_told(alloc: Global, catalog: &Catalog, tag: &str) -> Result<String, Fault> {
    if !has_database(catalog) {
        return differs(alloc, "no database");
    }
    match taken(catalog, 1, tag) {
        Some(id) => Ok(format!(in alloc; "{id}")?),
        None => Ok(String::from_str(alloc, "none")?),
    }
}

impl Parents {
    pub fn new() -> Parents {
        Parents {
            records: None,
            catalog: None,
        }
    }

    // The catalog of all records.
    fn load(&mut self, alloc: Global) -> Result<(), Fault> {
        if let Some(records) = self.records.take() {
            self.catalog = Some(catalog_of(alloc, records)?);
        }
        Ok(())
    }

    fn add(&mut self, alloc: Global, entry: PieceEntry) -> Result<(), Fault> {
        match &mut self.records {
            Some(records) => Ok(records.push(Record::Piece(entry))?),
            None => differs(alloc, "no database"),
        }
    }
}

// What comes of this call of a word and a number.
fn told_of(
    alloc: Global,
    catalog: &Catalog,
    call: &str,
    word: &str,
    numbers: &[u32],
) -> Result<String, Fault> {
    match (call, word, numbers) {
        ("parent", "differential", [file]) => parent_told(alloc, catalog, *file, false),
        ("parent", "cumulative", [file]) => parent_told(alloc, catalog, *file, true),
        ("parent_of_tag", tag, []) => parent_of_tag(alloc, catalog, tag),
        ("taken", tag, []) => taken_told(alloc, catalog, tag),
        ("above", tag, [checkpoint]) => {
            let starts = start_above(alloc, catalog, 1, tag, u64::from(*checkpoint))?;
            pairs_text(alloc, starts.as_slice())
        }
        _ => differs(alloc, call),
    }
}

impl Told for Parents {
    fn say(&mut self, alloc: Global, line: &str) -> Result<(), Fault> {
        match head(line) {
            ("current", "1") => self.records = Some(three_branches(alloc, 1)?),
            ("current", "2") => self.records = Some(three_branches(alloc, 2)?),
            _ => self.add(alloc, backup(alloc, line)?)?,
        }
        Ok(())
    }

    fn told(&mut self, alloc: Global, asked: &str) -> Result<String, Fault> {
        self.load(alloc)?;
        let Some(catalog) = &self.catalog else {
            return differs(alloc, "no database");
        };
        let (call, rest) = head(asked);
        let (word, rest) = head(rest);
        told_of(alloc, catalog, call, word, &numbers::<u32>(alloc, rest)?)
    }
}
