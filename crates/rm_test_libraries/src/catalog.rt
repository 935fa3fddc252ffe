//! The rules of records, and each call of a catalog.
use crate::record::{range_of, record_of};
use rm_base::{NoMemory, Seq};
use rm_catalog::{Catalog, CatalogFault, Edit, Key, Record};
use rm_test_harness::{Fault, Told, cases, differs, head};
use std::alloc::Global;

// The small catalog, and the records of the case that is read.
#[derive(Drop)]
struct Table {
    small: Vec<Record>,
    records: Option<Vec<Record>>,
}

fn copies_of(alloc: Global, records: &[Record]) -> Result<Vec<Record>, NoMemory> {
    let mut copies = Vec::new(alloc);
    for record in records {
        copies.push(record.copy(alloc)?)?;
    }
    Ok(copies)
}

// The records but that of this key.
fn without(records: Vec<Record>, key: Key) -> Result<Vec<Record>, NoMemory> {
    let mut left = Vec::new(*records.allocator());
    for record in records {
        if record.key() != key {
            left.push(record)?;
        }
    }
    Ok(left)
}

// With the record that this line says, in place of that with its key.
fn with_one(alloc: Global, records: Vec<Record>, line: &str) -> Result<Vec<Record>, Fault> {
    let record = record_of(alloc, line, None)?;
    let mut records = without(records, record.key())?;
    records.push(record)?;
    Ok(records)
}

// With the record that this line says, besides.
fn also(alloc: Global, records: Vec<Record>, line: &str) -> Result<Vec<Record>, Fault> {
    let mut records = records;
    records.push(record_of(alloc, line, None)?)?;
    Ok(records)
}

// With the records that this line says. One that is alone takes the place of that with its key.
fn with(alloc: Global, records: Vec<Record>, line: &str) -> Result<Vec<Record>, Fault> {
    let Some((first, last)) = range_of(line) else {
        return with_one(alloc, records, line);
    };
    let mut records = records;
    for number in first..=last {
        records.push(record_of(alloc, line, Some(number))?)?;
    }
    Ok(records)
}

// The records but that of this kind and id.
fn but(alloc: Global, records: Vec<Record>, key: &str) -> Result<Vec<Record>, Fault> {
    let (kind, id) = head(key);
    match (kind.parse::<u8>(), id.parse::<u32>()) {
        (Ok(kind), Ok(id)) => Ok(without(records, Key { kind, id })?),
        _ => differs(alloc, key),
    }
}

// What a line says of these records.
fn changed(alloc: Global, records: Vec<Record>, line: &str) -> Result<Vec<Record>, Fault> {
    match head(line) {
        ("same", "") => Ok(records),
        ("none", "") => Ok(Vec::new(alloc)),
        ("without", key) => but(alloc, records, key),
        ("also", line) => also(alloc, records, line),
        _ => with(alloc, records, line),
    }
}

impl Table {
    // The records of the case so far.
    fn taken(&mut self, alloc: Global) -> Result<Vec<Record>, NoMemory> {
        match self.records.take() {
            Some(records) => Ok(records),
            None => copies_of(alloc, &self.small),
        }
    }

    // What a line says of the records of the case.
    fn put(&mut self, alloc: Global, line: &str) -> Result<(), Fault> {
        let records = self.taken(alloc)?;
        self.records = Some(changed(alloc, records, line)?);
        Ok(())
    }
}

impl Told for Table {
    fn say(&mut self, alloc: Global, line: &str) -> Result<(), Fault> {
        if line.starts_with("small ") {
            return Ok(());
        }
        self.put(alloc, line)
    }

    fn told(&mut self, alloc: Global, asked: &str) -> Result<String, Fault> {
        self.put(alloc, asked)?;
        let records = self.records.take().unwrap_or(Vec::new(alloc));
        match Catalog::from_records(Seq::from_vec(records)) {
            Ok(_) => Ok(String::from_str(alloc, "valid")?),
            Err(CatalogFault::BadRow(kind, id)) => Ok(format!(in alloc; "{kind} {id}")?),
            Err(CatalogFault::NoMemory) => Err(Fault::NoMemory),
        }
    }
}

/// How many cases of the table are as it says.
pub fn rules(alloc: Global, text: &str) -> Result<u64, Fault> {
    let mut table = Table {
        small: small(alloc, text)?,
        records: None,
    };
    cases(alloc, text, &mut table)
}

/// The small catalog of the table.
pub fn small(alloc: Global, text: &str) -> Result<Vec<Record>, Fault> {
    let mut records = Vec::new(alloc);
    for line in text.lines() {
        if let Some(line) = line.strip_prefix("small ") {
            records.push(record_of(alloc, line, None)?)?;
        }
    }
    Ok(records)
}

fn loaded(alloc: Global, text: &str) -> Result<Catalog, Fault> {
    match Catalog::from_records(Seq::from_vec(small(alloc, text)?)) {
        Ok(catalog) => Ok(catalog),
        Err(_) => differs(alloc, "the small catalog is not valid"),
    }
}

/// A catalog tells its records and its tree.
pub fn calls(alloc: Global, text: &str) -> Result<bool, Fault> {
    let catalog = loaded(alloc, text)?;
    let Some(Record::Mark(mark)) = catalog.find(Key { kind: 6, id: 2 }) else {
        return Ok(false);
    };
    if catalog.find(Key { kind: 1, id: 0 }).is_none() || catalog.tree().count() != 2 {
        return Ok(false);
    }
    Ok(
        catalog.records().len() == 12
            && (mark.id, mark.moment, mark.inc, mark.scn) == (2, 20, 2, 10)
            && catalog.find(Key { kind: 6, id: 3 }).is_none()
            && catalog.find(Key { kind: 1, id: 2 }).is_none(),
    )
}

// The small catalog with switches of threads 2 and 3: off at (1, 5), on again at (2, 15), and on at (2, 16).
fn switched(alloc: Global, text: &str) -> Result<Catalog, Fault> {
    let mut records = small(alloc, text)?;
    for line in [
        "switch 1 2 1 5 off 2",
        "switch 2 2 2 15 on 1",
        "switch 3 3 2 16 on 1",
    ] {
        records.push(record_of(alloc, line, None)?)?;
    }
    match Catalog::from_records(Seq::from_vec(records)) {
        Ok(catalog) => Ok(catalog),
        Err(_) => differs(alloc, "the switches are not valid"),
    }
}

/// A catalog tells which threads are enabled where.
pub fn threads(alloc: Global, text: &str) -> Result<bool, Fault> {
    let catalog = switched(alloc, text)?;
    if catalog.find(Key { kind: 1, id: 0 }).is_none() {
        return Ok(false);
    }
    if catalog.tree().get(1).is_none() || catalog.tree().get(2).is_none() {
        return Ok(false);
    }
    let first = [
        catalog.enabled(1, 4, 2),
        catalog.enabled(1, 5, 2),
        catalog.enabled(1, 19, 2),
        catalog.enabled(1, 16, 3),
    ];
    let second = [
        catalog.enabled(2, 4, 2),
        catalog.enabled(2, 14, 2),
        catalog.enabled(2, 15, 2),
        catalog.enabled(2, 15, 3),
        catalog.enabled(2, 16, 3),
        catalog.enabled(2, 29, 1),
    ];
    Ok(first == [true, false, false, false] && second == [true, false, true, false, true, true])
}

/// No edit changes nothing.
pub fn edits(alloc: Global, text: &str) -> Result<bool, Fault> {
    let mut catalog = loaded(alloc, text)?;
    let before = catalog.records().len();
    catalog.apply(&[])?;
    Ok(catalog.records().len() == before)
}

/// A copy of a record, and of an edit.
pub fn copies(alloc: Global, text: &str) -> Result<bool, Fault> {
    let catalog = loaded(alloc, text)?;
    let key = Key { kind: 5, id: 4 };
    let Some(piece) = catalog.find(key) else {
        return Ok(false);
    };
    let copy = piece.copy(alloc)?;
    let has_key = copy.key() == key;
    let edit = Edit::Put(copy);
    Ok(has_key && edit.copy(alloc).is_ok())
}
