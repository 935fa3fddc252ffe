//! The table of what keeps a record, and what lets it go.
use crate::made::{Besides, catalog_of, database, datafile, log, piece, recorded};
use rm_base::{Policy, Scn, Seq, Status};
use rm_catalog::{Catalog, Record};
use rm_evidence::{Evidence, has_database};
use rm_retain::{chosen, do_ascend, obsolete};
use rm_test_harness::{Fault, Told, differs, head, numbers};
use std::alloc::Global;

/// The records of the row, of which there is a catalog from its first case on, how many datafiles it has, and what is
/// at hand.
#[derive(Drop)]
pub struct Retention {
    records: Option<Seq<Record>>,
    catalog: Option<Catalog>,
    files: u32,
    evidence: Evidence,
}

fn nothing(alloc: Global) -> Evidence {
    Evidence {
        bases: Seq::new(alloc),
        level1s: Seq::new(alloc),
        logs: Seq::new(alloc),
        skipped: Seq::new(alloc),
    }
}

// What is said before the last part of the word: `kept_log`, `expired_piece`.
fn besides(word: &str) -> Besides {
    Besides {
        keep: word.starts_with("kept_"),
        status: if word.starts_with("expired_") {
            Status::Expired
        } else {
            Status::Available
        },
    }
}

fn policy_of(alloc: Global, word: &str, number: u32) -> Result<Policy, Fault> {
    match word {
        "window" => Ok(Policy::Window(number)),
        "redundancy" => Ok(Policy::Redundancy(number)),
        "nothing" => Ok(Policy::Nothing),
        _ => differs(alloc, word),
    }
}

impl Retention {
    pub fn new(alloc: Global) -> Retention {
        Retention {
            records: None,
            catalog: None,
            files: 0,
            evidence: nothing(alloc),
        }
    }

    // A new row, whose datafile 1 is in place, newer than each of its pieces.
    fn begin(&mut self, alloc: Global, branch: Option<Scn>) -> Result<(), Fault> {
        self.records = Some(database(alloc, branch)?);
        self.catalog = None;
        self.files = 0;
        self.evidence = nothing(alloc);
        let place = piece(alloc, 1, 1, 9, 9);
        self.evidence.bases.push((0, place))?;
        Ok(())
    }

    fn add(&mut self, alloc: Global, record: Record) -> Result<(), Fault> {
        match &mut self.records {
            Some(records) => Ok(records.push(record)?),
            None => differs(alloc, "no database"),
        }
    }

    fn add_file(&mut self, alloc: Global, inc: u32, creation: Scn) -> Result<(), Fault> {
        self.files = self.files.saturating_add(1);
        self.add(alloc, datafile(self.files, inc, creation, 1))
    }

    // Adds a piece, which is at hand if it is available.
    fn add_piece(&mut self, alloc: Global, numbers: &[u32], besides: Besides) -> Result<(), Fault> {
        let [id, inc, file, checkpoint, high] = numbers else {
            return differs(alloc, "no piece");
        };
        let piece = piece(alloc, *inc, *file, u64::from(*checkpoint), u64::from(*high));
        self.add(alloc, recorded(alloc, *id, &piece, besides)?)?;
        if besides.status == Status::Available {
            self.evidence.bases.push((*id, piece))?;
        }
        Ok(())
    }

    // The catalog of all records.
    fn load(&mut self, alloc: Global) -> Result<(), Fault> {
        if let Some(records) = self.records.take() {
            self.catalog = Some(catalog_of(alloc, records)?);
        }
        Ok(())
    }
}

// The ids that the policy lets go, or those of the copies of datafile 1 that it chooses.
fn ids_of(
    alloc: Global,
    call: &str,
    catalog: &Catalog,
    evidence: &Evidence,
    policy: Policy,
    start: Scn,
) -> Result<Vec<u32>, Fault> {
    if !has_database(catalog) || !do_ascend(evidence) {
        return differs(alloc, "not as they are gathered");
    }
    match call {
        "obsolete" => Ok(obsolete(alloc, catalog, evidence, policy, start)?),
        "chosen" => Ok(chosen(alloc, catalog, evidence, policy, start, 1)?),
        _ => differs(alloc, call),
    }
}

// The ids, or `none`.
fn ids_text(alloc: Global, ids: &[u32]) -> Result<String, Fault> {
    let mut out = String::from_str(alloc, if ids.is_empty() { "none" } else { "" })?;
    for id in ids {
        let blank = if out.is_empty() { "" } else { " " };
        write!(out, "{blank}{id}")?;
    }
    Ok(out)
}

impl Told for Retention {
    fn say(&mut self, alloc: Global, line: &str) -> Result<(), Fault> {
        let (word, rest) = head(line);
        let numbers = numbers::<u32>(alloc, rest)?;
        match (word, numbers.as_slice()) {
            ("database", []) => self.begin(alloc, None),
            ("database", [branch]) => self.begin(alloc, Some(u64::from(*branch))),
            ("file", [inc, creation]) => self.add_file(alloc, *inc, u64::from(*creation)),
            ("log" | "kept_log", [id, inc, first, next]) => {
                let (first, next) = (u64::from(*first), u64::from(*next));
                self.add(alloc, log(*id, *inc, first, next, besides(word)))
            }
            ("piece" | "kept_piece" | "expired_piece", numbers) => {
                self.add_piece(alloc, numbers, besides(word))
            }
            _ => differs(alloc, line),
        }
    }

    fn told(&mut self, alloc: Global, asked: &str) -> Result<String, Fault> {
        self.load(alloc)?;
        let (call, rest) = head(asked);
        let (policy, rest) = head(rest);
        let numbers = numbers::<u32>(alloc, rest)?;
        match (&self.catalog, numbers.as_slice()) {
            (Some(catalog), [number, start]) => {
                let policy = policy_of(alloc, policy, *number)?;
                let start = u64::from(*start);
                let ids = ids_of(alloc, call, catalog, &self.evidence, policy, start)?;
                ids_text(alloc, &ids)
            }
            _ => differs(alloc, asked),
        }
    }
}
