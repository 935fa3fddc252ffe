//! The table of worked rows: later-copy-tells, orphan-copy, missing-thread-log, failover, from-is-listed, thread-off-and-on, and
//! datafiles.
use crate::asked::{asked, asked_file, asked_first};
use crate::made::{catalog, catalog_of, log, nothing, piece, switch_entry};
use rm_base::{Block, BlockNo, IncNo, Kind, Part, Scn, ThreadNo};
use rm_catalog::Catalog;
use rm_evidence::Evidence;
use rm_history::Switch;
use rm_plan::{Gap, PlanFault};
use rm_test_harness::{Fault, Told, differs, head, kind_of, numbers, rows, text_of};
use std::alloc::Global;

/// The catalog of the row, and what is at hand.
#[derive(Drop)]
pub struct Plans {
    catalog: Option<Catalog>,
    evidence: Evidence,
}

// The redo thread of this number.
fn thread_of(number: u32) -> ThreadNo {
    u8::try_from(number).unwrap_or(0)
}

impl Plans {
    pub fn new(alloc: Global) -> Plans {
        Plans {
            catalog: None,
            evidence: nothing(alloc),
        }
    }

    // A new row begins with its catalog.
    fn begin(
        &mut self,
        alloc: Global,
        threads: u32,
        blocks: u32,
        branch: Option<Scn>,
    ) -> Result<(), Fault> {
        self.catalog = Some(catalog(alloc, thread_of(threads), blocks, branch)?);
        self.evidence = nothing(alloc);
        Ok(())
    }

    // A thread is switched on or off.
    fn add_switch(&mut self, alloc: Global, numbers: &[u32], on: bool) -> Result<(), Fault> {
        let (Some(catalog), [id, thread, inc, scn]) = (self.catalog.take(), numbers) else {
            return differs(alloc, "no switch");
        };
        let switch = Switch {
            thread: thread_of(*thread),
            inc: *inc,
            scn: u64::from(*scn),
            on,
        };
        let (mut records, _) = catalog.into_parts();
        records.push(switch_entry(*id, switch))?;
        self.catalog = Some(catalog_of(alloc, records)?);
        Ok(())
    }

    fn add_log(&mut self, alloc: Global, numbers: &[u32], text: &str) -> Result<(), Fault> {
        let [id, thread, inc, first, next] = numbers else {
            return differs(alloc, text);
        };
        let rows = rows(alloc, text)?;
        let range = (u64::from(*first), u64::from(*next));
        let log = log(alloc, thread_of(*thread), *inc, range, rows.as_slice())?;
        self.evidence.logs.push((*id, log))?;
        Ok(())
    }

    fn add_piece(
        &mut self,
        alloc: Global,
        word: &str,
        numbers: &[u32],
        text: &str,
    ) -> Result<(), Fault> {
        let kind = kind_of(alloc, word)?;
        let [id, inc, from, checkpoint] = numbers else {
            return differs(alloc, text);
        };
        let rows = rows(alloc, text)?;
        let piece = piece(kind, *inc, u64::from(*from), u64::from(*checkpoint), rows);
        if kind == Kind::Level1 {
            self.evidence.level1s.push((*id, piece))?;
        } else {
            self.evidence.bases.push((*id, piece))?;
        }
        Ok(())
    }
}

fn gap_text(alloc: Global, gap: Gap) -> Result<String, Fault> {
    let Gap {
        file,
        block,
        inc,
        scn,
    } = gap;
    Ok(format!(in alloc; "gap {file} {block} {inc} {scn}")?)
}

fn fault_text(alloc: Global, fault: PlanFault) -> Result<String, Fault> {
    match fault {
        PlanFault::Gap(gap) => gap_text(alloc, gap),
        PlanFault::NoMemory => Err(Fault::NoMemory),
    }
}

fn version_text(alloc: Global, version: Scn, content: &Block) -> Result<String, Fault> {
    Ok(format!(in alloc; "{version} {}", text_of(content))?)
}

// The parts: BLOCK VERSION TEXT, and so on.
fn parts_text(alloc: Global, parts: &[Part]) -> Result<String, Fault> {
    let mut out = String::new(alloc);
    for part in parts {
        let comma = if out.is_empty() { "" } else { ", " };
        let text = text_of(&part.content);
        write!(out, "{comma}{} {} {text}", part.block, part.version)?;
    }
    Ok(out)
}

// What is told of a block of datafile 1 until `s` of incarnation `i`.
fn block_told(
    alloc: Global,
    evidence: &Evidence,
    catalog: &Catalog,
    i: IncNo,
    s: Scn,
    block: BlockNo,
) -> Result<String, Fault> {
    match asked(alloc, evidence, catalog, i, s, 1, block) {
        Some(Ok(told)) => version_text(alloc, told.version, &told.content),
        Some(Err(fault)) => fault_text(alloc, fault),
        None => differs(alloc, "may not be asked"),
    }
}

// What is told of datafile 1 until `s` of incarnation 1.
fn file_told(
    alloc: Global,
    evidence: &Evidence,
    catalog: &Catalog,
    s: Scn,
) -> Result<String, Fault> {
    match asked_file(alloc, evidence, catalog, 1, s, 1) {
        Some(Ok(parts)) => parts_text(alloc, parts.as_slice()),
        Some(Err(fault)) => fault_text(alloc, fault),
        None => differs(alloc, "may not be asked"),
    }
}

// The first gap until `s` of incarnation 1.
fn first_told(
    alloc: Global,
    evidence: &Evidence,
    catalog: &Catalog,
    s: Scn,
) -> Result<String, Fault> {
    match asked_first(alloc, evidence, catalog, 1, s) {
        Some(Ok(Some(gap))) => gap_text(alloc, gap),
        Some(Ok(None)) => Ok(String::from_str(alloc, "none")?),
        Some(Err(_)) => Err(Fault::NoMemory),
        None => differs(alloc, "may not be asked"),
    }
}

impl Told for Plans {
    fn say(&mut self, alloc: Global, line: &str) -> Result<(), Fault> {
        let (front, text) = line.split_once(": ").unwrap_or((line, ""));
        let (word, rest) = head(front);
        let numbers = numbers::<u32>(alloc, rest)?;
        match (word, numbers.as_slice()) {
            ("catalog", [threads, blocks]) => self.begin(alloc, *threads, *blocks, None),
            ("catalog", [threads, blocks, branch]) => {
                self.begin(alloc, *threads, *blocks, Some(u64::from(*branch)))
            }
            ("on", numbers) => self.add_switch(alloc, numbers, true),
            ("off", numbers) => self.add_switch(alloc, numbers, false),
            ("log", [id, thread]) => self.add_log(alloc, &[*id, *thread, 1, 1, 5], text),
            ("log", numbers) => self.add_log(alloc, numbers, text),
            (word, numbers) => self.add_piece(alloc, word, numbers, text),
        }
    }

    fn told(&mut self, alloc: Global, asked: &str) -> Result<String, Fault> {
        let Some(catalog) = &self.catalog else {
            return differs(alloc, "no catalog");
        };
        let (word, rest) = head(asked);
        let numbers = numbers::<u32>(alloc, rest)?;
        match (word, numbers.as_slice()) {
            ("block", [s, block]) => {
                block_told(alloc, &self.evidence, catalog, 1, u64::from(*s), *block)
            }
            ("block", [s, block, inc]) => {
                block_told(alloc, &self.evidence, catalog, *inc, u64::from(*s), *block)
            }
            ("file", [s]) => file_told(alloc, &self.evidence, catalog, u64::from(*s)),
            ("first", [s]) => first_told(alloc, &self.evidence, catalog, u64::from(*s)),
            _ => differs(alloc, asked),
        }
    }
}
