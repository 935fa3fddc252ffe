//! The table of what RECOVER COPY makes of the copies of a store.
ghost use Rattle.std.specs.Prelude.{IfOk};
ghost use Rattle.rm_catalog.specs.{Rules.{HasDatabase}, Trees.{nodes}};
ghost use Rattle.rm_evidence.specs.Known.{FitsTree};

use crate::made::{catalog_of, three_branches};
use crate::pieces::{copy_text, pairs_text, piece_of};
use rm_backup::{Renewed, next_level1, recover_copy};
use rm_base::sealed::digest_of;
use rm_base::{Failing, Kind, MemStore, NoMemory, Scn, Seq, Status, Store, StoreFailing, Text};
use rm_catalog::{Catalog, PieceEntry, Record};
use rm_evidence::{Evidence, EvidenceFault, InPlace, fits_place, gather, has_database, piece_name};
use rm_piece::{Piece, encode_piece, is_valid};
use rm_test_harness::{Fault, Told, differs, head, status_of};
use std::alloc::Global;

/// The records of the row, of which there is a catalog from its first case on, and the objects that they name.
#[derive(Drop)]
pub struct Shelf {
    records: Option<Seq<Record>>,
    catalog: Option<Catalog>,
    store: MemStore,
}

/// A store of which no call fails.
pub fn empty(alloc: Global) -> MemStore {
    let failing = StoreFailing {
        gets: Failing::new(Vec::new(alloc)),
        puts: Failing::new(Vec::new(alloc)),
        removes: Failing::new(Vec::new(alloc)),
        names: Failing::new(Vec::new(alloc)),
    };
    MemStore::new(alloc, failing)
}

// The record of a piece with the tag `inc`: an image copy, if it is a level 0.
fn entry(
    alloc: Global,
    id: u32,
    piece: &Piece,
    status: Status,
    bytes: &[u8],
) -> Result<PieceEntry, NoMemory> {
    Ok(PieceEntry {
        id,
        copy: piece.kind == Kind::Level0,
        kind: piece.kind,
        inc: piece.inc,
        file: piece.file,
        from: piece.from,
        checkpoint: piece.checkpoint,
        high: piece.high,
        rows: u32::try_from(piece.rows.len()).unwrap_or(0),
        size: bytes.len() as u64,
        sha: digest_of(bytes),
        status,
        keep: false,
        tag: Text::from_string(String::from_str(alloc, "inc")?),
        moment: 0,
    })
}

impl Shelf {
    pub fn new(alloc: Global) -> Shelf {
        Shelf {
            records: None,
            catalog: None,
            store: empty(alloc),
        }
    }

    fn begin(&mut self, alloc: Global) -> Result<(), Fault> {
        self.records = Some(three_branches(alloc, 1)?);
        self.store = empty(alloc);
        Ok(())
    }

    // Puts and records a piece.
    fn add(&mut self, alloc: Global, id: u32, piece: &Piece, status: Status) -> Result<(), Fault> {
        let Some(records) = &mut self.records else {
            return differs(alloc, "no shelf");
        };
        if !is_valid(piece) {
            return differs(alloc, "not valid");
        }
        let bytes = encode_piece(alloc, piece)?;
        let entry = entry(alloc, id, piece, status, bytes.as_slice())?;
        let name = piece_name(alloc, entry.copy, id)?;
        if self.store.put(name.as_str(), bytes.as_slice()).is_err() {
            return differs(alloc, "no object");
        }
        records.push(Record::Piece(entry))?;
        Ok(())
    }

    fn remove(&mut self, alloc: Global, name: &str) -> Result<(), Fault> {
        match self.store.remove(name) {
            Ok(()) => Ok(()),
            Err(_) => differs(alloc, name),
        }
    }

    // The catalog of all records.
    fn load(&mut self, alloc: Global) -> Result<(), Fault> {
        if let Some(records) = self.records.take() {
            self.catalog = Some(catalog_of(alloc, records)?);
        }
        Ok(())
    }
}

/// What is at hand.
pub fn found(alloc: Global, catalog: &Catalog, store: &mut MemStore) -> Result<Evidence, Fault>
    requires { HasDatabase catalog.now }
    ensures { IfOk result (λ e. FitsTree (nodes catalog.now) e) }
{
    let place = InPlace {
        files: Seq::new(alloc),
        logs: Seq::new(alloc),
    };
    if !fits_place(catalog, &place) {
        return differs(alloc, "nothing does not fit");
    }
    match gather(alloc, catalog, store, &place) {
        Ok(evidence) => Ok(evidence),
        Err(EvidenceFault::StoreFault) => {
            let what = String::from_str(alloc, "the store fails")?;
            Err(Fault::Differs(what))
        }
        Err(EvidenceFault::NoMemory) => Err(Fault::NoMemory),
    }
}

// The level 1 that the copy takes over next.
fn next_told(
    alloc: Global,
    catalog: &Catalog,
    store: &mut MemStore,
    until: Scn,
    copy: &Piece,
) -> Result<String, Fault> {
    if !has_database(catalog) {
        return differs(alloc, "no database");
    }
    let evidence = found(alloc, catalog, store)?;
    let level1s = evidence.level1s.as_slice();
    match next_level1(catalog, 1, "inc", until, level1s, copy) {
        Some((id, _)) => Ok(format!(in alloc; "{id}")?),
        None => Ok(String::from_str(alloc, "none")?),
    }
}

// The text of what became of a copy.
fn renewed_text(alloc: Global, renewed: &Renewed) -> Result<String, Fault> {
    let Renewed { id, checkpoint, .. } = renewed;
    let above = pairs_text(alloc, renewed.above.as_slice())?;
    let merged = match &renewed.merged {
        Some(merged) => copy_text(alloc, merged)?,
        None => String::from_str(alloc, "stays")?,
    };
    let (above, merged) = (above.as_str(), merged.as_str());
    Ok(format!(in alloc; "{id} {checkpoint} above {above}, {merged}")?)
}

// What becomes of the copy until this SCN.
fn renewed_told(
    alloc: Global,
    catalog: &Catalog,
    store: &mut MemStore,
    until: Scn,
) -> Result<String, Fault> {
    if !has_database(catalog) {
        return differs(alloc, "no database");
    }
    let evidence = found(alloc, catalog, store)?;
    match recover_copy(alloc, catalog, &evidence, 1, "inc", until)? {
        Some(renewed) => renewed_text(alloc, &renewed),
        None => differs(alloc, "no copy"),
    }
}

// The number of this word.
fn number(alloc: Global, word: &str) -> Result<u32, Fault> {
    match word.parse::<u32>() {
        Ok(number) => Ok(number),
        Err(_) => differs(alloc, word),
    }
}

impl Told for Shelf {
    fn say(&mut self, alloc: Global, line: &str) -> Result<(), Fault> {
        match head(line) {
            ("shelf", _) => self.begin(alloc),
            ("remove", name) => self.remove(alloc, name),
            (status, rest) => {
                let (id, text) = head(rest);
                let piece = piece_of(alloc, text)?;
                let status = status_of(alloc, status)?;
                self.add(alloc, number(alloc, id)?, &piece, status)
            }
        }
    }

    fn told(&mut self, alloc: Global, asked: &str) -> Result<String, Fault> {
        self.load(alloc)?;
        let Some(catalog) = &self.catalog else {
            return differs(alloc, "no shelf");
        };
        let (call, rest) = head(asked);
        let (until, text) = head(rest);
        let until = u64::from(number(alloc, until)?);
        match call {
            "next" => {
                let copy = piece_of(alloc, text)?;
                next_told(alloc, catalog, &mut self.store, until, &copy)
            }
            "until" => renewed_told(alloc, catalog, &mut self.store, until),
            _ => differs(alloc, call),
        }
    }
}
