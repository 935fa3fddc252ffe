//! The words of `duplicate`, and what they say.
ghost use Rattle.std.specs.Prelude.{◌≡◌, ◌≤◌, IfOk, IfSome};
ghost use Rattle.rm_lang_words.specs.{Duplicate.{duplicate_said}, Reading.{Gives, duplicate_of}};

use crate::faults::WordsFault;
use crate::form::{Entry, Kind};
use crate::options::one_words;
use crate::reader::Options;
use rm_base::Text;
use std::alloc::Global;

// Any number of 32 bits, and of 64.
const WORD: Kind = Kind::Number {
    low: 0,
    high: 0xffff_ffff,
};

const LONG: Kind = Kind::Number {
    low: 0,
    high: 0xffff_ffff_ffff_ffff,
};

const FORM: [Entry; 9] = [
    Entry {
        name: "store",
        needed: true,
        kind: Kind::Text,
    },
    Entry {
        name: "to",
        needed: true,
        kind: Kind::Text,
    },
    Entry {
        name: "catalog",
        needed: true,
        kind: Kind::Text,
    },
    Entry {
        name: "dbid",
        needed: true,
        kind: Kind::Number {
            low: 1,
            high: 0xffff_ffff,
        },
    },
    Entry {
        name: "number",
        needed: true,
        kind: WORD,
    },
    Entry {
        name: "until",
        needed: true,
        kind: LONG,
    },
    Entry {
        name: "from",
        needed: false,
        kind: WORD,
    },
    Entry {
        name: "incarnation",
        needed: false,
        kind: LONG,
    },
    Entry {
        name: "channels",
        needed: false,
        kind: Kind::Number { low: 1, high: 16 },
    },
];

/// What the words say of a duplicate.
#[derive(Drop)]
pub struct DuplicateWords {
    /// The folder of the source.
    pub store: Text,
    /// The folder of the duplicate.
    pub to: Text,
    pub catalog: Text,
    /// The duplicate's dbid, at least 1.
    pub dbid: u32,
    /// The number of the duplicate in the catalog.
    pub number: u32,
    /// The SCN of the target.
    pub until: u64,
    /// The number of the source in the catalog: 0 where none is said.
    pub from: u32,
    /// The incarnation of the target. Where none is said it is the current one.
    pub incarnation: Option<u64>,
    /// From 1 to 16.
    pub channels: Option<u32>,
}

/// The words `--store DIR --to DIR --catalog FILE --dbid D --number N --until S [--from M] [--incarnation I]
/// [--channels C]`, in any order, each option once, by the rules of `read_words`. D is decimal digits from 1 to 2^32 - 1, N
/// and M are from 0 to 2^32 - 1, S and I from 0 to 2^64 - 1, and C is from 1 to 16.
pub fn read_duplicate(alloc: Global, words: &[Text]) -> Result<DuplicateWords, WordsFault>
    ensures said { Gives duplicate_of result (duplicate_said words.now) }
    ensures dbid { IfOk result (λ w. 1 ≤ w.dbid) }
    ensures channels { IfOk result (λ w. IfSome w.channels (λ n. (1 ≤ n) × (n ≤ 16))) }
{
    let words = one_words(alloc, &FORM, words)?;
    let options = Options::read(alloc, &FORM, &words)?;
    Ok(DuplicateWords {
        store: options.text(alloc, "store")?,
        to: options.text(alloc, "to")?,
        catalog: options.text(alloc, "catalog")?,
        dbid: options.number("dbid").unwrap_or(0),
        number: options.number("number").unwrap_or(0),
        until: options.long_number("until").unwrap_or(0),
        from: options.number("from").unwrap_or(0),
        incarnation: options.long_number("incarnation"),
        channels: options.number("channels"),
    })
}
