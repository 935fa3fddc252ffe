//! The words of `run`, and what they say.
ghost use Rattle.std.specs.Prelude.{◌≡◌, ◌≤◌, IfOk, IfSome};
ghost use Rattle.rm_lang_words.specs.{Words.{said}, Reading.{Gives, said_of}};

use crate::faults::WordsFault;
use crate::form::{Entry, Kind};
use crate::options::one_words;
use crate::reader::Options;
use rm_base::Text;
use std::alloc::Global;

const FORM: [Entry; 6] = [
    Entry {
        name: "store",
        needed: true,
        kind: Kind::Text,
    },
    Entry {
        name: "catalog",
        needed: true,
        kind: Kind::Text,
    },
    Entry {
        name: "channels",
        needed: false,
        kind: Kind::Number { low: 1, high: 16 },
    },
    Entry {
        name: "drill",
        needed: false,
        kind: Kind::Number {
            low: 0,
            high: 0xffff_ffff_ffff_ffff,
        },
    },
    Entry {
        name: "database",
        needed: false,
        kind: Kind::Number {
            low: 0,
            high: 0xffff_ffff,
        },
    },
    Entry {
        name: "control",
        needed: false,
        kind: Kind::Text,
    },
];

/// What the words say.
#[derive(Drop)]
pub struct Words {
    pub store: Text,
    pub catalog: Text,
    /// From 1 to 16.
    pub channels: Option<u32>,
    /// The number of the drill.
    pub drill: Option<u64>,
    /// Which database of the catalog serves: number 0 where none is said.
    pub database: Option<u32>,
    /// The control file.
    pub control: Option<Text>,
}

/// The words `--store DIR --catalog FILE [--channels N] [--drill N] [--database N] [--control FILE]`, in any order, each
/// option once. `--name=value` is `--name value`. A value may be empty, and does not begin with `-`. N is decimal digits: of the channels
/// from 1 to 16, of a drill from 0 to 2^64 - 1, of a database from 0 to 2^32 - 1.
pub fn read_words(alloc: Global, words: &[Text]) -> Result<Words, WordsFault>
    ensures said { Gives said_of result (said words.now) }
    ensures channels { IfOk result (λ w. IfSome w.channels (λ n. (1 ≤ n) × (n ≤ 16))) }
{
    let words = one_words(alloc, &FORM, words)?;
    let options = Options::read(alloc, &FORM, &words)?;
    Ok(Words {
        store: options.text(alloc, "store")?,
        catalog: options.text(alloc, "catalog")?,
        channels: options.number("channels"),
        drill: options.long_number("drill"),
        database: options.number("database"),
        control: options.text_if_given(alloc, "control")?,
    })
}
