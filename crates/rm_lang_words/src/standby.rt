//! The words of `standby`, and what they say.
ghost use Rattle.std.specs.Prelude.{◌≡◌};
ghost use Rattle.rm_lang_words.specs.{Standby.{standby_said, task_of}, Reading.{Gives, standby_of}};

use crate::faults::WordsFault;
use crate::form::{Entry, Kind};
use crate::options::one_words;
use crate::reader::Options;
use rm_base::Text;
use std::alloc::Global;

// Any number of 64 bits.
const LONG: Kind = Kind::Number {
    low: 0,
    high: 0xffff_ffff_ffff_ffff,
};

const FORM: [Entry; 6] = [
    Entry {
        name: "store",
        needed: true,
        kind: Kind::Text,
    },
    Entry {
        name: "to",
        needed: true,
        kind: Kind::Text,
    },
    Entry {
        name: "catalog",
        needed: true,
        kind: Kind::Text,
    },
    Entry {
        name: "make",
        needed: false,
        kind: LONG,
    },
    Entry {
        name: "roll",
        needed: false,
        kind: LONG,
    },
    Entry {
        name: "dump",
        needed: false,
        kind: Kind::Flag,
    },
];

/// What is to be done with a standby.
#[derive(Clone, Copy, PartialEq, Eq)]
pub enum StandbyTask {
    /// It is made as of this SCN.
    Make(u64),
    /// It is rolled forward by the increment of this number.
    Roll(u64),
    /// It is printed.
    Dump,
}

/// What the words say of a standby.
#[derive(Drop)]
pub struct StandbyWords {
    /// The folder of the database.
    pub store: Text,
    /// The folder of the standby.
    pub to: Text,
    pub catalog: Text,
    pub task: StandbyTask,
}

// The one task of those that are given.
fn task_of(make: Option<u64>, roll: Option<u64>, dump: bool) -> Option<StandbyTask>
    ensures { result ≡ task_of make roll dump }
{
    match (make, roll, dump) {
        (Some(scn), None, false) => Some(StandbyTask::Make(scn)),
        (None, Some(increment), false) => Some(StandbyTask::Roll(increment)),
        (None, None, true) => Some(StandbyTask::Dump),
        _ => None,
    }
}

/// The words `--store DIR --to DIR --catalog FILE` and one of `--make S`, `--roll N` and `--dump`, in any order, each option
/// once, by the rules of `read_words`. S and N are from 0 to 2^64 - 1. `--dump` has no value: `--dump=` is refused.
pub fn read_standby(alloc: Global, words: &[Text]) -> Result<StandbyWords, WordsFault>
    ensures said { Gives standby_of result (standby_said words.now) }
{
    let words = one_words(alloc, &FORM, words)?;
    let options = Options::read(alloc, &FORM, &words)?;
    let (make, roll) = (options.long_number("make"), options.long_number("roll"));
    let task = task_of(make, roll, options.has("dump")).ok_or(WordsFault::Bad)?;
    Ok(StandbyWords {
        store: options.text(alloc, "store")?,
        to: options.text(alloc, "to")?,
        catalog: options.text(alloc, "catalog")?,
        task,
    })
}
