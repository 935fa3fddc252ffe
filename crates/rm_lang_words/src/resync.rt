//! The words of `resync`, and what they say.
ghost use Rattle.rm_lang_words.specs.{Resync.{resync_said}, Reading.{Gives, resync_of}};

use crate::faults::WordsFault;
use crate::form::{Entry, Kind};
use crate::options::one_words;
use crate::reader::Options;
use rm_base::Text;
use std::alloc::Global;

const FORM: [Entry; 2] = [
    Entry {
        name: "control",
        needed: true,
        kind: Kind::Text,
    },
    Entry {
        name: "catalog",
        needed: true,
        kind: Kind::Text,
    },
];

/// What the words say of a resync.
#[derive(Drop)]
pub struct ResyncWords {
    /// The control file.
    pub control: Text,
    pub catalog: Text,
}

/// The words `--control FILE --catalog FILE`, in any order, each option once, by the rules of `read_words`.
pub fn read_resync(alloc: Global, words: &[Text]) -> Result<ResyncWords, WordsFault>
    ensures said { Gives resync_of result (resync_said words.now) }
{
    let words = one_words(alloc, &FORM, words)?;
    let options = Options::read(alloc, &FORM, &words)?;
    Ok(ResyncWords {
        control: options.text(alloc, "control")?,
        catalog: options.text(alloc, "catalog")?,
    })
}
