//! The reader of options, for every form.
ghost use Rattle.std.specs.Prelude.{◌≡◌, List, map, option_map, option_and_then, is_some, unwrap_or, [], IfOk, IfErr, true, false};
ghost use Rattle.std.specs.{List.{list_all}, String.{string_bytes}};
ghost use Rattle.rm_lang_words.specs.{Options.{Text as Bytes}, Clap.{value_at}, Form.{accepts, entry_of, form_of, is_met_by, number_in}};
ghost use Rattle.rm_lang_words.specs.{Reading.{AreOf, AreRead}, declared.faults.WordsFault.TheVariants.{Bad}};

use crate::clap_command::find;
use crate::faults::WordsFault;
use crate::form::Entry;
use crate::values::{has_value, number_in};
use clap::ArgMatches;
use rm_base::{NoMemory, Text};
use std::alloc::Global;

/// The options of words that obey a form.
#[derive(Drop)]
pub struct Options<'a> {
    matches: ArgMatches<'a>,
}

impl<'a> Options<'a> {
    /// The options that a program's words give, handed in as one word each. `Bad` where they do not obey the form.
    pub fn read(
        alloc: Global,
        form: &[Entry],
        words: &'a [String],
    ) -> Result<Options<'a>, WordsFault>
        ensures obeyed { IfOk result (λ o. (asked : List Bytes) → AreOf (form_of form.now) asked (map string_bytes words.now) → AreRead (form_of form.now) asked o.matches) }
        ensures refused { IfErr result (λ e. e ≡ Bad → (asked : List Bytes) → AreOf (form_of form.now) asked (map string_bytes words.now) → accepts (form_of form.now) asked ≡ false) }
    {
        let matches = find(alloc, form, words)?;
        if are_met(form, &matches) {
            Ok(Options { matches })
        } else {
            Err(WordsFault::Bad)
        }
    }

    /// The text that is given under the name, or an empty one.
    pub fn text(&self, alloc: Global, name: &str) -> Result<Text, NoMemory>
        ensures { IfOk result (λ t. t ≡ unwrap_or (value_at self.now.matches name.now) []) }
    {
        let mut text = String::new(alloc);
        text.push_str(self.matches.get_str(name).unwrap_or(""))?;
        Ok(Text::from_string(text))
    }

    /// The text that is given under the name.
    pub fn text_if_given(&self, alloc: Global, name: &str) -> Result<Option<Text>, NoMemory>
        ensures { IfOk result (λ t. t ≡ value_at self.now.matches name.now) }
    {
        if !self.has(name) {
            return Ok(None);
        }
        Ok(Some(self.text(alloc, name)?))
    }

    /// Whether the option is given.
    pub fn has(&self, name: &str) -> bool
        ensures { result ≡ is_some (value_at self.now.matches name.now) }
    {
        self.matches.get_str(name).is_some()
    }

    /// The number that is given under the name, if it fits.
    pub fn number(&self, name: &str) -> Option<u32>
        ensures { result ≡ option_and_then (number_in 0 4294967295) (value_at self.now.matches name.now) }
    {
        let number = number_in(self.matches.get_str(name)?, 0, 0xffff_ffff)?;
        Some(number as u32)
    }

    /// The number that is given under the name.
    pub fn long_number(&self, name: &str) -> Option<u64>
        ensures { result ≡ option_and_then (number_in 0 18446744073709551615) (value_at self.now.matches name.now) }
    {
        number_in(self.matches.get_str(name)?, 0, u64::MAX)
    }
}

// Each entry of the form is met by the value of its name.
fn are_met(form: &[Entry], matches: &ArgMatches<'_>) -> bool
    ensures { result ≡ list_all (λ e. is_met_by (value_at matches.now e.name.now) (entry_of e)) form.now }
{
    form.iter().all(|entry| is_met(entry, matches))
}

// The entry is given such a value, or it is given none and needs none.
fn is_met(entry: &Entry, matches: &ArgMatches<'_>) -> bool
    ensures { result ≡ is_met_by (value_at matches.now (entry_of entry.now).name) (entry_of entry.now) }
{
    match matches.get_str(entry.name) {
        Some(value) => has_value(entry.kind, value),
        None => !entry.needed,
    }
}
