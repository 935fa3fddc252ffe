//! The command line that `clap` reads.
ghost use Rattle.std.specs.{Prelude.{◌≡◌, ◌≢◌, [], map, IfOk, IfErr, true, false}, String.{string_bytes}};
ghost use Rattle.clap.specs.{Words.{app_of, kind_of, rule_of}, declared.error.kind.ErrorKind.TheVariants.{OutOfMemory}};
ghost use Rattle.rm_lang_words.specs.{Options.{Text as Bytes}, Clap.{app_of_form, faults, found, rule_of_entry, value_at}};
ghost use Rattle.rm_lang_words.specs.{Form.{entry_of, form_of}, declared.faults.WordsFault.TheVariants.{Bad}};

use crate::faults::WordsFault;
use crate::form::Entry;
use clap::error::ErrorKind;
use clap::{Arg, ArgAction, ArgMatches, Command, Error};
use std::alloc::{AllocError, Global};

fn argument<'a>(alloc: Global, entry: Entry) -> Arg<'a>
    ensures rule { rule_of result ≡ rule_of_entry (entry_of entry) }
    ensures alone { result.global ≡ false }
{
    Arg::new(alloc, entry.name)
        .long(entry.name)
        .required(entry.needed)
        .action(ArgAction::Set)
}

// An argument for each entry of the form.
fn command<'a>(alloc: Global, form: &[Entry]) -> Result<Command<'a>, AllocError>
    ensures { IfOk result (λ c. app_of c ≡ app_of_form (form_of form.now)) }
{
    let mut command = Command::new(alloc, "rman")
        .no_binary_name(true)
        .disable_help_flag(true)
        .disable_version_flag(true);
    for entry in form {
        command = command.arg(argument(alloc, *entry))?;
    }
    Ok(command)
}

// Want of memory, or else the words are refused.
fn refusal(error: &Error) -> WordsFault
    ensures { result ≡ Bad → kind_of error.now ≢ OutOfMemory }
{
    if error.kind() == ErrorKind::OutOfMemory {
        WordsFault::NoMemory
    } else {
        WordsFault::Bad
    }
}

/// What `clap` finds in the words by the form.
pub fn find<'a>(
    alloc: Global,
    form: &[Entry],
    words: &'a [String],
) -> Result<ArgMatches<'a>, WordsFault>
    ensures taken { IfOk result (λ _. faults (form_of form.now) (map string_bytes words.now) ≡ []) }
    ensures values { IfOk result (λ m. (name : Bytes) → value_at m name ≡ found (form_of form.now) name (map string_bytes words.now)) }
    ensures refused { IfErr result (λ e. e ≡ Bad → faults (form_of form.now) (map string_bytes words.now) ≢ []) }
{
    let command = command(alloc, form)?;
    match command.try_get_matches_from(words) {
        Ok(matches) => Ok(matches),
        Err(error) => Err(refusal(&error)),
    }
}
