//! The options that words give, as words of the one form `--name=value`.
ghost use Rattle.std.specs.{Prelude.{◌≡◌, ◌++◌, ◌∷◌, [], true, false, None, IfOk, IfErr, OnOk, map, option_map}, String.{string_bytes}};
ghost use Rattle.rm_lang_words.specs.{Options.{is_value, behind_hyphen, behind_hyphens, given_in, split}, Clap.{one_word}};
ghost use Rattle.rm_lang_words.specs.{Form.{entry_of, form_of, is_flag, is_flag_named}, Reading.{Gives, IsReadOn, IsRefused, words_behind}};
ghost use Rattle.rm_lang_words.specs.declared.faults.WordsFault.TheVariants.{Bad};

use crate::faults::WordsFault;
use crate::form::{Entry, Kind};
use rm_base::Text;
use std::alloc::{AllocError, Global};

fn is_value(word: &str) -> bool
    ensures { result ≡ is_value word.now }
{
    match word.as_bytes() {
        [first, ..] => *first != b'-',
        [] => true,
    }
}

fn behind_hyphen(word: &str) -> Option<&str>
    ensures { option_map (λ s. s.now) result ≡ behind_hyphen word.now }
{
    word.strip_prefix('-')
}

fn behind_hyphens(word: &str) -> Option<&str>
    ensures { option_map (λ s. s.now) result ≡ behind_hyphens word.now }
{
    behind_hyphen(behind_hyphen(word)?)
}

// What stands before the first `=`, and what stands behind it if there is one.
fn split(text: &str) -> (&str, Option<&str>)
    ensures { (result.0.now, option_map (λ s. s.now) result.1) ≡ split text.now }
{
    match text.split_once('=') {
        Some((name, value)) => (name, Some(value)),
        None => (text, None),
    }
}

fn one_word(alloc: Global, name: &str, value: &str) -> Result<String, AllocError>
    ensures { IfOk result (λ s. string_bytes s ≡ one_word (name.now, value.now)) }
{
    let mut word = String::new(alloc);
    word.push_str("--")?;
    word.push_str(name)?;
    word.push_str("=")?;
    word.push_str(value)?;
    Ok(word)
}

// The option as one word onto those before, if its value is one.
fn push_option(
    options: &mut Vec<String>,
    alloc: Global,
    name: &str,
    value: &str,
) -> Result<(), WordsFault>
    ensures value { OnOk result (is_value value.now ≡ true) }
    ensures pushed { OnOk result (map string_bytes options.new.items ≡ map string_bytes options.old.items ++ one_word (name.now, value.now) ∷ []) }
    ensures bad { IfErr result (λ e. e ≡ Bad → is_value value.now ≡ false) }
{
    if !is_value(value) {
        return Err(WordsFault::Bad);
    }
    options.push(one_word(alloc, name, value)?)?;
    Ok(())
}

fn is_flag(form: &[Entry], name: &str) -> bool
    ensures { result ≡ is_flag (form_of form.now) name.now }
{
    form.iter().any(|entry| is_flag_named(entry, name))
}

fn is_flag_named(entry: &Entry, name: &str) -> bool
    ensures { result ≡ is_flag_named name.now (entry_of entry.now) }
{
    matches!(entry.kind, Kind::Flag) && entry.name == name
}

// Reads what follows `--`: the option onto those before, or the name that waits for the next word.
fn read_text<'a>(
    options: &mut Vec<String>,
    alloc: Global,
    form: &[Entry],
    text: &'a str,
) -> Result<Option<&'a str>, WordsFault>
    ensures read { IfOk result (λ w. IsReadOn (is_flag (form_of form.now)) (map string_bytes options.old.items) None (45 ∷ 45 ∷ text.now) (map string_bytes options.new.items) (option_map (λ s. s.now) w)) }
    ensures bad { IfErr result (λ e. e ≡ Bad → IsRefused (is_flag (form_of form.now)) (map string_bytes options.old.items) None (45 ∷ 45 ∷ text.now)) }
{
    let (name, value) = split(text);
    match (is_flag(form, name), value) {
        (false, None) => Ok(Some(name)),
        (false, Some(value)) => {
            push_option(options, alloc, name, value)?;
            Ok(None)
        }
        (true, None) => {
            push_option(options, alloc, name, "")?;
            Ok(None)
        }
        (true, Some(_)) => Err(WordsFault::Bad),
    }
}

// Reads one word more behind the name that waits, and gives the name that waits behind it.
fn read_word<'a>(
    options: &mut Vec<String>,
    alloc: Global,
    form: &[Entry],
    waiting: Option<&'a str>,
    word: &'a str,
) -> Result<Option<&'a str>, WordsFault>
    ensures read { IfOk result (λ w. IsReadOn (is_flag (form_of form.now)) (map string_bytes options.old.items) (option_map (λ s. s.now) waiting.entry) word.now (map string_bytes options.new.items) (option_map (λ s. s.now) w)) }
    ensures bad { IfErr result (λ e. e ≡ Bad → IsRefused (is_flag (form_of form.now)) (map string_bytes options.old.items) (option_map (λ s. s.now) waiting.entry) word.now) }
{
    let Some(name) = waiting else {
        let text = behind_hyphens(word).ok_or(WordsFault::Bad)?;
        return read_text(options, alloc, form, text);
    };
    push_option(options, alloc, name, word)?;
    Ok(None)
}

/// Each option of the words as one word, in order. A flag gets an empty value.
pub fn one_words(alloc: Global, form: &[Entry], words: &[Text]) -> Result<Vec<String>, WordsFault>
    ensures { Gives (λ v. map string_bytes v.items) result (words_behind [] (given_in (is_flag (form_of form.now)) words.now)) }
{
    let mut options = Vec::new(alloc);
    let mut waiting: Option<&str> = None;
    for word in words {
        waiting = read_word(&mut options, alloc, form, waiting, word.as_str())?;
    }
    if waiting.is_some() {
        return Err(WordsFault::Bad);
    }
    Ok(options)
}
