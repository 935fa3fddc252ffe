//! What a line of a table says: its first word, numbers, texts between quotes, and the words of kinds and statuses.
ghost use Rattle.std.specs.{Prelude.{◌≡◌, ◌≢◌, ◌==◌, ℕ, List, [], ◌∷◌, ◌++◌, Ok, IfOk, IfErr}, List.{after_first, before_first}};
ghost use Rattle.rm_base.specs.declared.kinds.{Kind.{Kind, TheVariants.{Place}}, Status.{Status}};
ghost use Rattle.rm_test_harness.specs.{Faults.{Tells}, Words.{kind_word, status_word}};

use crate::fault::{Fault, differs};
use rm_base::{Kind, Status};
use std::alloc::Global;
use std::fmt::Debug;
use std::str::FromStr;

/// The first word of a line, and what follows.
pub fn head(line: &str) -> (&str, &str)
    ensures first { result.0.now ≡ before_first (λ b. b == 32) line.now }
    ensures rest { result.1.now ≡ after_first (λ b. b == 32) line.now }
{
    match line.split_once(' ') {
        Some(parts) => parts,
        None => (line, ""),
    }
}

/// The numbers that are given.
pub fn numbers<N: FromStr>(alloc: Global, given: &str) -> Result<Vec<N>, Fault>
where
    N: Drop,
    N::Err: Drop,
{
    let mut numbers = Vec::new(alloc);
    for word in given.split_whitespace() {
        match word.parse::<N>() {
            Ok(number) => numbers.push(number)?,
            Err(_) => return differs(alloc, word),
        }
    }
    Ok(numbers)
}

/// The text between double quotes; one without both of them stays as it is.
pub fn unquoted(text: &str) -> &str
    ensures { (t : List ℕ) → text.now ≡ 34 ∷ (t ++ (34 ∷ [])) → result.now ≡ t }
{
    let Some(rest) = text.strip_prefix('"') else {
        return text;
    };
    match rest.strip_suffix('"') {
        Some(inner) => inner,
        None => text,
    }
}

/// The value as it is shown.
pub fn shown<T: Debug + Drop>(alloc: Global, value: T) -> Result<String, Fault> {
    Ok(format!(in alloc; "{value:?}")?)
}

/// The kind of this word, but not that of a datafile in place.
pub fn kind_of(alloc: Global, word: &str) -> Result<Kind, Fault>
    ensures read { IfOk result (λ k. word.now ≡ kind_word k) }
    ensures known { (k : Kind) → k ≢ Place → word.now ≡ kind_word k → result ≡ Ok k }
    ensures told { IfErr result (Tells word.now) }
{
    match word {
        "full" => Ok(Kind::Full),
        "level_0" => Ok(Kind::Level0),
        "level_1" => Ok(Kind::Level1),
        _ => differs(alloc, word),
    }
}

/// The word of a kind.
pub fn word_of(kind: Kind) -> &'static str
    ensures { result.now ≡ kind_word kind }
{
    match kind {
        Kind::Full => "full",
        Kind::Level0 => "level_0",
        Kind::Level1 => "level_1",
        Kind::Place => "place",
    }
}

/// The status of this word.
pub fn status_of(alloc: Global, word: &str) -> Result<Status, Fault>
    ensures read { IfOk result (λ s. word.now ≡ status_word s) }
    ensures known { (s : Status) → word.now ≡ status_word s → result ≡ Ok s }
    ensures told { IfErr result (Tells word.now) }
{
    match word {
        "available" => Ok(Status::Available),
        "unavailable" => Ok(Status::Unavailable),
        "expired" => Ok(Status::Expired),
        _ => differs(alloc, word),
    }
}
