//! The values of options.
ghost use Rattle.std.specs.{Prelude.{◌≡◌, ◌≤◌, ◌&&◌, IfSome, nat_le, option_map}, Str.{all_ascii_digits}};
ghost use Rattle.rm_lang_words.specs.Form.{has_value, number_in};

use crate::form::Kind;

/// The text is a value of the kind.
pub fn has_value(kind: Kind, text: &str) -> bool
    ensures { result ≡ has_value kind text.now }
{
    match kind {
        Kind::Text => true,
        Kind::Number { low, high } => number_in(text, low, high).is_some(),
        Kind::Flag => text.is_empty(),
    }
}

/// The number that the digits spell, if it is from `low` to `high`.
pub fn number_in(text: &str, low: u64, high: u64) -> Option<u64>
    ensures is { result ≡ number_in low high text.now }
    ensures between { IfSome result (λ n. (low ≤ n) × (n ≤ high)) }
{
    if !are_digits(text) {
        return None;
    }
    match text.parse::<u64>() {
        Ok(number) => {
            if is_between(number, low, high) {
                Some(number)
            } else {
                None
            }
        }
        Err(_) => None,
    }
}

fn is_between(number: u64, low: u64, high: u64) -> bool
    ensures { result ≡ (nat_le low number && nat_le number high) }
{
    low <= number && number <= high
}

fn are_digits(text: &str) -> bool
    ensures { result ≡ all_ascii_digits text.now }
{
    for byte in text.as_bytes() {
        if !byte.is_ascii_digit() {
            return false;
        }
    }
    true
}
