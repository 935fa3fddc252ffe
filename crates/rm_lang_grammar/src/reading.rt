//! Reading tokens from left to right. Each function takes from the front and gives the rest.
ghost use Rattle.std.specs.Prelude.{◌≡◌, ◌≢◌, ◌≤◌, ◌++◌, IfOk, OnOk, IfErr, length};
ghost use Rattle.rm_lang_grammar.specs.Grammar.{any, in_range};
ghost use Rattle.rm_lang_grammar.specs.Reading.{Gives, begins_with, word_at, sign_at, finish_at, flag_at, number_at, number_or_at, string_at, tag_of, tag_at, named_at, more_at, numbers_at};
ghost use Rattle.rm_lang_grammar.specs.declared.unread.Unread.TheVariants.{NoMemory as WithoutMemory};

use crate::tags::is_tag;
use crate::unread::Unread;
use rm_base::{Seq, Text};
use rm_lang_token::{Token, are_string_bytes};
use std::alloc::Global;

/// The word stands first, in any case of its letters.
pub fn begins_with(tokens: &[Token], name: &[u8]) -> bool
    ensures { result ≡ begins_with name.now tokens.now }
{
    match tokens {
        [first, ..] => first.is_word(name),
        [] => false,
    }
}

/// A word, in any case of its letters.
pub fn word<'a>(tokens: &'a [Token], name: &[u8]) -> Result<&'a [Token], Unread>
    ensures { Gives (λ x. x.now) result (word_at name.now tokens.now) }
{
    match tokens {
        [first, rest @ ..] if first.is_word(name) => Ok(rest),
        _ => Err(Unread::Other),
    }
}

/// A sign, but not the comma.
pub fn sign(tokens: &[Token], sign: u8) -> Result<&[Token], Unread>
    requires { sign ≢ 44 }
    ensures { Gives (λ x. x.now) result (sign_at sign tokens.now) }
{
    match tokens {
        [first, rest @ ..] if first.is_sign(sign) => Ok(rest),
        _ => Err(Unread::Other),
    }
}

/// The `;` of the statement.
pub fn semicolon(tokens: &[Token]) -> Result<&[Token], Unread>
    ensures { Gives (λ x. x.now) result (sign_at 59 tokens.now) }
{
    sign(tokens, b';')
}

/// All tokens are read.
pub fn finish(tokens: &[Token]) -> Result<(), Unread>
    ensures { Gives (λ x. x) result (finish_at tt tokens.now) }
{
    if tokens.is_empty() {
        Ok(())
    } else {
        Err(Unread::Other)
    }
}

/// A word that may be left out, and whether it stands there.
pub fn flag<'a>(tokens: &'a [Token], name: &[u8]) -> (bool, &'a [Token])
    ensures said { result.0 ≡ (flag_at name.now tokens.now).0 }
    ensures rest { result.1.now ≡ (flag_at name.now tokens.now).1 }
{
    match tokens {
        [first, rest @ ..] if first.is_word(name) => (true, rest),
        _ => (false, tokens),
    }
}

/// A word that may be left out, and means nothing.
pub fn noise<'a>(tokens: &'a [Token], name: &[u8]) -> &'a [Token]
    ensures { result.now ≡ (flag_at name.now tokens.now).1 }
{
    flag(tokens, name).1
}

/// Any number.
pub fn number(tokens: &[Token]) -> Result<(u64, &[Token]), Unread>
    ensures { Gives (λ x. (x.0, x.1.now)) result (number_at any tokens.now) }
{
    match tokens {
        [Token::Number(n), rest @ ..] => Ok((*n, rest)),
        _ => Err(Unread::Other),
    }
}

/// A number from `low` to `high`.
pub fn number_in(tokens: &[Token], low: u64, high: u64) -> Result<(u64, &[Token]), Unread>
    ensures read { Gives (λ x. (x.0, x.1.now)) result (number_at (in_range low high) tokens.now) }
    ensures within { IfOk result (λ x. x.0 ≤ high) }
{
    match tokens {
        [Token::Number(n), rest @ ..] if (low..=high).contains(n) => Ok((*n, rest)),
        _ => Err(Unread::Other),
    }
}

/// The word and any number, or the number that is meant where both are left out.
pub fn number_or<'a>(
    tokens: &'a [Token],
    name: &[u8],
    left_out: u64,
) -> Result<(u64, &'a [Token]), Unread>
    ensures { Gives (λ x. (x.0, x.1.now)) result (number_or_at name.now left_out any tokens.now) }
{
    match tokens {
        [first, rest @ ..] if first.is_word(name) => number(rest),
        _ => Ok((left_out, tokens)),
    }
}

/// The word and a number from `low` to `high`, or the number that is meant where both are left out.
pub fn number_in_or<'a>(
    tokens: &'a [Token],
    name: &[u8],
    left_out: u64,
    low: u64,
    high: u64,
) -> Result<(u64, &'a [Token]), Unread>
    requires { left_out ≤ high }
    ensures read { Gives (λ x. (x.0, x.1.now)) result (number_or_at name.now left_out (in_range low high) tokens.now) }
    ensures within { IfOk result (λ x. x.0 ≤ high) }
{
    match tokens {
        [first, rest @ ..] if first.is_word(name) => number_in(rest, low, high),
        _ => Ok((left_out, tokens)),
    }
}

/// A string, as it stands.
pub fn string(tokens: &[Token]) -> Result<(&[u8], &[Token]), Unread>
    ensures read { Gives (λ x. (x.0.now, x.1.now)) result (string_at tokens.now) }
    ensures within { IfOk result (λ x. length x.0.now ≤ 64) }
{
    match tokens {
        [Token::Quoted(text), rest @ ..] if are_string_bytes(text.as_bytes()) => {
            Ok((text.as_bytes(), rest))
        }
        _ => Err(Unread::Other),
    }
}

// The tag in capitals.
fn tag_of(alloc: Global, name: &Text) -> Result<Text, Unread>
    ensures { Gives (λ x. x) result (tag_of name.now) }
{
    if is_tag(name.as_bytes()) {
        Ok(Text::from_string(name.as_str().to_ascii_uppercase(alloc)?))
    } else {
        Err(Unread::Other)
    }
}

/// The word TAG and a tag, which is kept in capitals.
pub fn tag(alloc: Global, tokens: &[Token]) -> Result<(Text, &[Token]), Unread>
    ensures { Gives (λ x. (x.0, x.1.now)) result (tag_at tokens.now) }
{
    let rest = word(tokens, b"TAG")?;
    match rest {
        [Token::Word(name), rest @ ..] => Ok((tag_of(alloc, name)?, rest)),
        [Token::Quoted(name), rest @ ..] => Ok((tag_of(alloc, name)?, rest)),
        _ => Err(Unread::Other),
    }
}

/// The word and any other, which means nothing.
pub fn named<'a>(tokens: &'a [Token], name: &[u8]) -> Result<&'a [Token], Unread>
    ensures { Gives (λ x. x.now) result (named_at name.now tokens.now) }
{
    match word(tokens, name)? {
        [Token::Word(_), rest @ ..] => Ok(rest),
        _ => Err(Unread::Other),
    }
}

/// A string, which is kept.
pub fn kept_string(alloc: Global, tokens: &[Token]) -> Result<(Text, &[Token]), Unread>
    ensures { Gives (λ x. (x.0, x.1.now)) result (string_at tokens.now) }
{
    match tokens {
        [Token::Quoted(text), rest @ ..] if are_string_bytes(text.as_bytes()) => {
            Ok((
                Text::from_string(String::from_str(alloc, text.as_str())?),
                rest,
            ))
        }
        _ => Err(Unread::Other),
    }
}

/// A number, and others behind commas.
pub fn numbers(alloc: Global, tokens: &[Token]) -> Result<(Seq<u64>, &[Token]), Unread>
    ensures { Gives (λ x. (x.0, x.1.now)) result (numbers_at tokens.now) }
{
    let (first, rest) = number(tokens)?;
    let mut numbers = Vec::new(alloc);
    numbers.push(first)?;
    let rest = more_numbers(&mut numbers, rest)?;
    Ok((Seq::from_vec(numbers), rest))
}

// The numbers behind commas at the front, onto those before.
fn more_numbers<'a>(numbers: &mut Vec<u64>, tokens: &'a [Token]) -> Result<&'a [Token], Unread>
    ensures numbers { OnOk result (numbers.new.items ≡ numbers.old.items ++ (more_at tokens.now).0) }
    ensures rest { IfOk result (λ rest. rest.now ≡ (more_at tokens.now).1) }
    ensures err { IfErr result (λ e. e ≡ WithoutMemory) }
{
    let mut rest = tokens;
    while let [Token::Sign(b','), Token::Number(n), after @ ..] = rest {
        numbers.push(*n)?;
        rest = after;
    }
    Ok(rest)
}
