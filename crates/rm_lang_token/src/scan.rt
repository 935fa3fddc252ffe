//! One lexeme of a script: a separator, a comment or a token.
ghost use Rattle.std.specs.{Prelude.{◌≡◌, ◌≤◌, ◌<◌, ◌∷◌, IfOk, IsTrue, All, length}, Char.{is_ascii_digit, is_ascii_alphabetic}};
ghost use Rattle.std.specs.List.{prefix_len};
ghost use Rattle.rm_lang_token.specs.Tokens.{is_separator, is_word_byte, is_string_byte, is_sign, stays_in_line, number_after, number_token, word_lexeme, number_lexeme, string_lexeme, lexeme};

use crate::token::Token;
use rm_base::{NoMemory, Text};
use std::alloc::Global;

fn is_separator(byte: u8) -> bool
    ensures { result ≡ is_separator byte }
{
    matches!(byte, b' ' | b'\t' | b'\r' | b'\n')
}

/// The byte may stand in a word behind its first letter: a letter, a digit or an underscore.
pub fn is_word_byte(byte: u8) -> bool
    ensures { result ≡ is_word_byte byte }
{
    byte.is_ascii_alphanumeric() || byte == b'_'
}

pub fn is_string_byte(byte: u8) -> bool
    ensures { result ≡ is_string_byte byte }
{
    (b' '..=b'~').contains(&byte) && byte != b'\''
}

fn is_sign(byte: u8) -> bool
    ensures { result ≡ is_sign byte }
{
    matches!(byte, b';' | b',' | b'{' | b'}')
}

// How many bytes at the front are of a word.
fn word_len(bytes: &[u8]) -> usize
    ensures len { result ≡ prefix_len is_word_byte bytes.now }
    ensures within { result ≤ length bytes.now }
{
    bytes.iter().take_while(|byte| is_word_byte(**byte)).count()
}

// How many bytes at the front may stand in a string.
fn string_len(bytes: &[u8]) -> usize
    ensures { result ≡ prefix_len is_string_byte bytes.now }
{
    bytes
        .iter()
        .take_while(|byte| is_string_byte(**byte))
        .count()
}

// How many bytes are before the end of the line.
fn line_len(bytes: &[u8]) -> usize
    ensures len { result ≡ prefix_len stays_in_line bytes.now }
    ensures within { result ≤ length bytes.now }
{
    bytes.iter().take_while(|byte| **byte != b'\n').count()
}

// The number that digits spell behind a value.
fn number_of(front: u64, digits: &[u8]) -> Option<u64>
    ensures { result ≡ number_after front digits.now }
{
    let mut value = front;
    for digit in digits {
        if !digit.is_ascii_digit() {
            return None;
        }
        value = value
            .checked_mul(10)?
            .checked_add(u64::from(*digit - b'0'))?;
    }
    Some(value)
}

// The token of a digit and the word bytes behind it.
fn number_token(digit: u8, rest: &[u8]) -> Token
    requires { IsTrue (is_ascii_digit digit) }
    ensures { result ≡ number_token (digit ∷ rest.now) }
{
    if rest.len() > 19 {
        return Token::Bad;
    }
    match number_of(u64::from(digit - b'0'), rest) {
        Some(value) => Token::Number(value),
        None => Token::Bad,
    }
}

// What stands at the front of the bytes: how many bytes it takes, and the token that it is, if it is one.
#[derive(Drop)]
pub struct Lexeme {
    pub size: usize,
    pub token: Option<Token>,
}

// The text of a letter and the word bytes behind it.
fn word_of(alloc: Global, letter: u8, rest: &[u8]) -> Result<Text, NoMemory>
    requires letter { letter < 128 }
    requires rest { All (λ b. b < 128) rest.now }
    ensures { IfOk result (λ word. word ≡ letter ∷ rest.now) }
{
    let mut word = String::new(alloc);
    word.push(char::from(letter))?;
    for byte in rest {
        word.push(char::from(*byte))?;
    }
    Ok(Text::from_string(word))
}

// The lexeme that begins with a letter.
fn word_lexeme(alloc: Global, letter: u8, rest: &[u8]) -> Result<Lexeme, NoMemory>
    requires { IsTrue (is_ascii_alphabetic letter) }
    ensures { IfOk result (λ p. p ≡ word_lexeme letter rest.now) }
{
    let len = word_len(rest);
    let word = word_of(alloc, letter, &rest[..len])?;
    Ok(Lexeme {
        size: 1 + len,
        token: Some(Token::Word(word)),
    })
}

// The lexeme that begins with a digit.
fn number_lexeme(digit: u8, rest: &[u8]) -> Lexeme
    requires { IsTrue (is_ascii_digit digit) }
    ensures { result ≡ number_lexeme digit rest.now }
{
    let len = word_len(rest);
    Lexeme {
        size: 1 + len,
        token: Some(number_token(digit, &rest[..len])),
    }
}

// The lexeme that begins with a quote.
fn string_lexeme(alloc: Global, rest: &[u8]) -> Result<Lexeme, NoMemory>
    ensures { IfOk result (λ p. p ≡ string_lexeme rest.now) }
{
    let len = string_len(rest);
    if len <= 64 && len < rest.len() && rest[len] == b'\'' {
        let text = Text::from_ascii(alloc, &rest[..len])?;
        return Ok(Lexeme {
            size: len + 2,
            token: Some(Token::Quoted(text)),
        });
    }
    Ok(Lexeme {
        size: 1 + line_len(rest),
        token: Some(Token::Bad),
    })
}

// The lexeme that begins with a byte, where rest is behind it.
pub fn front_lexeme(alloc: Global, first: u8, rest: &[u8]) -> Result<Lexeme, NoMemory>
    ensures { IfOk result (λ p. p ≡ lexeme first rest.now) }
{
    if is_separator(first) {
        return Ok(Lexeme {
            size: 1,
            token: None,
        });
    }
    if first == b'#' {
        return Ok(Lexeme {
            size: 1 + line_len(rest),
            token: None,
        });
    }
    if first.is_ascii_alphabetic() {
        return word_lexeme(alloc, first, rest);
    }
    if first.is_ascii_digit() {
        return Ok(number_lexeme(first, rest));
    }
    if first == b'\'' {
        return string_lexeme(alloc, rest);
    }
    let token = if is_sign(first) {
        Token::Sign(first)
    } else {
        Token::Bad
    };
    Ok(Lexeme {
        size: 1,
        token: Some(token),
    })
}
