//! Tokens as text.
ghost use Rattle.std.specs.{Prelude.{◌≡◌, ◌++◌, ◌∷◌, [], IsTrue, IfOk, OnOk, map}, Fmt.{decimal}, List.{list_all}};
ghost use Rattle.rm_lang_token.specs.{Tokens.{is_word_byte, is_string_byte, tokens as tokens_in, feeds}, Statements.{statements}};
ghost use Rattle.rm_lang_token.specs.Spelling.{are_string_bytes, is_name, is_plain, is_statement, token_text, tokens_text};

use crate::scan::{is_string_byte, is_word_byte};
use crate::token::Token;
use rm_base::{NoMemory, Seq};
use std::alloc::Global;

fn all_word_bytes(bytes: &[u8]) -> bool
    ensures { result ≡ list_all is_word_byte bytes.now }
{
    bytes.iter().all(|byte| is_word_byte(*byte))
}

fn all_string_bytes(bytes: &[u8]) -> bool
    ensures { result ≡ list_all is_string_byte bytes.now }
{
    bytes.iter().all(|byte| is_string_byte(*byte))
}

/// The bytes can be a word: a letter and letters, digits and underscores behind it.
pub fn is_name(word: &[u8]) -> bool
    ensures { result ≡ is_name word.now }
{
    match word {
        [first, rest @ ..] => first.is_ascii_alphabetic() && all_word_bytes(rest),
        [] => false,
    }
}

/// The bytes can stand between quotes: at most 64 bytes from 0x20 to 0x7E without the quote.
pub fn are_string_bytes(bytes: &[u8]) -> bool
    ensures { result ≡ are_string_bytes bytes.now }
{
    bytes.len() <= 64 && all_string_bytes(bytes)
}

fn push_number(alloc: Global, text: &mut Vec<u8>, number: u64) -> Result<(), NoMemory>
    ensures { OnOk result (text.new.items ≡ text.old.items ++ decimal number) }
{
    let digits = format!(in alloc; "{number}")?;
    text.extend_from_slice(digits.as_bytes())?;
    Ok(())
}

fn push_quoted(text: &mut Vec<u8>, string: &[u8]) -> Result<(), NoMemory>
    ensures { OnOk result (text.new.items ≡ text.old.items ++ 39 ∷ (string.now ++ 39 ∷ [])) }
{
    text.push(b'\'')?;
    text.extend_from_slice(string)?;
    text.push(b'\'')?;
    Ok(())
}

fn push_token(alloc: Global, text: &mut Vec<u8>, token: &Token) -> Result<(), NoMemory>
    ensures { OnOk result (text.new.items ≡ text.old.items ++ token_text token.now) }
{
    match token {
        Token::Word(word) => {
            text.extend_from_slice(word.as_bytes())?;
            Ok(())
        }
        Token::Number(number) => push_number(alloc, text, *number),
        Token::Quoted(string) => push_quoted(text, string.as_bytes()),
        Token::Sign(sign) => {
            text.push(*sign)?;
            Ok(())
        }
        Token::Bad => Ok(()),
    }
}

/// The text of these tokens, on one line with a space behind each: numbers in decimal, strings
/// between quotes. It is read back as the same tokens, and as one statement where they are one. Each
/// word can be a word, each string can stand between quotes, and each sign is one of the four.
pub fn text_of(alloc: Global, tokens: &[Token]) -> Result<Seq<u8>, NoMemory>
    requires { IsTrue (list_all is_plain tokens.now) }
    ensures text { IfOk result (λ text. text ≡ tokens_text tokens.now) }
    ensures read { IfOk result (λ text. tokens_in text ≡ map (λ t. (1, t)) tokens.now) }
    ensures statement { IsTrue (is_statement tokens.now) → IfOk result (λ text. statements text ≡ (1, tokens.now) ∷ []) }
    ensures one_line { IfOk result (λ text. feeds text ≡ 0) }
{
    let mut text = Vec::new(alloc);
    for token in tokens {
        push_token(alloc, &mut text, token)?;
        text.push(b' ')?;
    }
    Ok(Seq::from_vec(text))
}
