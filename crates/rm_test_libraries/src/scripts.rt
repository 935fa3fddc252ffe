//! The statements of small scripts, and the text of tokens.
use rm_base::{NoMemory, Text};
use rm_lang_token::{Token, are_string_bytes, is_name, statements, text_of};
use rm_test_harness::{Fault, Told, differs, shown, unquoted};
use std::alloc::Global;

fn push_token(out: &mut String, token: &Token) -> Result<(), NoMemory> {
    match token {
        Token::Word(word) => write!(out, "{} ", word.as_str())?,
        Token::Number(number) => write!(out, "{number} ")?,
        Token::Quoted(text) => write!(out, "'{}' ", text.as_str())?,
        Token::Sign(sign) => write!(out, "{} ", char::from(*sign))?,
        Token::Bad => out.push_str("? ")?,
    }
    Ok(())
}

fn push_statement(out: &mut String, line: u32, tokens: &[Token]) -> Result<(), NoMemory> {
    write!(out, "{line}: ")?;
    for token in tokens {
        push_token(out, token)?;
    }
    out.push('|')?;
    Ok(())
}

// Each statement with its line, a space behind each token and a bar at its end. `?` is a bad token.
#[tactic(auto, using(rm_lang_token::proofs::Reading::feeds_within))]
fn spelled(alloc: Global, script: &[u8]) -> Result<String, Fault> {
    if script.len() >= 1000 {
        return differs(alloc, "a script that is too long");
    }
    let found = statements(alloc, script)?;
    let mut out = String::new(alloc);
    for (line, tokens) in found.as_slice() {
        push_statement(&mut out, *line, tokens.as_slice())?;
    }
    Ok(out)
}

// The bytes of a text, in which `\0a` is the byte of these two digits.
fn bytes_of(alloc: Global, text: &str) -> Result<Vec<u8>, Fault> {
    let mut bytes = Vec::new(alloc);
    let (front, parts) = text.split_once("\\").unwrap_or((text, ""));
    bytes.extend_from_slice(front.as_bytes())?;
    for part in parts.split('\\') {
        let (digits, rest) = part.split_at_checked(2).unwrap_or(("", part));
        if let Ok(byte) = u8::from_str_radix(digits, 16) {
            bytes.push(byte)?;
        }
        bytes.extend_from_slice(rest.as_bytes())?;
    }
    Ok(bytes)
}

/// Scripts, each of which gives its statements.
#[derive(Drop)]
pub struct Scripts;

impl Told for Scripts {
    fn told(&mut self, alloc: Global, given: &str) -> Result<String, Fault> {
        let script = bytes_of(alloc, unquoted(given))?;
        shown(alloc, spelled(alloc, &script)?)
    }
}

/// Tokens are written, and tested.
pub fn written(alloc: Global) -> Result<bool, Fault> {
    let word = Token::Word(Text::from_ascii(alloc, b"DUMP")?);
    let is_word = word.is_word(b"dump") && Token::Sign(b';').is_sign(b';');
    let text = Text::from_ascii(alloc, b"a b")?;
    let tokens = [
        word,
        Token::Number(7),
        Token::Quoted(text),
        Token::Sign(b';'),
    ];
    let text = text_of(alloc, &tokens)?;
    let are_names = is_name(b"DUMP") && !is_name(b"9") && !is_name(b"");
    let are_strings = are_string_bytes(b"") && !are_string_bytes(b"it's");
    Ok(is_word && text.as_slice() == b"DUMP 7 'a b' ; ".as_slice() && are_names && are_strings)
}
