//! Statements, and their texts.
use rm_base::{NoMemory, Seq};
use rm_lang::{Token, statement_of, statements, text_of};
use std::alloc::Global;

// The text of the statement that the tokens are, or `none`.
fn text_at(alloc: Global, tokens: &[Token]) -> Result<Seq<u8>, NoMemory> {
    match statement_of(alloc, tokens)? {
        Some(statement) => text_of(alloc, &statement),
        None => Ok(Seq::from_vec(Vec::from_slice(alloc, b"none")?)),
    }
}

// The texts of the statements of a script, one behind the other.
#[tactic(auto, using(rm_lang_token::proofs::Reading::feeds_within))]
fn spelled(alloc: Global, script: &[u8]) -> Result<Vec<u8>, NoMemory> {
    let mut out = Vec::new(alloc);
    if script.len() > 1_000_000 {
        return Ok(out);
    }
    let found = statements(alloc, script)?;
    for (_, tokens) in found.as_slice() {
        let text = text_at(alloc, tokens.as_slice())?;
        out.extend_from_slice(text.as_slice())?;
    }
    Ok(out)
}

fn text_of_bytes(alloc: Global, bytes: &[u8]) -> Result<String, NoMemory> {
    match str::from_utf8(bytes) {
        Ok(text) => Ok(String::from_str(alloc, text)?),
        Err(_) => Ok(String::from_str(alloc, "no text")?),
    }
}

/// The texts of the statements of a script, and `none` for each that is not of the grammar.
pub fn texts(alloc: Global, script: &str) -> Result<String, NoMemory> {
    let text = spelled(alloc, script.as_bytes())?;
    text_of_bytes(alloc, &text)
}

/// The texts of the statements of a script, which are read and spelled again.
pub fn texts_again(alloc: Global, script: &str) -> Result<String, NoMemory> {
    let text = spelled(alloc, script.as_bytes())?;
    let again = spelled(alloc, &text)?;
    if again.as_slice() != text.as_slice() {
        return Ok(String::from_str(alloc, "differs")?);
    }
    text_of_bytes(alloc, &text)
}
