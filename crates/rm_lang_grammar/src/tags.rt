//! Which bytes are a tag.
ghost use Rattle.std.specs.{Prelude.{◌≡◌, ◌==◌}, List.{list_all}, Char.{to_ascii_uppercase}, Str.{bytes_eq}};
ghost use Rattle.rm_lang_token.specs.Tokens.{is_word_byte};
ghost use Rattle.rm_lang_grammar.specs.{Grammar.{is_tag, capitals}, Spelling.{is_capital_tag}};

use rm_lang_token::is_word_byte;

/// The bytes are letters, digits and `_`.
pub fn are_word_bytes(bytes: &[u8]) -> bool
    ensures { result ≡ list_all is_word_byte bytes.now }
{
    bytes.iter().all(|byte| is_word_byte(*byte))
}

/// The bytes are a tag: 1 to 30 letters, digits and `_`.
pub fn is_tag(bytes: &[u8]) -> bool
    ensures { result ≡ is_tag bytes.now }
{
    (1..=30).contains(&bytes.len()) && are_word_bytes(bytes)
}

// The byte is no small letter.
fn is_capital(byte: u8) -> bool
    ensures { result ≡ (byte == to_ascii_uppercase byte) }
{
    byte == byte.to_ascii_uppercase()
}

fn are_capitals(bytes: &[u8]) -> bool
    ensures { result ≡ bytes_eq bytes.now (capitals bytes.now) }
{
    bytes.iter().all(|byte| is_capital(*byte))
}

/// The bytes are a tag as it is kept: its letters are capitals.
pub fn is_capital_tag(bytes: &[u8]) -> bool
    ensures { result ≡ is_capital_tag bytes.now }
{
    is_tag(bytes) && are_capitals(bytes)
}
