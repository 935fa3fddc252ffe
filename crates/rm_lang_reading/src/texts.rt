//! The kinds of strings that statements have.
ghost use Rattle.std.specs.Prelude.{◌≡◌};
ghost use Rattle.rm_lang_grammar.specs.Reading.{Gives, text_at};
ghost use Rattle.rm_lang_statement.specs.Texts.{plain, new_name, time, is_new_name};

use rm_base::Text;
use rm_lang_grammar::Unread;
use rm_lang_grammar::reading::kept_string;
use rm_lang_grammar::tags::are_word_bytes;
use rm_lang_token::Token;
use rm_moments::is_time;
use std::alloc::Global;

/// Any string.
pub fn plain(alloc: Global, tokens: &[Token]) -> Result<(Text, &[Token]), Unread>
    ensures { Gives (λ x. (x.0, x.1.now)) result (text_at plain.read tokens.now) }
{
    kept_string(alloc, tokens)
}

/// The bytes are a name that an object can be given: 1 to 64 letters, digits and `_`.
pub fn is_new_name(bytes: &[u8]) -> bool
    ensures { result ≡ is_new_name bytes.now }
{
    (1..=64).contains(&bytes.len()) && are_word_bytes(bytes)
}

/// A name that an object can be given.
pub fn new_name(alloc: Global, tokens: &[Token]) -> Result<(Text, &[Token]), Unread>
    ensures { Gives (λ x. (x.0, x.1.now)) result (text_at new_name.read tokens.now) }
{
    let (text, rest) = kept_string(alloc, tokens)?;
    if !is_new_name(text.as_bytes()) {
        return Err(Unread::Other);
    }
    Ok((text, rest))
}

/// A text that means a moment.
pub fn time(alloc: Global, tokens: &[Token]) -> Result<(Text, &[Token]), Unread>
    ensures { Gives (λ x. (x.0, x.1.now)) result (text_at time.read tokens.now) }
{
    let (text, rest) = kept_string(alloc, tokens)?;
    if !is_time(text.as_str()) {
        return Err(Unread::Other);
    }
    Ok((text, rest))
}
