//! Which names are objects'.
ghost use Rattle.std.specs.{Prelude.{◌≡◌, false, IfOk}, List.{list_all}, String.{string_bytes}};
ghost use Rattle.rm_lang_token.specs.Tokens.{is_word_byte};
ghost use Rattle.rm_store_dir.specs.DirStore.{is_object};

use rm_lang_token::is_word_byte;
use std::alloc::{AllocError, Global};

// What the name begins with under which the bytes of an object are written first.
const BESIDE: &str = ".rman-new-";

fn are_word_bytes(bytes: &[u8]) -> bool
    ensures { result ≡ list_all is_word_byte bytes.now }
{
    bytes.iter().all(|byte| is_word_byte(*byte))
}

/// Whether these are 1 to 64 letters, digits and `_`.
pub fn is_object(name: &[u8]) -> bool
    ensures { result ≡ is_object name.now }
{
    (1..=64).contains(&name.len()) && are_word_bytes(name)
}

/// The name under which the bytes of an object are written first. It is no object's.
pub(crate) fn beside(alloc: Global, name: &str) -> Result<String, AllocError>
    ensures { IfOk result (λ b. is_object (string_bytes b) ≡ false) }
{
    let mut beside = String::from_str(alloc, BESIDE)?;
    beside.push_str(name)?;
    Ok(beside)
}

/// Whether the bytes of an object are written under this name first.
pub(crate) fn is_beside(name: &str) -> bool {
    match name.strip_prefix(BESIDE) {
        Some(object) => is_object(object.as_bytes()),
        None => false,
    }
}
