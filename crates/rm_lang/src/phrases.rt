//! Phrases: fixed words one after another, and what stands between them and the `;`.
ghost use Rattle.std.specs.Prelude.{◌≡◌, ◌++◌, ◌∷◌, [], IfOk, IsTrue};
ghost use Rattle.rm_lang_token.specs.{Spelling.{are_string_bytes}, declared.token.Token.TheVariants.{Number, Quoted, Sign}};
ghost use Rattle.rm_lang.specs.Phrases.{worded, are_names};

use rm_base::{NoMemory, Text};
use rm_lang_grammar::Spelling;
use std::alloc::Global;

/// The words.
pub fn words(alloc: Global, names: &[&str]) -> Result<Spelling, NoMemory>
    requires { IsTrue (are_names names.now) }
    ensures { IfOk result (λ ts. ts ≡ worded names.now) }
{
    let mut spelling = Spelling::new(alloc);
    for name in names {
        spelling.word(name)?;
    }
    Ok(spelling)
}

/// The words and a number.
pub fn numbered(alloc: Global, names: &[&str], number: u64) -> Result<Spelling, NoMemory>
    requires { IsTrue (are_names names.now) }
    ensures { IfOk result (λ ts. ts ≡ worded names.now ++ Number number ∷ []) }
{
    let mut spelling = words(alloc, names)?;
    spelling.number(number)?;
    Ok(spelling)
}

/// The words and a text in quotes.
pub fn quoted(alloc: Global, names: &[&str], text: &Text) -> Result<Spelling, NoMemory>
    requires names { IsTrue (are_names names.now) }
    requires text { IsTrue (are_string_bytes text.now) }
    ensures { IfOk result (λ ts. ts ≡ worded names.now ++ Quoted text.now ∷ []) }
{
    let mut spelling = words(alloc, names)?;
    spelling.string(text.as_bytes())?;
    Ok(spelling)
}

/// What is spelled, and the `;` behind it.
pub fn ended(mut spelling: Spelling) -> Result<Spelling, NoMemory>
    ensures { IfOk result (λ ts. ts ≡ spelling ++ Sign 59 ∷ []) }
{
    spelling.sign(b';')?;
    Ok(spelling)
}

/// The words and the `;`.
pub fn phrase(alloc: Global, names: &[&str]) -> Result<Spelling, NoMemory>
    requires { IsTrue (are_names names.now) }
    ensures { IfOk result (λ ts. ts ≡ worded names.now ++ Sign 59 ∷ []) }
{
    ended(words(alloc, names)?)
}

/// The words, the part and the `;`.
pub fn with_part(alloc: Global, names: &[&str], part: Spelling) -> Result<Spelling, NoMemory>
    requires { IsTrue (are_names names.now) }
    ensures { IfOk result (λ ts. ts ≡ worded names.now ++ (part ++ Sign 59 ∷ [])) }
{
    let mut spelling = words(alloc, names)?;
    spelling.append(part)?;
    ended(spelling)
}
