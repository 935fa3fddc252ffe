//! Phrases: fixed words one after another, and what follows them.
ghost use Rattle.std.specs.Prelude.{◌≡◌, ◌-◌, ◌^◌, IfErr, IfOk, codes};
ghost use Rattle.rm_lang_grammar.specs.Grammar.{◌▸◌, any, in_range, number as number_part, semicolon as ending, word as word_part};
ghost use Rattle.rm_lang_grammar.specs.{Reading.{Gives, read}, declared.unread.Unread.TheVariants.{Other}};
ghost use Rattle.rm_lang_reading.specs.Phrases.{after_words, Stand, Fail, IsAfter};

use rm_lang_grammar::Unread;
use rm_lang_grammar::reading::{number, number_in, semicolon, word};
use rm_lang_token::Token;

/// What follows the word, if it stands first.
pub fn after<'a>(tokens: &'a [Token], name: &[u8]) -> Option<&'a [Token]>
    ensures { IsAfter name.now tokens.now result }
{
    match tokens {
        [first, rest @ ..] if first.is_word(name) => Some(rest),
        _ => None,
    }
}

/// What follows the words.
pub fn words<'a>(tokens: &'a [Token], names: &[&str]) -> Result<&'a [Token], Unread>
    ensures stand { IfOk result (λ rest. Stand names.now tokens.now rest.now) }
    ensures other { IfErr result (λ e. e ≡ Other) }
    ensures fail { IfErr result (λ e. Fail names.now tokens.now) }
{
    let mut rest = tokens;
    for name in names {
        let Some(behind) = after(rest, name.as_bytes()) else {
            return Err(Unread::Other);
        };
        rest = behind;
    }
    Ok(rest)
}

/// What follows the words and the `;`.
#[tactic(auto, using(crate::proofs::Worded::worded))]
pub fn phrase<'a>(tokens: &'a [Token], names: &[&str]) -> Result<&'a [Token], Unread>
    ensures { Gives (λ x. (tt, x.now)) result (after_words names.now (read ending) tokens.now) }
{
    semicolon(words(tokens, names)?)
}

/// The words, any number and the `;`.
#[tactic(auto, using(crate::proofs::Worded::worded))]
pub fn numbered<'a>(tokens: &'a [Token], names: &[&str]) -> Result<(u64, &'a [Token]), Unread>
    ensures { Gives (λ x. ((x.0, tt), x.1.now)) result (after_words names.now (read (number_part any ▸ ending)) tokens.now) }
{
    let (found, rest) = number(words(tokens, names)?)?;
    Ok((found, semicolon(rest)?))
}

/// The words, a number, BLOCK, a number and the `;`.
#[tactic(auto, using(crate::proofs::Worded::worded))]
pub fn block<'a>(tokens: &'a [Token], names: &[&str]) -> Result<((u64, u64), &'a [Token]), Unread>
    ensures { Gives (λ x. ((x.0.0, (x.0.1, tt)), x.1.now)) result (after_words names.now (read (number_part any ▸ word_part (codes "BLOCK") ▸ number_part any ▸ ending)) tokens.now) }
{
    let (file, rest) = number(words(tokens, names)?)?;
    let (block, rest) = number(word(rest, b"BLOCK")?)?;
    Ok(((file, block), semicolon(rest)?))
}

/// The words, a number from 1 on and the `;`.
#[tactic(auto, using(crate::proofs::Worded::worded))]
pub fn counted<'a>(tokens: &'a [Token], names: &[&str]) -> Result<(u64, &'a [Token]), Unread>
    ensures { Gives (λ x. ((x.0, tt), x.1.now)) result (after_words names.now (read (number_part (in_range 1 (2 ^ 64 - 1)) ▸ ending)) tokens.now) }
{
    let (found, rest) = number_in(words(tokens, names)?, 1, u64::MAX)?;
    Ok((found, semicolon(rest)?))
}
