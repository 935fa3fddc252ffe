//! RUN, and the statements inside it.
ghost use Rattle.std.specs.Prelude.{◌≡◌, codes};
ghost use Rattle.rm_lang_grammar.specs.{Reading.{Gives}, Forms.{command_by, command_in}, Blocks.{goes_on, commands_in, block_at}};
ghost use Rattle.rm_lang_reading.specs.Language.{set_until, allocate, inner_forms};

use crate::creating::creating;
use crate::phrases::words;
use crate::recovering::point;
use rm_base::Seq;
use rm_lang_grammar::Unread;
use rm_lang_grammar::reading::{named, semicolon, sign, word};
use rm_lang_statement::Inner;
use rm_lang_token::Token;
use std::alloc::Global;

#[tactic(auto, using(crate::proofs::Parts::parts), unfolding(crate::specs::Language::set_until))]
fn set_until(alloc: Global, tokens: &[Token]) -> Result<(Inner, &[Token]), Unread>
    ensures { Gives (λ x. (x.0, x.1.now)) result (command_by set_until tokens.now) }
{
    let (until, rest) = point(alloc, words(tokens, &["SET", "UNTIL"])?)?;
    let rest = semicolon(rest)?;
    Ok((Inner::SetUntil(until), rest))
}

#[tactic(auto, unfolding(crate::specs::Language::allocate))]
fn allocate(tokens: &[Token]) -> Result<(Inner, &[Token]), Unread>
    ensures { Gives (λ x. (x.0, x.1.now)) result (command_by allocate tokens.now) }
{
    let rest = named(word(tokens, b"ALLOCATE")?, b"CHANNEL")?;
    let rest = semicolon(words(rest, &["DEVICE", "TYPE", "DISK"])?)?;
    Ok((Inner::AllocateChannel, rest))
}

// The inner statement at the front, by the first form that it has.
#[tactic(auto, using(crate::proofs::Inside::inside), unfolding(crate::specs::Language::inner_forms))]
fn inner(alloc: Global, tokens: &[Token]) -> Result<(Inner, &[Token]), Unread>
    ensures { Gives (λ x. (x.0, x.1.now)) result (command_in inner_forms tokens.now) }
{
    match set_until(alloc, tokens) {
        Err(Unread::Other) => {}
        found => return found,
    }
    match allocate(tokens) {
        Err(Unread::Other) => {}
        found => return found,
    }
    let (command, rest) = creating(alloc, tokens)?;
    Ok((Inner::Plain(command), rest))
}

// No } stands first.
fn goes_on(tokens: &[Token]) -> bool
    ensures { result ≡ goes_on tokens.now }
{
    match tokens {
        [first, ..] => !first.is_sign(b'}'),
        [] => false,
    }
}

// The inner statements at the front, up to a }.
fn all_inner(alloc: Global, tokens: &[Token]) -> Result<(Seq<Inner>, &[Token]), Unread>
    ensures { Gives (λ x. (x.0, x.1.now)) result (commands_in inner_forms tokens.now) }
{
    let mut found = Vec::new(alloc);
    let mut rest = tokens;
    for _ in 0..tokens.len() {
        if !goes_on(rest) {
            return Ok((Seq::from_vec(found), rest));
        }
        match inner(alloc, rest) {
            Ok((one, behind)) => {
                found.push(one)?;
                rest = behind;
            }
            Err(unread) => return Err(unread),
        }
    }
    if goes_on(rest) {
        return Err(Unread::Other);
    }
    Ok((Seq::from_vec(found), rest))
}

/// RUN and the inner statements in its braces.
pub fn run(alloc: Global, tokens: &[Token]) -> Result<(Seq<Inner>, &[Token]), Unread>
    ensures { Gives (λ x. (x.0, x.1.now)) result (block_at (codes "RUN") inner_forms tokens.now) }
{
    let rest = sign(word(tokens, b"RUN")?, b'{')?;
    let (found, rest) = all_inner(alloc, rest)?;
    let rest = sign(rest, b'}')?;
    Ok((found, rest))
}
