//! The parts of the notation one by one.
ghost use Rattle.std.specs.Prelude.{◌+◌, ◌<◌, ◌^◌};
ghost use Rattle.rm_lang_token.specs.Tokens.{feeds};

use rm_base::{NoMemory, Seq};
use rm_lang_grammar::reading::*;
use rm_lang_grammar::tags::{is_capital_tag, is_tag};
use rm_lang_grammar::{Spelling, Unread};
use rm_lang_token::{Token, statements, text_of};
use std::alloc::Global;

// The tokens of the last statement.
fn tokens_of(alloc: Global, script: &[u8]) -> Result<Seq<Token>, Unread>
    requires { feeds script.now + 1 < 2 ^ 32 }
{
    let Ok(found) = statements(alloc, script) else {
        return Err(Unread::NoMemory);
    };
    match found.into_vec().pop() {
        Some((_, tokens)) => Ok(tokens),
        None => Ok(Seq::new(alloc)),
    }
}

/// Words, signs and the end.
pub fn words(alloc: Global) -> Result<bool, Unread> {
    let tokens = tokens_of(alloc, b"delete NoPrompt Force } ;")?;
    let tokens = tokens.as_slice();
    let first = [
        begins_with(tokens, b"DELETE"),
        begins_with(tokens, b"FORCE"),
    ];
    let others = [word(tokens, b"FORCE").is_err(), finish(tokens).is_err()];
    let rest = noise(word(tokens, b"DELETE")?, b"NOPROMPT");
    let (forced, rest) = flag(noise(rest, b"IMMEDIATE"), b"FORCE");
    let is_too_early = semicolon(rest).is_err();
    finish(semicolon(sign(rest, b'}')?)?)?;
    Ok(first == [true, false] && others == [true, true] && forced && is_too_early)
}

/// Numbers by themselves.
pub fn single_numbers(alloc: Global) -> Result<bool, Unread> {
    let tokens = tokens_of(alloc, b"7 65 thread 2 thread 5")?;
    let (any, rest) = number(tokens.as_slice())?;
    let is_too_high = number_in(rest, 1, 64).is_err();
    let (small, rest) = number_in(rest, 65, 65)?;
    let (thread, rest) = number_or(rest, b"THREAD", 1)?;
    let (level, rest) = number_in_or(rest, b"LEVEL", 1, 0, 1)?;
    let is_other = number_in_or(rest, b"THREAD", 1, 1, 4).is_err() && number(rest).is_err();
    Ok(is_too_high && is_other && [any, small, thread, level] == [7, 65, 2, 1])
}

/// Strings, tags and lists of numbers.
pub fn texts_and_lists(alloc: Global) -> Result<bool, Unread> {
    let tokens = tokens_of(alloc, b"'a b' tag 'Night_1' 1, 2, 3 ;")?;
    let is_no_tag = tag(alloc, tokens.as_slice()).is_err();
    let (text, rest) = string(tokens.as_slice())?;
    let others = [string(rest).is_err(), numbers(alloc, rest).is_err()];
    let (name, rest) = tag(alloc, rest)?;
    let (files, rest) = numbers(alloc, rest)?;
    semicolon(rest)?;
    let are_texts = text == b"a b".as_slice() && name.as_str() == "NIGHT_1";
    let is_list = files.as_slice() == [1, 2, 3].as_slice();
    Ok(is_no_tag && others == [true, true] && are_texts && is_list)
}

/// Words that are names, and strings that are kept.
pub fn other_words(alloc: Global) -> Result<bool, Unread> {
    let tokens = tokens_of(alloc, b"channel disk 'it' ;")?;
    let is_other = named(tokens.as_slice(), b"DISK").is_err();
    let rest = named(tokens.as_slice(), b"CHANNEL")?;
    let is_no_name = named(rest, b"CHANNEL").is_err();
    let (text, rest) = kept_string(alloc, rest)?;
    let is_no_string = kept_string(alloc, rest).is_err();
    Ok(is_other && is_no_name && text.as_str() == "it" && is_no_string)
}

/// A spelling, of each part.
pub fn a_spelling(alloc: Global) -> Result<bool, NoMemory> {
    let mut spelling = Spelling::new(alloc);
    spelling.word("BACKUP")?;
    spelling.number(18446744073709551615)?;
    spelling.string(b"a b")?;
    spelling.numbers(&[3, 1, 2])?;
    spelling.tag(b"NIGHT_1")?;
    let mut end = Spelling::new(alloc);
    end.sign(b';')?;
    spelling.append(end)?;
    let tokens = spelling.into_tokens();
    let text = text_of(alloc, tokens.as_slice())?;
    let wanted = b"BACKUP 18446744073709551615 'a b' 3 , 1 , 2 TAG 'NIGHT_1' ; ";
    Ok(text.as_slice() == wanted.as_slice())
}

/// Which bytes are a tag, and which one in capitals.
pub fn tags() -> bool {
    let any = [is_tag(b"Night_1"), is_tag(b""), is_tag(b"a b")];
    let capitals = [is_capital_tag(b"9_A"), is_capital_tag(b"9_a")];
    any == [true, false, false] && capitals == [true, false]
}
