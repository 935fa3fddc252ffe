//! The statements that mend blocks.
ghost use Rattle.std.specs.Prelude.{◌≡◌};
ghost use Rattle.rm_lang_grammar.specs.{Reading.{Gives, read, one_of, begins}, Forms.{command_by, command_in}};
ghost use Rattle.rm_lang_reading.specs.{Repairs.{corruption_line, blocks_line, ordered, block_recover}, Values.{blocks_values}};
ghost use Rattle.rm_lang_reading.specs.Language.{repair_forms};

use crate::backup::{in_order, optional_during, saving};
use crate::phrases::after;
use rm_lang_grammar::Unread;
use rm_lang_grammar::reading::{number, numbers, semicolon, word};
use rm_lang_statement::{Command, NamedBlocks, RepairForm};
use rm_lang_token::Token;
use std::alloc::Global;

// CORRUPTION LIST, or the blocks of a datafile as they stand.
fn named_blocks(alloc: Global, tokens: &[Token]) -> Result<(Option<NamedBlocks>, &[Token]), Unread>
    ensures { Gives (λ x. (blocks_values x.0, x.1.now)) result (one_of (begins corruption_line tokens.now) (read corruption_line tokens.now) (read blocks_line tokens.now)) }
{
    if let Some(rest) = after(tokens, b"CORRUPTION") {
        return Ok((None, word(rest, b"LIST")?));
    }
    let (file, rest) = number(word(tokens, b"DATAFILE")?)?;
    let (blocks, rest) = numbers(alloc, word(rest, b"BLOCK")?)?;
    Ok((Some(NamedBlocks { file, blocks }), rest))
}

// The blocks, ascending and each once. It takes no memory.
fn ordered(named: NamedBlocks) -> NamedBlocks
    ensures { result ≡ ordered named }
{
    NamedBlocks {
        file: named.file,
        blocks: in_order(named.blocks),
    }
}

#[tactic(auto, using(crate::proofs::Parts::parts), unfolding(crate::specs::Repairs::block_recover))]
fn block_recover(alloc: Global, tokens: &[Token]) -> Result<(Command, &[Token]), Unread>
    ensures { Gives (λ x. (x.0, x.1.now)) result (command_by block_recover tokens.now) }
{
    let (blocks, rest) = named_blocks(alloc, word(tokens, b"BLOCKRECOVER")?)?;
    let (during, rest) = optional_during(alloc, rest)?;
    let rest = semicolon(rest)?;
    let form = RepairForm {
        blocks: blocks.map(ordered),
        during,
    };
    Ok((Command::BlockRecover(form), rest))
}

/// The command at the front by the first form of those that mend blocks, or of those behind, and what is behind it.
#[tactic(auto, unfolding(crate::specs::Language::repair_forms))]
pub fn repairing(alloc: Global, tokens: &[Token]) -> Result<(Command, &[Token]), Unread>
    ensures { Gives (λ x. (x.0, x.1.now)) result (command_in repair_forms tokens.now) }
{
    match block_recover(alloc, tokens) {
        Err(Unread::Other) => {}
        found => return found,
    }
    saving(alloc, tokens)
}
