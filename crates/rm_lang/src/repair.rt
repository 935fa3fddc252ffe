//! The tokens of a repair of blocks.
ghost use Rattle.std.specs.Prelude.{◌≡◌, IfOk, IsTrue};
ghost use Rattle.rm_lang_grammar.specs.Spelling.{spelled, one_spelled};
ghost use Rattle.rm_lang_reading.specs.{Repairs.{corruption_line, blocks_line, block_recover_line}, Values.{blocks_values, repair_values}};
ghost use Rattle.rm_lang_statement.specs.IsCommand.{is_repair};

use crate::backup::during;
use crate::phrases::{ended, numbered, words};
use rm_base::NoMemory;
use rm_lang_grammar::Spelling;
use rm_lang_statement::{NamedBlocks, RepairForm};
use std::alloc::Global;

// The blocks that are named, or CORRUPTION LIST.
fn blocks(alloc: Global, named: &Option<NamedBlocks>) -> Result<Spelling, NoMemory>
    ensures { IfOk result (λ ts. ts ≡ one_spelled (spelled corruption_line) (spelled blocks_line) (blocks_values named.now)) }
{
    let Some(named) = named else {
        return words(alloc, &["CORRUPTION", "LIST"]);
    };
    let mut spelling = numbered(alloc, &["DATAFILE"], named.file)?;
    spelling.word("BLOCK")?;
    spelling.numbers(named.blocks.as_slice())?;
    Ok(spelling)
}

pub fn block_recover(alloc: Global, form: &RepairForm) -> Result<Spelling, NoMemory>
    requires { IsTrue (is_repair form.now) }
    ensures { IfOk result (λ ts. ts ≡ spelled block_recover_line (repair_values form.now)) }
{
    let mut spelling = words(alloc, &["BLOCKRECOVER"])?;
    spelling.append(blocks(alloc, &form.blocks)?)?;
    spelling.append(during(alloc, &form.during)?)?;
    ended(spelling)
}
