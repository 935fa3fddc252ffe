//! The statement that tokens are.
ghost use Rattle.rm_lang_grammar.specs.Reading.{Gives};
ghost use Rattle.rm_lang_reading.specs.Language.{statement_at};

use crate::creating::creating;
use crate::run::run;
use rm_lang_grammar::Unread;
use rm_lang_grammar::reading::{begins_with, finish};
use rm_lang_statement::Statement;
use rm_lang_token::Token;
use std::alloc::Global;

/// The statement that the tokens are, with their ending. `Other` exactly where they are none.
#[tactic(auto, unfolding(crate::specs::Language::statement_at))]
pub fn read_statement(alloc: Global, tokens: &[Token]) -> Result<Statement, Unread>
    ensures { Gives (λ x. x) result (statement_at tokens.now) }
{
    if begins_with(tokens, b"RUN") {
        let (inner, rest) = run(alloc, tokens)?;
        finish(rest)?;
        return Ok(Statement::Run(inner));
    }
    let (command, rest) = creating(alloc, tokens)?;
    finish(rest)?;
    Ok(Statement::Plain(command))
}
