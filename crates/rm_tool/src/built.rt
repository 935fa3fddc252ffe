//! The statements that the program answers by steps.
ghost use Rattle.std.specs.{Prelude.{◌≡◌, IfOk, IfSome, IsTrue}, List.{list_all}};
ghost use Rattle.rm_lang_statement.specs.IsCommand.{is_statement};
ghost use Rattle.rm_tool.specs.Built.{is_built_inner, is_built_statement, statement_built_at};

use rm_base::NoMemory;
use rm_lang::{Inner, Statement, statement_of};
use rm_lang_token::Token;
use rm_machine::is_built;
use std::alloc::Global;

fn is_built_inner(inner: &Inner) -> bool
    ensures { result ≡ is_built_inner inner.now }
{
    match inner {
        Inner::Plain(command) => is_built(command),
        Inner::SetUntil(_) | Inner::AllocateChannel => true,
    }
}

fn are_built(all: &[Inner]) -> bool
    ensures { result ≡ list_all is_built_inner all.now }
{
    all.iter().all(is_built_inner)
}

fn is_built_statement(statement: &Statement) -> bool
    ensures { result ≡ is_built_statement statement.now }
{
    match statement {
        Statement::Plain(command) => is_built(command),
        Statement::Run(inner) => are_built(inner.as_slice()),
    }
}

/// The statement that the tokens are, with their ending. None where they are no statement of the
/// grammar, or one that is not built.
#[tactic(auto, unfolding(crate::specs::Built::statement_built_at))]
pub fn built_statement(alloc: Global, tokens: &[Token]) -> Result<Option<Statement>, NoMemory>
    ensures value { IfOk result (λ o. o ≡ statement_built_at tokens.now) }
    ensures statement { IfOk result (λ o. IfSome o (λ s. IsTrue (is_statement s))) }
    ensures built { IfOk result (λ o. IfSome o (λ s. IsTrue (is_built_statement s))) }
{
    let Some(statement) = statement_of(alloc, tokens)? else {
        return Ok(None);
    };
    if is_built_statement(&statement) {
        Ok(Some(statement))
    } else {
        Ok(None)
    }
}
