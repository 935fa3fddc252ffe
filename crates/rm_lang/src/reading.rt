//! The statement that tokens are.
ghost use Rattle.std.specs.Prelude.{◌≡◌, IfOk, IfSome, IfNone, IsTrue};
ghost use Rattle.rm_lang_statement.specs.{IsCommand.{is_statement}, declared.command.Statement.{Statement as StatementOf}};
ghost use Rattle.rm_lang_reading.specs.Language.{IsStatement, statement_at};

use rm_base::NoMemory;
use rm_lang_grammar::Unread;
use rm_lang_reading::read_statement;
use rm_lang_statement::Statement;
use rm_lang_token::Token;
use std::alloc::Global;

/// The statement that the tokens are, with their ending. None where they are none.
#[tactic(auto, using(rm_lang_reading::proofs::Language::read, crate::proofs::Whole::whole))]
pub fn statement_of(alloc: Global, tokens: &[Token]) -> Result<Option<Statement>, NoMemory>
    ensures value { IfOk result (λ o. o ≡ statement_at tokens.now) }
    ensures found { IfOk result (λ o. IfSome o (λ s. IsStatement tokens.now s)) }
    ensures statement { IfOk result (λ o. IfSome o (λ s. IsTrue (is_statement s))) }
    ensures none { IfOk result (λ o. IfNone o ((s : StatementOf) → IsStatement tokens.now s → ⊥)) }
{
    match read_statement(alloc, tokens) {
        Ok(found) => Ok(Some(found)),
        Err(Unread::Other) => Ok(None),
        Err(Unread::NoMemory) => Err(NoMemory),
    }
}
