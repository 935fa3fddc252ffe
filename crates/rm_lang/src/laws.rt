//! What reading a statement means.
ghost use Rattle.std.specs.Prelude.{◌≡◌, ◌↔◌, List, Some};
ghost use Rattle.rm_lang_token.specs.declared.token.Token.{Token as TokenOf};
ghost use Rattle.rm_lang_statement.specs.declared.command.Statement.{Statement as StatementOf};
ghost use Rattle.rm_lang_reading.specs.Language.{IsStatement, statement_at};

/// What is read is what the grammar has.
pub fn what_is_read_is_the_statement()
    ensures { (ts : List TokenOf) (s : StatementOf) → (statement_at ts ≡ Some s) ↔ IsStatement ts s }
{}

/// A token list is one statement at most.
pub fn one_statement()
    ensures { (ts : List TokenOf) (s z : StatementOf) → IsStatement ts s → IsStatement ts z → s ≡ z }
{}
