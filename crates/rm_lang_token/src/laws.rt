//! What the definitions of tokens and statements mean.
ghost use Rattle.std.specs.Prelude.{◌≡◌, ◌↔◌, List, ℕ};
ghost use Rattle.rm_lang_token.specs.{Tokens.{tokens}, Statements.{statements}, Lexemes.{Spelled}, Cuts.{Cuts}};
ghost use Rattle.rm_lang_token.specs.declared.token.Token.{Token as TokenOf};

/// Each byte of a script belongs to one lexeme, and the tokens of the script are those of its lexemes.
pub fn a_script_is_its_lexemes()
    ensures { (script : List ℕ) (ts : List (ℕ × TokenOf)) → Spelled 1 script ts ↔ (ts ≡ tokens script) }
{}

/// The tokens of a script are cut into its statements, and in no other way.
pub fn statements_are_cut_at_their_endings()
    ensures { (script : List ℕ) (ss : List (ℕ × List TokenOf)) → Cuts (tokens script) ss ↔ (ss ≡ statements script) }
{}
