//! The tokens of a statement, from left to right.
ghost use Rattle.std.specs.{Prelude.{◌≡◌, ◌++◌, ◌∷◌, [], codes, IsTrue, OnOk}, List.{list_all}};
ghost use Rattle.rm_lang_token.specs.{Spelling.{are_string_bytes, is_name, is_plain}, Tokens.{is_sign}};
ghost use Rattle.rm_lang_token.specs.declared.token.Token.TheVariants.{Word, Number, Quoted, Sign};
ghost use Rattle.rm_lang_grammar.specs.Spelling.{flag_spelled, number_or_spelled, more_spelled, numbers_spelled, is_capital_tag};

use rm_base::{NoMemory, Seq, Text};
use rm_lang_token::Token;
use std::alloc::Global;
use std::marker::Model;

/// The tokens of a statement so far, each of which can be written.
#[derive(Drop)]
pub struct Spelling {
    alloc: Global,
    tokens: Vec<Token>,
}

impl Model for Spelling {
    ghost use Rattle.std.specs.{Prelude.{List, IsTrue}, List.{list_all}};
    ghost use Rattle.rm_lang_token.specs.{Spelling.{is_plain}, declared.token.Token.{Token as TokenOf}};

    ghost Value = { List TokenOf };

    ghost view = { λ s. s.tokens.items };

    ghost invariant = { λ s. IsTrue (list_all is_plain s.tokens.items) };
}

#[tactic(auto, using(crate::proofs::Plain::plain_push))]
impl Spelling {
    /// No tokens, which take no memory.
    pub fn new(alloc: Global) -> Self
        ensures { result ≡ [] }
    {
        Spelling {
            alloc,
            tokens: Vec::new(alloc),
        }
    }

    /// Adds a word.
    pub fn word(&mut self, name: &str) -> Result<(), NoMemory>
        requires { IsTrue (is_name name.now) }
        ensures { OnOk result (self.new ≡ self.old ++ Word name.now ∷ []) }
    {
        let word = Text::from_string(String::from_str(self.alloc, name)?);
        self.tokens.push(Token::Word(word))?;
        Ok(())
    }

    /// Adds a number.
    pub fn number(&mut self, n: u64) -> Result<(), NoMemory>
        ensures { OnOk result (self.new ≡ self.old ++ Number n ∷ []) }
    {
        self.tokens.push(Token::Number(n))?;
        Ok(())
    }

    /// Adds the word, where it is said.
    pub fn flag(&mut self, name: &str, said: bool) -> Result<(), NoMemory>
        requires { IsTrue (is_name name.now) }
        ensures { OnOk result (self.new ≡ self.old ++ flag_spelled name.now said) }
    {
        if said {
            return self.word(name);
        }
        Ok(())
    }

    /// Adds the word and the number, but where it is the number that is meant when both are left out.
    pub fn number_or(&mut self, name: &str, left_out: u64, n: u64) -> Result<(), NoMemory>
        requires { IsTrue (is_name name.now) }
        ensures { OnOk result (self.new ≡ self.old ++ number_or_spelled name.now left_out n) }
    {
        if n == left_out {
            return Ok(());
        }
        self.word(name)?;
        self.number(n)
    }

    /// Adds a string of these bytes.
    pub fn string(&mut self, bytes: &[u8]) -> Result<(), NoMemory>
        requires { IsTrue (are_string_bytes bytes.now) }
        ensures { OnOk result (self.new ≡ self.old ++ Quoted bytes.now ∷ []) }
    {
        let text = Text::from_ascii(self.alloc, bytes)?;
        self.tokens.push(Token::Quoted(text))?;
        Ok(())
    }

    /// Adds the word TAG and a tag in quotes, whose letters are capitals.
    pub fn tag(&mut self, name: &[u8]) -> Result<(), NoMemory>
        requires { IsTrue (is_capital_tag name.now) }
        ensures { OnOk result (self.new ≡ self.old ++ Word (codes "TAG") ∷ Quoted name.now ∷ []) }
    {
        self.word("TAG")?;
        self.string(name)
    }

    /// Adds numbers with commas between.
    pub fn numbers(&mut self, numbers: &[u64]) -> Result<(), NoMemory>
        ensures { OnOk result (self.new ≡ self.old ++ numbers_spelled numbers.now) }
    {
        let [first, others @ ..] = numbers else {
            return Ok(());
        };
        self.number(*first)?;
        self.more_numbers(others)
    }

    // Adds each number behind a comma.
    fn more_numbers(&mut self, numbers: &[u64]) -> Result<(), NoMemory>
        ensures { OnOk result (self.new ≡ self.old ++ more_spelled numbers.now) }
    {
        for number in numbers {
            self.sign(b',')?;
            self.number(*number)?;
        }
        Ok(())
    }

    /// Adds a sign.
    pub fn sign(&mut self, sign: u8) -> Result<(), NoMemory>
        requires { IsTrue (is_sign sign) }
        ensures { OnOk result (self.new ≡ self.old ++ Sign sign ∷ []) }
    {
        self.tokens.push(Token::Sign(sign))?;
        Ok(())
    }

    /// Adds the tokens of another.
    #[tactic(auto, using(crate::proofs::Plain::plain_append))]
    pub fn append(&mut self, other: Spelling) -> Result<(), NoMemory>
        ensures { OnOk result (self.new ≡ self.old ++ other) }
    {
        let Spelling { mut tokens, .. } = other;
        self.tokens.append(&mut tokens)?;
        Ok(())
    }

    /// The tokens.
    pub fn into_tokens(self) -> Seq<Token>
        ensures tokens { result ≡ self }
        ensures plain { IsTrue (list_all is_plain result) }
    {
        let Spelling { tokens, .. } = self;
        Seq::from_vec(tokens)
    }
}
