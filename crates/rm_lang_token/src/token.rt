//! A token of a script.
ghost use Rattle.std.specs.Prelude.{◌≡◌};

use rm_base::Text;

/// A token.
#[derive(Drop)]
pub enum Token {
    /// A letter and letters, digits and underscores behind it.
    Word(Text),
    /// 1 to 20 digits with a value of at most 2^64 - 1, and no word byte behind them.
    Number(u64),
    /// What stands between two quotes: 0 to 64 bytes from 0x20 to 0x7E without the quote.
    Quoted(Text),
    /// One of `;` `,` `{` `}`.
    Sign(u8),
    /// Bytes that are no other token: a digit with word bytes behind it that are no number, a quote
    /// that begins no string with all bytes to the end of its line, or one other byte.
    Bad,
}

impl Token {
    ghost use Rattle.rm_lang_token.specs.Statements.{is_word, is_the_sign};

    /// The token is this word, in any case.
    pub fn is_word(&self, name: &[u8]) -> bool
        ensures { result ≡ is_word name.now self.now }
    {
        match self {
            Token::Word(word) => word.as_bytes().eq_ignore_ascii_case(name),
            _ => false,
        }
    }

    /// The token is this sign.
    pub fn is_sign(&self, sign: u8) -> bool
        ensures { result ≡ is_the_sign sign self.now }
    {
        match self {
            Token::Sign(byte) => *byte == sign,
            _ => false,
        }
    }
}
