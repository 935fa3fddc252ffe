//! A text, which contracts see as the list of its bytes.
ghost use Rattle.std.specs.{Prelude.{◌≡◌, ◌<◌, [], All, IfOk, nat_eq}, Cmp.Lexicographic.{pointwise, nat_list_eq_equiv}};
ghost use Rattle.std.specs.{Cmp.{partial_equiv_from_equiv}, String.{string_bytes}};

use crate::faults::NoMemory;
use std::alloc::Global;
use std::marker::Model;

/// A text. It is made of a `String`, lent and given back without memory.
#[derive(Drop)]
pub struct Text {
    string: String,
}

impl Model for Text {
    ghost use Rattle.std.specs.{Prelude.{List, ℕ}, String.{string_bytes}};

    ghost Value = { List ℕ };

    ghost view = { λ t. string_bytes t.string };
}

impl PartialEq for Text {
    ghost eq = { pointwise nat_eq };

    ghost laws = { partial_equiv_from_equiv nat_list_eq_equiv };

    fn eq(&self, other: &Text) -> bool {
        self.as_bytes() == other.as_bytes()
    }
}

impl Eq for Text {
    ghost laws = { nat_list_eq_equiv };
}

impl Text {
    /// An empty text, which takes no memory.
    pub fn new(alloc: Global) -> Self
        ensures { result ≡ [] }
    {
        Text {
            string: String::new(alloc),
        }
    }

    pub fn from_string(string: String) -> Self
        ensures { result ≡ string_bytes string }
    {
        Text { string }
    }

    /// The text of these bytes, each of which is a character of ASCII.
    pub fn from_ascii(alloc: Global, bytes: &[u8]) -> Result<Text, NoMemory>
        requires { All (λ b. b < 128) bytes.now }
        ensures { IfOk result (λ t. t ≡ bytes.now) }
    {
        let mut string = String::new(alloc);
        for byte in bytes {
            string.push(char::from(*byte))?;
        }
        Ok(Text { string })
    }

    pub fn into_string(self) -> String
        ensures { string_bytes result ≡ self }
    {
        let Text { string } = self;
        string
    }

    pub fn as_str(&self) -> &str
        ensures { result.now ≡ self.now }
    {
        self.string.as_str()
    }

    pub fn as_bytes(&self) -> &[u8]
        ensures { result.now ≡ self.now }
    {
        self.string.as_bytes()
    }
}
