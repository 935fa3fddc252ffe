//! The tokens and the statements of a script, and tokens as text.
#![tactic(auto)]

pub mod laws;
mod scan;
mod spelling;
mod split;
pub mod token;

pub use scan::is_word_byte;
pub use spelling::{are_string_bytes, is_name, text_of};
pub use split::statements;
pub use token::Token;
