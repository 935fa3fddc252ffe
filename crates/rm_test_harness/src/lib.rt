//! What the programs of tests share: why a test did not come out, tables of cases, what their lines say, and the line that
//! tells of a test.
#![tactic(auto)]

mod blocks;
mod fault;
mod report;
mod table;
mod words;

pub use blocks::{rows, rows_text, text_of};
pub use fault::{Fault, differs};
pub use report::{tell, tell_cases, tell_table};
pub use table::{Told, cases};
pub use words::{head, kind_of, numbers, shown, status_of, unquoted, word_of};
