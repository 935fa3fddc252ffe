//! Statements: which tokens are which statement, and statements as text.
#![tactic(auto)]

mod backup;
pub mod laws;
mod parts;
mod phrases;
mod plain;
mod reading;
mod repair;
mod spelling;
mod valid;
mod with_parts;

pub use reading::statement_of;
pub use rm_lang_statement::{
    BackupForm, ChangeTo, Command, Inner, NamedBlocks, RepairForm, RetentionForm, Statement, Until,
    WriteForm,
};
pub use rm_lang_token::{Token, statements};
pub use spelling::text_of;
pub use valid::{is_command, is_statement};
