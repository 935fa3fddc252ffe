//! What a statement says: its types, and which of them are statements of the grammar.
#![tactic(auto)]

pub mod command;

pub use command::{
    BackupForm, ChangeTo, Command, Inner, NamedBlocks, RepairForm, RetentionForm, Statement, Until,
    WriteForm,
};
