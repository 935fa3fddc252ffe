//! Replies, and their text.
#![tactic(auto)]

mod dates;
pub mod laws;
pub mod line;
mod lines;
mod replies;
pub mod text;

pub use dates::has_dates;
pub use line::{Line, Packing, Reply, SchemaPlace, Shape};
pub use replies::{refusal_reply, reply_of};
pub use text::bytes_of;
