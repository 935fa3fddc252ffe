//! The machine: what a statement does to a database, by what is at hand, and the history behind it. And what the statements
//! share as code: facts of a state, what is at hand of it, room, marks, where an UNTIL leads, what is damaged, what a DURING
//! writes, and what a statement comes to.
#![tactic(auto)]

pub mod answer;
pub mod damage;
pub mod drops;
pub mod during;
pub mod facts;
pub mod hand;
pub mod handed;
pub mod job;
pub mod marks;
pub mod mounts;
pub mod naming;
pub mod nature;
pub mod recorded;
pub mod replies;
pub mod room;
pub mod running;
pub mod state;
pub mod tracking;
pub mod until;
pub mod writers;

pub use answer::{Answer, stop_of};
pub use facts::channel_count;
pub use handed::Handed;
pub use job::{FileBackup, Job};
pub use nature::{Nature, is_built, nature_of, only_tells};
pub use state::{Instance, State};
