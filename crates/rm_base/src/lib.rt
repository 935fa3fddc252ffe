//! Numbers, lists, changes, the devices outside, and bytes that end with their digest.
#![tactic(auto)]

pub mod block;
pub mod bytes;
pub mod count;
pub mod faults;
pub mod kinds;
pub mod latest;
pub mod mem_store;
pub mod memory;
pub mod number;
pub mod numbers;
pub mod outside;
pub mod ranges;
pub mod refusal;
pub mod sealed;
pub mod seq;
pub mod store;
pub mod text;

pub use block::{Block, BlockId, Change, Mark, Part, Row};
pub use count::Count;
pub use faults::{Failed, FormatFault, NoMemory};
pub use kinds::{Bad, Class, Kind, Policy, Status};
pub use latest::comes_first;
pub use mem_store::{MemClock, MemStore, StoreFailing};
pub use memory::{Failing, MemSink, MemSource};
pub use numbers::{
    BlockNo, FileNo, IncNo, LAST_MOMENT, LAST_SCN, MOST_BYTES, Moment, Scn, ThreadNo,
};
pub use outside::{Sink, Source};
pub use refusal::{Absent, Limit, Refusal, ThreadState, Unknown};
pub use seq::Seq;
pub use store::{Clock, Store, StoreFail};
pub use text::Text;
