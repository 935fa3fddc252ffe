//! What a task comes to.
use rm_base::Seq;
use rm_piece::Set;
use rm_report::Line;

/// The new standby, where there is one, and the lines that tell of it.
#[derive(Drop)]
pub(crate) struct Work {
    pub new: Option<Set>,
    pub lines: Seq<Line>,
}
