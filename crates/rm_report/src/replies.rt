//! The reply of lines, and that of a refusal.
ghost use Rattle.std.specs.Prelude.{◌≡◌, IfOk};
ghost use Rattle.rm_report.specs.Reply.{refused_by, said};

use crate::line::{Line, Reply};
use rm_base::{NoMemory, Refusal, Seq};
use std::alloc::Global;

/// The reply that says these lines, as of a statement that is not refused. It takes no memory.
pub fn reply_of(lines: Seq<Line>) -> Reply
    ensures { result ≡ said lines }
{
    Reply {
        lines,
        refused: false,
    }
}

/// The reply of a refusal: its one line.
pub fn refusal_reply(alloc: Global, refusal: Refusal) -> Result<Reply, NoMemory>
    ensures { IfOk result (λ reply. reply ≡ refused_by refusal) }
{
    let mut lines = Seq::new(alloc);
    lines.push(Line::Refused(refusal))?;
    Ok(Reply {
        lines,
        refused: true,
    })
}
