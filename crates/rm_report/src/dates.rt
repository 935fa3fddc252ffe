//! Whether a reply has a text.
ghost use Rattle.std.specs.Prelude.{◌↔◌, IsTrue};
ghost use Rattle.rm_report.specs.Reply.{HasDate, LineHasDate, HasDates};

use crate::line::{Line, Reply};
use rm_base::{LAST_MOMENT, Refusal};

fn has_date(refusal: &Refusal) -> bool
    ensures { IsTrue result ↔ HasDate refusal.now }
{
    match refusal {
        Refusal::Rm14 { moment } => *moment <= LAST_MOMENT,
        _ => true,
    }
}

fn line_has_date(line: &Line) -> bool
    ensures { IsTrue result ↔ LineHasDate line.now }
{
    match line {
        Line::Refused(refusal) => has_date(refusal),
        _ => true,
    }
}

/// The moment of each RM-14 in the reply is at most the last of the year 9999, as its text wants. It
/// takes no memory.
pub fn has_dates(reply: &Reply) -> bool
    ensures { IsTrue result ↔ HasDates reply.now }
{
    for line in reply.lines.as_slice() {
        if !line_has_date(line) {
            return false;
        }
    }
    true
}
