//! What the replies of a session come to.
ghost use Rattle.std.specs.{Prelude.{◌≡◌, ◌∷◌, ◌++◌, [], List, sum_by}, List.{list_any}};
ghost use Rattle.rm_report.specs.declared.line.Reply.{Reply};
ghost use Rattle.rm_tool.specs.Drill.{IsTally, capped, writes_in};

use rm_report::{Line, Reply};

/// How many replies are refusals, and of how many writes they tell. Each stands still at 2^64 - 1.
#[derive(Clone, Copy)]
pub struct Tally {
    pub refused: u64,
    pub writes: u64,
}

// How many writes a line tells of: 1 or 0.
fn writes_in(line: &Line) -> u64
    ensures { result ≡ writes_in line.now }
{
    match line {
        Line::Written { .. } | Line::ThreadScn { .. } => 1,
        _ => 0,
    }
}

// How many writes lines tell of.
fn writes_of(lines: &[Line]) -> u64
    ensures { result ≡ capped (sum_by writes_in lines.now) }
{
    let mut writes = 0u64;
    for line in lines {
        writes = writes.saturating_add(writes_in(line));
    }
    writes
}

impl Tally {
    /// That of no reply.
    pub fn new() -> Tally
        ensures { IsTally result [] }
    {
        Tally {
            refused: 0,
            writes: 0,
        }
    }

    /// That of one reply more.
    pub fn after(self, reply: &Reply) -> Tally
        ensures { (before : List Reply) → IsTally self before → IsTally result (before ++ reply.now ∷ []) }
    {
        Tally {
            refused: self.refused.saturating_add(u64::from(reply.refused)),
            writes: self
                .writes
                .saturating_add(writes_of(reply.lines.as_slice())),
        }
    }

    /// Whether a reply is a refusal.
    pub fn has_refused(self) -> bool
        ensures { (replies : List Reply) → IsTally self replies → result ≡ list_any (λ r. r.refused) replies }
    {
        self.refused > 0
    }
}
