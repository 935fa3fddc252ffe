//! What a statement hands out.
ghost use Rattle.std.specs.Prelude.{◌≡◌, [], ◌∷◌, IfOk};

use rm_base::{NoMemory, Seq, Text};
use rm_commit::Object;
use rm_report::Line;
use std::alloc::Global;

/// What a statement hands out: the lines of its reply, the objects that it makes, and the names from which
/// objects go. Its edits stand beside it.
#[derive(Drop)]
pub struct Handed {
    pub lines: Seq<Line>,
    pub objects: Seq<Object>,
    pub removes: Seq<Text>,
}

/// These lines, of a statement that makes and removes no object.
pub fn of_lines(alloc: Global, lines: Seq<Line>) -> Handed
    ensures lines { result.lines ≡ lines }
    ensures objects { result.objects ≡ [] }
    ensures removes { result.removes ≡ [] }
{
    Handed {
        lines,
        objects: Seq::new(alloc),
        removes: Seq::new(alloc),
    }
}

/// One line, of a statement that makes and removes no object. An error is want of memory.
pub fn of_line(alloc: Global, line: Line) -> Result<Handed, NoMemory>
    ensures lines { IfOk result (λ x. x.lines ≡ line ∷ []) }
    ensures objects { IfOk result (λ x. x.objects ≡ []) }
    ensures removes { IfOk result (λ x. x.removes ≡ []) }
{
    let mut lines = Seq::new(alloc);
    lines.push(line)?;
    Ok(of_lines(alloc, lines))
}
