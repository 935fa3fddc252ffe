//! LIST INCARNATION
ghost use Rattle.std.specs.Prelude.{◌≡◌, ◌++◌, ◌∷◌, [], IfOk, OnOk, Option, length};
ghost use Rattle.rm_base.specs.Store.{Held};
ghost use Rattle.rm_lang_statement.specs.declared.command.Command.TheVariants.{ListIncarnation};
ghost use Rattle.rm_history.specs.Tree.{IsThere};
ghost use Rattle.rm_machine.specs.{Hands.{Tells}, ListIncarnation.{incarnation_line, incarnation_lines}};

use rm_base::{IncNo, NoMemory, Seq};
use rm_history::Tree;
use rm_machine::State;
use rm_report::Line;
use std::alloc::Global;

// Adds the line of an incarnation.
fn push_incarnation(
    tree: &Tree,
    current: IncNo,
    inc: IncNo,
    lines: &mut Seq<Line>,
) -> Result<(), NoMemory>
    requires current { IsThere tree.now current }
    requires there { IsThere tree.now inc }
    ensures { OnOk result (lines.new ≡ lines.old ++ incarnation_line tree.now current inc ∷ []) }
{
    if let (Some(incarnation), Some(standing)) = (tree.get(inc), tree.standing(inc, current)) {
        lines.push(Line::IncarnationIs {
            inc,
            parent: incarnation.parent,
            reset: incarnation.reset,
            end: incarnation.end,
            standing,
        })?;
    }
    Ok(())
}

// The lines of all incarnations.
fn lines_of_all(alloc: Global, tree: &Tree, current: IncNo) -> Result<Seq<Line>, NoMemory>
    requires current { IsThere tree.now current }
    ensures { IfOk result (λ lines. lines ≡ incarnation_lines tree.now current 1 (length tree.now)) }
{
    let mut lines = Seq::new(alloc);
    for inc in 1..=tree.count() {
        push_incarnation(tree, current, inc, &mut lines)?;
    }
    Ok(lines)
}

/// LIST INCARNATION: the line of each incarnation. Nothing changes. An error is want of memory.
pub fn list_incarnation(alloc: Global, state: &State) -> Result<Seq<Line>, NoMemory>
    ensures tells { IfOk result (λ lines. (held : Option Held) → Tells held state.now ListIncarnation lines) }
{
    let current = state.catalog.base().current;
    lines_of_all(alloc, state.catalog.tree(), current)
}
