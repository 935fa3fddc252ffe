//! The tree that the incarnations of the records make.
ghost use Rattle.std.specs.Prelude.{◌≡◌, ◌<◌, ◌≤◌, ◌++◌, ◌∷◌, [], length, IfOk, option_to_list};
ghost use Rattle.rm_history.specs.Tree.{IsThere, reset_of, end_of};
ghost use Rattle.rm_catalog.specs.Trees.{node, node_in, nodes, as_tree, known_in, IsNext, BranchInTurn};
ghost use Rattle.rm_catalog.specs.declared.record.{IncarnationEntry.{IncarnationEntry}, Record.TheVariants.{Incarnation}};

use crate::record::{IncarnationEntry, Record};
use rm_base::NoMemory;
use rm_history::{Tree, TreeFault};
use std::alloc::Global;

// The tree of a first incarnation.
fn first(alloc: Global, i: &IncarnationEntry) -> Result<Tree, NoMemory>
    requires parent { i.now.parent ≡ 0 }
    requires ends { i.now.reset ≤ i.now.end }
    ensures { IfOk result (λ t. t ≡ node i.now ∷ []) }
{
    let mut tree = Tree::new(alloc, i.reset)?;
    tree.set_end(1, i.end);
    Ok(tree)
}

// The tree with an incarnation that branched off from one that is there.
fn branched(mut tree: Tree, i: &IncarnationEntry) -> Result<Tree, NoMemory>
    requires few { length tree < 256 }
    requires parent { IsThere tree i.now.parent }
    requires begins { (reset_of tree i.now.parent ≤ i.now.reset) × (i.now.reset ≤ end_of tree i.now.parent) }
    requires ends { i.now.reset ≤ i.now.end }
    ensures { IfOk result (λ t. t ≡ tree ++ node i.now ∷ []) }
{
    match tree.branch(i.parent, i.reset) {
        Ok(number) => {
            tree.set_end(number, i.end);
            Ok(tree)
        }
        Err(TreeFault::NoMemory) => Err(NoMemory),
        Err(TreeFault::NoSuch | TreeFault::Outside) => unreachable!(),
    }
}

// The tree with one incarnation more.
fn with_next(alloc: Global, tree: Option<Tree>, i: &IncarnationEntry) -> Result<Tree, NoMemory>
    requires { IsNext (known_in tree) i.now }
    ensures { IfOk result (λ t. t ≡ known_in tree ++ node i.now ∷ []) }
{
    match tree {
        None => first(alloc, i),
        Some(tree) => branched(tree, i),
    }
}

// The tree after one record more.
fn with_row(alloc: Global, tree: Option<Tree>, row: &Record) -> Result<Option<Tree>, NoMemory>
    requires tree { tree ≡ as_tree (known_in tree) }
    requires next { (i : IncarnationEntry) → row.now ≡ Incarnation i → IsNext (known_in tree) i }
    ensures { IfOk result (λ t. t ≡ as_tree (known_in tree ++ option_to_list (node_in row.now))) }
{
    match row {
        Record::Incarnation(i) => Ok(Some(with_next(alloc, tree, i)?)),
        _ => Ok(tree),
    }
}

/// The tree of the incarnations among the records. None without any.
pub fn build(alloc: Global, records: &[Record]) -> Result<Option<Tree>, NoMemory>
    requires { BranchInTurn records.now }
    ensures { IfOk result (λ t. t ≡ as_tree (nodes records.now)) }
{
    let mut tree = None;
    for row in records {
        tree = with_row(alloc, tree, row)?;
    }
    Ok(tree)
}
