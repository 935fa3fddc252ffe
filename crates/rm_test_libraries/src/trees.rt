//! Trees of incarnations.
use rm_base::{IncNo, Scn};
use rm_history::{Standing, Tree, TreeFault};
use rm_test_harness::{Fault, Told, differs, head, numbers, shown};
use std::alloc::Global;

// One more that branches off, where there is room.
fn branch(tree: &mut Tree, parent: IncNo, at: Scn) -> Result<IncNo, TreeFault> {
    if tree.count() < 256 {
        tree.branch(parent, at)
    } else {
        Err(TreeFault::NoMemory)
    }
}

/// There are 256 incarnations at most.
pub fn most(alloc: Global) -> Result<bool, Fault> {
    let mut tree = Tree::new(alloc, 1)?;
    for number in 2..257u32 {
        if branch(&mut tree, number.saturating_sub(1), 1) != Ok(number) {
            return Ok(false);
        }
    }
    let is_parent = tree.standing(1, 256) == Some(Standing::Parent);
    Ok(tree.count() == 256 && is_parent && tree.segment_end(255, 256) == Some(1))
}

/// The tree of the case.
#[derive(Drop)]
pub struct Trees {
    pub tree: Option<Tree>,
}

impl Told for Trees {
    fn told(&mut self, alloc: Global, given: &str) -> Result<String, Fault> {
        let (call, rest) = head(given);
        let numbers = numbers::<u32>(alloc, rest)?;
        let tree = match (&mut self.tree, numbers.as_slice()) {
            (at, [first]) if call == "new" => at.insert(Tree::new(alloc, u64::from(*first))?),
            (Some(tree), _) => tree,
            _ => return differs(alloc, "no tree"),
        };
        match (call, numbers.as_slice()) {
            ("new", _) | ("count", _) => shown(alloc, tree.count()),
            ("set_end", [i, end]) => shown(alloc, tree.set_end(*i, u64::from(*end))),
            ("branch", [i, at]) => shown(alloc, branch(tree, *i, u64::from(*at))),
            ("get", [i]) => shown(alloc, tree.get(*i)),
            ("owner", [i, g]) => shown(alloc, tree.owner(*i, u64::from(*g))),
            ("segment_end", [j, i]) => shown(alloc, tree.segment_end(*j, *i)),
            ("shared", [i, j]) => shown(alloc, tree.shared(*i, *j)),
            ("standing", [i, current]) => shown(alloc, tree.standing(*i, *current)),
            _ => differs(alloc, "no call"),
        }
    }
}
