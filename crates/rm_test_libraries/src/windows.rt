//! The table of where a window starts.
use rm_base::{IncNo, Mark, Moment};
use rm_history::{Tree, TreeFault};
use rm_retain::window_start;
use rm_test_harness::{Fault, Told, differs, head, numbers};
use std::alloc::Global;

/// The marks of the case.
#[derive(Drop)]
pub struct Windows {
    marks: Vec<Mark>,
}

impl Windows {
    pub fn new(alloc: Global) -> Windows {
        Windows {
            marks: Vec::new(alloc),
        }
    }
}

// Incarnation 1 from 1 to 9, and incarnation 2 from 4 on.
fn tree(alloc: Global) -> Result<Tree, Fault> {
    let mut tree = Tree::new(alloc, 1)?;
    if !tree.set_end(1, 9) {
        return differs(alloc, "no end");
    }
    match tree.branch(1, 4) {
        Ok(_) => Ok(tree),
        Err(TreeFault::NoMemory) => Err(Fault::NoMemory),
        Err(_) => differs(alloc, "no branch"),
    }
}

// The mark of these words: MOMENT INC SCN.
fn mark(alloc: Global, words: &str) -> Result<Mark, Fault> {
    let numbers = numbers::<u32>(alloc, words)?;
    match numbers.as_slice() {
        [moment, inc, scn] => Ok(Mark {
            moment: u64::from(*moment),
            inc: *inc,
            scn: u64::from(*scn),
        }),
        _ => differs(alloc, words),
    }
}

// The marks of this text: MOMENT INC SCN, and so on.
fn marks(alloc: Global, text: &str) -> Result<Vec<Mark>, Fault> {
    let mut marks = Vec::new(alloc);
    for words in text.split(", ") {
        if !words.is_empty() {
            marks.push(mark(alloc, words)?)?;
        }
    }
    Ok(marks)
}

// The SCN at which a window of so many days starts, or `none`.
fn start(
    alloc: Global,
    current: IncNo,
    days: u32,
    moment: Moment,
    marks: &[Mark],
) -> Result<String, Fault> {
    let tree = tree(alloc)?;
    if tree.get(current).is_none() {
        return differs(alloc, "no such incarnation");
    }
    match window_start(&tree, current, days, moment, marks) {
        Some(scn) => Ok(format!(in alloc; "{scn}")?),
        None => Ok(String::from_str(alloc, "none")?),
    }
}

impl Told for Windows {
    fn say(&mut self, alloc: Global, line: &str) -> Result<(), Fault> {
        match head(line) {
            ("marks", text) => self.marks = marks(alloc, text)?,
            _ => return differs(alloc, line),
        }
        Ok(())
    }

    fn told(&mut self, alloc: Global, asked: &str) -> Result<String, Fault> {
        let (word, rest) = head(asked);
        let numbers = numbers::<u32>(alloc, rest)?;
        match (word, numbers.as_slice()) {
            ("start", [current, days, moment]) => {
                start(alloc, *current, *days, u64::from(*moment), &self.marks)
            }
            _ => differs(alloc, asked),
        }
    }
}
