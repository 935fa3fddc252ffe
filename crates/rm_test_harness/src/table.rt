//! The tables of `data/`. A line with an arrow is a case: what is asked, and what comes of it. Any other line says what
//! is there, but for those that are empty or begin with `#`.
ghost use Rattle.std.specs.Prelude.{◌++◌, IsErr, IfErr, codes};
ghost use Rattle.rm_test_harness.specs.Faults.{Tells};

use crate::fault::{Fault, differs};
use std::alloc::Global;

/// What a table tells of.
pub trait Told {
    /// Takes in what a line says that is no case. There is none, if this is left out.
    fn say(&mut self, alloc: Global, line: &str) -> Result<(), Fault> {
        differs(alloc, line)
    }

    /// What comes of what is asked.
    fn told(&mut self, alloc: Global, asked: &str) -> Result<String, Fault>;
}

// This is told in place of what is wanted.
fn otherwise(alloc: Global, line: &str, found: &str) -> Result<bool, Fault>
    ensures refused { IsErr result }
    ensures told { IfErr result (Tells (line.now ++ (codes ": " ++ found.now))) }
{
    Err(Fault::Differs(format!(in alloc; "{line}: {found}")?))
}

// Whether the line is a case. If it is one, it is as the table says.
fn is_case<T: Told>(alloc: Global, line: &str, told: &mut T) -> Result<bool, Fault> {
    let Some((asked, wanted)) = line.split_once(" -> ") else {
        told.say(alloc, line)?;
        return Ok(false);
    };
    let found = told.told(alloc, asked)?;
    if found.as_str() == wanted {
        Ok(true)
    } else {
        otherwise(alloc, line, found.as_str())
    }
}

/// How many cases of the table are as it says.
pub fn cases<T: Told>(alloc: Global, text: &str, told: &mut T) -> Result<u64, Fault> {
    let mut cases = 0u64;
    for line in text.lines() {
        if line.is_empty() || line.starts_with("#") {
            continue;
        }
        if is_case(alloc, line, told)? {
            cases = cases.saturating_add(1);
        }
    }
    Ok(cases)
}
