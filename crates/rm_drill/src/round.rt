//! One round of the drill: a backup during writes.
ghost use Rattle.std.specs.{Prelude.{◌≡◌, ◌++◌, IfOk, OnOk}, String.{string_bytes}};
ghost use Rattle.rm_drill.specs.Script.{next_number, number_after_writes, round_end, round_text, statement_of, write_text, writes_text};

use crate::draw::{draw_at, next_of};
use rm_base::NoMemory;
use std::alloc::AllocError;

const WRITES: u64 = 1000;

// Appends write `k` of a round, where the draws give `a` and `b`.
#[tactic(auto, unfolding(crate::specs::Script::statement_of))]
fn push_statement(out: &mut String, a: u64, b: u64, round: u64, k: u64) -> Result<(), AllocError>
    ensures { OnOk result (string_bytes out.new ≡ string_bytes out.old ++ statement_of a b round k) }
{
    let thread = 1 + k % 2;
    let file = 1 + a % 4;
    let block = b % 1024;
    write!(
        out,
        "WRITE THREAD {thread} DATAFILE {file} BLOCK {block} VALUE 'r{round}k{k}';"
    )
}

// Appends write `k` of a round before which the number is this one, and tells the number after it.
fn push_write(out: &mut String, number: u64, round: u64, k: u64) -> Result<u64, NoMemory>
    ensures text { OnOk result (string_bytes out.new ≡ string_bytes out.old ++ write_text number round k) }
    ensures after { IfOk result (λ x. x ≡ next_number (next_number number)) }
{
    let first = next_of(number);
    let second = next_of(first);
    let a = draw_at(first);
    let b = draw_at(second);
    push_statement(out, a, b, round, k)?;
    Ok(second)
}

// Appends the first writes of a round, each with a space before it, and tells the number after them.
#[tactic(auto, unfolding(crate::specs::Script::writes_text, crate::specs::Script::number_after_writes))]
fn push_writes(out: &mut String, number: u64, round: u64, count: u64) -> Result<u64, NoMemory>
    ensures text { OnOk result (string_bytes out.new ≡ string_bytes out.old ++ writes_text number round count) }
    ensures after { IfOk result (λ x. x ≡ number_after_writes number count) }
{
    let mut now = number;
    for k in 0..count {
        out.push_str(" ")?;
        now = push_write(out, now, round, k)?;
    }
    Ok(now)
}

#[tactic(auto, unfolding(crate::specs::Script::round_end))]
fn push_end(out: &mut String, round: u64) -> Result<(), NoMemory>
    ensures { OnOk result (string_bytes out.new ≡ string_bytes out.old ++ round_end round) }
{
    out.push_str(" };\n")?;
    if round % 5 == 0 {
        out.push_str("ALTER SYSTEM ARCHIVE LOG CURRENT;\n")?;
    }
    Ok(())
}

// Appends a round before which the number is this one, and tells the number after it.
pub(crate) fn push_round(out: &mut String, number: u64, round: u64) -> Result<u64, NoMemory>
    ensures text { OnOk result (string_bytes out.new ≡ string_bytes out.old ++ round_text number round) }
    ensures after { IfOk result (λ x. x ≡ number_after_writes number 1000) }
{
    out.push_str("BACKUP INCREMENTAL LEVEL 1 DATABASE DURING {")?;
    let after = push_writes(out, number, round, WRITES)?;
    push_end(out, round)?;
    Ok(after)
}
