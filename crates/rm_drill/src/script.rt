//! The whole script.
ghost use Rattle.std.specs.{Prelude.{◌≡◌, ◌++◌, IfOk, OnOk}, String.{string_bytes}};
ghost use Rattle.rm_drill.specs.Script.{closing_text, opening_text, rounds_text, script_text};

use crate::round::push_round;
use rm_base::{NoMemory, Seq};
use std::alloc::{AllocError, Global};

const ROUNDS: u64 = 20;

#[tactic(auto, unfolding(crate::specs::Script::opening_text))]
fn push_opening(out: &mut String) -> Result<(), AllocError>
    ensures { OnOk result (string_bytes out.new ≡ string_bytes out.old ++ opening_text) }
{
    out.push_str("CREATE DATABASE THREADS 2;\n")?;
    out.push_str("CREATE DATAFILE BLOCKS 1024;\n")?;
    out.push_str("CREATE DATAFILE BLOCKS 1024;\n")?;
    out.push_str("CREATE DATAFILE BLOCKS 1024;\n")?;
    out.push_str("CREATE DATAFILE BLOCKS 1024;\n")?;
    out.push_str("ALTER DATABASE ENABLE BLOCK CHANGE TRACKING;\n")?;
    out.push_str("BACKUP INCREMENTAL LEVEL 0 DATABASE;\n")
}

#[tactic(auto, unfolding(crate::specs::Script::closing_text))]
fn push_closing(out: &mut String) -> Result<(), AllocError>
    ensures { OnOk result (string_bytes out.new ≡ string_bytes out.old ++ closing_text) }
{
    out.push_str("STARTUP FORCE MOUNT;\n")?;
    out.push_str("RESTORE DATABASE;\n")?;
    out.push_str("RECOVER DATABASE;\n")?;
    out.push_str("ALTER DATABASE OPEN;\n")?;
    out.push_str("VALIDATE ALL;\n")
}

#[tactic(auto, unfolding(crate::specs::Script::rounds_text, crate::specs::Script::number_after_rounds))]
fn push_rounds(out: &mut String, number: u64, count: u64) -> Result<(), NoMemory>
    ensures { OnOk result (string_bytes out.new ≡ string_bytes out.old ++ rounds_text number count) }
{
    let mut now = number;
    for index in 0..count {
        now = push_round(out, now, index + 1)?;
    }
    Ok(())
}

/// The script of the drill of this number, as bytes: a database of two threads and four datafiles, 20
/// rounds of a backup during 1,000 writes each, and a recovery. One line feed ends each of its 36
/// statements.
#[tactic(auto, unfolding(crate::specs::Script::script_text))]
pub fn drill_script(alloc: Global, number: u64) -> Result<Seq<u8>, NoMemory>
    ensures { IfOk result (λ bytes. bytes ≡ script_text number) }
{
    let mut out = String::new(alloc);
    push_opening(&mut out)?;
    push_rounds(&mut out, number, ROUNDS)?;
    push_closing(&mut out)?;
    Ok(Seq::from_vec(out.into_bytes()))
}
