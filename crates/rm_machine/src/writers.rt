//! What a DURING asks of its writers, and the lines of what they wrote.
ghost use Rattle.std.specs.Prelude.{◌≡◌, ◌≤◌, ◌++◌, All, IfOk, OnOk, length, map};
ghost use Rattle.rm_channel.specs.Jobs.{lists};
ghost use Rattle.rm_machine.specs.{Asked.{FitsNumbers, asked, by_thread, write_job, writers_in}, BackupOutcome.{write_lines}};
ghost use Rattle.rm_report.specs.declared.line.Line.TheVariants.{ThreadScn};

use crate::facts::MOST_THREADS;
use crate::state::State;
use rm_base::{BlockNo, FileNo, NoMemory, Scn, Seq, ThreadNo};
use rm_channel::WriteJob;
use rm_lang_statement::WriteForm;
use rm_report::Line;
use std::alloc::Global;

/// The writes that a DURING asks for, in the order of the text.
pub fn asked(during: &Option<Seq<WriteForm>>) -> &[WriteForm]
    ensures { result.now ≡ asked during.now }
{
    match during {
        Some(writes) => writes.as_slice(),
        None => &[],
    }
}

// A write, as its thread's writer has it.
fn write_job(write: &WriteForm) -> WriteJob
    requires { FitsNumbers write.now }
    ensures { result ≡ write_job write.now }
{
    WriteJob {
        file: write.file as FileNo,
        block: write.block as BlockNo,
        content: write.content,
    }
}

// The writes of a thread, in order.
fn by_thread(alloc: Global, thread: u64, writes: &[WriteForm]) -> Result<Vec<WriteJob>, NoMemory>
    requires { All FitsNumbers writes.now }
    ensures { IfOk result (λ jobs. jobs.items ≡ by_thread thread writes.now) }
{
    let mut jobs = Vec::new(alloc);
    for write in writes {
        if write.thread == thread {
            jobs.push(write_job(write))?;
        }
    }
    Ok(jobs)
}

/// A list of writes for each of the threads 1 to 4. An error is want of memory.
pub fn writers_in(
    alloc: Global,
    state: &State,
    during: &Option<Seq<WriteForm>>,
) -> Result<Vec<Vec<WriteJob>>, NoMemory>
    requires fits { All FitsNumbers (asked during.now) }
    ensures lists { IfOk result (λ writers. lists writers.items ≡ writers_in state.now during.now) }
    ensures few { IfOk result (λ writers. length writers.items ≤ 4) }
{
    let writes = asked(during);
    let mut writers = Vec::new(alloc);
    for index in 0..MOST_THREADS {
        writers.push(by_thread(alloc, u64::from(index) + 1, writes)?)?;
    }
    Ok(writers)
}

// Tells the SCNs of a thread's writes.
fn tell_thread(lines: &mut Seq<Line>, thread: ThreadNo, scns: &[Scn]) -> Result<(), NoMemory>
    ensures { OnOk result (lines.new ≡ lines.old ++ map (ThreadScn thread) scns.now) }
{
    for scn in scns {
        lines.push(Line::ThreadScn { thread, scn: *scn })?;
    }
    Ok(())
}

/// Tells the SCNs of the writes, thread by thread, from thread 1 on. An error is want of memory; then nothing is said of the lines.
pub fn tell_writes(lines: &mut Seq<Line>, scns: &[Vec<Scn>]) -> Result<(), NoMemory>
    requires few { length scns.now ≤ 4 }
    ensures { OnOk result (lines.new ≡ lines.old ++ write_lines 1 (lists scns.now)) }
{
    for (index, list) in scns.iter().enumerate() {
        tell_thread(lines, index as ThreadNo + 1, list.as_slice())?;
    }
    Ok(())
}
