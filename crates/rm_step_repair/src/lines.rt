//! The lines of the reply.
ghost use Rattle.std.specs.Prelude.{◌≡◌, ◌++◌, OnOk, map};
ghost use Rattle.rm_step_repair.specs.Told.{mended_line};

use rm_base::{NoMemory, Seq};
use rm_repair::MendJob;
use rm_report::Line;

// The line of a block that is mended.
fn mended_line(job: &MendJob) -> Line
    ensures { result ≡ mended_line job.now }
{
    Line::Mended {
        file: job.file,
        block: job.row.block,
        version: job.row.version,
    }
}

/// Adds a line for each block that is mended. An error is want of memory; then nothing is said of the lines.
pub(crate) fn push_mends(lines: &mut Seq<Line>, jobs: &[MendJob]) -> Result<(), NoMemory>
    ensures { OnOk result (lines.new ≡ lines.old ++ map mended_line jobs.now) }
{
    for job in jobs {
        lines.push(mended_line(job))?;
    }
    Ok(())
}
