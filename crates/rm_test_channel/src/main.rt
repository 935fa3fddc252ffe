//! Tries passes of a live database, copies by several threads beside writers, and parts put into rows by several threads,
//! each with a line of what came of it.
#![tactic(auto)]

mod during;
mod gates;
mod mending;
mod parts;
mod passes;
mod small;
mod writers;

use rm_test_harness::tell;
use std::io;

fn main(rt: HostRuntime) -> io::Result<()> {
    let alloc = rt.alloc();
    tell(
        &rt,
        "passes on one thread",
        passes::on_one_thread(&rt, alloc),
    )?;
    tell(
        &rt,
        "passes on two threads",
        passes::on_two_threads(&rt, alloc),
    )?;
    tell(
        &rt,
        "a log that becomes full",
        passes::a_full_log(&rt, alloc),
    )?;
    tell(&rt, "the last SCN", passes::the_last_scn(&rt, alloc))?;
    tell(&rt, "a row that is put back", passes::a_mend(&rt, alloc))?;
    tell(&rt, "1, 2, 4 and 16 channels", small::same_rows(&rt, alloc))?;
    tell(&rt, "the marked blocks", small::marked_rows(&rt, alloc))?;
    tell(&rt, "the lengths of sections", small::lengths(&rt, alloc))?;
    tell(&rt, "two channels that meet", small::meeting(&rt, alloc))?;
    tell(&rt, "gate-holds-section", during::holding(&rt, alloc))?;
    tell(&rt, "16 channels and 4 writers", writers::many(&rt, alloc))?;
    tell(&rt, "two lists of writes", mending::lists_alone(&rt, alloc))?;
    tell(&rt, "rows put in place", mending::alone(&rt, alloc))?;
    tell(
        &rt,
        "rows put in place beside writers",
        mending::beside(&rt, alloc),
    )?;
    tell(
        &rt,
        "parts by 1, 2 and 16 channels",
        parts::same_rows(&rt, alloc),
    )?;
    tell(&rt, "a part beyond the rows", parts::beyond(&rt, alloc))?;
    tell(&rt, "of two parts the last", parts::last(&rt, alloc))?;
    tell(&rt, "parts in order", parts::in_order(&rt, alloc))
}
