//! Tests of the public calls of the libraries below the machine, each of which prints a line: of rm_base, rm_lang_token, rm_history,
//! rm_blocks, rm_lanes and rm_track, of rm_catalog, rm_control and rm_redo, of rm_piece, rm_evidence and rm_commit, of rm_merge and rm_backup, and of
//! rm_retain. The long tables and the worked rows are files of `data/`, of which each line is a case or says what is there.
#![tactic(auto)]

mod catalog;
mod changes;
mod control;
mod datafiles;
mod devices;
mod formats;
mod keeper;
mod kernels;
mod log_bytes;
mod logs;
mod made;
mod many;
mod merging;
mod parents;
mod piece_bytes;
mod pieces;
mod record;
mod renewing;
mod retention;
mod scripts;
mod set_bytes;
mod set_objects;
mod stores;
mod tracking;
mod trees;
mod values;
mod windows;
mod worlds;

use rm_test_harness::{Fault, tell, tell_cases, tell_table};
use std::{fs, io};

fn tell_values(rt: &HostRuntime) -> io::Result<()> {
    let alloc = rt.alloc();
    tell::<Fault>(rt, "a block is padded", Ok(values::a_block()))?;
    tell(rt, "bytes are sealed", values::sealed(alloc))?;
    tell(rt, "numbers are big-endian", values::numbers(alloc))?;
    tell(rt, "a list is given back", values::a_list(alloc))?;
    tell(rt, "a text is given back", values::a_text(alloc))?;
    tell(rt, "tokens are written", scripts::written(alloc))
}

fn tell_devices(rt: &HostRuntime) -> io::Result<()> {
    let alloc = rt.alloc();
    tell(rt, "a source fails", devices::a_source_fails(alloc))?;
    tell(rt, "a source gives the front", devices::a_source(alloc))?;
    tell(rt, "a sink fails", devices::a_sink_fails(alloc))?;
    tell(rt, "a clock repeats", devices::a_clock(alloc))
}

fn tell_tables(rt: &HostRuntime) -> io::Result<()> {
    tell_table(rt, "scripts", scripts::Scripts)?;
    tell_table(rt, "stores", stores::Stores { store: None })?;
    tell_table(rt, "trees", trees::Trees { tree: None })
}

fn tell_history(rt: &HostRuntime) -> io::Result<()> {
    let alloc = rt.alloc();
    tell(rt, "the most incarnations", trees::most(alloc))?;
    tell(rt, "states of a block", worlds::states(alloc))?;
    tell(rt, "a datafile exists", worlds::a_datafile(alloc))?;
    tell(rt, "threads of a world", worlds::threads(alloc))?;
    tell(rt, "a created datafile", datafiles::created(alloc))?;
    tell(rt, "a block is written", datafiles::a_write(alloc))?;
    tell(rt, "a datafile is moved", datafiles::moved(alloc))
}

fn tell_kernels(rt: &HostRuntime) -> io::Result<()> {
    let alloc = rt.alloc();
    tell(rt, "kernels are plain loops", kernels::plain(alloc))?;
    tell::<Fault>(rt, "bits are least first", Ok(kernels::least_first()))?;
    tell(rt, "blocks with a bit each", tracking::blocks(alloc))?;
    tell(rt, "a level 1 behind six", tracking::behind_six(alloc))?;
    tell(rt, "a level 1 behind seven", tracking::behind_seven(alloc))
}

fn tell_catalogs(rt: &HostRuntime) -> io::Result<()> {
    let text = fs::read_to_string(rt, "catalog.txt")?;
    tell_catalog(rt, text.as_str())
}

fn tell_catalog(rt: &HostRuntime, text: &str) -> io::Result<()> {
    let alloc = rt.alloc();
    tell_cases(rt, "rules of records", catalog::rules(alloc, text))?;
    tell(rt, "calls of a catalog", catalog::calls(alloc, text))?;
    tell(rt, "threads of a catalog", catalog::threads(alloc, text))?;
    tell(rt, "edits of a catalog", catalog::edits(alloc, text))?;
    tell(rt, "copies", catalog::copies(alloc, text))?;
    tell(rt, "each load fails", keeper::each_load(alloc, text))?;
    tell(rt, "each apply fails", keeper::each_apply(alloc, text))?;
    tell(rt, "edits in order", keeper::in_order(alloc, text))?;
    tell(rt, "drops of many marks", many::dropped(alloc))
}

fn tell_controls(rt: &HostRuntime) -> io::Result<()> {
    let alloc = rt.alloc();
    tell(rt, "the third list fails", control::third_list(alloc))?;
    tell(rt, "a far keeper away", control::away_and_back(alloc))?;
    tell(rt, "the near keeper fails", control::near_fails(alloc))?;
    tell(rt, "equal records take no list", control::equal(alloc))?;
    tell(rt, "one list makes them equal", control::one_list(alloc))?;
    tell(rt, "what waits is sent", control::sent(alloc))
}

fn tell_log_numbers(rt: &HostRuntime) -> io::Result<()> {
    let text = fs::read_to_string(rt, "logs.txt")?;
    let numbers = log_bytes::numbers(rt.alloc(), text.as_str());
    tell_cases(rt, "bytes of logs", numbers)
}

fn tell_a_log(rt: &HostRuntime) -> io::Result<()> {
    let hex = fs::read_to_string(rt, "log_of_two_records.txt")?;
    let two = log_bytes::two_records(rt.alloc(), hex.as_str());
    tell(rt, "a log of two records", two)
}

fn tell_log_bytes(rt: &HostRuntime) -> io::Result<()> {
    let alloc = rt.alloc();
    tell_log_numbers(rt)?;
    tell_a_log(rt)?;
    tell(rt, "no front of it", log_bytes::no_front(alloc))?;
    tell(rt, "each byte changed", log_bytes::each_byte(alloc))?;
    tell(rt, "the longest log", log_bytes::longest(alloc))
}

fn tell_logs(rt: &HostRuntime) -> io::Result<()> {
    let alloc = rt.alloc();
    tell(rt, "a change is logged", logs::a_change(alloc))?;
    tell(rt, "a switch", logs::a_switch(alloc))?;
    tell(rt, "a lost log", logs::a_lost_log(alloc))?;
    tell(rt, "a full log", logs::a_full_log(alloc))?;
    tell(rt, "logs of two threads", logs::of_threads(alloc))?;
    tell(rt, "a thread is enabled", logs::enabled(alloc))?;
    tell(rt, "a thread is disabled", logs::disabled(alloc))?;
    tell(rt, "logs of log files", logs::of_files(alloc))
}

fn tell_a_copy(rt: &HostRuntime) -> io::Result<()> {
    let hex = fs::read_to_string(rt, "copy_of_two_blocks.txt")?;
    let copy = piece_bytes::two_blocks(rt.alloc(), hex.as_str());
    tell(rt, "a copy of two blocks", copy)
}

fn tell_pieces(rt: &HostRuntime) -> io::Result<()> {
    let alloc = rt.alloc();
    tell_a_copy(rt)?;
    tell(rt, "no front of it", piece_bytes::no_front(alloc))?;
    tell(rt, "each byte changed", piece_bytes::each_byte(alloc))?;
    tell(rt, "rows from an SCN on", piece_bytes::rows_from(alloc))?;
    tell_table(rt, "pieces", piece_bytes::Pieces)
}

fn tell_a_set(rt: &HostRuntime) -> io::Result<()> {
    let hex = fs::read_to_string(rt, "set_of_two_files.txt")?;
    let set = set_bytes::two_files(rt.alloc(), hex.as_str());
    tell(rt, "a set of two datafiles", set)
}

fn tell_sets(rt: &HostRuntime) -> io::Result<()> {
    let alloc = rt.alloc();
    tell_a_set(rt)?;
    tell(rt, "no front of it", set_bytes::no_front(alloc))?;
    tell(rt, "each byte changed", set_bytes::each_byte(alloc))?;
    tell(rt, "a set of none", set_bytes::none(alloc))?;
    tell(rt, "a set of the most", set_bytes::most(alloc))?;
    tell(rt, "rows from the creation", set_bytes::risen(alloc))?;
    tell_table(rt, "sets", set_bytes::Sets)?;
    tell_table(rt, "set_objects", set_objects::SetObjects)
}

fn tell_backups(rt: &HostRuntime) -> io::Result<()> {
    let alloc = rt.alloc();
    tell_table(rt, "changes", changes::Changes)?;
    tell_table(rt, "merging", merging::Merging { copy: None })?;
    tell_table(rt, "parents", parents::Parents::new())?;
    tell_table(rt, "renewing", renewing::Shelf::new(alloc))?;
    tell_table(rt, "retention", retention::Retention::new(alloc))?;
    tell_table(rt, "windows", windows::Windows::new(alloc))
}

fn main(rt: HostRuntime) -> io::Result<()> {
    tell_values(&rt)?;
    tell_devices(&rt)?;
    tell_tables(&rt)?;
    tell_history(&rt)?;
    tell_kernels(&rt)?;
    tell_catalogs(&rt)?;
    tell_controls(&rt)?;
    tell_log_bytes(&rt)?;
    tell_logs(&rt)?;
    tell_pieces(&rt)?;
    tell_sets(&rt)?;
    tell_backups(&rt)
}
