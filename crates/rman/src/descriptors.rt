//! The standard descriptors, where the program is begun without one of them.
use std::fs::{File, OpenOptions};
use std::os::fd::AsRawFd;

/// What stands at 0, 1 and 2 where they were closed. While it is there no other file has such a number, so that neither a script
/// is read from one nor a reply written into it.
#[derive(Drop)]
pub struct Held {
    input: Option<File>,
    output: Option<File>,
    errors: Option<File>,
}

// A file at this number where it was closed, on which what the program does there fails: 0 can't be read, 1 and 2 can't be
// written. Below it none is closed, so a file that gets another number shows that this one is open, and is let go.
fn held_at(rt: &HostRuntime, number: i32) -> Option<File> {
    let opened = OpenOptions::new()
        .read(number != 0)
        .write(number == 0)
        .open(rt, "/dev/null");
    let Ok(file) = opened else {
        return None;
    };
    if file.as_raw_fd() == number {
        Some(file)
    } else {
        None
    }
}

/// Holds the standard descriptors that are closed, before any other file is opened.
pub fn hold(rt: &HostRuntime) -> Held {
    let input = held_at(rt, 0);
    let output = held_at(rt, 1);
    let errors = held_at(rt, 2);
    Held {
        input,
        output,
        errors,
    }
}
