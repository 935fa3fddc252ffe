//! Recovers a database as its script says, makes a duplicate or a standby of one, or makes a catalog equal to a control file.
#![tactic(auto)]

mod bad_words;
mod catalog;
mod descriptors;
mod duplicating;
mod folder;
mod following;
mod place;
mod records;
mod resyncing;
mod session;
mod standing;
mod told;

use catalog::{Machine, Opens};
use rm_base::{NoMemory, Text};
use std::env;
use std::io::ErrorKind;
use std::process::ExitCode;
use std::sync::Wait;
use std::thread::Threads;

// The program's words. Where one of them is no text there are none, which are refused.
fn words(rt: &HostRuntime) -> Result<Vec<Text>, NoMemory> {
    let mut words = Vec::new(rt.alloc());
    match env::args(rt) {
        Ok(args) => {
            for word in args.skip(1) {
                words.push(Text::from_string(word))?;
            }
        }
        Err(error) if error.kind() == ErrorKind::OutOfMemory => return Err(NoMemory),
        Err(_) => {}
    }
    Ok(words)
}

// What the program's words ask for, with threads by the second handle, over the files that are opened so: its status. An error is want of
// memory before it began.
fn serve<R: Threads + Wait + Sync, O: Opens>(
    rt: &HostRuntime,
    threads: &R,
    opens: &O,
) -> Result<u8, NoMemory> {
    let words = words(rt)?;
    match words.as_slice() {
        [first, rest @ ..] if first.as_str() == "duplicate" => duplicating::duplicate(
            rt, threads, opens, rest,
        ),
        [first, rest @ ..] if first.as_str() == "standby" => standing::standby(
            rt, threads, opens, rest,
        ),
        [first, rest @ ..] if first.as_str() == "resync" => resyncing::resync(rt, opens, rest),
        all => session::session(rt, threads, opens, all),
    }
}

fn main(rt: HostRuntime) -> ExitCode {
    let held = descriptors::hold(&rt);
    let status = match serve(&rt, &rt, &Machine { rt: &rt }) {
        Ok(status) => status,
        Err(NoMemory) => {
            told::memory(&rt);
            7
        }
    };
    let _ = held;
    ExitCode::from(status)
}
