//! Tries the keeper over a file and the store over a directory on real files, in the folder where it runs.
//! With no word it takes the steps of its data, and tells what each call answered. With words it does one thing, for the
//! scripts under bench: what, where, how often, and the name of an object. Among its data are a catalog that was made by the
//! script beside it when there were no backup sets yet, and those that tables.sql made.
#![tactic(auto)]

mod asked;
mod catalogs;
mod files;
mod made;
mod objects;
mod steps;

use files::{Catalogs, Folders, Machine};
use std::{env, io};

fn words(rt: &HostRuntime) -> io::Result<Vec<String>> {
    let mut words = Vec::new(rt.alloc());
    for word in env::args(rt)?.skip(1) {
        words.push(word)?;
    }
    Ok(words)
}

fn all_steps<M: Catalogs + Folders>(rt: &HostRuntime, machine: &M) -> io::Result<()> {
    steps::run(rt, machine, "first.steps")?;
    objects::held(rt, machine, "held.steps")?;
    steps::run(rt, machine, "last.steps")
}

// What the words ask for, or else all steps, over the files that are opened so.
fn serve<M: Catalogs + Folders>(rt: &HostRuntime, machine: &M) -> io::Result<()> {
    match words(rt)?.as_slice() {
        [what, path, times, name] => asked::run(
            rt,
            machine,
            what.as_str(),
            path.as_str(),
            times.as_str(),
            name.as_str(),
        ),
        _ => all_steps(rt, machine),
    }
}

fn main(rt: HostRuntime) -> io::Result<()> {
    serve(&rt, &Machine { rt: &rt })
}
