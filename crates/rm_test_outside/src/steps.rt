//! The steps of a file of `data/`. It has blocks, with an empty line between two of them. What a block is about stands in its first
//! line, and each line below is a step:
//!
//! | First line | The block is |
//! |---|---|
//! | `# TEXT` | a word for the reader |
//! | `catalog PATH` | about the catalog of this path, which is closed then |
//! | `unclosed PATH` | about the same, and it is not closed |
//! | `folder PATH` | about the objects of this folder |
//! | `make PATH` | about the same, and it is made where it is missing |
//! | `tables` | a list of catalogs, each with what it is called and its path |
//! | any other | steps alone, this one too |
use crate::files::{Catalogs, Folders};
use crate::{catalogs, objects};
use std::os::unix::fs::{MetadataExt, symlink};
use std::{fs, io};

/// A line's first word, and what stands behind it.
pub fn words(line: &str) -> (&str, &str) {
    line.split_once(' ').unwrap_or((line, ""))
}

// Takes away a catalog, and what stands beside it.
fn clear(rt: &HostRuntime, path: &str) -> io::Result<()> {
    let beside = format!(in rt.alloc(); "{path}-wal")?;
    let _ = fs::remove_file(rt, path);
    let _ = fs::remove_file(rt, beside.as_str());
    Ok(())
}

// Whether the file is as it was when it was copied.
fn tell_same(rt: &HostRuntime, path: &str) -> io::Result<()> {
    let before = fs::read(rt, "copy")?;
    let is_same = before == fs::read(rt, path)?;
    rt.println(format_args!("as it was {is_same}"))
}

// The rights of a file.
fn tell_mode(rt: &HostRuntime, path: &str) -> io::Result<()> {
    let mode = fs::metadata(rt, path)?.mode() & 511;
    rt.println(format_args!("{path} {mode:o}"))
}

fn tell_there(rt: &HostRuntime, path: &str) -> io::Result<()> {
    let there = fs::exists(rt, path)?;
    rt.println(format_args!("is there {there}"))
}

fn tell_text(rt: &HostRuntime, path: &str) -> io::Result<()> {
    rt.println(fs::read_to_string(rt, path)?.as_str())
}

fn set_len(rt: &HostRuntime, path: &str, len: u64) -> io::Result<()> {
    fs::File::create(rt, path)?.set_len(len)
}

fn copy(rt: &HostRuntime, path: &str) -> io::Result<()> {
    fs::write(rt, "copy", fs::read(rt, path)?)
}

// What is done beside the catalog and the store, by another hand.
fn make(rt: &HostRuntime, verb: &str, path: &str) -> io::Result<()> {
    match verb {
        "file" => fs::write(rt, path, "by another hand"),
        "words" => fs::write(rt, path, "this is no database, but a text of some words"),
        "empty" => fs::write(rt, path, ""),
        "directory" => fs::create_dir(rt, path),
        "long" => set_len(rt, path, 268_435_457),
        "most" => set_len(rt, path, 268_435_456),
        "link" => symlink(rt, "Z", path),
        "copy" => copy(rt, path),
        _ => clear(rt, path),
    }
}

/// A step beside the catalog and the store.
pub fn beside(rt: &HostRuntime, verb: &str, path: &str) -> io::Result<()> {
    match verb {
        "say" => rt.println(path),
        "mode" => tell_mode(rt, path),
        "there" => tell_there(rt, path),
        "text" => tell_text(rt, path),
        "same" => tell_same(rt, path),
        "away" => fs::remove_dir_all(rt, path),
        _ => make(rt, verb, path),
    }
}

// Steps that are about nothing that is open.
fn alone(rt: &HostRuntime, lines: &str) -> io::Result<()> {
    for line in lines.lines() {
        let (verb, path) = words(line);
        beside(rt, verb, path)?;
    }
    Ok(())
}

fn block<M: Catalogs + Folders>(rt: &HostRuntime, machine: &M, text: &str) -> io::Result<()> {
    let (head, lines) = text.split_once('\n').unwrap_or((text, ""));
    let (kind, path) = words(head);
    match kind {
        "#" => Ok(()),
        "catalog" => catalogs::closed(rt, machine, path, lines),
        "unclosed" => catalogs::unclosed(rt, machine, path, lines),
        "folder" => objects::steps(rt, machine, path, false, lines),
        "make" => objects::steps(rt, machine, path, true, lines),
        "tables" => catalogs::tables(rt, machine, lines),
        _ => alone(rt, text),
    }
}

/// Takes the steps of a file.
pub fn run<M: Catalogs + Folders>(rt: &HostRuntime, machine: &M, file: &str) -> io::Result<()> {
    let text = fs::read_to_string(rt, file)?;
    for lines in text.as_str().split("\n\n") {
        block(rt, machine, lines)?;
    }
    Ok(())
}
