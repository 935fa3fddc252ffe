//! The words of the programs.
use rm_base::{NoMemory, Text};
use rm_lang_words::{
    StandbyTask, WordsFault, read_duplicate, read_resync, read_standby, read_words,
};
use std::alloc::Global;

// The words of the line, each behind one space.
fn words_of(alloc: Global, line: &str) -> Result<Vec<Text>, NoMemory> {
    let mut words = Vec::new(alloc);
    for word in line.split(' ') {
        words.push(Text::from_string(String::from_str(alloc, word)?))?;
    }
    Ok(words)
}

// Appends the number, or `-` for none.
fn push_number(out: &mut String, number: Option<u64>) -> Result<(), NoMemory> {
    match number {
        Some(number) => write!(out, "|{number}")?,
        None => out.push_str("|-")?,
    }
    Ok(())
}

// Appends the text, or `-` for none.
fn push_text(out: &mut String, text: &Option<Text>) -> Result<(), NoMemory> {
    out.push_str("|")?;
    out.push_str(text.as_ref().map_or("-", |text| text.as_str()))?;
    Ok(())
}

fn push_task(out: &mut String, task: StandbyTask) -> Result<(), NoMemory> {
    match task {
        StandbyTask::Make(scn) => write!(out, "|make {scn}")?,
        StandbyTask::Roll(increment) => write!(out, "|roll {increment}")?,
        StandbyTask::Dump => out.push_str("|dump")?,
    }
    Ok(())
}

// A refusal of the words, or want of memory.
fn refused(alloc: Global, fault: WordsFault) -> Result<String, NoMemory> {
    match fault {
        WordsFault::Bad => Ok(String::from_str(alloc, "bad")?),
        WordsFault::NoMemory => Err(NoMemory),
    }
}

/// What the words of the line say to `run`.
pub fn said(alloc: Global, line: &str) -> Result<String, NoMemory> {
    let words = words_of(alloc, line)?;
    let words = match read_words(alloc, &words) {
        Ok(words) => words,
        Err(fault) => return refused(alloc, fault),
    };
    let (store, catalog) = (words.store.as_str(), words.catalog.as_str());
    let mut said = format!(in alloc; "{store}|{catalog}")?;
    push_number(&mut said, words.channels.map(u64::from))?;
    push_number(&mut said, words.drill)?;
    push_number(&mut said, words.database.map(u64::from))?;
    push_text(&mut said, &words.control)?;
    Ok(said)
}

/// What the words of the line say to `duplicate`.
pub fn duplicate_said(alloc: Global, line: &str) -> Result<String, NoMemory> {
    let words = words_of(alloc, line)?;
    let words = match read_duplicate(alloc, &words) {
        Ok(words) => words,
        Err(fault) => return refused(alloc, fault),
    };
    let (store, to, catalog) = (
        words.store.as_str(),
        words.to.as_str(),
        words.catalog.as_str(),
    );
    let (dbid, number) = (words.dbid, words.number);
    let (until, from) = (words.until, words.from);
    let mut said = format!(in alloc; "{store}|{to}|{catalog}|{dbid}|{number}|{until}|{from}")?;
    push_number(&mut said, words.incarnation)?;
    push_number(&mut said, words.channels.map(u64::from))?;
    Ok(said)
}

/// What the words of the line say to `standby`.
pub fn standby_said(alloc: Global, line: &str) -> Result<String, NoMemory> {
    let words = words_of(alloc, line)?;
    let words = match read_standby(alloc, &words) {
        Ok(words) => words,
        Err(fault) => return refused(alloc, fault),
    };
    let (store, to, catalog) = (
        words.store.as_str(),
        words.to.as_str(),
        words.catalog.as_str(),
    );
    let mut said = format!(in alloc; "{store}|{to}|{catalog}")?;
    push_task(&mut said, words.task)?;
    Ok(said)
}

/// What the words of the line say to `resync`.
pub fn resync_said(alloc: Global, line: &str) -> Result<String, NoMemory> {
    let words = words_of(alloc, line)?;
    let words = match read_resync(alloc, &words) {
        Ok(words) => words,
        Err(fault) => return refused(alloc, fault),
    };
    let (control, catalog) = (words.control.as_str(), words.catalog.as_str());
    Ok(format!(in alloc; "{control}|{catalog}")?)
}
