//! A duplicate of a database.
use crate::bad_words::Task;
use crate::catalog::{self, Fault, Opens, RecordFile};
use crate::folder::{self, Folder, Owner};
use crate::told;
use rm_base::{NoMemory, Text};
use rm_keeper_sql::Shelf;
use rm_lang_words::{WordsFault, read_duplicate};
use rm_tool::WriteSink;
use rm_tool_duplicate::run_duplicate;
use std::alloc::Global;
use std::io;
use std::sync::Wait;
use std::thread::Threads;

// The folder and the number of the source and of the duplicate, and the catalog file of both.
#[derive(Drop)]
struct Said {
    from: String,
    source: u32,
    to: String,
    number: u32,
    file: String,
}

// Where the words are refused nothing is opened by the empty paths, and `run_duplicate` asks none.
fn read(alloc: Global, words: &[Text]) -> Result<Said, NoMemory> {
    match read_duplicate(alloc, words) {
        Ok(said) => Ok(Said {
            from: said.store.into_string(),
            source: said.from,
            to: said.to.into_string(),
            number: said.number,
            file: said.catalog.into_string(),
        }),
        Err(WordsFault::Bad) => Ok(Said {
            from: String::new(alloc),
            source: 0,
            to: String::new(alloc),
            number: 0,
            file: String::new(alloc),
        }),
        Err(WordsFault::NoMemory) => Err(NoMemory),
    }
}

// What the catalog has of the two numbers. `run_duplicate` asks it first, so that no folder is opened that it does not ask.
#[derive(Clone, Copy, PartialEq, Eq)]
enum Records {
    // The source has records, and the duplicate none.
    AreDue,
    // Both have records.
    AreTaken,
    // The source has none, or they can't be read.
    None,
}

fn look_up<C: Shelf + RecordFile + Drop>(
    alloc: Global,
    catalog: &mut C,
    said: &Said,
) -> Result<Records, NoMemory> {
    let source = catalog::has_records(alloc, catalog, said.source)?;
    let taken = catalog::has_records(alloc, catalog, said.number)?;
    match (source, taken) {
        (Some(true), Some(false)) => Ok(Records::AreDue),
        (Some(true), Some(true)) => Ok(Records::AreTaken),
        _ => Ok(Records::None),
    }
}

// The duplicate, as the owner of its folder.
fn owner(said: &Said) -> Owner<'_> {
    Owner {
        file: said.file.as_str(),
        number: said.number,
    }
}

// The folder of the source, which must be there.
fn folder_of_source<'a>(
    rt: &'a HostRuntime,
    said: &Said,
    records: Records,
) -> Result<Folder<'a>, NoMemory> {
    if records == Records::None {
        return Ok(Folder::none(rt));
    }
    let owner = Owner {
        file: said.file.as_str(),
        number: said.source,
    };
    Ok(folder::to_read(rt, said.from.clone()?, owner))
}

// The folder of the duplicate, where that is due and the source's can be used.
fn folder_of_new<'a>(
    rt: &'a HostRuntime,
    said: &Said,
    records: Records,
    from: &Folder<'_>,
) -> Result<Folder<'a>, NoMemory> {
    if records != Records::AreDue || from.is_unusable() {
        return Ok(Folder::none(rt));
    }
    if folder::are_one(rt, said.from.as_str(), said.to.as_str()) {
        return Ok(folder::shared(rt, "the duplicate needs a folder of its own"));
    }
    Ok(folder::to_come(rt, said.to.clone()?, owner(said)))
}

// The folder is the duplicate's where its records are there now. What is refused leaves it as it was.
fn claim<C: Shelf + RecordFile + Drop>(
    alloc: Global,
    catalog: &mut C,
    said: &Said,
    to: &mut Folder<'_>,
) {
    if let Ok(Some(true)) = catalog::has_records(alloc, catalog, said.number) {
        to.claim(owner(said));
    }
}

// A duplicate by what the words say, over its catalog: the status, the error of the sink, and the catalog. Over a folder that
// can't be used none is made.
fn make<R: Threads + Wait + Sync, H: Shelf + Drop>(
    rt: &HostRuntime,
    threads: &R,
    words: &[Text],
    from: &mut Folder<'_>,
    to: &mut Folder<'_>,
    shelf: H,
) -> (u8, Option<io::Error>, H) {
    let mut sink = WriteSink::new(io::writer(rt));
    let (status, shelf) = run_duplicate(
        threads,
        rt.alloc(),
        words,
        &mut sink,
        &mut from.store,
        &mut to.store,
        shelf,
    );
    (status, sink.last, shelf)
}

/// A duplicate by these words, which come behind the command's, with threads by the second handle: its status. An error is want of
/// memory before it began.
pub fn duplicate<R: Threads + Wait + Sync, O: Opens>(
    rt: &HostRuntime,
    threads: &R,
    opens: &O,
    words: &[Text],
) -> Result<u8, NoMemory> {
    let alloc = rt.alloc();
    let said = read(alloc, words)?;
    let folders = [said.from.as_str(), said.to.as_str()];
    let mut catalog = catalog::open(rt, opens, said.file.as_str(), &folders)?;
    let records = look_up(alloc, &mut catalog, &said)?;
    let mut from = folder_of_source(rt, &said, records)?;
    let mut to = folder_of_new(rt, &said, records, &from)?;
    let (status, of_stream, mut catalog) = if records == Records::AreDue && to.is_unusable() {
        (5, None, catalog)
    } else {
        make(rt, threads, words, &mut from, &mut to, catalog)
    };
    if records == Records::AreDue {
        claim(alloc, &mut catalog, &said, &mut to);
    }
    let failed = if from.has_failed() { &from } else { &to };
    let file = Fault {
        name: "catalog",
        path: said.file.as_str(),
        why: catalog.why(),
    };
    let task = Task::Duplicate;
    told::end(rt, status, task, words, of_stream, Some(failed), file);
    opens.close(catalog);
    Ok(status)
}
