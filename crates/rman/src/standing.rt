//! A standby of a database.
use crate::bad_words::Task;
use crate::catalog::{self, Fault, Opens, RecordFile};
use crate::folder::{self, Folder, Owner};
use crate::told;
use rm_base::{NoMemory, StoreFail, Text};
use rm_catalog::{Keeper, Record};
use rm_keeper_sql::Shelf;
use rm_lang_words::{StandbyTask, WordsFault, read_standby};
use rm_standby_store::find_standby;
use rm_tool::WriteSink;
use rm_tool_standby::run_standby;
use std::alloc::Global;
use std::io;
use std::sync::Wait;
use std::thread::Threads;

// The folder of the database, that of its standby, its catalog file, and whether a standby is to be made.
#[derive(Drop)]
struct Said {
    from: String,
    to: String,
    file: String,
    is_made: bool,
}

// Where the words are refused nothing is opened by the empty paths, and `run_standby` asks none.
fn read(alloc: Global, words: &[Text]) -> Result<Said, NoMemory> {
    match read_standby(alloc, words) {
        Ok(said) => Ok(Said {
            is_made: matches!(said.task, StandbyTask::Make(_)),
            from: said.store.into_string(),
            to: said.to.into_string(),
            file: said.catalog.into_string(),
        }),
        Err(WordsFault::Bad) => Ok(Said {
            from: String::new(alloc),
            to: String::new(alloc),
            file: String::new(alloc),
            is_made: false,
        }),
        Err(WordsFault::NoMemory) => Err(NoMemory),
    }
}

// The database, as the owner of its folder.
fn owner(said: &Said) -> Owner<'_> {
    Owner {
        file: said.file.as_str(),
        number: 0,
    }
}

// The dbid of the database, where the catalog can be read and has one.
fn dbid_of<C: Shelf + RecordFile + Drop>(
    alloc: Global,
    catalog: &mut C,
) -> Result<Option<u32>, NoMemory> {
    let Some(records) = catalog::load(alloc, catalog, 0)? else {
        return Ok(None);
    };
    for record in records.as_slice() {
        if let Record::Base(base) = record {
            return Ok(Some(base.dbid));
        }
    }
    Ok(None)
}

// Refuses a folder that has the standby of another database, of which a new one would take the place.
fn refuse_others(alloc: Global, to: &mut Folder<'_>, dbid: u32) -> Result<(), NoMemory> {
    let found = match find_standby(alloc, &mut to.store) {
        Ok(Some(found)) => found,
        Ok(None) | Err(StoreFail::Failed) => return Ok(()),
        Err(StoreFail::NoMemory) => return Err(NoMemory),
    };
    let (_, standby) = found;
    if !standby.members.is_empty() && standby.dbid != dbid {
        to.refuse("it has the standby of another database");
    }
    Ok(())
}

// The folder of a standby of the database of this dbid, where the folder of that can be used.
fn folder_of_standby<'a>(
    rt: &'a HostRuntime,
    said: &Said,
    from: &Folder<'_>,
    dbid: u32,
) -> Result<Folder<'a>, NoMemory> {
    if from.is_unusable() {
        return Ok(Folder::none(rt));
    }
    if folder::are_one(rt, said.from.as_str(), said.to.as_str()) {
        return Ok(folder::shared(rt, "the standby needs a folder of its own"));
    }
    let mut to = folder::of_standby(rt, said.to.clone()?, owner(said), said.is_made);
    if said.is_made {
        refuse_others(rt.alloc(), &mut to, dbid)?;
    }
    Ok(to)
}

// What a standby comes to over these folders: its status, and the error of the sink.
fn serve<R: Threads + Wait + Sync, C: Keeper>(
    rt: &HostRuntime,
    threads: &R,
    words: &[Text],
    from: &mut Folder<'_>,
    to: &mut Folder<'_>,
    keeper: &mut C,
) -> (u8, Option<io::Error>) {
    let mut sink = WriteSink::new(io::writer(rt));
    let status = run_standby(
        threads,
        rt.alloc(),
        words,
        &mut sink,
        &mut from.store,
        &mut to.store,
        keeper,
    );
    (status, sink.last)
}

/// Makes, rolls or tells a standby by these words, which come behind the command's, with threads by the second handle: its status.
/// An error is want of memory before it began. Beside a catalog without records, or that can't be read, no folder is opened.
pub fn standby<R: Threads + Wait + Sync, O: Opens>(
    rt: &HostRuntime,
    threads: &R,
    opens: &O,
    words: &[Text],
) -> Result<u8, NoMemory> {
    let alloc = rt.alloc();
    let said = read(alloc, words)?;
    let folders = [said.from.as_str(), said.to.as_str()];
    let mut catalog = catalog::open(rt, opens, said.file.as_str(), &folders)?;
    let dbid = dbid_of(alloc, &mut catalog)?;
    let mut from = match dbid {
        Some(_) => folder::to_read(rt, said.from.clone()?, owner(&said)),
        None => Folder::none(rt),
    };
    let mut to = folder_of_standby(rt, &said, &from, dbid.unwrap_or(0))?;
    let (status, of_stream) = if dbid.is_some() && to.is_unusable() {
        (5, None)
    } else {
        serve(rt, threads, words, &mut from, &mut to, &mut catalog)
    };
    let failed = if from.has_failed() { &from } else { &to };
    let file = Fault {
        name: "catalog",
        path: said.file.as_str(),
        why: catalog.why(),
    };
    let task = Task::Standby;
    told::end(rt, status, task, words, of_stream, Some(failed), file);
    opens.close(catalog);
    Ok(status)
}
