//! A session: a script over a database.
use crate::bad_words::Task;
use crate::catalog::Opens;
use crate::folder::{self, Folder, Owner};
use crate::records::{self, Files, Paths, close, follow};
use crate::{catalog, told};
use rm_base::{NoMemory, Text};
use rm_catalog::Keeper;
use rm_control::Control;
use rm_keeper_sql::Unopened;
use rm_lang_words::{WordsFault, read_words};
use rm_tool::run::run;
use rm_tool::{OpenGate, ReadSource, SystemClock, WriteSink};
use std::alloc::Global;
use std::io;
use std::sync::Wait;
use std::thread::Threads;

// The folder, the files of records and the number of the database in them that the words say.
#[derive(Drop)]
struct Said {
    folder: String,
    file: String,
    control: Option<String>,
    number: u32,
}

fn path_of(given: Option<Text>) -> Option<String> {
    match given {
        Some(path) => Some(path.into_string()),
        None => None,
    }
}

// Where the words are refused nothing is opened by the empty paths, and `run` asks neither.
fn read(alloc: Global, words: &[Text]) -> Result<Said, NoMemory> {
    match read_words(alloc, words) {
        Ok(said) => Ok(Said {
            folder: said.store.into_string(),
            file: said.catalog.into_string(),
            control: path_of(said.control),
            number: said.database.unwrap_or(0),
        }),
        Err(WordsFault::Bad) => Ok(Said {
            folder: String::new(alloc),
            file: String::new(alloc),
            control: None,
            number: 0,
        }),
        Err(WordsFault::NoMemory) => Err(NoMemory),
    }
}

impl Said {
    fn paths(&self) -> Paths<'_> {
        Paths {
            catalog: self.file.as_str(),
            control: self.control.as_deref(),
        }
    }

    // The database, as the owner of its folder.
    fn owner(&self) -> Owner<'_> {
        Owner {
            file: self.paths().read(),
            number: self.number,
        }
    }
}

// The folder beside a database with records, without, or whose records can't be read. `run` asks the records first, so that the
// folder of those that can't be read is left to others, and as it was.
fn folder_beside<'a>(
    rt: &'a HostRuntime,
    said: &Said,
    has_records: Option<bool>,
) -> Result<Folder<'a>, NoMemory> {
    let path = said.folder.clone()?;
    Ok(match has_records {
        Some(true) => folder::of_records(rt, path, said.owner()),
        Some(false) => folder::of_new(rt, path, said.owner()),
        None => Folder::none(rt),
    })
}

// How a session ended: its status, and the error of the source or the sink.
#[derive(Clone, Copy)]
struct Ended {
    status: u8,
    of_stream: Option<io::Error>,
}

impl Ended {
    // None began, since the folder can't be used.
    fn by_folder() -> Self {
        Ended {
            status: 5,
            of_stream: None,
        }
    }
}

// What a session comes to over this keeper.
fn run_over<R: Threads + Wait + Sync, K: Keeper>(
    rt: &HostRuntime,
    threads: &R,
    words: &[Text],
    folder: &mut Folder<'_>,
    keeper: &mut K,
) -> Ended {
    let mut source = ReadSource::new(rt.reader());
    let mut sink = WriteSink::new(io::writer(rt));
    let mut clock = SystemClock::new(rt);
    let status = run(
        threads,
        rt.alloc(),
        &OpenGate,
        words,
        &mut source,
        &mut sink,
        &mut folder.store,
        keeper,
        &mut clock,
    );
    let of_stream = source.last.or(sink.last);
    Ended { status, of_stream }
}

// Sends what waits for the catalog behind a session that ended with this status. That it can't be sent costs nothing: the next session
// brings it. Where a file of records failed nothing is sent, so that the fault which is told stays the one that ended the session.
fn send<N: Keeper, F: Keeper>(both: &mut Control<N, F>, status: u8) {
    if status != 6 {
        let _ = both.resync();
    }
}

// A session over a control file that the catalog follows. Both are handed back.
fn run_led<R: Threads + Wait + Sync, N: Keeper + Drop, F: Keeper + Drop>(
    rt: &HostRuntime,
    threads: &R,
    words: &[Text],
    folder: &mut Folder<'_>,
    both: Control<N, F>,
) -> (Ended, N, F) {
    let mut both = both;
    let ended = run_over(rt, threads, words, folder, &mut both);
    send(&mut both, ended.status);
    let (control, catalog) = both.close();
    (ended, control, catalog)
}

// A session over a control file and the catalog, which are handed back. Where the catalog can't follow, the first call of the records
// fails.
fn run_both<R: Threads + Wait + Sync, C: Keeper + Drop>(
    rt: &HostRuntime,
    threads: &R,
    words: &[Text],
    folder: &mut Folder<'_>,
    control: C,
    catalog: C,
) -> (Ended, C, C) {
    match follow(rt.alloc(), control, catalog) {
        Ok(both) => run_led(rt, threads, words, folder, both),
        Err((control, catalog, fail)) => {
            let mut failing = Unopened::new(fail, None);
            let ended = run_over(rt, threads, words, folder, &mut failing);
            (ended, control, catalog)
        }
    }
}

// A session over files of records, which are handed back.
fn serve<R: Threads + Wait + Sync, C: Keeper + Drop>(
    rt: &HostRuntime,
    threads: &R,
    words: &[Text],
    folder: &mut Folder<'_>,
    files: Files<C>,
) -> (Ended, Files<C>) {
    let Files { catalog, control } = files;
    let Some(control) = control else {
        let mut catalog = catalog;
        let ended = run_over(rt, threads, words, folder, &mut catalog);
        return (ended, Files::alone(catalog));
    };
    let (ended, control, catalog) = run_both(rt, threads, words, folder, control, catalog);
    (ended, Files::both(control, catalog))
}

/// A session by these words, with threads by the second handle: its status. An error is want of memory before it began. Over a
/// folder that can't be used none begins, so that nothing is answered that couldn't be kept.
pub fn session<R: Threads + Wait + Sync, O: Opens>(
    rt: &HostRuntime,
    threads: &R,
    opens: &O,
    words: &[Text],
) -> Result<u8, NoMemory> {
    let alloc = rt.alloc();
    let said = read(alloc, words)?;
    let mut files = records::open(rt, opens, said.paths(), &[said.folder.as_str()])?;
    let has_records = files.have_records(alloc, said.number)?;
    files.choose(said.number);
    let mut folder = folder_beside(rt, &said, has_records)?;
    let (ended, files) = if has_records.is_some() && folder.is_unusable() {
        (Ended::by_folder(), files)
    } else {
        serve(rt, threads, words, &mut folder, files)
    };
    let Ended { status, of_stream } = ended;
    let file = files.fault(said.paths());
    let task = Task::Session;
    told::end(rt, status, task, words, of_stream, Some(&folder), file);
    close(opens, files);
    Ok(status)
}
