//! A catalog file is made equal to a control file.
use crate::bad_words::Task;
use crate::catalog::Opens;
use crate::records::{self, Files, Paths, close};
use crate::told;
use rm_base::{NoMemory, Text};
use rm_catalog::Keeper;
use rm_lang_words::{WordsFault, read_resync};
use rm_tool::WriteSink;
use rm_tool_resync::run_resync;
use std::alloc::Global;
use std::io;

// The control file, and the catalog file.
#[derive(Drop)]
struct Said {
    control: String,
    file: String,
}

// Where the words are refused nothing is opened by the empty paths, and `run_resync` asks neither.
fn read(alloc: Global, words: &[Text]) -> Result<Said, NoMemory> {
    match read_resync(alloc, words) {
        Ok(said) => Ok(Said {
            control: said.control.into_string(),
            file: said.catalog.into_string(),
        }),
        Err(WordsFault::Bad) => Ok(Said {
            control: String::new(alloc),
            file: String::new(alloc),
        }),
        Err(WordsFault::NoMemory) => Err(NoMemory),
    }
}

// What it comes to over these files: its status, the error of the sink, and the files.
fn serve<C: Keeper + Drop>(
    rt: &HostRuntime,
    words: &[Text],
    files: Files<C>,
) -> (u8, Option<io::Error>, Files<C>) {
    let mut sink = WriteSink::new(io::writer(rt));
    let Files { catalog, control } = files;
    let Some(control) = control else {
        return (6, None, Files::alone(catalog));
    };
    let (status, control, catalog) = run_resync(rt.alloc(), words, &mut sink, control, catalog);
    (status, sink.last, Files::both(control, catalog))
}

/// Makes the catalog file of these words, which come behind the command's, equal to their control file, for number 0: its status. An
/// error is want of memory before it began.
pub fn resync<O: Opens>(rt: &HostRuntime, opens: &O, words: &[Text]) -> Result<u8, NoMemory> {
    let alloc = rt.alloc();
    let said = read(alloc, words)?;
    let paths = Paths {
        catalog: said.file.as_str(),
        control: Some(said.control.as_str()),
    };
    let mut files = records::open(rt, opens, paths, &[])?;
    let _ = files.have_records(alloc, 0)?;
    let (status, of_stream, files) = serve(rt, words, files);
    let file = files.fault(paths);
    told::end(rt, status, Task::Resync, words, of_stream, None, file);
    close(opens, files);
    Ok(status)
}
