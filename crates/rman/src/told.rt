//! What is told on standard error. That a line can't be written changes nothing.
use crate::bad_words::{Task, bad_word};
use crate::catalog::Fault;
use crate::folder::Folder;
use rm_base::Text;
use std::io;

/// Memory ran out.
pub fn memory(rt: &HostRuntime) {
    let _ = eprintln!(rt; "rman: memory ran out");
}

// The words are refused: the one that is known to be wrong.
fn words(rt: &HostRuntime, task: Task, words: &[Text]) {
    let _ = match bad_word(task, words) {
        Some(word) => eprintln!(rt; "rman: bad words: {word}"),
        None => eprintln!(rt; "rman: bad words: {}", task.options()),
    };
}

// Why the source or the sink failed.
fn stream(rt: &HostRuntime, name: &str, last: Option<io::Error>) {
    let _ = match last {
        Some(error) => eprintln!(rt; "rman: {name}: {error}"),
        None => eprintln!(rt; "rman: {name}: failed"),
    };
}

// Why the store failed: the folder that is not open, or the object of the call that failed last.
fn store(rt: &HostRuntime, folder: &Folder<'_>) {
    let store = &folder.store;
    let path = store.path();
    if let Some(number) = folder.had_by {
        let _ = eprintln!(rt; "rman: store: {path}: database {number} of this catalog had it last");
        return;
    }
    let _ = match (store.unopened(), store.last_failure()) {
        (Some(error), _) if path.is_empty() => eprintln!(rt; "rman: store: {error}"),
        (Some(error), _) => eprintln!(rt; "rman: store: {path}: {error}"),
        (None, Some(failure)) => {
            let name = failure.name.as_str();
            eprintln!(rt;
                "rman: store: {}: {}",
                if name.is_empty() { path } else { name },
                failure.error
            )
        }
        (None, None) => eprintln!(rt; "rman: store: {path}: failed"),
    };
}

// Why a file of records failed, or is refused.
fn records(rt: &HostRuntime, file: Fault<'_>, why: &str) {
    let _ = eprintln!(rt; "rman: {}: {}: {why}", file.name, file.path);
}

// The script is too long.
fn long(rt: &HostRuntime) {
    let _ = eprintln!(rt; "rman: script over 4194304 bytes");
}

/// Why a task ended with this status, where it is none of 0 and 1: by the words, by the error of the source or the sink, by
/// the store, if there is one, or by a file of records.
pub fn end(
    rt: &HostRuntime,
    status: u8,
    task: Task,
    given: &[Text],
    of_stream: Option<io::Error>,
    folder: Option<&Folder<'_>>,
    file: Fault<'_>,
) {
    match status {
        2 => words(rt, task, given),
        3 => stream(rt, "standard input", of_stream),
        4 => stream(rt, "standard output", of_stream),
        5 => {
            if let Some(folder) = folder {
                store(rt, folder);
            }
        }
        6 => records(rt, file, file.why.unwrap_or("failed")),
        7 => memory(rt),
        8 => long(rt),
        9 => records(rt, file, "a record breaks a rule"),
        _ => {}
    }
}

/// The folder was last that of another database: of this catalog, and of this number behind it.
pub fn other_catalog(rt: &HostRuntime, path: &str, other: &str) {
    let _ = eprintln!(rt; "rman: warning: {path} was last used with the catalog {other}");
}

/// The folder has objects, and the catalog no records: a new database would replace them.
pub fn used_folder(rt: &HostRuntime, path: &str) {
    let _ = eprintln!(rt;
        "rman: warning: {path} has objects, and the catalog has no records: a new database may replace them"
    );
}
