//! Which word is wrong, of words that are refused.
use rm_base::Text;

/// What the program is called for.
#[derive(Clone, Copy)]
pub enum Task {
    /// A session.
    Session,
    /// A duplicate of a database.
    Duplicate,
    /// A standby of a database.
    Standby,
    /// A catalog file is made equal to a control file.
    Resync,
}

impl Task {
    // Whether it has an option of this name that has a value.
    fn has(self, name: &str) -> bool {
        match self {
            Task::Session => {
                matches!(name, "--store" | "--catalog" | "--control" | "--channels")
                    || matches!(name, "--drill" | "--database")
            }
            Task::Duplicate => {
                matches!(
                    name,
                    "--store" | "--to" | "--catalog" | "--dbid" | "--number" | "--until"
                ) || matches!(name, "--from" | "--incarnation" | "--channels")
            }
            Task::Standby => {
                matches!(name, "--store" | "--to" | "--catalog" | "--make" | "--roll")
            }
            Task::Resync => matches!(name, "--control" | "--catalog"),
        }
    }

    // Whether the word is an option of it that has no value.
    fn has_flag(self, word: &str) -> bool {
        matches!(self, Task::Standby) && word == "--dump"
    }

    /// Which options it has, in words.
    pub fn options(self) -> &'static str {
        match self {
            Task::Session => {
                "--store DIR and --catalog FILE once each, --control FILE, --channels N from 1 to 16, --drill N and --database N at most once"
            }
            Task::Duplicate => {
                "--store DIR, --to DIR, --catalog FILE, --dbid D, --number N and --until S once each, --from M, --incarnation I and --channels C at most once"
            }
            Task::Standby => {
                "--store DIR, --to DIR and --catalog FILE once each, and one of --make S, --roll N and --dump"
            }
            Task::Resync => "--control FILE and --catalog FILE once each",
        }
    }
}

// Whether the value of this option is in the same word, or it has none. None for what is no option.
fn option(task: Task, word: &str) -> Option<bool> {
    if task.has_flag(word) {
        return Some(true);
    }
    let (name, is_whole) = match word.split_once('=') {
        Some((name, _)) => (name, true),
        None => (word, false),
    };
    task.has(name).then_some(is_whole)
}

/// The first word that is neither an option nor the value of one.
pub fn bad_word(task: Task, words: &[Text]) -> Option<&str> {
    let mut waits = false;
    for word in words {
        let word = word.as_str();
        if waits && !word.starts_with('-') {
            waits = false;
            continue;
        }
        match option(task, word) {
            Some(is_whole) if !waits => waits = !is_whole,
            _ => return Some(word),
        }
    }
    None
}
