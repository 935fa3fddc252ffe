//! Commands that a statement says, and commands that none says.
use rm_base::{Block, NoMemory, Seq, Text};
use rm_lang::{BackupForm, Command, Statement, WriteForm, is_command, is_statement};
use rm_test_harness::{Fault, Told, head, numbers, shown, unquoted};
use std::alloc::Global;

fn create(dbid: u32, threads: u64, scn: u64) -> Command {
    Command::CreateDatabase { dbid, threads, scn }
}

fn write(text: &[u8; 3]) -> Command {
    Command::Write(WriteForm {
        thread: 1,
        file: 1,
        block: 1,
        content: Block::padded(text),
    })
}

/// No statement says a number that is too low or too high, or a content that no string has.
pub fn none() -> bool {
    let commands = [
        Command::CreateDatafile { blocks: 0 },
        create(0, 1, 1),
        create(1, 0, 1),
        create(1, 1, 281474976710656),
        write(b"a\nb"),
        write(b"it'"),
    ];
    for command in &commands {
        if is_command(command) {
            return false;
        }
    }
    is_command(&write(b"#;,")) && is_statement(&Statement::Plain(create(1, 1, 1)))
}

// A backup of these datafiles alone, in sets or none, with this tag: a copy, if it is of level 0.
fn backup(
    alloc: Global,
    level: Option<u8>,
    files_per_set: Option<u8>,
    tag: &str,
    files: Vec<u64>,
) -> Result<Command, NoMemory> {
    Ok(Command::Backup(BackupForm {
        copy: level == Some(0),
        level,
        cumulative: false,
        merge_tag: None,
        files: Some(Seq::from_vec(files)),
        files_per_set,
        tag: Some(Text::from_string(String::from_str(alloc, tag)?)),
        keep: false,
        during: None,
    }))
}

/// Backups, each by its level, how many datafiles a set holds, its tag and its datafiles.
#[derive(Drop)]
pub struct Backups;

impl Told for Backups {
    fn told(&mut self, alloc: Global, asked: &str) -> Result<String, Fault> {
        let (level, rest) = head(asked);
        let (per_set, rest) = head(rest);
        let (tag, files) = head(rest);
        let level = level.parse::<u8>().ok();
        let per_set = per_set.parse::<u8>().ok();
        let files = numbers::<u64>(alloc, files)?;
        let backup = backup(alloc, level, per_set, unquoted(tag), files)?;
        shown(alloc, is_command(&backup))
    }
}
