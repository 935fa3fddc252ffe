//! Runs whose channels and writers call a gate that holds one of them, or that counts them.
use crate::runs::run_script;
use rm_base::{Failing, MemSink, NoMemory};
use rm_channel::{Gate, Point};
use std::alloc::Global;
use std::sync::Wait;
use std::sync::atomic::{AtomicBool, AtomicU64, Ordering};
use std::thread;
use std::thread::Threads;

// The most turns for which the gate holds a channel.
const TURNS: u32 = 10_000_000;

// It holds section 0 of datafile 1 until section 1 of it and the writer of thread 1 have been there.
#[derive(Drop)]
struct Holding {
    section: AtomicBool,
    writer: AtomicBool,
    is_given_up: AtomicBool,
}

impl Holding {
    fn wait(&self) {
        for _ in 0..TURNS {
            if self.section.load(Ordering::SeqCst) && self.writer.load(Ordering::SeqCst) {
                return;
            }
            thread::yield_now();
        }
        self.is_given_up.store(true, Ordering::SeqCst);
    }
}

impl Gate for Holding {
    fn at(&self, point: Point) {
        match (point.file, point.section) {
            (1, 0) => self.wait(),
            (1, 1) => self.section.store(true, Ordering::SeqCst),
            (0, 0) => self.writer.store(true, Ordering::SeqCst),
            _ => {}
        }
    }
}

fn sink(alloc: Global) -> Result<MemSink, NoMemory> {
    MemSink::new(alloc, 4096, 16, Failing::new(Vec::new(alloc)))
}

/// A channel that is held at the gate lets the other one and the writer pass.
pub fn held<R: Threads + Wait + Sync>(rt: &R, alloc: Global) -> Result<bool, NoMemory> {
    let gate = Holding {
        section: AtomicBool::new(false),
        writer: AtomicBool::new(false),
        is_given_up: AtomicBool::new(false),
    };
    let script =
        b"CREATE DATABASE; CREATE DATAFILE BLOCKS 4; BACKUP DATABASE DURING { WRITE DATAFILE 1 BLOCK 0 VALUE 'A'; };";
    let script = Vec::from_slice(alloc, script)?;
    let mut sink = sink(alloc)?;
    let status = run_script(rt, alloc, &gate, &["--channels", "2"], script, &mut sink)?;
    let last = b"piece 1 datafile 1 full checkpoint 2 rows 4 read 4\nthread 1 scn 2\n";
    let is_told = sink.bytes().ends_with(last.as_slice());
    Ok(status == 0 && is_told && !gate.is_given_up.load(Ordering::SeqCst))
}

// It counts the sections of datafiles, and the blocks that are read of them.
#[derive(Drop)]
struct Counting {
    sections: AtomicU64,
    blocks: AtomicU64,
}

impl Gate for Counting {
    fn at(&self, point: Point) {
        if point.file > 0 {
            self.sections.fetch_add(1, Ordering::SeqCst);
            self.blocks
                .fetch_add(u64::from(point.blocks), Ordering::SeqCst);
        }
    }
}

// In how many sections, and how many blocks, a script reads datafiles, with these words.
fn reads<R: Threads + Wait + Sync>(
    rt: &R,
    alloc: Global,
    words: &[&str],
    script: &[u8],
) -> Result<(u64, u64), NoMemory> {
    let gate = Counting {
        sections: AtomicU64::new(0),
        blocks: AtomicU64::new(0),
    };
    let script = Vec::from_slice(alloc, script)?;
    let mut sink = sink(alloc)?;
    let status = run_script(rt, alloc, &gate, words, script, &mut sink)?;
    let sections = gate.sections.load(Ordering::SeqCst);
    let blocks = gate.blocks.load(Ordering::SeqCst);
    Ok(if status == 0 {
        (sections, blocks)
    } else {
        (0, 0)
    })
}

// In how many sections a script reads the only datafile, with these words.
fn sections<R: Threads + Wait + Sync>(
    rt: &R,
    alloc: Global,
    words: &[&str],
    script: &[u8],
) -> Result<u64, NoMemory> {
    Ok(reads(rt, alloc, words, script)?.0)
}

// A level 0 of a tracked datafile, so many writes with a level 1 each, another write, and a cumulative one.
fn tracked_script(alloc: Global, writes: u32) -> Result<Vec<u8>, NoMemory> {
    let mut script = Vec::from_slice(
        alloc,
        b"CREATE DATABASE; CREATE DATAFILE BLOCKS 8; ALTER DATABASE ENABLE BLOCK CHANGE TRACKING; BACKUP INCREMENTAL LEVEL 0 DATABASE;",
    )?;
    for block in 0..writes {
        let text = format!(in alloc;
            "WRITE DATAFILE 1 BLOCK {block} VALUE 'a'; BACKUP INCREMENTAL LEVEL 1 DATABASE;"
        )?;
        script.extend_from_slice(text.as_bytes())?;
    }
    let text = format!(in alloc;
        "WRITE DATAFILE 1 BLOCK {writes} VALUE 'a'; BACKUP INCREMENTAL LEVEL 1 CUMULATIVE DATABASE;"
    )?;
    script.extend_from_slice(text.as_bytes())?;
    Ok(script)
}

/// The channels read just the blocks that a level 1 wants, by whatever channels: 8 + 7 + 8 where the bitmaps do not go back to
/// the level 0, and 8 + 6 + 7 where they do.
pub fn tracked<R: Threads + Wait + Sync>(rt: &R, alloc: Global) -> Result<bool, NoMemory> {
    let seven = tracked_script(alloc, 7)?;
    let six = tracked_script(alloc, 6)?;
    let words = ["--channels", "4"];
    Ok(
        reads(rt, alloc, &[], seven.as_slice())?.1 == 23
            && reads(rt, alloc, &[], six.as_slice())?.1 == 21
            && reads(rt, alloc, &words, seven.as_slice())?.1 == 23
            && reads(rt, alloc, &words, six.as_slice())?.1 == 21,
    )
}

/// The channels are those of the RUN, or else those of the words, or else those that are configured.
pub fn counted<R: Threads + Wait + Sync>(rt: &R, alloc: Global) -> Result<bool, NoMemory> {
    let plain = b"CREATE DATABASE; CREATE DATAFILE BLOCKS 40; BACKUP DATABASE;";
    let configured =
        b"CREATE DATABASE; CREATE DATAFILE BLOCKS 40; CONFIGURE DEVICE TYPE DISK PARALLELISM 5; BACKUP DATABASE;";
    let allocated =
        b"CREATE DATABASE; CREATE DATAFILE BLOCKS 40; CONFIGURE DEVICE TYPE DISK PARALLELISM 5; RUN { ALLOCATE CHANNEL a DEVICE TYPE DISK; ALLOCATE CHANNEL b DEVICE TYPE DISK; BACKUP DATABASE; }";
    let words = ["--channels", "16"];
    Ok(
        sections(rt, alloc, &[], plain.as_slice())? == 1
            && sections(rt, alloc, &[], configured.as_slice())? == 5
            && sections(rt, alloc, &words, configured.as_slice())? == 16
            && sections(rt, alloc, &words, allocated.as_slice())? == 2,
    )
}
