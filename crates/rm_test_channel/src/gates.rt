//! Gates: one that holds nobody, two that hold until others have come, and one that adds up.
use rm_channel::{Gate, Point};
use std::sync::atomic::{AtomicBool, AtomicU64, Ordering};
use std::thread;

/// The most turns for which a gate holds a worker.
const TURNS: u32 = 10_000_000;

/// It holds nobody.
#[derive(Drop)]
pub struct Wide;

impl Gate for Wide {
    fn at(&self, _point: Point) {}
}

// Two that have to come, and whether one that waited for them gave it up.
#[derive(Drop)]
struct Pair {
    one: AtomicBool,
    other: AtomicBool,
    is_given_up: AtomicBool,
}

impl Pair {
    fn new() -> Pair {
        Pair {
            one: AtomicBool::new(false),
            other: AtomicBool::new(false),
            is_given_up: AtomicBool::new(false),
        }
    }

    // Waits until both have come.
    fn wait(&self) {
        for _ in 0..TURNS {
            if self.one.load(Ordering::SeqCst) && self.other.load(Ordering::SeqCst) {
                return;
            }
            thread::yield_now();
        }
        self.is_given_up.store(true, Ordering::SeqCst);
    }
}

/// It holds section 0 of file 1 until section 1 of it and the writer of thread 1 have been there.
#[derive(Drop)]
pub struct Holding {
    others: Pair,
}

impl Holding {
    pub fn new() -> Holding {
        Holding {
            others: Pair::new(),
        }
    }

    pub fn is_given_up(&self) -> bool {
        self.others.is_given_up.load(Ordering::SeqCst)
    }
}

impl Gate for Holding {
    fn at(&self, point: Point) {
        match (point.file, point.section) {
            (1, 0) => self.others.wait(),
            (1, 1) => self.others.one.store(true, Ordering::SeqCst),
            (0, 0) => self.others.other.store(true, Ordering::SeqCst),
            _ => {}
        }
    }
}

/// It holds the sections 0 and 1 until both are there.
#[derive(Drop)]
pub struct Meeting {
    both: Pair,
}

impl Meeting {
    pub fn new() -> Meeting {
        Meeting { both: Pair::new() }
    }

    pub fn is_given_up(&self) -> bool {
        self.both.is_given_up.load(Ordering::SeqCst)
    }
}

impl Gate for Meeting {
    fn at(&self, point: Point) {
        if point.section == 0 {
            self.both.one.store(true, Ordering::SeqCst);
        } else {
            self.both.other.store(true, Ordering::SeqCst);
        }
        self.both.wait();
    }
}

/// It counts the sections, adds up their blocks, and counts those that are neither as long as `least` nor
/// one block longer.
#[derive(Drop)]
pub struct Adding {
    least: u32,
    sections: AtomicU64,
    blocks: AtomicU64,
    others: AtomicU64,
}

impl Adding {
    pub fn new(least: u32) -> Adding {
        Adding {
            least,
            sections: AtomicU64::new(0),
            blocks: AtomicU64::new(0),
            others: AtomicU64::new(0),
        }
    }

    /// How many sections there were, how many blocks, and how many sections of another length.
    pub fn counts(&self) -> (u64, u64, u64) {
        (
            self.sections.load(Ordering::SeqCst),
            self.blocks.load(Ordering::SeqCst),
            self.others.load(Ordering::SeqCst),
        )
    }
}

impl Gate for Adding {
    fn at(&self, point: Point) {
        self.sections.fetch_add(1, Ordering::SeqCst);
        self.blocks
            .fetch_add(u64::from(point.blocks), Ordering::SeqCst);
        if point.blocks < self.least || point.blocks - self.least > 1 {
            self.others.fetch_add(1, Ordering::SeqCst);
        }
    }
}
