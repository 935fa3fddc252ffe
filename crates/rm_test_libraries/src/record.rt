//! Records, read from the words of a line.
use rm_base::{Kind, NoMemory, Policy, Seq, Status, Text};
use rm_catalog::{
    BaseEntry, DatafileEntry, HeadEntry, IncarnationEntry, LogEntry, MarkEntry, PartEntry,
    PieceEntry, Record, SetEntry, SetPart, SwitchEntry,
};
use rm_test_harness::{Fault, differs};
use std::alloc::Global;

// The words behind the kind, a letter each: `1`, `4` and `8` are numbers of so many bytes, the others begin the words policy, kind, form,
// switch and tag. Those of another kind no word is.
fn shape(kind: &str) -> &'static str {
    match kind {
        "base" => "41448p44",
        "incarnation" => "4488",
        "datafile" => "4484",
        "log" => "4414888",
        "backup" => "4fk4488848t",
        "mark" => "4848",
        "part" => "4418",
        "head" => "48",
        "set" => "4488t",
        "switch" => "4148s4",
        _ => "?",
    }
}

// The words of each datafile of a set, behind the others.
const PART: &str = "4k884";

// The first and the last number of a range, which does not fall.
fn range_in(word: &str) -> Option<(u64, u64)> {
    let (first, last) = word.split_once("..")?;
    let (first, last) = (first.parse::<u64>().ok()?, last.parse::<u64>().ok()?);
    if first <= last {
        Some((first, last))
    } else {
        None
    }
}

// The tag between these quotes.
fn tag_in(word: &str) -> Option<&str> {
    word.strip_prefix("'")?.strip_suffix("'")
}

// The words of a line. `@` and `2..9` stand for the number, where there is one.
#[derive(Clone, Copy)]
struct Words<'a> {
    words: &'a [&'a str],
    number: Option<u64>,
}

impl Words<'_> {
    fn word(&self, at: usize) -> &str {
        match self.words.get(at) {
            Some(word) => word,
            None => "",
        }
    }

    // The number of this word, if it is one.
    fn number_of(&self, word: &str) -> Option<u64> {
        if word == "@" || range_in(word).is_some() {
            self.number
        } else {
            word.parse::<u64>().ok()
        }
    }

    fn is_up_to(&self, most: u64, word: &str) -> bool {
        self.number_of(word).is_some_and(|number| number <= most)
    }

    // Whether the word is one of this letter.
    fn is_of(&self, letter: u8, word: &str) -> bool {
        match letter {
            b'1' => self.is_up_to(u64::from(u8::MAX), word),
            b'4' => self.is_up_to(u64::from(u32::MAX), word),
            b'8' => self.is_up_to(u64::MAX, word),
            b'p' => matches!(word, "nothing" | "window" | "redundancy"),
            b'k' => matches!(word, "full" | "level_0" | "level_1" | "place"),
            b'f' => matches!(word, "piece" | "copy"),
            b's' => matches!(word, "on" | "off"),
            b't' => tag_in(word).is_some(),
            _ => false,
        }
    }

    // Whether these words are of this shape.
    fn are_of(&self, shape: &str, words: &[&str]) -> bool {
        for (letter, word) in shape.as_bytes().iter().zip(words) {
            if !self.is_of(*letter, word) {
                return false;
            }
        }
        words.len() == shape.len()
    }

    // Whether these words are what a set has of datafiles.
    fn are_parts(&self, words: &[&str]) -> bool {
        for part in words.chunks(5) {
            if !self.are_of(PART, part) {
                return false;
            }
        }
        true
    }

    // Whether they say a record. A set's alone go on behind those of its shape.
    fn fit(&self) -> bool {
        let kind = self.word(0);
        let shape = shape(kind);
        let end = shape.len().saturating_add(1);
        let front = self.words.get(1..end).unwrap_or(&[]);
        let rest = self.words.get(end..).unwrap_or(&[]);
        self.are_of(shape, front) && self.are_parts(rest) && (rest.is_empty() || kind == "set")
    }

    fn u64(&self, at: usize) -> u64 {
        self.number_of(self.word(at)).unwrap_or(u64::MAX)
    }

    fn u32(&self, at: usize) -> u32 {
        u32::try_from(self.u64(at)).unwrap_or(u32::MAX)
    }

    fn u8(&self, at: usize) -> u8 {
        u8::try_from(self.u64(at)).unwrap_or(u8::MAX)
    }

    fn policy(&self, at: usize) -> Policy {
        let number = self.u32(at.saturating_add(1));
        match self.word(at) {
            "window" => Policy::Window(number),
            "redundancy" => Policy::Redundancy(number),
            _ => Policy::Nothing,
        }
    }

    fn kind(&self, at: usize) -> Kind {
        match self.word(at) {
            "full" => Kind::Full,
            "level_0" => Kind::Level0,
            "level_1" => Kind::Level1,
            _ => Kind::Place,
        }
    }

    fn tag(&self, alloc: Global, at: usize) -> Result<Text, NoMemory> {
        let tag = tag_in(self.word(at)).unwrap_or("");
        Ok(Text::from_string(String::from_str(alloc, tag)?))
    }

    fn base(&self) -> BaseEntry {
        BaseEntry {
            dbid: self.u32(1),
            threads: self.u8(2),
            current: self.u32(3),
            next_id: self.u32(4),
            moment: self.u64(5),
            policy: self.policy(6),
            parallelism: self.u32(8),
            tracking: false,
        }
    }

    fn incarnation(&self) -> IncarnationEntry {
        IncarnationEntry {
            inc: self.u32(1),
            parent: self.u32(2),
            reset: self.u64(3),
            end: self.u64(4),
        }
    }

    fn datafile(&self) -> DatafileEntry {
        DatafileEntry {
            file: self.u32(1),
            inc: self.u32(2),
            creation: self.u64(3),
            blocks: self.u32(4),
        }
    }

    fn log(&self) -> LogEntry {
        LogEntry {
            id: self.u32(1),
            archived: true,
            inc: self.u32(2),
            thread: self.u8(3),
            sequence: self.u32(4),
            first: self.u64(5),
            next: self.u64(6),
            size: self.u64(7),
            sha: [0; 32],
            status: Status::Available,
            keep: false,
        }
    }

    fn backup(&self, tag: Text) -> PieceEntry {
        PieceEntry {
            id: self.u32(1),
            copy: self.word(2) == "copy",
            kind: self.kind(3),
            inc: self.u32(4),
            file: self.u32(5),
            from: self.u64(6),
            checkpoint: self.u64(7),
            high: self.u64(8),
            rows: self.u32(9),
            size: self.u64(10),
            sha: [0; 32],
            status: Status::Available,
            keep: false,
            tag,
            moment: 50,
        }
    }

    fn mark(&self) -> MarkEntry {
        MarkEntry {
            id: self.u32(1),
            moment: self.u64(2),
            inc: self.u32(3),
            scn: self.u64(4),
        }
    }

    fn part(&self) -> PartEntry {
        PartEntry {
            id: self.u32(1),
            file: self.u32(2),
            thread: self.u8(3),
            size: self.u64(4),
            sha: [0; 32],
        }
    }

    fn head(&self) -> HeadEntry {
        HeadEntry {
            opened: true,
            inc: self.u32(1),
            scn: self.u64(2),
        }
    }

    // What a set has of the datafile whose words begin at this place.
    fn set_part(&self, at: usize) -> SetPart {
        SetPart {
            file: self.u32(at),
            kind: self.kind(at.saturating_add(1)),
            from: self.u64(at.saturating_add(2)),
            high: self.u64(at.saturating_add(3)),
            rows: self.u32(at.saturating_add(4)),
        }
    }

    // What a set has of datafiles, up to the end of the line.
    fn parts(&self, alloc: Global) -> Result<Seq<SetPart>, NoMemory> {
        let mut parts = Seq::new(alloc);
        for at in (6..self.words.len()).step_by(5) {
            parts.push(self.set_part(at))?;
        }
        Ok(parts)
    }

    fn set(&self, tag: Text, parts: Seq<SetPart>) -> SetEntry {
        SetEntry {
            id: self.u32(1),
            inc: self.u32(2),
            checkpoint: self.u64(3),
            size: self.u64(4),
            sha: [0; 32],
            status: Status::Available,
            keep: false,
            tag,
            moment: 50,
            parts,
        }
    }

    fn switch(&self) -> SwitchEntry {
        SwitchEntry {
            id: self.u32(1),
            thread: self.u8(2),
            inc: self.u32(3),
            scn: self.u64(4),
            on: self.word(5) == "on",
            sequence: self.u32(6),
        }
    }

    // The record of these words, which say one.
    fn record(&self, alloc: Global) -> Result<Record, NoMemory> {
        Ok(match self.word(0) {
            "base" => Record::Base(self.base()),
            "incarnation" => Record::Incarnation(self.incarnation()),
            "datafile" => Record::Datafile(self.datafile()),
            "log" => Record::Log(self.log()),
            "mark" => Record::Mark(self.mark()),
            "part" => Record::Part(self.part()),
            "head" => Record::Head(self.head()),
            "switch" => Record::Switch(self.switch()),
            "backup" => Record::Piece(self.backup(self.tag(alloc, 11)?)),
            _ => Record::Set(self.set(self.tag(alloc, 5)?, self.parts(alloc)?)),
        })
    }
}

/// The record that this line says, where `@` and a range stand for the number.
pub fn record_of(alloc: Global, line: &str, number: Option<u64>) -> Result<Record, Fault> {
    let words: Vec<&str> = line.split(' ').collect(alloc)?;
    let words = Words {
        words: words.as_slice(),
        number,
    };
    if words.fit() {
        Ok(words.record(alloc)?)
    } else {
        differs(alloc, line)
    }
}

/// The first and the last number of the range in this line, if there is just one.
pub fn range_of(line: &str) -> Option<(u64, u64)> {
    let mut found = None;
    for word in line.split(' ') {
        if let Some(range) = range_in(word) {
            if found.is_some() {
                return None;
            }
            found = Some(range);
        }
    }
    found
}
