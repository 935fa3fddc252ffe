//! Resyncs over keepers in memory: their statuses, and what each keeper has then.
use rm_base::{Failing, MemSink, NoMemory, Seq, Text};
use rm_catalog::{Keeper, KeeperFail, MarkEntry, MemKeeper, Record};
use rm_test_harness::Fault;
use rm_tool_resync::run_resync;
use std::alloc::Global;

const WORDS: [&str; 4] = ["--control", "NEAR", "--catalog", "FAR"];

// A keeper of the marks from one id on and below another, of which the load and the apply of these numbers fail.
fn keeper(alloc: Global, from: u32, to: u32, load: u64, apply: u64) -> Result<MemKeeper, Fault> {
    let mut records = Vec::new(alloc);
    for id in from..to {
        records.push(Record::Mark(MarkEntry {
            id,
            moment: 0,
            inc: 1,
            scn: 1,
        }))?;
    }
    let loads = Failing::new(vec![in alloc; load]?);
    let applies = Failing::new(vec![in alloc; apply]?);
    Ok(MemKeeper::new(Seq::from_vec(records), loads, applies)?)
}

// Two keepers with five records and with four, of which these calls fail: a load of the near one, a load of the far one, its apply.
fn pair(alloc: Global, near: u64, far: u64, apply: u64) -> Result<(MemKeeper, MemKeeper), Fault> {
    Ok((
        keeper(alloc, 3, 8, near, 0)?,
        keeper(alloc, 1, 5, far, apply)?,
    ))
}

// How many records a keeper answers.
fn count(keeper: &mut MemKeeper) -> Result<usize, KeeperFail> {
    Ok(keeper.load()?.len())
}

fn words(alloc: Global, given: &[&str]) -> Result<Vec<Text>, NoMemory> {
    let mut words = Vec::new(alloc);
    for word in given {
        words.push(Text::from_string(String::from_str(alloc, word)?))?;
    }
    Ok(words)
}

// What a resync is to come to: its status, what it writes, and how many records the keepers have then.
#[derive(Clone, Copy)]
struct Wanted<'a> {
    status: u8,
    text: &'a [u8],
    near: usize,
    far: usize,
}

// Whether a resync of these keepers with these words, over a sink of so much room, comes to that.
fn gives(
    alloc: Global,
    given: &[&str],
    keepers: (MemKeeper, MemKeeper),
    room: usize,
    wanted: Wanted<'_>,
) -> Result<bool, Fault> {
    let mut sink = MemSink::new(alloc, room, 16, Failing::new(Vec::new(alloc)))?;
    let words = words(alloc, given)?;
    let (near, far) = keepers;
    let (status, mut near, mut far) = run_resync(alloc, &words, &mut sink, near, far);
    let is_told = status == wanted.status && sink.bytes() == wanted.text;
    let are_kept = count(&mut near) == Ok(wanted.near) && count(&mut far) == Ok(wanted.far);
    Ok(is_told && are_kept)
}

/// The far records become the near ones, and their number is told.
pub fn done(alloc: Global) -> Result<bool, Fault> {
    let wanted = Wanted {
        status: 0,
        text: b"resynced 5 records\n",
        near: 5,
        far: 5,
    };
    gives(alloc, &WORDS, pair(alloc, 0, 0, 0)?, 64, wanted)
}

/// Of equal records none is written, so that a far keeper whose first apply fails serves.
pub fn equal(alloc: Global) -> Result<bool, Fault> {
    let keepers = (keeper(alloc, 1, 4, 0, 0)?, keeper(alloc, 1, 4, 0, 1)?);
    let wanted = Wanted {
        status: 0,
        text: b"resynced 3 records\n",
        near: 3,
        far: 3,
    };
    gives(alloc, &WORDS, keepers, 64, wanted)
}

// Whether these words are refused, and change nothing.
fn are_refused(alloc: Global, given: &[&str]) -> Result<bool, Fault> {
    let wanted = Wanted {
        status: 2,
        text: b"rman: bad words\n",
        near: 5,
        far: 4,
    };
    gives(alloc, given, pair(alloc, 0, 0, 0)?, 64, wanted)
}

/// Bad words: too few, a value that is missing, an option that there is not, and one that stands twice.
pub fn bad_words(alloc: Global) -> Result<bool, Fault> {
    let other = ["--control", "NEAR", "--catalog", "FAR", "--database", "7"];
    Ok(
        are_refused(alloc, &["--control", "NEAR"])?
            && are_refused(alloc, &["--control", "NEAR", "--catalog"])?
            && are_refused(alloc, &other)?
            && are_refused(alloc, &["--control=NEAR", "--catalog=FAR", "--catalog=FAR"])?,
    )
}

/// Where the line can't be written both keepers are equal already.
pub fn untold(alloc: Global) -> Result<bool, Fault> {
    let wanted = Wanted {
        status: 4,
        text: b"resynced",
        near: 5,
        far: 5,
    };
    gives(alloc, &WORDS, pair(alloc, 0, 0, 0)?, 8, wanted)
}

/// Where a call of a keeper fails nothing is written, and nothing changes.
pub fn failed(alloc: Global) -> Result<bool, Fault> {
    let wanted = Wanted {
        status: 6,
        text: b"",
        near: 5,
        far: 4,
    };
    Ok(
        gives(alloc, &WORDS, pair(alloc, 1, 0, 0)?, 64, wanted)?
            && gives(alloc, &WORDS, pair(alloc, 0, 1, 0)?, 64, wanted)?
            && gives(alloc, &WORDS, pair(alloc, 0, 0, 1)?, 64, wanted)?,
    )
}
