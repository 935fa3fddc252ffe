//! Moments and their texts.
use rm_base::{LAST_MOMENT, Mark, NoMemory};
use rm_moments::{at_or_after, at_or_before, is_time, parse, tag, text};
use std::alloc::Global;

/// What `TEXT@NOW` means.
pub fn time(alloc: Global, given: &str) -> Result<String, NoMemory> {
    let Some((text, now)) = given.split_once('@') else {
        return Ok(String::from_str(alloc, "no time")?);
    };
    let Ok(now) = now.parse::<u64>() else {
        return Ok(String::from_str(alloc, "no moment")?);
    };
    match parse(text, now) {
        Some(moment) if is_time(text) => Ok(format!(in alloc; "{moment}")?),
        None if !is_time(text) => Ok(String::from_str(alloc, "none")?),
        _ => Ok(String::from_str(alloc, "differs")?),
    }
}

/// The text and the tag of a moment, and what the text means at another moment.
pub fn shown(alloc: Global, given: &str) -> Result<String, NoMemory> {
    let moment = match given.parse::<u64>() {
        Ok(moment) if moment <= LAST_MOMENT => moment,
        _ => return Ok(String::from_str(alloc, "no moment")?),
    };
    let text = text(alloc, moment)?;
    let tag = tag(alloc, moment)?;
    match parse(text.as_str(), 77) {
        Some(again) => Ok(format!(in alloc; "{} {} {again}", text.as_str(), tag.as_str())?),
        None => Ok(String::from_str(alloc, "no text")?),
    }
}

// The SCN of a mark, or a hyphen.
fn scn(alloc: Global, scn: Option<u64>) -> Result<String, NoMemory> {
    match scn {
        Some(scn) => Ok(format!(in alloc; "{scn}")?),
        None => Ok(String::from_str(alloc, "-")?),
    }
}

fn mark(moment: u64, scn: u64) -> Mark {
    Mark {
        moment,
        inc: 1,
        scn,
    }
}

/// The SCNs of the last of four marks at or before a moment, and of the first at or after it.
pub fn marks(alloc: Global, given: &str) -> Result<String, NoMemory> {
    let Ok(moment) = given.parse::<u64>() else {
        return Ok(String::from_str(alloc, "no moment")?);
    };
    let marks = [mark(10, 100), mark(20, 200), mark(20, 201), mark(15, 300)];
    let before = scn(alloc, at_or_before(&marks, moment))?;
    let after = scn(alloc, at_or_after(&marks, moment))?;
    let none = scn(
        alloc,
        at_or_before(&[], moment).or(at_or_after(&[], moment)),
    )?;
    Ok(format!(in alloc; "{before} {after} {none}")?)
}
