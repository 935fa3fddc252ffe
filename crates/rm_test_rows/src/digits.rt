//! Bytes and records, by hexadecimal digits.
use rm_base::{FormatFault, NoMemory};
use rm_catalog::{Key, Record};
use rm_catalog_bytes::decode_record;
use std::alloc::Global;

// The value of a digit.
fn digit(letter: u8) -> Option<u8> {
    match letter {
        b'0'..=b'9' => Some(letter.saturating_sub(b'0')),
        b'a'..=b'f' => Some(letter.saturating_sub(b'a').saturating_add(10)),
        _ => None,
    }
}

// The bytes of an even number of digits.
fn bytes_of(alloc: Global, digits: &[u8]) -> Result<Option<Vec<u8>>, NoMemory> {
    let mut bytes = Vec::new(alloc);
    let mut high = None;
    for letter in digits {
        let Some(low) = digit(*letter) else {
            return Ok(None);
        };
        high = match high {
            None => Some(low),
            Some(high) => {
                bytes.push((high << 4) | low)?;
                None
            }
        };
    }
    Ok(Some(bytes))
}

/// The bytes of words of digits, one after another, if they are digits.
pub fn bytes_in(alloc: Global, words: &[&str]) -> Result<Option<Vec<u8>>, NoMemory> {
    let mut digits = Vec::new(alloc);
    for word in words {
        digits.extend_from_slice(word.as_bytes())?;
    }
    bytes_of(alloc, &digits)
}

/// The record of this key whose fields have these digits, if there is one.
pub fn record_of(alloc: Global, key: Key, fields: &[&str]) -> Result<Option<Record>, NoMemory> {
    let Some(bytes) = bytes_in(alloc, fields)? else {
        return Ok(None);
    };
    match decode_record(alloc, key, &bytes) {
        Ok(record) => Ok(Some(record)),
        Err(FormatFault::Bad) => Ok(None),
        Err(FormatFault::NoMemory) => Err(NoMemory),
    }
}
