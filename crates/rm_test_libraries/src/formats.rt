//! What may be read from bytes that were cut or changed, whatever they are to spell.
use rm_base::NoMemory;
use rm_base::sealed::seal;
use rm_test_harness::{Fault, differs};
use std::alloc::Global;

/// What bytes may spell.
pub trait Format {
    /// The spelling of what is read from these bytes. None where nothing is.
    fn again(alloc: Global, bytes: &[u8]) -> Result<Option<Vec<u8>>, Fault>;
}

/// Whether something is read.
pub fn is_read<F: Format>(alloc: Global, bytes: &[u8]) -> Result<bool, Fault> {
    Ok(F::again(alloc, bytes)?.is_some())
}

/// `read`, or else `bad`.
pub fn word<F: Format>(alloc: Global, bytes: &[u8]) -> Result<String, Fault> {
    let word = if is_read::<F>(alloc, bytes)? {
        "read"
    } else {
        "bad"
    };
    Ok(String::from_str(alloc, word)?)
}

/// The bytes in lines of 32, as digits.
pub fn digits(alloc: Global, bytes: &[u8]) -> Result<String, Fault> {
    let mut digits = String::new(alloc);
    for (at, byte) in bytes.iter().enumerate() {
        let end = if at % 32 == 31 { "\n" } else { "" };
        write!(digits, "{byte:02x}{end}")?;
    }
    Ok(digits)
}

// The bytes without their digest.
fn body(bytes: &[u8]) -> &[u8] {
    let len = bytes.len().saturating_sub(32);
    bytes.get(..len).unwrap_or(&[])
}

// The bytes with one more behind them.
fn longer(alloc: Global, bytes: &[u8]) -> Result<Vec<u8>, NoMemory> {
    let mut longer = Vec::from_slice(alloc, bytes)?;
    longer.push(0)?;
    Ok(longer)
}

// The bytes with one more before their digest, which is made anew.
fn longer_body(alloc: Global, bytes: &[u8]) -> Result<Vec<u8>, NoMemory> {
    let mut longer = longer(alloc, body(bytes))?;
    seal(&mut longer)?;
    Ok(longer)
}

// Whether a front of the bytes is read.
fn is_front_read<F: Format>(alloc: Global, bytes: &[u8]) -> Result<bool, Fault> {
    for n in 0..bytes.len() {
        if is_read::<F>(alloc, bytes.get(..n).unwrap_or(&[]))? {
            return Ok(true);
        }
    }
    Ok(false)
}

// Whether something longer is read.
fn is_longer_read<F: Format>(alloc: Global, bytes: &[u8]) -> Result<bool, Fault> {
    let is_so = is_read::<F>(alloc, &longer(alloc, bytes)?)?;
    Ok(is_so || is_read::<F>(alloc, &longer_body(alloc, bytes)?)?)
}

/// No front of the bytes is read, and nothing longer.
pub fn no_front<F: Format>(alloc: Global, bytes: &[u8]) -> Result<bool, Fault> {
    Ok(!is_front_read::<F>(alloc, bytes)? && !is_longer_read::<F>(alloc, bytes)?)
}

// The bytes with one of them changed.
fn changed(alloc: Global, bytes: &[u8], k: usize, by: u8) -> Result<Vec<u8>, NoMemory> {
    let mut out = Vec::with_capacity(alloc, 300)?;
    for (i, byte) in bytes.iter().enumerate() {
        out.push(if i == k { *byte ^ by } else { *byte })?;
    }
    Ok(out)
}

/// Whether the bytes with one changed by these bits are read.
pub fn is_changed_read<F: Format>(alloc: Global, bytes: &[u8], by: u8) -> Result<bool, Fault> {
    for k in 0..bytes.len() {
        if is_read::<F>(alloc, &changed(alloc, bytes, k, by)?)? {
            return Ok(true);
        }
    }
    Ok(false)
}

/// How many changes by these bits are read, each with its new digest. What is read has these bytes.
pub fn count_read<F: Format>(alloc: Global, bytes: &[u8], by: u8) -> Result<u32, Fault> {
    let body = body(bytes);
    let mut read = 0u32;
    for k in 0..body.len() {
        let mut sealed = changed(alloc, body, k, by)?;
        seal(&mut sealed)?;
        if let Some(again) = F::again(alloc, &sealed)? {
            if again.as_slice() != sealed.as_slice() {
                return differs(alloc, "what is read has other bytes");
            }
            read = read.saturating_add(1);
        }
    }
    Ok(read)
}
