//! What the spelling of records means.
ghost use Rattle.std.specs.Prelude.{◌≡◌};
ghost use Rattle.rm_base.specs.Formats.{Reads};
ghost use Rattle.rm_catalog.specs.{Keys.{key_of}, declared.record.Record.{Record}};
ghost use Rattle.rm_catalog_bytes.specs.{Spelling.{body_of}, Fits.{Fits}};

use crate::reading::decode_record;
use crate::writing::encode_record;
use rm_base::FormatFault;
use rm_catalog::Record;
use std::alloc::Global;

/// The record that is read of the bytes of one, under its key, is that one.
pub fn what_is_read_was_written(alloc: Global, entry: &Record) -> Result<Record, FormatFault>
    ensures { Reads result entry.now }
{
    let Ok(bytes) = encode_record(alloc, entry) else {
        return Err(FormatFault::NoMemory);
    };
    decode_record(alloc, entry.key(), bytes.as_slice())
}

/// Under one key, bytes spell one record at most.
pub fn bytes_spell_one_record()
    ensures { (r s : Record) → Fits r → Fits s → key_of r ≡ key_of s → body_of r ≡ body_of s → r ≡ s }
{}
