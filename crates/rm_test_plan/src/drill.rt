//! The script of drill 7, beside what another program made of the same rules.
use rm_drill::drill_script;
use rm_test_harness::Fault;
use std::alloc::Global;

const BEGIN: &[u8] = b"CREATE DATABASE THREADS 2;\nCREATE DATAFILE BLOCKS 1024;\n";

const FIRST_ROUND: &[u8] =
    b"BACKUP INCREMENTAL LEVEL 1 DATABASE DURING { WRITE THREAD 1 DATAFILE 3 BLOCK 319 VALUE 'r1k0'; WRITE THREAD 2 DATAFILE 2 BLOCK 913 VALUE 'r1k1'; ";

const END: &[u8] = b"ALTER DATABASE OPEN;\nVALIDATE ALL;\n";

// How often the byte stands there.
fn count_of(bytes: &[u8], byte: u8) -> usize {
    bytes.iter().filter(|b| **b == byte).count()
}

// The line of this number, from 0 on.
fn line(bytes: &[u8], number: usize) -> &[u8] {
    bytes.split(|b| *b == b'\n').nth(number).unwrap_or(b"")
}

/// The script has its length, its ends, its first round, and its first ALTER SYSTEM.
pub fn drill_7(alloc: Global) -> Result<bool, Fault> {
    let script = drill_script(alloc, 7)?;
    let bytes = script.as_slice();
    let counts = (bytes.len(), count_of(bytes, b'\n'), count_of(bytes, b'\''));
    let has_ends = bytes.starts_with(BEGIN) && bytes.ends_with(END);
    let round = line(bytes, 7);
    let has_round = round.starts_with(FIRST_ROUND) && round.ends_with(b" };");
    let is_archived = line(bytes, 12) == b"ALTER SYSTEM ARCHIVE LOG CURRENT;".as_slice();
    Ok(counts == (1048548, 36, 40000) && has_ends && has_round && is_archived)
}
