//! The tokens of the statements that have no parts.
ghost use Rattle.std.specs.Prelude.{◌≡◌, IfOk, IsTrue};
ghost use Rattle.rm_lang_token.specs.Spelling.{are_string_bytes};
ghost use Rattle.rm_lang_grammar.specs.Spelling.{spelled};
ghost use Rattle.rm_lang_reading.specs.Creating.{create_database_line, create_datafile_line, switch_logfile_line, archive_log_line, track_line, untrack_line, enable_thread_line, disable_thread_line};
ghost use Rattle.rm_lang_reading.specs.{Modes.{startup_line, reset_database_line, open_database_line}, Backups.{backup_logs_line}};
ghost use Rattle.rm_lang_reading.specs.Upkeep.{validate_line};
ghost use Rattle.rm_lang_reading.specs.Asking.{report_obsolete_line, report_need_backup_line, report_schema_line, list_incarnation_line, list_backup_line, list_copy_line, list_archived_line, list_corruption_line, show_line, dump_line};
ghost use Rattle.rm_lang_reading.specs.Settings.{parallelism_line, catalog_line};
ghost use Rattle.rm_lang_reading.specs.Mishaps.{lose_datafile_line, lose_log_line, corrupt_line, remove_line, damage_line, cut_line, rename_line};
ghost use Rattle.rm_lang_reading.specs.Language.{allocate_line};

use crate::phrases::{ended, numbered, phrase, quoted, words};
use rm_base::{NoMemory, Scn, Text};
use rm_lang_grammar::Spelling;
use std::alloc::Global;

pub fn create_database(
    alloc: Global,
    dbid: u32,
    threads: u64,
    scn: Scn,
) -> Result<Spelling, NoMemory>
    ensures { IfOk result (λ ts. ts ≡ spelled create_database_line (dbid, (threads, (scn, tt)))) }
{
    let mut spelling = words(alloc, &["CREATE", "DATABASE"])?;
    spelling.number_or("DBID", 1, dbid as u64)?;
    spelling.number_or("THREADS", 1, threads)?;
    spelling.number_or("SCN", 1, scn)?;
    ended(spelling)
}

pub fn create_datafile(alloc: Global, blocks: u64) -> Result<Spelling, NoMemory>
    ensures { IfOk result (λ ts. ts ≡ spelled create_datafile_line (blocks, tt)) }
{
    ended(numbered(alloc, &["CREATE", "DATAFILE", "BLOCKS"], blocks)?)
}

pub fn switch_logfile(alloc: Global, thread: u64) -> Result<Spelling, NoMemory>
    ensures { IfOk result (λ ts. ts ≡ spelled switch_logfile_line (thread, tt)) }
{
    let mut spelling = words(alloc, &["ALTER", "SYSTEM", "SWITCH", "LOGFILE"])?;
    spelling.number_or("THREAD", 1, thread)?;
    ended(spelling)
}

pub fn archive_log(alloc: Global) -> Result<Spelling, NoMemory>
    ensures { IfOk result (λ ts. ts ≡ spelled archive_log_line tt) }
{
    phrase(alloc, &["ALTER", "SYSTEM", "ARCHIVE", "LOG", "CURRENT"])
}

pub fn track(alloc: Global) -> Result<Spelling, NoMemory>
    ensures { IfOk result (λ ts. ts ≡ spelled track_line tt) }
{
    phrase(
        alloc,
        &["ALTER", "DATABASE", "ENABLE", "BLOCK", "CHANGE", "TRACKING"],
    )
}

pub fn untrack(alloc: Global) -> Result<Spelling, NoMemory>
    ensures { IfOk result (λ ts. ts ≡ spelled untrack_line tt) }
{
    phrase(
        alloc,
        &[
            "ALTER", "DATABASE", "DISABLE", "BLOCK", "CHANGE", "TRACKING",
        ],
    )
}

pub fn enable_thread(alloc: Global, thread: u64) -> Result<Spelling, NoMemory>
    ensures { IfOk result (λ ts. ts ≡ spelled enable_thread_line (thread, tt)) }
{
    ended(numbered(alloc, &["ALTER", "DATABASE", "ENABLE", "THREAD"], thread)?)
}

pub fn disable_thread(alloc: Global, thread: u64) -> Result<Spelling, NoMemory>
    ensures { IfOk result (λ ts. ts ≡ spelled disable_thread_line (thread, tt)) }
{
    ended(numbered(alloc, &["ALTER", "DATABASE", "DISABLE", "THREAD"], thread)?)
}

pub fn startup(alloc: Global) -> Result<Spelling, NoMemory>
    ensures { IfOk result (λ ts. ts ≡ spelled startup_line tt) }
{
    phrase(alloc, &["STARTUP", "MOUNT"])
}

pub fn reset_database(alloc: Global, inc: u64) -> Result<Spelling, NoMemory>
    ensures { IfOk result (λ ts. ts ≡ spelled reset_database_line (inc, tt)) }
{
    ended(numbered(alloc, &["RESET", "DATABASE", "TO", "INCARNATION"], inc)?)
}

pub fn validate(alloc: Global) -> Result<Spelling, NoMemory>
    ensures { IfOk result (λ ts. ts ≡ spelled validate_line tt) }
{
    phrase(alloc, &["VALIDATE", "ALL"])
}

pub fn report_obsolete(alloc: Global) -> Result<Spelling, NoMemory>
    ensures { IfOk result (λ ts. ts ≡ spelled report_obsolete_line tt) }
{
    phrase(alloc, &["REPORT", "OBSOLETE"])
}

pub fn report_need_backup(alloc: Global) -> Result<Spelling, NoMemory>
    ensures { IfOk result (λ ts. ts ≡ spelled report_need_backup_line tt) }
{
    phrase(alloc, &["REPORT", "NEED", "BACKUP"])
}

pub fn report_schema(alloc: Global) -> Result<Spelling, NoMemory>
    ensures { IfOk result (λ ts. ts ≡ spelled report_schema_line tt) }
{
    phrase(alloc, &["REPORT", "SCHEMA"])
}

pub fn list_incarnation(alloc: Global) -> Result<Spelling, NoMemory>
    ensures { IfOk result (λ ts. ts ≡ spelled list_incarnation_line tt) }
{
    phrase(alloc, &["LIST", "INCARNATION"])
}

pub fn list_backup(alloc: Global) -> Result<Spelling, NoMemory>
    ensures { IfOk result (λ ts. ts ≡ spelled list_backup_line tt) }
{
    phrase(alloc, &["LIST", "BACKUP"])
}

pub fn list_copy(alloc: Global) -> Result<Spelling, NoMemory>
    ensures { IfOk result (λ ts. ts ≡ spelled list_copy_line tt) }
{
    phrase(alloc, &["LIST", "COPY"])
}

pub fn list_archived(alloc: Global) -> Result<Spelling, NoMemory>
    ensures { IfOk result (λ ts. ts ≡ spelled list_archived_line tt) }
{
    phrase(alloc, &["LIST", "ARCHIVELOG", "ALL"])
}

pub fn list_corruption(alloc: Global) -> Result<Spelling, NoMemory>
    ensures { IfOk result (λ ts. ts ≡ spelled list_corruption_line tt) }
{
    phrase(alloc, &["LIST", "CORRUPTION"])
}

pub fn show(alloc: Global) -> Result<Spelling, NoMemory>
    ensures { IfOk result (λ ts. ts ≡ spelled show_line tt) }
{
    phrase(alloc, &["SHOW", "ALL"])
}

pub fn dump(alloc: Global, file: u64, block: u64) -> Result<Spelling, NoMemory>
    ensures { IfOk result (λ ts. ts ≡ spelled dump_line (file, (block, tt))) }
{
    let mut spelling = numbered(alloc, &["DUMP", "DATAFILE"], file)?;
    spelling.word("BLOCK")?;
    spelling.number(block)?;
    ended(spelling)
}

pub fn parallelism(alloc: Global, channels: u64) -> Result<Spelling, NoMemory>
    ensures { IfOk result (λ ts. ts ≡ spelled parallelism_line (channels, tt)) }
{
    ended(numbered(
        alloc,
        &["CONFIGURE", "DEVICE", "TYPE", "DISK", "PARALLELISM"],
        channels,
    )?)
}

pub fn catalog(alloc: Global, name: &Text) -> Result<Spelling, NoMemory>
    requires { IsTrue (are_string_bytes name.now) }
    ensures { IfOk result (λ ts. ts ≡ spelled catalog_line (name.now, tt)) }
{
    ended(quoted(alloc, &["CATALOG"], name)?)
}

pub fn lose_datafile(alloc: Global, file: u64) -> Result<Spelling, NoMemory>
    ensures { IfOk result (λ ts. ts ≡ spelled lose_datafile_line (file, tt)) }
{
    ended(numbered(alloc, &["HOST", "LOSE", "DATAFILE"], file)?)
}

pub fn lose_log(alloc: Global, thread: u64) -> Result<Spelling, NoMemory>
    ensures { IfOk result (λ ts. ts ≡ spelled lose_log_line (thread, tt)) }
{
    ended(numbered(alloc, &["HOST", "LOSE", "LOG", "THREAD"], thread)?)
}

pub fn corrupt(alloc: Global, file: u64, block: u64) -> Result<Spelling, NoMemory>
    ensures { IfOk result (λ ts. ts ≡ spelled corrupt_line (file, (block, tt))) }
{
    let mut spelling = numbered(alloc, &["HOST", "CORRUPT", "DATAFILE"], file)?;
    spelling.word("BLOCK")?;
    spelling.number(block)?;
    ended(spelling)
}

pub fn remove(alloc: Global, name: &Text) -> Result<Spelling, NoMemory>
    requires { IsTrue (are_string_bytes name.now) }
    ensures { IfOk result (λ ts. ts ≡ spelled remove_line (name.now, tt)) }
{
    ended(quoted(alloc, &["HOST", "REMOVE"], name)?)
}

pub fn damage(alloc: Global, name: &Text, at: u64) -> Result<Spelling, NoMemory>
    requires { IsTrue (are_string_bytes name.now) }
    ensures { IfOk result (λ ts. ts ≡ spelled damage_line (name.now, (at, tt))) }
{
    let mut spelling = quoted(alloc, &["HOST", "DAMAGE"], name)?;
    spelling.word("AT")?;
    spelling.number(at)?;
    ended(spelling)
}

pub fn cut(alloc: Global, name: &Text, to: u64) -> Result<Spelling, NoMemory>
    requires { IsTrue (are_string_bytes name.now) }
    ensures { IfOk result (λ ts. ts ≡ spelled cut_line (name.now, (to, tt))) }
{
    let mut spelling = quoted(alloc, &["HOST", "CUT"], name)?;
    spelling.word("TO")?;
    spelling.number(to)?;
    ended(spelling)
}

pub fn rename(alloc: Global, old: &Text, new_name: &Text) -> Result<Spelling, NoMemory>
    requires old_is_string { IsTrue (are_string_bytes old.now) }
    requires new_name_is_string { IsTrue (are_string_bytes new_name.now) }
    ensures { IfOk result (λ ts. ts ≡ spelled rename_line (old.now, (new_name.now, tt))) }
{
    let mut spelling = quoted(alloc, &["HOST", "RENAME"], old)?;
    spelling.word("TO")?;
    spelling.string(new_name.as_bytes())?;
    ended(spelling)
}

pub fn open_database(alloc: Global, resetlogs: bool) -> Result<Spelling, NoMemory>
    ensures { IfOk result (λ ts. ts ≡ spelled open_database_line (resetlogs, tt)) }
{
    let mut spelling = words(alloc, &["ALTER", "DATABASE", "OPEN"])?;
    spelling.flag("RESETLOGS", resetlogs)?;
    ended(spelling)
}

pub fn backup_logs(alloc: Global) -> Result<Spelling, NoMemory>
    ensures { IfOk result (λ ts. ts ≡ spelled backup_logs_line tt) }
{
    phrase(alloc, &["BACKUP", "ARCHIVELOG", "ALL"])
}

pub fn allocate(alloc: Global) -> Result<Spelling, NoMemory>
    ensures { IfOk result (λ ts. ts ≡ spelled allocate_line tt) }
{
    phrase(
        alloc,
        &["ALLOCATE", "CHANNEL", "C", "DEVICE", "TYPE", "DISK"],
    )
}
