//! The online logs of a saved site.
ghost use Rattle.std.specs.{Prelude.{◌≡◌, ◌↔◌, ◌<◌, ◌≤◌, All, IfOk, IfSome, IsErrOf, IsTrue, length, map}, Option.{option_copied}};
ghost use Rattle.rm_base.specs.Outside.{Rose};
ghost use Rattle.rm_history.specs.Tree.{IsThere};
ghost use Rattle.rm_machine.specs.Loading.{IsTheOne, inc_of_first, online_of, where_of};
ghost use Rattle.rm_machine.specs.Saved.{FitsOnline, IsGoodLog, IsOfBlock, thread_part};
ghost use Rattle.rm_redo.specs.LogFormat.{IsLogFile};
ghost use Rattle.rm_catalog_typed.specs.Facts.{IsTypedCatalog};
ghost use Rattle.rm_session.specs.Fit.{AllAt, IsFitLog, IsLogAt, IsWhereLogFits, LogFitsAt};

use crate::parts::load_log;
use rm_base::{IncNo, NoMemory, Seq, Store, ThreadNo};
use rm_catalog::PartEntry;
use rm_catalog_typed::{Saved, TypedCatalog};
use rm_evidence::EvidenceFault;
use rm_history::Datafile;
use rm_machine::facts::MOST_THREADS;
use rm_redo::{LogFile, LogRecord, OnlineLogs};
use std::alloc::Global;

// Whether the record is of a datafile and a block that are there.
fn is_of_block(files: &[Datafile], change: &LogRecord) -> bool
    requires { 0 < change.now.file }
    ensures { IsTrue result ↔ IsOfBlock files.now change.now }
{
    match files.get(change.file as usize - 1) {
        Some(datafile) => change.block < datafile.blocks,
        None => false,
    }
}

// Whether each of the records is.
fn are_of_blocks(files: &[Datafile], records: &[LogRecord]) -> bool
    requires { All (λ r. 0 < r.file) records.now }
    ensures { IsTrue result ↔ All (IsOfBlock files.now) records.now }
{
    records.iter().all(|change| is_of_block(files, change))
}

// Whether the log could be the online log of this thread.
fn fits_online(catalog: &TypedCatalog, opened: bool, thread: ThreadNo, log: &LogFile) -> bool
    requires { IsLogFile log.now }
    ensures { IsTrue result ↔ FitsOnline catalog.now.ledger opened thread log.now }
{
    let Some(node) = catalog.tree().get(log.inc) else {
        return false;
    };
    log.dbid == catalog.base().dbid
        && log.thread == thread
        && node.reset <= log.first
        && log.next == node.end
        && catalog.enabled(log.inc, node.end, thread)
        && (!opened || log.inc == catalog.base().current)
        && are_of_blocks(catalog.files(), log.records.as_slice())
}

// The part of this thread.
fn thread_part(site: &Saved, thread: ThreadNo) -> Option<&PartEntry>
    ensures { option_copied result ≡ thread_part site.now thread }
{
    site.parts()
        .iter()
        .find(|part| part.file == 0 && part.thread == thread)
}

// The log, where it could be the online log of this thread.
fn where_fits(
    catalog: &TypedCatalog,
    opened: bool,
    thread: ThreadNo,
    log: Option<LogFile>,
) -> Option<LogFile>
    requires { IfSome log IsLogFile }
    ensures { IsWhereLogFits catalog.now.ledger opened thread log result }
{
    let log = log?;
    if fits_online(catalog, opened, thread, &log) {
        Some(log)
    } else {
        None
    }
}

// The log of this thread, where its part is good.
fn good_log<D: Store>(
    alloc: Global,
    store: &mut D,
    catalog: &TypedCatalog,
    site: &Saved,
    thread: ThreadNo,
) -> Result<Option<LogFile>, EvidenceFault>
    ensures told { IfOk result (λ found. IfSome (D.held store.old) (λ h. IsTheOne (IsGoodLog h catalog.now.ledger site.now thread) found)) }
    ensures fits { IfOk result (λ found. IfSome found (IsFitLog catalog.now.ledger site.now.head.opened thread)) }
    ensures same { D.held store.new ≡ D.held store.old }
    ensures failed { IsErrOf result EvidenceFault.StoreFault → Rose (D.faults store.old) (D.faults store.new) }
    ensures never_falls { D.faults store.old ≤ D.faults store.new }
{
    let Some(part) = thread_part(site, thread) else {
        return Ok(None);
    };
    let log = load_log(alloc, store, part)?;
    Ok(where_fits(catalog, site.head().opened, thread, log))
}

/// The logs of the threads 1 to 4, where their parts are good. An error is a fault of the store, which is counted, or want
/// of memory.
pub(crate) fn load_logs<D: Store>(
    alloc: Global,
    store: &mut D,
    catalog: &TypedCatalog,
    site: &Saved,
) -> Result<Seq<Option<LogFile>>, EvidenceFault>
    requires { IsTypedCatalog catalog.now }
    ensures many { IfOk result (λ logs. length logs ≡ 4) }
    ensures told { IfOk result (λ logs. IfSome (D.held store.old) (λ h. AllAt (IsLogAt h catalog.now.ledger site.now) logs)) }
    ensures fits { IfOk result (λ logs. AllAt (LogFitsAt catalog.now.ledger site.now.head.opened) logs) }
    ensures same { D.held store.new ≡ D.held store.old }
    ensures failed { IsErrOf result EvidenceFault.StoreFault → Rose (D.faults store.old) (D.faults store.new) }
    ensures never_falls { D.faults store.old ≤ D.faults store.new }
{
    let mut logs = Seq::new(alloc);
    for index in 0..MOST_THREADS {
        let log = good_log(alloc, store, catalog, site, index + 1)?;
        logs.push(log)?;
    }
    Ok(logs)
}

// The incarnation of the first log, and this one where there is none.
fn inc_of_first(current: IncNo, logs: &[Option<LogFile>]) -> IncNo
    ensures { result ≡ inc_of_first current logs.now }
{
    for log in logs {
        if let Some(log) = log {
            return log.inc;
        }
    }
    current
}

// The log, where it is of this incarnation.
fn where_of(inc: IncNo, log: Option<LogFile>) -> Option<LogFile>
    ensures { result ≡ where_of inc log }
{
    let log = log?;
    if log.inc == inc { Some(log) } else { None }
}

// Those that are of this incarnation.
fn all_of(
    alloc: Global,
    inc: IncNo,
    logs: Seq<Option<LogFile>>,
) -> Result<Seq<Option<LogFile>>, NoMemory>
    ensures { IfOk result (λ kept. kept ≡ map (where_of inc) logs) }
{
    let mut kept = Vec::new(alloc);
    for log in logs.into_vec() {
        kept.push(where_of(inc, log))?;
    }
    Ok(Seq::from_vec(kept))
}

/// The online logs of the threads that are enabled at the end of the incarnation of the first: those that are of the same
/// incarnation.
pub(crate) fn online_of(
    alloc: Global,
    catalog: &TypedCatalog,
    logs: Seq<Option<LogFile>>,
) -> Result<OnlineLogs, NoMemory>
    requires rules { IsTypedCatalog catalog.now }
    requires many { length logs ≡ 4 }
    requires valid { All (λ log. IfSome log IsLogFile) logs }
    requires there { IsThere catalog.now.ledger.tree (inc_of_first catalog.now.ledger.base.current logs) }
    ensures { IfOk result (λ online. online ≡ online_of catalog.now.ledger logs) }
{
    let base = catalog.base();
    let inc = inc_of_first(base.current, logs.as_slice());
    let enabled = catalog.enabled_at(inc, catalog.tree().end_of(inc));
    let kept = all_of(alloc, inc, logs)?;
    OnlineLogs::from_logs(alloc, base.dbid, inc, enabled, kept)
}
