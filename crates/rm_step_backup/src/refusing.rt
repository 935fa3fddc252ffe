//! Why BACKUP is refused.
ghost use Rattle.std.specs.Prelude.{◌≡◌, ◌≤◌, IfSome, None};
ghost use Rattle.rm_lang_statement.specs.declared.command.Command.TheVariants.{Backup};
ghost use Rattle.rm_machine.specs.Asked.{writes_in};
ghost use Rattle.rm_machine.specs.BackupRefusal.{absent_of, backup_refusal, damage_refusal, damaged_taken, lost_refusal, room_refusal};
ghost use Rattle.rm_machine.specs.{Backup.{absent}, Sound.{IsSound}, Step.{IsStatement}};

use crate::datafiles::{lost_taken, object_bytes, object_count, takes};
use rm_base::{Absent, BlockId, Limit, Refusal};
use rm_lang_statement::BackupForm;
use rm_machine::State;
use rm_machine::during::{absent_of, damaged_write, lacks_logs, lacks_scns, lost_of, marks_for};
use rm_machine::facts::on_path;
use rm_machine::room::{lacks_bytes, lacks_ids, lacks_room};
use rm_machine::writers::asked;

// The first datafile that the backup names and that is not on the current path.
fn absent(state: &State, form: &BackupForm) -> Option<u64>
    requires sound { IsSound state.now }
    ensures { result ≡ absent state.now form.now }
{
    let files = form.files.as_ref()?.as_slice();
    files
        .iter()
        .find(|file| on_path(state, **file).is_none())
        .copied()
}

// The least damaged block of the datafiles that are backed up.
fn damaged_taken(state: &State, form: &BackupForm) -> Option<BlockId>
    requires sound { IsSound state.now }
    ensures { result ≡ damaged_taken state.now form.now }
{
    let damaged = state.instance.damaged.as_slice();
    damaged
        .iter()
        .find(|id| takes(state, form, id.file))
        .copied()
}

/// A block is damaged, one of a datafile that is backed up or one that is written.
pub(crate) fn damage_refusal(state: &State, form: &BackupForm) -> Option<Refusal>
    requires sound { IsSound state.now }
    requires there { absent_of state.now (writes_in form.now) ≡ None }
    ensures { result ≡ damage_refusal state.now form.now }
{
    let taken = damaged_taken(state, form);
    let BlockId { file, block } = taken.or_else(|| damaged_write(state, asked(&form.during)))?;
    Some(Refusal::Rm17 { file, block })
}

// Why the objects can't be made or the writes not be kept, or a block that is damaged.
fn room_refusal(state: &State, form: &BackupForm) -> Option<Refusal>
    requires sound { IsSound state.now }
    requires some { IfSome form.now.files_per_set (λ n. 1 ≤ n) }
    requires there { absent_of state.now (writes_in form.now) ≡ None }
    ensures { result ≡ room_refusal state.now form.now }
{
    let count = object_count(state, form);
    let writes = asked(&form.during);
    if lacks_room(state, count + marks_for(state, &form.during)) {
        Some(Refusal::Rm11(Limit::Records))
    } else if lacks_bytes(state, object_bytes(state, form)) {
        Some(Refusal::Rm11(Limit::Bytes))
    } else if lacks_ids(state, count) {
        Some(Refusal::Rm11(Limit::ObjectIds))
    } else if lacks_logs(state, writes) {
        Some(Refusal::Rm11(Limit::LogRecords))
    } else if lacks_scns(state, writes.len() as u64) {
        Some(Refusal::Rm15)
    } else {
        damage_refusal(state, form)
    }
}

// Why it is refused, where all that it names is there.
fn lost_refusal(state: &State, form: &BackupForm) -> Option<Refusal>
    requires sound { IsSound state.now }
    requires some { IfSome form.now.files_per_set (λ n. 1 ≤ n) }
    requires there { absent_of state.now (writes_in form.now) ≡ None }
    ensures { result ≡ lost_refusal state.now form.now }
{
    if let Some(file) = lost_taken(state, form) {
        return Some(Refusal::Rm09 { file });
    }
    if let Some(file) = lost_of(state, asked(&form.during)) {
        return Some(Refusal::Rm09 { file });
    }
    room_refusal(state, form)
}

/// Why a BACKUP is refused, if it is, with the writes that are made meanwhile: the database is mounted (RM-04); a named datafile
/// is not on the current path, or a write's thread, datafile on the current path or block is not there (RM-05); one that would be
/// backed up, or a write's datafile, is lost (RM-09); too few records, bytes, ids or log records are left (RM-11, in this
/// order); too few SCNs (RM-15); or a block of a datafile that would be backed up, or one that is written, is damaged (RM-17). Of
/// several with one number the datafiles of the backup come first, the least damaged block of all of them, then the writes in the
/// order of the text.
pub fn backup_refusal(state: &State, form: &BackupForm) -> Option<Refusal>
    requires sound { IsSound state.now }
    requires statement { IsStatement (Backup form.now) }
    ensures value { result ≡ backup_refusal state.now form.now }
{
    if !state.instance.is_open {
        return Some(Refusal::Rm04 { mounted: true });
    }
    if let Some(file) = absent(state, form) {
        return Some(Refusal::Rm05(Absent::File(file)));
    }
    if let Some(absent) = absent_of(state, asked(&form.during)) {
        return Some(Refusal::Rm05(absent));
    }
    lost_refusal(state, form)
}
