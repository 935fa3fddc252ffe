//! What the machine does.
ghost use Rattle.std.specs.Prelude.{ℕ, ◌≡◌, ◌≢◌, ◌↔◌, [], ◌<◌, ◌≤◌, ◌^◌, not, Bool, Contains, IsSome, List, None, Option, Some, filter, false, true};
ghost use Rattle.rm_base.specs.{Numbers.{last_moment, last_scn}, Store.{Held}, declared.{block.Change.{Change}, kinds.Class.{Class}}};
ghost use Rattle.rm_base.specs.declared.kinds.Policy.TheVariants.{Window};
ghost use Rattle.rm_history.specs.{State.{state}, Tree.{IsThere, reset_of}, World.{blocks_of}, Evidence.{Agrees}, Unknown.{IsUnknown}};
ghost use Rattle.rm_catalog_typed.specs.Switches.{is_enabled_in};
ghost use Rattle.rm_retain.specs.Window.{window_start};
ghost use Rattle.rm_report.specs.declared.line.Line.{Line};
ghost use Rattle.rm_lang_statement.specs.declared.command.{ChangeTo.{ChangeTo}, Command.{Command}, RepairForm.{RepairForm}};
ghost use Rattle.rm_lang_statement.specs.declared.command.{RetentionForm.{RetentionForm}, Until.{Until}, BackupForm.{BackupForm}};
ghost use Rattle.rm_lang_statement.specs.declared.command.WriteForm.{WriteForm};
ghost use Rattle.rm_lang_statement.specs.declared.command.Command.TheVariants.{ArchiveLogCurrent, Backup, BackupFrom, BackupLogs, BlockRecover, CatalogName, ChangeBackup, Corrupt, CreateDatafile, Crosscheck, Cut, Damage, DeleteBackup, DeleteExpired, DeleteObsolete, LoseDatafile, LoseLog, Mount, OpenPlain, OpenResetlogs, Parallelism, Recover, RecoverCopy, RecoverTest, Remove, Rename, ResetDatabase, Restore, Retention, SwitchLogfile, SwitchThread, Tracking, Write};
ghost use Rattle.rm_evidence.specs.{Known.{known_of}, declared.evidence.Evidence.{Evidence}};
ghost use Rattle.rm_apply.specs.declared.recovering.Recovered.{Recovered};
ghost use Rattle.rm_track.specs.{Bitmaps.{Tracked, tracked_at}, Told.{IsStartFor, starts}};
ghost use Rattle.rm_machine.specs.{Asked.{blocks_read, candidates_in, writes_in}, Backup.{AreJobs, taken}, BackupOutcome.{begun}};
ghost use Rattle.rm_machine.specs.{BackupRefusal.{backup_refusal}, BlockRecover.{asks_for}, CreateDatabase.{fresh_machine}};
ghost use Rattle.rm_machine.specs.{Damage.{has_block, has_file}, Effect.{Effect, LeavesObjects, Made, Outcome, done}, Honest.{IsHonest}};
ghost use Rattle.rm_machine.specs.Laws.{IsMomentOf, LeadsOn, StaysSound, TellsOn, only_tells};
ghost use Rattle.rm_machine.specs.Machine.{DigestsTell, DigestsTellFor, HistoryFits, IsBorneOut, IsSoundMachine, Machine};
ghost use Rattle.rm_machine.specs.{Nature.{nature_of}, Obsolete.{AreObsoleteIn, start_by}};
ghost use Rattle.rm_machine.specs.{Recovery.{IsAtHand, IsGapOutcome, IsToldOutcome}, Sound.{IsSound}, Step.{IsDone, IsOutcome}};
ghost use Rattle.rm_machine.specs.{Tracked.{tracks}, State.{at_moment, current_of, ledger, now_of, on_path, tree, world}};
ghost use Rattle.rm_machine.specs.declared.{nature.Nature.TheVariants.{Records}, job.Job.{Job}, state.State.{State}};
ghost use Rattle.rm_machine_laws.specs.Wanted.{HasChangedSince, IsReadByBitmaps};

/// There are sound machines: that of a new database is one.
pub fn a_new_database_is_sound()
    ensures { (objects : Held) (dbid threads scn moment : ℕ) → 1 ≤ dbid → dbid < 2 ^ 32 → 1 ≤ threads → threads ≤ 4 → 1 ≤ scn → scn ≤ last_scn → moment ≤ last_moment → IsSoundMachine (fresh_machine objects dbid threads scn moment) }
{}

/// A state stays sound when a later moment is kept and its saved site goes.
pub fn a_moment_keeps_a_state_sound()
    ensures { (s : State) (moment : ℕ) → IsSound s → IsMomentOf s moment → IsSound (at_moment s moment) }
{}

/// WRITE: where digests tell it is a step from a sound machine to a sound one, and whatever the devices
/// hold it leaves a sound state.
pub fn a_write_leads_on()
    ensures leads { (w : WriteForm) → LeadsOn (Write w) }
    ensures stays { (w : WriteForm) → StaysSound (Write w) }
{}

/// CREATE DATAFILE, likewise: a datafile is added.
pub fn a_new_datafile_leads_on()
    ensures leads { (blocks : ℕ) → LeadsOn (CreateDatafile blocks) }
    ensures stays { (blocks : ℕ) → StaysSound (CreateDatafile blocks) }
{}

/// SWITCH LOGFILE, likewise: the log of a thread becomes an archived one.
pub fn a_switch_leads_on()
    ensures leads { (thread : ℕ) → LeadsOn (SwitchLogfile thread) }
    ensures stays { (thread : ℕ) → StaysSound (SwitchLogfile thread) }
{}

/// ENABLE THREAD, likewise: its switch is recorded, and the thread's log begins.
pub fn an_enabled_thread_leads_on()
    ensures leads { (thread : ℕ) → LeadsOn (SwitchThread thread true) }
    ensures stays { (thread : ℕ) → StaysSound (SwitchThread thread true) }
{}

/// DISABLE THREAD, likewise: the thread's log becomes an archived one, if it is not empty, and its switch is recorded.
pub fn a_disabled_thread_leads_on()
    ensures leads { (thread : ℕ) → LeadsOn (SwitchThread thread false) }
    ensures stays { (thread : ℕ) → StaysSound (SwitchThread thread false) }
{}

/// From the SCN of an ENABLE or DISABLE THREAD on its thread is enabled in the current incarnation, or it is not. At lower addresses, in other
/// incarnations, and of other threads all is as before.
pub fn a_thread_is_switched_from_its_scn_on()
    ensures from { (s : State) (held : Held) (thread : ℕ) (on : Bool) (lines : List Line) (effect : Effect) (t : State) → IsSound s
        → IsOutcome s held (SwitchThread thread on) (done lines effect t) → (g : ℕ) → now_of s ≤ g → is_enabled_in (ledger t) (current_of s) g thread ≡ on }
    ensures elsewhere { (s : State) (held : Held) (thread : ℕ) (on : Bool) (lines : List Line) (effect : Effect) (t : State) → IsSound s
        → IsOutcome s held (SwitchThread thread on) (done lines effect t) → (m g u : ℕ) → IsThere (tree s) m
        → ¬ ((u ≡ thread) × (m ≡ current_of s) × (now_of s ≤ g)) → is_enabled_in (ledger t) m g u ≡ is_enabled_in (ledger s) m g u }
{}

/// ARCHIVE LOG CURRENT, likewise: the log of each thread that has something to archive.
pub fn archiving_leads_on()
    ensures leads { LeadsOn ArchiveLogCurrent }
    ensures stays { StaysSound ArchiveLogCurrent }
{}

/// BACKUP of datafiles, likewise, also while the database writes: its pieces and sets, with level 1s that were read by bitmaps, agree
/// with the history, which has the writes. Each row of them is what the history made of its block at or after the checkpoint.
pub fn a_backup_leads_on()
    ensures leads { (form : BackupForm) → LeadsOn (Backup form) }
    ensures stays { (form : BackupForm) → StaysSound (Backup form) }
{}

/// Where its bitmaps go back so far, a level 1 reads exactly the blocks with a change at or above the greatest kept start that is at
/// most its parent's checkpoint, and below its own checkpoint.
pub fn a_level_1_reads_what_changed()
    ensures { (s : State) (h : List Change) (b : BackupForm) (jobs : List Job) (j : Job) (from low : ℕ) (t : Tracked) (marks : List Bool) → IsSound s → HistoryFits s h → AreJobs s b jobs → Contains jobs j → j.from ≡ Some from
        → tracked_at (begun s b).instance.tracker j.file ≡ Some t → candidates_in (begun s b) j ≡ Some marks → IsStartFor (starts t) from low
        → (k : ℕ) → k < blocks_of (world s) j.file → (Contains (blocks_read (begun s b) j) k ↔ HasChangedSince s h j.file low k) }
{}

/// Where changes are tracked, each datafile of the current path has bitmaps. A level 1 of it is read by them where they go back to its
/// parent's checkpoint, and else all its blocks are.
pub fn a_level_1_is_read_by_its_bitmaps()
    ensures { (s : State) (b : BackupForm) (j : Job) (from : ℕ) → IsSound s → tracks s.instance.is_open (ledger s) ≡ true → IsSome (on_path s j.file) → j.from ≡ Some from → IsReadByBitmaps (begun s b) j from }
{}

/// A block that a level 1 does not read had a version below its parent's checkpoint when the backup began: so a level 1 has the rows of a
/// read of all blocks in which those that it leaves out stand as they stood at its checkpoint.
pub fn what_a_level_1_leaves_out_stood_below()
    ensures { (s : State) (h : List Change) (b : BackupForm) (jobs : List Job) (j : Job) (from : ℕ) (t : Tracked) (marks : List Bool) → IsSound s → HistoryFits s h → AreJobs s b jobs → Contains jobs j → j.from ≡ Some from
        → tracked_at (begun s b).instance.tracker j.file ≡ Some t → candidates_in (begun s b) j ≡ Some marks
        → (k : ℕ) → k < blocks_of (world s) j.file → ¬ Contains (blocks_read (begun s b) j) k → (state (world s) h (current_of s) (now_of s) j.file k).version < from }
{}

/// BACKUP ARCHIVELOG ALL, likewise: a second object of a log agrees with the history as the log does.
pub fn a_backup_of_logs_leads_on()
    ensures leads { LeadsOn BackupLogs }
    ensures stays { StaysSound BackupLogs }
{}

/// BACKUP INCREMENTAL FROM SCN, likewise: its object comes to stand under a name that no record has. Of each datafile of the current path it has
/// exactly the rows at `now` of a version at or above the SCN.
pub fn an_increment_leads_on()
    ensures leads { (scn : ℕ) → LeadsOn (BackupFrom scn) }
    ensures stays { (scn : ℕ) → StaysSound (BackupFrom scn) }
{}

/// SHUTDOWN and STARTUP MOUNT, likewise: what is in place stands at `now`.
pub fn a_mount_leads_on()
    ensures leads { LeadsOn Mount }
    ensures stays { StaysSound Mount }
{}

/// ALTER DATABASE OPEN, likewise: the database goes on at its end.
pub fn an_opening_leads_on()
    ensures leads { LeadsOn OpenPlain }
    ensures stays { StaysSound OpenPlain }
{}

/// OPEN RESETLOGS, likewise: the logs are archived, and a new incarnation begins at the point.
pub fn an_opening_with_resetlogs_leads_on()
    ensures leads { LeadsOn OpenResetlogs }
    ensures stays { StaysSound OpenResetlogs }
{}

/// RESET DATABASE, likewise: another incarnation is the current one.
pub fn a_reset_leads_on()
    ensures leads { (inc : ℕ) → LeadsOn (ResetDatabase inc) }
    ensures stays { (inc : ℕ) → StaysSound (ResetDatabase inc) }
{}

/// RECOVER DATABASE, likewise: each datafile of the target comes to stand in place as the history made it there.
pub fn a_recovery_leads_on()
    ensures leads { (until : Option Until) → LeadsOn (Recover until) }
    ensures stays { (until : Option Until) → StaysSound (Recover until) }
{}

/// RECOVER COPY OF DATABASE, likewise: each copy that takes over level 1s has a new record and a new object, which agrees with
/// the history, and the old record and its object go.
pub fn a_recovery_of_copies_leads_on()
    ensures leads { (tag : List ℕ) (until : Option Until) → LeadsOn (RecoverCopy tag until) }
    ensures stays { (tag : List ℕ) (until : Option Until) → StaysSound (RecoverCopy tag until) }
{}

/// RECOVER DATABASE TEST tells what the history made.
pub fn a_test_of_a_recovery_tells()
    ensures { (until : Option Until) (inc : Option ℕ) → TellsOn (RecoverTest until inc) }
{}

/// What only tells (RECOVER TEST, RESTORE PREVIEW, DUMP, the lists and reports, VALIDATE ALL) is never done, so the
/// machine stays as it is.
pub fn what_only_tells_leads_on()
    ensures never { (c : Command) → only_tells c ≡ true → (s : State) (held : Held) (lines : List Line) (effect : Effect) (t : State) → ¬ IsDone s held c (done lines effect t) }
    ensures leads { (c : Command) → only_tells c ≡ true → LeadsOn c }
    ensures stays { (c : Command) → only_tells c ≡ true → StaysSound c }
    ensures tells { (c : Command) → TellsOn c }
{}

/// RESTORE, likewise: each datafile of the target comes to stand in place as a backup has it, or as it was
/// created.
pub fn a_restore_leads_on()
    ensures leads { (file : Option ℕ) (until : Option Until) → LeadsOn (Restore file until) }
    ensures stays { (file : Option ℕ) (until : Option Until) → StaysSound (Restore file until) }
{}

/// CHANGE BACKUP, DELETE BACKUP, CROSSCHECK and DELETE EXPIRED, likewise: of records of logs, pieces and sets the
/// status or the keep changes, or they go; each record that stays keeps its artefact.
pub fn upkeep_leads_on()
    ensures changes { (id : ℕ) (to : ChangeTo) → LeadsOn (ChangeBackup id to) }
    ensures deletes { (id : ℕ) → LeadsOn (DeleteBackup id) }
    ensures checks { (class : Class) → LeadsOn (Crosscheck class) }
    ensures expires { (class : Class) → LeadsOn (DeleteExpired class) }
    ensures change_stays { (id : ℕ) (to : ChangeTo) → StaysSound (ChangeBackup id to) }
    ensures delete_stays { (id : ℕ) → StaysSound (DeleteBackup id) }
    ensures check_stays { (class : Class) → StaysSound (Crosscheck class) }
    ensures expire_stays { (class : Class) → StaysSound (DeleteExpired class) }
{}

/// DELETE OBSOLETE, likewise: exactly the obsolete records go, with their objects; what it leaves keeps each target of the window.
pub fn a_deletion_by_the_policy_leads_on()
    ensures leads { LeadsOn DeleteObsolete }
    ensures stays { StaysSound DeleteObsolete }
{}

/// Where DELETE OBSOLETE was done, a second one finds no record.
pub fn a_second_deletion_finds_nothing()
    ensures { (s : State) (held after : Held) (lines : List Line) (effect : Effect) (t : State) (ids : List ℕ) → IsSound s → IsDone s held DeleteObsolete (done lines effect t) → LeavesObjects effect held after → AreObsoleteIn t after ids → ids ≡ [] }
{}

/// A window has a start: a mark of the current incarnation is always on its path, so no window starts at SCN 0 for want of a mark. It
/// starts no earlier than the first incarnation.
pub fn a_window_has_a_start()
    ensures found { (s : State) (days : ℕ) → IsSound s → window_start (tree s) (current_of s) days (ledger s).base.moment (ledger s).marks ≡ Some (start_by s (Window days)) }
    ensures within { (s : State) (days : ℕ) → IsSound s → reset_of (tree s) 1 ≤ start_by s (Window days) }
{}

/// CONFIGURE RETENTION POLICY and CONFIGURE .. PARALLELISM, likewise: one base fact changes alone.
pub fn settings_lead_on()
    ensures retention { (form : RetentionForm) → LeadsOn (Retention form) }
    ensures parallelism { (channels : ℕ) → LeadsOn (Parallelism channels) }
    ensures retention_stays { (form : RetentionForm) → StaysSound (Retention form) }
    ensures parallelism_stays { (channels : ℕ) → StaysSound (Parallelism channels) }
{}

/// ALTER DATABASE ENABLE and DISABLE BLOCK CHANGE TRACKING, likewise: from `now` on changes are tracked, or no longer.
pub fn tracking_leads_on()
    ensures leads { (on : Bool) → LeadsOn (Tracking on) }
    ensures stays { (on : Bool) → StaysSound (Tracking on) }
{}

/// HOST LOSE DATAFILE, likewise: what stood in place is lost, and the rest stays as it is.
pub fn a_lost_datafile_leads_on()
    ensures leads { (file : ℕ) → LeadsOn (LoseDatafile file) }
    ensures stays { (file : ℕ) → StaysSound (LoseDatafile file) }
{}

/// HOST LOSE LOG, likewise: an open database is mounted, and the log of the thread is lost.
pub fn a_lost_log_leads_on()
    ensures leads { (thread : ℕ) → LeadsOn (LoseLog thread) }
    ensures stays { (thread : ℕ) → StaysSound (LoseLog thread) }
{}

/// HOST CORRUPT, likewise: the block in place is damaged, and all others stay as they are.
pub fn a_corruption_leads_on()
    ensures leads { (file block : ℕ) → LeadsOn (Corrupt file block) }
    ensures stays { (file block : ℕ) → StaysSound (Corrupt file block) }
{}

/// BLOCKRECOVER, likewise, also while the database writes: where digests tell, exactly the damaged blocks that are asked for are mended,
/// each to what the history has, at the turn of its mend and at each later one; a block that is neither mended nor written stays as it is.
pub fn a_block_recovery_leads_on()
    ensures leads { (form : RepairForm) → LeadsOn (BlockRecover form) }
    ensures stays { (form : RepairForm) → StaysSound (BlockRecover form) }
{}

/// After a BLOCKRECOVER exactly the blocks that it was asked for are off the list of damaged ones: after one of the whole list none is damaged.
pub fn what_is_mended_is_off_the_list()
    ensures exact { (form : RepairForm) (s : State) (held : Held) (lines : List Line) (effect : Effect) (t : State) → IsDone s held (BlockRecover form) (done lines effect t) → t.instance.damaged ≡ filter (λ x. not (asks_for form x)) s.instance.damaged }
    ensures all { (form : RepairForm) (s : State) (held : Held) (lines : List Line) (effect : Effect) (t : State) → form.blocks ≡ None → IsDone s held (BlockRecover form) (done lines effect t) → t.instance.damaged ≡ [] }
{}

/// A BACKUP that is not refused reads no damaged block, and writes none.
pub fn a_backup_meets_no_damaged_block()
    ensures reads { (s : State) (b : BackupForm) → IsSound s → backup_refusal s b ≡ None → (f : ℕ) → Contains (taken s b) f → has_file s.instance.damaged f ≡ false }
    ensures writes { (s : State) (b : BackupForm) → IsSound s → backup_refusal s b ≡ None → (w : WriteForm) → Contains (writes_in b) w → has_block s.instance.damaged w.file w.block ≡ false }
{}

/// HOST REMOVE, DAMAGE, CUT and RENAME, likewise: no record and nothing in place changes, the names count as
/// touched, and each other object stays.
pub fn a_mishap_of_objects_leads_on()
    ensures removes { (name : List ℕ) → LeadsOn (Remove name) }
    ensures damages { (name : List ℕ) (at : ℕ) → LeadsOn (Damage name at) }
    ensures cuts { (name : List ℕ) (to : ℕ) → LeadsOn (Cut name to) }
    ensures renames { (old new : List ℕ) → LeadsOn (Rename old new) }
    ensures remove_stays { (name : List ℕ) → StaysSound (Remove name) }
    ensures damage_stays { (name : List ℕ) (at : ℕ) → StaysSound (Damage name at) }
    ensures cut_stays { (name : List ℕ) (to : ℕ) → StaysSound (Cut name to) }
    ensures rename_stays { (old new : List ℕ) → StaysSound (Rename old new) }
{}

/// Behind the gap with which a recovery is refused stand two histories, whichever history agrees with what is
/// at hand: in one the block is at the greatest version that is seen, in the other it was changed at the gap, to
/// any content. The history of a machine agrees with what is at hand there, where digests tell.
pub fn behind_a_gap_stand_two_histories()
    ensures unknown { (s : State) (held : Held) (i at : ℕ) (o : Outcome) (found : IsGapOutcome s held i at o) → IsUnknown (world s) (known_of found.first.evidence) i at found.gap.file found.gap.block found.gap.inc found.gap.scn }
    ensures agrees { (s : State) (h : List Change) (objects : Held) (made : List Made) (touched : List (List ℕ)) → IsBorneOut s h objects made touched → DigestsTellFor objects made touched (ledger s) → (e : Evidence) → IsAtHand s objects e → Agrees (world s) h (known_of e) }
{}

/// Where HOST touched no name, no premise about digests is left.
pub fn digests_tell_of_what_nobody_touched()
    ensures { (m : Machine) → m.touched ≡ [] → DigestsTell m }
{}

/// What is at hand decides: where it leaves a gap, not each block is told.
pub fn a_gap_and_a_recovery_exclude_each_other()
    ensures { (s : State) (held : Held) (i at : ℕ) (come : Recovered → Outcome) (o p : Outcome) → IsGapOutcome s held i at o → ¬ IsToldOutcome s held i at come p }
{}

/// Of no statement but CATALOG more is asked than that digests tell.
pub fn only_a_catalogue_asks_more()
    ensures { (m : Machine) (c : Command) → nature_of c ≢ Records → DigestsTell m → IsHonest m c }
{}

/// CATALOG, likewise: where its object was recorded before, by a finished statement, the artefact has a record again.
pub fn a_catalogue_leads_on()
    ensures leads { (name : List ℕ) → LeadsOn (CatalogName name) }
    ensures stays { (name : List ℕ) → StaysSound (CatalogName name) }
{}
