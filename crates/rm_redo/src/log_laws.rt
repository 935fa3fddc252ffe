//! What the definitions of a log as bytes mean.
ghost use Rattle.std.specs.Prelude.{◌≡◌, ◌+◌, ◌*◌, length, AllPairs};
ghost use Rattle.rm_history.specs.Agrees.{ComesBefore};
ghost use Rattle.rm_redo.specs.{LogFile.{changes_of}, LogFormat.{spelling, IsLogFile}, declared.log_file.LogFile.{LogFile}};

/// A valid log has one spelling, and bytes spell one valid log at most.
pub fn bytes_spell_one_log()
    ensures { (l m : LogFile) → IsLogFile l → IsLogFile m → spelling l ≡ spelling m → l ≡ m }
{}

/// A spelling has 70 bytes, and 80 for each record.
pub fn a_log_has_a_length()
    ensures { (l : LogFile) → IsLogFile l → length (spelling l) ≡ 70 + 80 * length l.records }
{}

/// The changes of a valid log ascend, as `the_order_of_a_history_is_free` asks of logs.
pub fn a_log_lists_its_changes_in_order()
    ensures { (l : LogFile) → IsLogFile l → AllPairs ComesBefore (changes_of l) }
{}
