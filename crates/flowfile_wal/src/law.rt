//! What follows of all logs where one log's file changed.
ghost use Rattle.std.specs.Prelude.{◌≡◌, ℕ, ◌<◌, List, IsTrue};
ghost use Rattle.disk_trait.specs.Files.{Files};
ghost use Rattle.record_codec.specs.EntryEncoding.{IsEntry};
ghost use Rattle.record_codec.specs.Frames.{IsPassedOver, begun_log};
ghost use Rattle.record_codec.specs.Version.{is_known};
ghost use Rattle.record_codec.specs.declared.entry.LogEntry.{LogEntry};
ghost use Rattle.record_codec.specs.declared.entry.LogEntry.TheVariants.{Begin};
ghost use Rattle.flowfile_wal.specs.Current.{CurrentLog, current_log, log_bytes};
ghost use Rattle.flowfile_wal.specs.Steps.{KeepsLog, AddsEntries, IsClosedIn, with_block, IsBegunIn};

/// Files that differ in one log, which says the same, have the same current log.
pub fn logs_that_change_alike()
    ensures { (number : ℕ) (old new : Files) → KeepsLog number old new → current_log new ≡ current_log old }
{}

/// Where the current log gets the entries of a block, the current log has them.
pub fn logs_with_one_block_more()
    ensures { (log : CurrentLog) (entries : List LogEntry) (size : ℕ) (old new : Files) → IsClosedIn log old
        → AddsEntries log.number entries size old new → IsClosedIn (with_block log entries size) new }
{}

/// A log that has its Begin alone, of a version that counts, is the current one where each greater log is passed over.
pub fn logs_that_were_begun()
    ensures { (version number : ℕ) (files : Files) → IsTrue (is_known version) → IsEntry (Begin version number)
        → log_bytes files number ≡ begun_log version number
        → ((n : ℕ) → number < n → IsPassedOver (log_bytes files n)) → IsBegunIn version number files }
{}
