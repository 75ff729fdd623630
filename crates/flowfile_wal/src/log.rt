//! The current log: loaded, mended, begun and appended to.
ghost use Rattle.std.specs.Prelude.{◌≡◌, ℕ, true, false, List, [], length, IsTrue, IfOk, OnOk, IsErrOf, Ok, Err, None, Some};
ghost use Rattle.disk_trait.specs.Images.{After, Since, IsOnly, Stays, calls_later};
ghost use Rattle.disk_trait.specs.Faults.{CountsFaults};
ghost use Rattle.disk_trait.specs.declared.damage.Damage.{Damage as TheDamage};
ghost use Rattle.record_codec.specs.declared.entry.LogEntry.{LogEntry as Entry};
ghost use Rattle.flowfile_wal.specs.Calls.{HaveEncodings, InEach, IsWorkingLog, LeavesReady, WithOrWithout, with_frame, LogRefusesOnFault};
ghost use Rattle.flowfile_wal.specs.Current.{current_log};
ghost use Rattle.flowfile_wal.specs.Reads.{IsBegunWhole};
ghost use Rattle.flowfile_wal.specs.Steps.{IsFrame, KeepsLog, AddsEntries, IsCurrentIn, IsReadyIn, IsBegunIn, log_with};

use crate::LoadError;
use crate::append::append_frame;
use crate::current::find_current;
use crate::mend::mend_log;
use crate::read::read_log;
use block_file::BlockError;
use disk_trait::{Disk, Failed};
use record_codec::{BLOCK_OVERHEAD, FORMAT_VERSION, LogEntry};
use std::alloc::Global;
use std::marker::Model;

/// The entries of a log behind its Begin, in order, each with the offset of its gate.
pub type LogEntries = Vec<(u64, LogEntry)>;

/// The payload of a Begin block, in bytes: the version and the log's number.
const BEGIN_SIZE: u64 = 9;

/// Where the last gate stands of a log that has its Begin alone.
pub const BEGUN_END: u64 = 1 + BLOCK_OVERHEAD + BEGIN_SIZE;

/// The current log of a disk. It holds no disk: each call takes it, and it is the one that the log was loaded from.
#[derive(Debug, Drop)]
pub struct Log {
    current: Option<u64>,
    version: u8,
    gate: u64,
    is_mended: bool,
    has_failed: bool,
}

impl Model for Log {
    ghost use Rattle.flowfile_wal.specs.Steps.{LogState};

    ghost Value = { LogState };

    ghost use Rattle.std.specs.Prelude.{◌≡◌, ◌+◌, ◌^◌, ◌<◌, true, is_some, IsTrue};

    ghost view = { λ log. record {
      number = log.current;
      version = log.version;
      end = log.gate;
      mended = log.is_mended;
      failed = log.has_failed;
    } };

    ghost invariant = { λ log. record {
      room : log.is_mended ≡ true → log.gate + 1 < 2 ^ 64;
      begun : log.is_mended ≡ true → IsTrue (is_some log.current);
    } };
}

impl Log {
    /// Finds the current log and reads its entries, with memory for the list of the logs, for the entries and for one
    /// block. It writes nothing.
    pub fn load<D: Disk>(alloc: Global, disk: &mut D) -> Result<(Log, LogEntries), LoadError>
        ensures loaded { IfOk result (λ loaded. IsTrue D.tells
            → current_log (D.held disk.old) ≡ Ok (log_with loaded.0 loaded.1.items)) }
        // Whatever the disk tells.
        ensures encoded { IfOk result (λ loaded. HaveEncodings loaded.1.items) }
        ensures unmended { IfOk result (λ loaded. (loaded.0.mended ≡ false) × (loaded.0.failed ≡ false)) }
        ensures empty { IfOk result (λ loaded. loaded.0.number ≡ None → loaded.1.items ≡ []) }
        ensures damaged { (damage : TheDamage)
            → IsErrOf result (LoadError.Block (BlockError.Damaged damage)) → IsTrue D.tells
            → current_log (D.held disk.old) ≡ Err damage }
        // Once the logs are listed, no memory is wanted where none is current, or the first block is damaged.
        ensures memory { IsErrOf result (LoadError.Block BlockError.Memory) → IsTrue D.tells
            → IsBegunWhole (D.held disk.old) }
        ensures stays { Stays D.held D.moment D.images disk.old disk.new }
        ensures cause { CountsFaults (D.faults disk.old) (D.faults disk.new)
            (IsErrOf result (LoadError.Block BlockError.Disk)) }
    {
        let Some(found) = find_current(alloc, disk)? else {
            return Ok((Log::unmended(None, FORMAT_VERSION, 0), Vec::new(alloc)));
        };
        let read = read_log(alloc, disk, found.number, found.size)?;
        let log = Log::unmended(Some(found.number), read.version, read.end);
        Ok((log, read.entries))
    }

    fn unmended(current: Option<u64>, version: u8, gate: u64) -> Log
        ensures { result
            ≡ record { number = current; version = version; end = gate; mended = false; failed = false } }
    {
        Log {
            current,
            version,
            gate,
            is_mended: false,
            has_failed: false,
        }
    }

    /// The current log's number. None where no log is current, and then there are no entries.
    pub fn number(&self) -> Option<u64>
        ensures { result ≡ self.now.number }
    {
        self.current
    }

    /// Cuts what stands behind the last gate and closes the gate. It takes no memory.
    pub fn mend<D: Disk>(&mut self, disk: &mut D) -> Result<(), Failed>
        requires works { self.old.failed ≡ false }
        requires some { (number : ℕ) × (self.old.number ≡ Some number) }
        requires synced { IsOnly (D.held disk.old) (D.images disk.old (D.moment disk.old)) }
        requires current { IsTrue D.tells → IsCurrentIn self.old (D.held disk.old) }
        // Whatever a stop within the call leaves has the same entries.
        ensures images { (number : ℕ) → self.old.number ≡ Some number
            → Since D.moment D.images disk.old disk.new
            (After (KeepsLog number) (D.images disk.old (D.moment disk.old))) }
        ensures ready { OnOk result (LeavesReady self.new (D.held disk.new) (D.images disk.new (D.moment disk.new))) }
        ensures mended { OnOk result (self.new ≡ record self.old { mended = true }) }
        ensures refusal { LogRefusesOnFault result self.old self.new (D.faults disk.old) (D.faults disk.new) }
    {
        let Some(number) = self.current else {
            return Ok(());
        };
        let Ok(()) = mend_log(disk, number, self.gate) else {
            self.has_failed = true;
            return Err(Failed);
        };
        self.is_mended = true;
        Ok(())
    }

    /// The log that was begun on the disk in this version, which has its Begin alone, is the current one from now on.
    pub fn begun<D: Disk>(&mut self, disk: &D, version: u8, number: u64)
        requires { InEach (D.images disk.now (D.moment disk.now)) (IsBegunIn version number) }
        ensures state { self.new ≡ record {
          number = Some number;
          version = version;
          end = BEGUN_END;
          mended = true;
          failed = self.old.failed;
        } }
        ensures ready { InEach (D.images disk.now (D.moment disk.now)) (IsReadyIn self.new) }
    {
        self.current = Some(number);
        self.version = version;
        self.gate = BEGUN_END;
        self.is_mended = true;
    }

    /// Adds the entries of one block, one or more. `frame` is the block with a closed gate behind it. Answers the
    /// disk's moment at which the entries were acknowledged. It makes four calls of the disk, and takes no memory.
    pub fn append<D: Disk>(&mut self, disk: &mut D, frame: &[u8]) -> Result<u64, Failed>
        requires works { IsWorkingLog self.old }
        requires frame { (entries : List Entry) × IsFrame self.old.version entries frame.now }
        requires ready { InEach (D.images disk.old (D.moment disk.old)) (IsReadyIn self.old) }
        // A stop within the call leaves the log of before it, or what was held with all these entries.
        ensures images { (number : ℕ) (entries : List Entry) → self.old.number ≡ Some number
            → IsFrame self.old.version entries frame.now → Since D.moment D.images disk.old disk.new
            (WithOrWithout number entries (length frame.now)
            (D.images disk.old (D.moment disk.old)) (D.held disk.old)) }
        // Once it has answered Ok, a stop leaves the entries.
        ensures added { OnOk result ((number : ℕ) (entries : List Entry) → self.old.number ≡ Some number
            → IsFrame self.old.version entries frame.now → InEach (D.images disk.new (D.moment disk.new))
            (AddsEntries number entries (length frame.now) (D.held disk.old))) }
        ensures ready { OnOk result (LeavesReady self.new (D.held disk.new) (D.images disk.new (D.moment disk.new))) }
        ensures acknowledged { IfOk result (λ moment.
            (moment ≡ D.moment disk.new) × (self.new ≡ with_frame self.old frame.now)) }
        // There are two writes, each with its sync.
        ensures calls { OnOk result (D.moment disk.new ≡ calls_later 4 (D.moment disk.old)) }
        ensures refusal { LogRefusesOnFault result self.old self.new (D.faults disk.old) (D.faults disk.new) }
    {
        let Some(number) = self.current else {
            self.has_failed = true;
            return Err(Failed);
        };
        let Ok(()) = append_frame(disk, number, self.gate, frame) else {
            self.has_failed = true;
            return Err(Failed);
        };
        self.gate += frame.len() as u64;
        Ok(disk.moment())
    }
}
