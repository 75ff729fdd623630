//! Bytes of a line that are gathered before they go to a sink.
ghost use Rattle.std.specs.Prelude.{◌≡◌, ◌+◌, [], decimal, IsTrue, IsErr, OnOk};
ghost use Rattle.disk_trait.specs.Faults.{CountsFaults};
ghost use Rattle.flow_report.specs.Words.{identifier_text};
ghost use Rattle.flow_report.specs.Writing.{Puts};

use crate::write_bytes;
use arrayvec::ArrayVec;
use disk_trait::Failed;
use uuid::Uuid;
use world_io::Sink;

/// How many bytes go to a sink in one write, at most, in bytes: 4 KiB.
pub(crate) const PIECE_SIZE: usize = 4_096;

/// The bytes that are held back.
#[derive(Drop)]
pub(crate) struct Held {
    bytes: ArrayVec<u8, PIECE_SIZE>,
}

impl Held {
    /// Nothing.
    pub(crate) fn new() -> Held
        ensures { result.bytes.items ≡ [] }
    {
        Held {
            bytes: ArrayVec::new(),
        }
    }

    /// Holds some bytes behind the others. Where they don't fit, the others are written first.
    pub(crate) fn put<S: Sink>(&mut self, sink: &mut S, bytes: &[u8]) -> Result<(), Failed>
        ensures put { IsTrue S.tells → Puts bytes.now (S.written sink.old) self.old.bytes.items (S.written sink.new)
            self.new.bytes.items result }
        ensures cause { CountsFaults (S.faults sink.old) (S.faults sink.new) (IsErr result) }
    {
        if self.bytes.try_extend_from_slice(bytes).is_ok() {
            return Ok(());
        }
        self.flush(sink)?;
        match self.bytes.try_extend_from_slice(bytes) {
            Ok(()) => Ok(()),
            // More bytes than are ever held.
            Err(_) => write_bytes(sink, bytes),
        }
    }

    /// Puts the sum of two numbers in decimal. It may have a bit more than they have.
    pub(crate) fn put_sum<S: Sink>(
        &mut self,
        sink: &mut S,
        one: u128,
        other: u128,
    ) -> Result<(), Failed>
        ensures put { IsTrue S.tells → Puts (decimal (one + other)) (S.written sink.old) self.old.bytes.items
            (S.written sink.new) self.new.bytes.items result }
        ensures cause { CountsFaults (S.faults sink.old) (S.faults sink.new) (IsErr result) }
    {
        let ones = one % 10 + other % 10;
        let tens = one / 10 + other / 10 + ones / 10;
        if tens == 0 {
            return self.put_number(sink, ones);
        }
        self.put_number(sink, tens)?;
        self.put_number(sink, ones % 10)
    }

    /// Puts a number in decimal.
    pub(crate) fn put_number<S: Sink>(&mut self, sink: &mut S, number: u128) -> Result<(), Failed>
        ensures put { IsTrue S.tells → Puts (decimal number) (S.written sink.old) self.old.bytes.items (S.written sink.new)
            self.new.bytes.items result }
        ensures cause { CountsFaults (S.faults sink.old) (S.faults sink.new) (IsErr result) }
    {
        let mut digits = itoa::Buffer::new();
        self.put(sink, digits.format(number).as_bytes())
    }

    /// Puts an identifier, hyphenated and in lower case.
    pub(crate) fn put_uuid<S: Sink>(&mut self, sink: &mut S, id: &Uuid) -> Result<(), Failed>
        ensures put { IsTrue S.tells
            → Puts (identifier_text id.now) (S.written sink.old) self.old.bytes.items (S.written sink.new)
            self.new.bytes.items result }
        ensures cause { CountsFaults (S.faults sink.old) (S.faults sink.new) (IsErr result) }
    {
        let mut text = Uuid::encode_buffer();
        let text = id.hyphenated().encode_lower(&mut text);
        self.put(sink, text.as_bytes())
    }

    /// Writes what is held.
    pub(crate) fn flush<S: Sink>(&mut self, sink: &mut S) -> Result<(), Failed>
        ensures put { IsTrue S.tells → Puts [] (S.written sink.old) self.old.bytes.items (S.written sink.new)
            self.new.bytes.items result }
        ensures all { OnOk result (self.new.bytes.items ≡ []) }
        ensures cause { CountsFaults (S.faults sink.old) (S.faults sink.new) (IsErr result) }
    {
        write_bytes(sink, self.bytes.as_slice())?;
        self.bytes.clear();
        Ok(())
    }
}
