//! Texts and lists as serde_json prints them.
ghost use Rattle.std.specs.Prelude.{◌≡◌, ◌++◌, ◌<◌, ◌≤◌, take, IsTrue, IsErr};
ghost use Rattle.std.specs.Char.{digit_char};
ghost use Rattle.disk_trait.specs.Faults.{CountsFaults};
ghost use Rattle.json.specs.Print.{escape, escape_byte, escape_letter, quoted};
ghost use Rattle.serde_json.specs.Data.{array};
ghost use Rattle.serde_json.specs.Written.{comma_if, compact_text};
ghost use Rattle.flow_report.specs.Events.{file_items};
ghost use Rattle.flow_report.specs.Words.{identifier_text};
ghost use Rattle.flow_report.specs.Writing.{Puts};

use crate::held::Held;
use disk_trait::Failed;
use flowfile_record::uuid_of;
use uuid::Uuid;
use world_io::Sink;

impl Held {
    /// Puts a text in quotation marks, with the shortest escapes.
    pub(crate) fn put_quoted<S: Sink>(&mut self, sink: &mut S, text: &[u8]) -> Result<(), Failed>
        ensures put { IsTrue S.tells → Puts (quoted text.now) (S.written sink.old) self.old.bytes.items
            (S.written sink.new) self.new.bytes.items result }
        ensures cause { CountsFaults (S.faults sink.old) (S.faults sink.new) (IsErr result) }
    {
        self.put(sink, b"\"")?;
        self.put_escaped(sink, text)?;
        self.put(sink, b"\"")
    }

    fn put_escaped<S: Sink>(&mut self, sink: &mut S, text: &[u8]) -> Result<(), Failed>
        ensures put { IsTrue S.tells → Puts (escape text.now) (S.written sink.old) self.old.bytes.items
            (S.written sink.new) self.new.bytes.items result }
        ensures cause { CountsFaults (S.faults sink.old) (S.faults sink.new) (IsErr result) }
    {
        for byte in text {
            self.put_escape(sink, *byte)?;
        }
        Ok(())
    }

    // What stands in a text for a byte of it.
    fn put_escape<S: Sink>(&mut self, sink: &mut S, byte: u8) -> Result<(), Failed>
        ensures put { IsTrue S.tells → Puts (escape_byte byte) (S.written sink.old) self.old.bytes.items
            (S.written sink.new) self.new.bytes.items result }
        ensures cause { CountsFaults (S.faults sink.old) (S.faults sink.new) (IsErr result) }
    {
        let (escape, count) = escape_of(byte);
        self.put(sink, &escape[..count])
    }

    /// Puts an identifier in quotation marks.
    pub(crate) fn put_quoted_uuid<S: Sink>(&mut self, sink: &mut S, id: &Uuid) -> Result<(), Failed>
        ensures put { IsTrue S.tells → Puts (quoted (identifier_text id.now)) (S.written sink.old) self.old.bytes.items
            (S.written sink.new) self.new.bytes.items result }
        ensures cause { CountsFaults (S.faults sink.old) (S.faults sink.new) (IsErr result) }
    {
        let mut text = Uuid::encode_buffer();
        let text = id.hyphenated().encode_lower(&mut text);
        self.put_quoted(sink, text.as_bytes())
    }

    /// Puts the identifiers of files of a store, as a list of texts.
    pub(crate) fn put_uuids<S: Sink>(
        &mut self,
        sink: &mut S,
        store: u64,
        numbers: &[u64],
    ) -> Result<(), Failed>
        ensures put { IsTrue S.tells → Puts (compact_text (array (file_items store numbers.now))) (S.written sink.old)
            self.old.bytes.items (S.written sink.new) self.new.bytes.items result }
        ensures cause { CountsFaults (S.faults sink.old) (S.faults sink.new) (IsErr result) }
    {
        self.put(sink, b"[")?;
        let mut is_later = false;
        for number in numbers {
            self.put_item(sink, is_later, &uuid_of(store, *number))?;
            is_later = true;
        }
        self.put(sink, b"]")
    }

    fn put_item<S: Sink>(&mut self, sink: &mut S, is_later: bool, id: &Uuid) -> Result<(), Failed>
        ensures put { IsTrue S.tells → Puts (comma_if is_later ++ quoted (identifier_text id.now)) (S.written sink.old)
            self.old.bytes.items (S.written sink.new) self.new.bytes.items result }
        ensures cause { CountsFaults (S.faults sink.old) (S.faults sink.new) (IsErr result) }
    {
        if !is_later {
            return self.put_quoted_uuid(sink, id);
        }
        self.put(sink, b",")?;
        self.put_quoted_uuid(sink, id)
    }
}

// What stands in a text for a byte: so many bytes from the front.
fn escape_of(byte: u8) -> ([u8; 6], usize)
    ensures value { take result.1 result.0 ≡ escape_byte byte }
    ensures bound { result.1 ≤ 6 }
{
    let letter = letter_of(byte);
    if letter > 0 {
        return ([b'\\', letter, 0, 0, 0, 0], 2);
    }
    if byte < b' ' {
        return (
            [
                b'\\',
                b'u',
                b'0',
                b'0',
                hex_digit(byte / 16),
                hex_digit(byte % 16),
            ],
            6,
        );
    }
    ([byte, 0, 0, 0, 0, 0], 1)
}

// The letter of a byte's short escape, 0 where it has none.
fn letter_of(byte: u8) -> u8
    ensures { result ≡ escape_letter byte }
{
    match byte {
        b'"' | b'\\' => byte,
        BACKSPACE => b'b',
        FORM_FEED => b'f',
        b'\n' => b'n',
        b'\r' => b'r',
        b'\t' => b't',
        _ => 0,
    }
}

const BACKSPACE: u8 = 8;

const FORM_FEED: u8 = 12;

fn hex_digit(digit: u8) -> u8
    requires { digit < 16 }
    ensures { result ≡ digit_char digit }
{
    match digit {
        0..=9 => b'0' + digit,
        _ => b'a' + (digit - 10),
    }
}
