//! The texts of numbers and of names.
ghost use Rattle.std.specs.Prelude.{◌≡◌};
ghost use Rattle.hex.specs.Hex.{encode_lower};
ghost use Rattle.flow_report.specs.Words.{event_word, kind_word};

use disk_trait::FileKind;
use flowfile_record::{DIGEST_SIZE, EventKind};

/// A digest in hexadecimal, in lower case.
pub(crate) fn text_of_digest(digest: &[u8; DIGEST_SIZE]) -> [u8; 2 * DIGEST_SIZE]
    ensures { result ≡ encode_lower digest.now }
{
    let mut text = [0; 2 * DIGEST_SIZE];
    let Ok(()) = hex::encode_to_slice(digest.as_slice(), &mut text) else {
        unreachable!()
    };
    text
}

/// What a kind of file is called.
pub(crate) fn word_of_kind(kind: FileKind) -> &'static str
    ensures { result.now ≡ kind_word kind }
{
    match kind {
        FileKind::Log => "log",
        FileKind::Snapshot => "snapshot",
        FileKind::Swap => "swap",
        FileKind::Claim => "claim",
        FileKind::Events => "events",
    }
}

/// NiFi's name of a kind of event.
pub(crate) fn word_of_event(kind: EventKind) -> &'static str
    ensures { result.now ≡ event_word kind }
{
    match kind {
        EventKind::Create => "CREATE",
        EventKind::Receive => "RECEIVE",
        EventKind::Fork => "FORK",
        EventKind::Join => "JOIN",
        EventKind::Clone => "CLONE",
        EventKind::ContentModified => "CONTENT_MODIFIED",
        EventKind::AttributesModified => "ATTRIBUTES_MODIFIED",
        EventKind::Route => "ROUTE",
        EventKind::Send => "SEND",
        EventKind::Drop => "DROP",
        EventKind::Expire => "EXPIRE",
        EventKind::Replay => "REPLAY",
    }
}
