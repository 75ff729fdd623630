//! Events: what happened to a flow file.
ghost use Rattle.std.specs.Prelude.{◌≡◌, ◌≢◌, IfSome, IfNone};
ghost use Rattle.flowfile_record.specs.Events.{code_of};
ghost use Rattle.flowfile_record.specs.declared.event.EventKind.{EventKind as Kind};

use crate::{DIGEST_SIZE, Numbers, Text};

/// What happened to a flow file, by NiFi's names of provenance events.
#[derive(Clone, Copy, Debug, PartialEq, Eq)]
pub enum EventKind {
    Create = 1,
    Receive = 2,
    Fork = 3,
    Join = 4,
    Clone = 5,
    ContentModified = 6,
    AttributesModified = 7,
    Route = 8,
    Send = 9,
    Drop = 10,
    Expire = 11,
    Replay = 12,
}

impl EventKind {
    /// The kind's code in an event's record, from 1 to 12.
    pub fn code(self) -> u8
        ensures { result ≡ code_of self }
    {
        self as u8
    }

    /// The kind of this code, which is `None` outside 1 to 12.
    pub fn from_code(code: u8) -> Option<EventKind>
        ensures code { IfSome result (λ kind. code_of kind ≡ code) }
        ensures none { IfNone result ((kind : Kind) → code_of kind ≢ code) }
    {
        match code {
            1 => Some(EventKind::Create),
            2 => Some(EventKind::Receive),
            3 => Some(EventKind::Fork),
            4 => Some(EventKind::Join),
            5 => Some(EventKind::Clone),
            6 => Some(EventKind::ContentModified),
            7 => Some(EventKind::AttributesModified),
            8 => Some(EventKind::Route),
            9 => Some(EventKind::Send),
            10 => Some(EventKind::Drop),
            11 => Some(EventKind::Expire),
            12 => Some(EventKind::Replay),
            _ => None,
        }
    }
}

/// An event: what happened to the flow file of number `file`, at which component of the flow. `parents` and
/// `children` are numbers of files, ascending, and empty where the kind names none. `size` and `digest` are those of
/// the file's content behind what happened.
#[derive(Debug, Drop)]
pub struct Event {
    pub number: u64,
    pub kind: EventKind,
    pub moment: u64,
    pub component: Text,
    pub file: u64,
    pub parents: Numbers,
    pub children: Numbers,
    pub detail: Text,
    pub size: u64,
    pub digest: [u8; DIGEST_SIZE],
}

/// How many events there are of each kind, at the place of the kind's code less 1.
#[derive(Clone, Copy, Debug, PartialEq, Eq)]
pub struct EventCounts {
    pub counts: [u64; 12],
}
