//! What each line says, and what is written where a sink fails or takes a byte at a time.
ghost use Rattle.std.specs.Prelude.{false, []};

mod summaries;

use crate::{KinWord, Line, write_line};
use disk_trait::{Damage, Failed, FileKind, FileName};
use flowfile_record::{Event, EventKind, Numbers, Text, uuid_of};
use std::alloc::Global;
use std::process::Abort;
use std::test::Fail;
use world_io::{MemorySink, Sink};

// Takes a byte at a time, and fails behind so many.
#[derive(Drop)]
struct Slow {
    bytes: Vec<u8>,
    left: usize,
    faults: u64,
}

impl Sink for Slow {
    ghost tells = { false };

    ghost written = { λ _. [] };

    ghost faults = { λ sink. sink.faults };

    fn write(&mut self, bytes: &[u8]) -> Result<usize, Failed> {
        if self.left > 0 && self.bytes.push(bytes[0]).is_ok() {
            self.left -= 1;
            return Ok(1);
        }
        self.faults = self.faults.saturating_add(1);
        Err(Failed)
    }
}

const LOG: FileName = FileName {
    kind: FileKind::Log,
    number: 0,
};

const CLAIM: FileName = FileName {
    kind: FileKind::Claim,
    number: u64::MAX,
};

const DAMAGES: [Damage; 5] = [
    Damage::Digest {
        file: LOG,
        at: 37,
        stored: [0; 32],
        found: [0xab; 32],
    },
    Damage::Digest {
        file: CLAIM,
        at: u64::MAX,
        stored: [255; 32],
        found: [1; 32],
    },
    Damage::Short {
        file: FileName {
            kind: FileKind::Swap,
            number: 7,
        },
        at: 0,
        need: 5,
        have: 4,
    },
    Damage::Form {
        file: FileName {
            kind: FileKind::Snapshot,
            number: 2,
        },
        at: 9,
    },
    Damage::Form {
        file: FileName {
            kind: FileKind::Events,
            number: 3,
        },
        at: 10,
    },
];

// The damages' lines, behind the word.
const DAMAGED: [&str; 5] = [
    "log 0 at 37 kept 0000000000000000000000000000000000000000000000000000000000000000 found abababababababababababababababababababababababababababababababab\n",
    "claim 18446744073709551615 at 18446744073709551615 kept ffffffffffffffffffffffffffffffffffffffffffffffffffffffffffffffff found 0101010101010101010101010101010101010101010101010101010101010101\n",
    "swap 7 at 0 short\n",
    "snapshot 2 at 9 form\n",
    "events 3 at 10 form\n",
];

// Lines with no identifier.
const PLAIN: [(Line<'static>, &'static str); 19] = [
    (
        Line::Connection {
            id: "made",
            files: 0,
            bytes: 0,
        },
        "connection made 0 0\n",
    ),
    (
        Line::Connection {
            id: "tens",
            files: u64::MAX,
            bytes: u64::MAX,
        },
        "connection tens 18446744073709551615 18446744073709551615\n",
    ),
    (Line::Blocked("merge"), "blocked: merge\n"),
    (Line::Blocked("é"), "blocked: é\n"),
    (
        Line::Limit {
            name: "journal",
            number: 0,
        },
        "limit: journal 0\n",
    ),
    (
        Line::Limit {
            name: "file-bytes",
            number: u64::MAX,
        },
        "limit: file-bytes 18446744073709551615\n",
    ),
    (
        Line::Sound {
            files: 0,
            events: 10,
        },
        "store sound: files 0, events 10\n",
    ),
    (
        Line::Sound {
            files: u64::MAX,
            events: 0,
        },
        "store sound: files 18446744073709551615, events 0\n",
    ),
    (
        Line::Usage,
        "usage: flow run, queues, events, lineage UUID, content UUID, check, trial N; options --threads N --max-commits N --checkpoint N\n",
    ),
    (
        Line::Refused {
            rule: 1,
            place: "/",
        },
        "flow refused: rule 1 at /\n",
    ),
    (
        Line::Refused {
            rule: 255,
            place: "/processors/1/type",
        },
        "flow refused: rule 255 at /processors/1/type\n",
    ),
    (Line::DiskFault, "disk fault\n"),
    (Line::InboxFault, "inbox fault\n"),
    (Line::OutboxFault, "outbox fault\n"),
    (Line::SourceFault, "source fault\n"),
    (Line::OutOfMemory, "out of memory\n"),
    (
        Line::Limit {
            name: "claims",
            number: 1,
        },
        "limit: claims 1\n",
    ),
    (
        Line::Limit {
            name: "files",
            number: 1_048_576,
        },
        "limit: files 1048576\n",
    ),
    (
        Line::Limit {
            name: "numbers",
            number: 4_611_686_018_427_387_903,
        },
        "limit: numbers 4611686018427387903\n",
    ),
];

// A line is one write. Where each byte is one, and the sink fails behind some, these are written.
fn try_line(rt: &impl Abort, alloc: Global, line: &Line, text: &str) -> Result<(), Fail> {
    let mut sink = MemorySink::new(Vec::new(alloc));
    write_line(&mut sink, line)?;
    assert_eq!(rt; sink.written(), text.as_bytes());
    assert_eq!(rt; sink.calls.count, 1);
    for left in 0..text.len() {
        let mut slow = Slow {
            bytes: Vec::new(alloc),
            left,
            faults: 0,
        };
        assert!(rt; write_line(&mut slow, line).is_err());
        assert_eq!(rt; slow.bytes.as_slice(), &text.as_bytes()[..left]);
        assert_eq!(rt; slow.faults, 1);
    }
    Ok(())
}

fn try_plain(rt: &impl Abort, alloc: Global) -> Result<(), Fail> {
    for (line, text) in &PLAIN {
        try_line(rt, alloc, line, text)?;
    }
    for (damage, text) in DAMAGES.iter().zip(&DAMAGED) {
        try_line(
            rt,
            alloc,
            &Line::Damaged(damage),
            &format!(in alloc; "damaged: {text}")?,
        )?;
    }
    Ok(())
}

const KEPT: &str = "00000000-0000-8001-8000-00000000000a";

fn try_files(rt: &impl Abort, alloc: Global) -> Result<(), Fail> {
    let file = uuid_of(1, 10);
    try_line(
        rt,
        alloc,
        &Line::Absent(file),
        &format!(in alloc; "absent: {KEPT}\n")?,
    )?;
    try_line(
        rt,
        alloc,
        &Line::Queued { file, size: 0 },
        &format!(in alloc; "file {KEPT} 0\n")?,
    )?;
    let words = [
        (KinWord::File, "file"),
        (KinWord::Ancestor, "ancestor"),
        (KinWord::Descendant, "descendant"),
    ];
    for (word, text) in &words {
        try_line(
            rt,
            alloc,
            &Line::Kin { word: *word, file },
            &format!(in alloc; "{text} {KEPT}\n")?,
        )?;
    }
    Ok(())
}

// As Python's `json.dumps` has it, with its keys sorted and no spaces.
const CLONED: &str =
    "{\"children\":[\"00000000-0000-8001-8000-00000000000a\",\"00000000-0000-8001-8000-00000000000b\"],\"component\":\"split\",\"detail\":\"\\\"\\\\\\b\\f\\n\\r\\t\\u0001\\u001f \u{7f}é\",\"digest\":\"abababababababababababababababababababababababababababababababab\",\"event\":3,\"kind\":\"CLONE\",\"moment\":0,\"parents\":[],\"size\":18446744073709551615,\"uuid\":\"00000000-0000-8001-8000-00000000000a\"}\n";

fn try_event(rt: &impl Abort, alloc: Global) -> Result<(), Fail> {
    let event = Event {
        number: 3,
        kind: EventKind::Clone,
        moment: 0,
        component: Text::from_str(alloc, "split")?,
        file: 10,
        parents: Numbers::new(alloc),
        children: Numbers::from_slice(alloc, &[10, 11])?,
        detail: Text::from_str(alloc, "\"\\\u{8}\u{c}\n\r\t\u{1}\u{1f} \u{7f}é")?,
        size: u64::MAX,
        digest: [0xab; 32],
    };
    try_line(
        rt,
        alloc,
        &Line::Happened {
            store: 1,
            event: &event,
        },
        CLONED,
    )
}

#[test]
fn lines_say_what_they_should(rt: HostRuntime) -> Result<(), Fail> {
    let alloc = rt.alloc();
    try_plain(&rt, alloc)?;
    try_files(&rt, alloc)?;
    try_event(&rt, alloc)
}
