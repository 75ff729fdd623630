//! What the summary of a run says.
use super::Slow;
use crate::write_summary;
use flowfile_record::{
    ActiveFile, ActiveList, Attributes, BatchList, ContentRef, DIGEST_SIZE, EventCounts, FlowFile,
    Numbers, Stored, SwapBatch, Text, TextList,
};
use machine_model::{Connection, ConnectionList, Flow, ProcessorList, QueueLimits};
use prioritizer::Order;
use std::alloc::Global;
use std::process::Abort;
use std::test::Fail;
use world_io::MemorySink;

// The ids of a flow's connections; its active files, each the place of its connection and its content's size; its
// batches, each the place, how many files and how many bytes; how many files are left, and events by kind. Then the
// text, and how many lines it has.
struct Case {
    connections: &'static [&'static str],
    files: &'static [(u16, u64)],
    batches: &'static [(u16, u64, u64)],
    left: u64,
    counts: [u64; 12],
    text: &'static str,
    lines: u64,
}

const CASES: [Case; 3] = [
    Case {
        connections: &[],
        files: &[(0, 1)],
        batches: &[],
        left: 0,
        counts: [0; 12],
        text: "inbox 0\n",
        lines: 1,
    },
    // Sums past 2^64, and files of no connection.
    Case {
        connections: &["in", "é", "out"],
        files: &[(0, 5), (2, 0), (0, 7), (1, u64::MAX), (3, 9), (65_535, 9)],
        batches: &[(0, 10_000, 3), (1, 2, 1), (1, 1, u64::MAX), (3, 8, 8)],
        left: u64::MAX,
        counts: [1, 2, 3, 4, 5, 6, 7, 8, 9, 10, 11, u64::MAX],
        text: "connection in 10002 15\nconnection é 4 36893488147419103231\nconnection out 1 0\ninbox 18446744073709551615\nevent CREATE 1\nevent RECEIVE 2\nevent FORK 3\nevent JOIN 4\nevent CLONE 5\nevent CONTENT_MODIFIED 6\nevent ATTRIBUTES_MODIFIED 7\nevent ROUTE 8\nevent SEND 9\nevent DROP 10\nevent EXPIRE 11\nevent REPLAY 18446744073709551615\n",
        lines: 16,
    },
    // Counts of files past 2^64, and kinds that didn't occur.
    Case {
        connections: &["a", "b"],
        files: &[(1, 0)],
        batches: &[(1, u64::MAX, 0), (1, 9, 10)],
        left: 12,
        counts: [0, 20, 0, 0, 0, 0, 0, 0, 0, 3, 0, 0],
        text: "connection a 0 0\nconnection b 18446744073709551625 10\ninbox 12\nevent RECEIVE 20\nevent DROP 3\n",
        lines: 5,
    },
];

fn connections_of(alloc: Global, ids: &[&str]) -> Result<ConnectionList, Fail> {
    let mut connections = ConnectionList::new(alloc);
    for id in ids {
        connections.push(Connection {
            id: Text::from_str(alloc, id)?,
            source: 0,
            relationships: TextList::new(alloc),
            target: 0,
            order: Order::new(Vec::new(alloc)),
            limits: QueueLimits {
                expiration: 0,
                objects: 0,
                bytes: 0,
                swap: 0,
            },
        })?;
    }
    Ok(connections)
}

fn files_of(alloc: Global, rows: &[(u16, u64)]) -> Result<ActiveList, Fail> {
    let mut files = ActiveList::new(alloc);
    for (place, row) in rows.iter().enumerate() {
        let number = place as u64 + 1;
        files.reserve(1)?;
        if files.get(number).is_some() {
            return Err(Fail::from("the number is there already"));
        }
        files.put(ActiveFile {
            connection: row.0,
            file: FlowFile {
                number,
                attributes: Attributes::new(alloc),
                content: ContentRef {
                    slot: 0,
                    offset: 0,
                    size: row.1,
                    digest: [0; DIGEST_SIZE],
                },
                entered: 0,
                penalty_end: 0,
                arrival: number,
            },
        });
    }
    Ok(files)
}

fn batches_of(alloc: Global, rows: &[(u16, u64, u64)]) -> Result<BatchList, Fail> {
    let mut batches = BatchList::new(alloc);
    for (place, row) in rows.iter().enumerate() {
        let batch = place as u64 + 1;
        batches.reserve(1)?;
        if batches.get(batch).is_some() {
            return Err(Fail::from("the number is there already"));
        }
        batches.put(SwapBatch {
            connection: row.0,
            batch,
            files: row.1,
            bytes: row.2,
            encoded: 0,
        });
    }
    Ok(batches)
}

fn state_of(alloc: Global, case: &Case) -> Result<Stored, Fail> {
    Ok(Stored {
        store: 1,
        flow: [0; DIGEST_SIZE],
        connections: TextList::new(alloc),
        processors: TextList::new(alloc),
        counts: Numbers::new(alloc),
        next_number: 1,
        next_arrival: 1,
        last_event: 0,
        line: 0,
        next_batch: 1,
        files: files_of(alloc, case.files)?,
        batches: batches_of(alloc, case.batches)?,
    })
}

// Each line is one write. Where the sink takes a byte at a time and fails behind some, these are written.
fn try_case(rt: &impl Abort, alloc: Global, case: &Case) -> Result<(), Fail> {
    let flow = Flow {
        processors: ProcessorList::new(alloc),
        connections: connections_of(alloc, case.connections)?,
        digest: [0; DIGEST_SIZE],
    };
    let state = state_of(alloc, case)?;
    let events = EventCounts {
        counts: case.counts,
    };
    let text = case.text.as_bytes();
    let mut sink = MemorySink::new(Vec::new(alloc));
    write_summary(&mut sink, &flow, &state, case.left, &events)?;
    assert_eq!(rt; sink.written(), text);
    assert_eq!(rt; sink.calls.count, case.lines);
    for left in 0..text.len() {
        let mut slow = Slow {
            bytes: Vec::new(alloc),
            left,
            faults: 0,
        };
        assert!(rt; write_summary(&mut slow, &flow, &state, case.left, &events).is_err());
        assert_eq!(rt; slow.bytes.as_slice(), &text[..left]);
        assert_eq!(rt; slow.faults, 1);
    }
    Ok(())
}

#[test]
fn summaries_say_what_they_should(rt: HostRuntime) -> Result<(), Fail> {
    for case in &CASES {
        try_case(&rt, rt.alloc(), case)?;
    }
    Ok(())
}
