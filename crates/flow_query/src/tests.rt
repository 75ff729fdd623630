//! What queries print of a store that isn't made yet, and what they answer where files or the sink are bad.
use super::*;
use disk_trait::{Damage, Disk, FileKind, FileName, MemoryDisk};
use flowfile_record::uuid_of;
use std::alloc::Global;
use std::test::Fail;
use world_io::MemorySink;

// A file that no store has which is being made.
const STRAY: FileName = FileName {
    kind: FileKind::Claim,
    number: 3,
};

// Whether a query answers so, and prints this.
fn answers(
    alloc: Global,
    disk: &mut MemoryDisk,
    query: Query,
    wanted: Result<(), QueryError>,
    text: &str,
) -> bool {
    let mut sink = MemorySink::new(Vec::new(alloc));
    answer(alloc, query, disk, &mut sink) == wanted && sink.written() == text.as_bytes()
}

// Whether a query tells of the stray file, and prints nothing.
fn tells_of_the_stray(alloc: Global, disk: &mut MemoryDisk, query: Query) -> bool {
    let damage = Damage::Form { file: STRAY, at: 0 };
    answers(alloc, disk, query, Err(QueryError::Damaged(damage)), "")
}

#[test]
fn queries_of_a_store_that_is_not_made_yet(rt: HostRuntime) -> Result<(), Fail> {
    let alloc = rt.alloc();
    let mut disk = MemoryDisk::new(Vec::new(alloc));
    let id = uuid_of(0, 1);
    let absent = Err(QueryError::Absent);
    let sound = "store sound: files 0, events 0\n";
    assert!(rt; answers(alloc, &mut disk, Query::Queues, Ok(()), ""));
    assert!(rt; answers(alloc, &mut disk, Query::Events, Ok(()), ""));
    assert!(rt; answers(alloc, &mut disk, Query::Lineage(id), absent, ""));
    assert!(rt; answers(alloc, &mut disk, Query::Content(id), absent, ""));
    assert!(rt; answers(alloc, &mut disk, Query::Check, Ok(()), sound));
    let mut sink = MemorySink::new(vec![in alloc; 1]?);
    assert!(rt; answer(alloc, Query::Check, &mut disk, &mut sink) == Err(QueryError::Sink));
    disk.write(STRAY, 0, b"x")?;
    assert!(rt; tells_of_the_stray(alloc, &mut disk, Query::Queues));
    assert!(rt; tells_of_the_stray(alloc, &mut disk, Query::Events));
    assert!(rt; tells_of_the_stray(alloc, &mut disk, Query::Lineage(id)));
    assert!(rt; tells_of_the_stray(alloc, &mut disk, Query::Content(id)));
    assert!(rt; tells_of_the_stray(alloc, &mut disk, Query::Check));
    Ok(())
}
