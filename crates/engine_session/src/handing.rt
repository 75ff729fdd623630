//! What a session is handed of the files that a store keeps.
ghost use Rattle.std.specs.Prelude.{◌≡◌, IfOk};
ghost use Rattle.store_core.specs.Store.{kept_by};
ghost use Rattle.engine_session.specs.Handing.{files_fit_a_content, live_among, live_files, taken_as, taken_with_contents};

use flowfile_record::{
    ActiveList, Bytes, CONTENT_MAX, FileList, FlowFile, Sequence, Text, uuid_of,
};
use process_session::{Taken, TakenList};
use std::alloc::{AllocError, Global};
use store_core::Store;

/// What was read of the contents of some files, by the files' places.
pub type ReadList = Sequence<Option<Bytes>>;

/// The live files of these numbers, as they stand.
pub fn live_files(alloc: Global, store: &Store, numbers: &[u64]) -> Result<FileList, AllocError>
    ensures { IfOk result (λ files. files ≡ live_files (kept_by store.now) numbers.now) }
{
    live_among(alloc, &store.state().files, numbers)
}

fn live_among(alloc: Global, live: &ActiveList, numbers: &[u64]) -> Result<FileList, AllocError>
    ensures { IfOk result (λ files. files ≡ live_among live.now.items numbers.now) }
{
    let mut files = FileList::new(alloc);
    for number in numbers {
        match live.get(*number) {
            Some(active) => files.push(active.file.copy()?)?,
            None => {}
        }
    }
    Ok(files)
}

/// Whether the contents of these files together are no larger than one may be. If so, a session is handed them.
pub fn fit_a_content(files: &[FlowFile]) -> bool
    ensures { result ≡ files_fit_a_content files.now }
{
    let mut room = CONTENT_MAX;
    for file in files {
        if file.content.size > room {
            return false;
        }
        room -= file.content.size;
    }
    true
}

/// These files as a session takes them, with what was read of their contents.
pub(crate) fn taken_from(
    alloc: Global,
    store: u64,
    files: &[FlowFile],
    contents: ReadList,
) -> Result<TakenList, AllocError>
    ensures { IfOk result (λ taken. taken ≡ taken_with_contents store files.now contents) }
{
    let mut taken = TakenList::new(alloc);
    for (file, read) in files.iter().zip(contents.into_vec()) {
        taken.push(taken_as(alloc, store, file, read)?)?;
    }
    Ok(taken)
}

fn taken_as(
    alloc: Global,
    store: u64,
    file: &FlowFile,
    read: Option<Bytes>,
) -> Result<Taken, AllocError>
    ensures { IfOk result (λ taken. taken ≡ taken_as store (file.now, read)) }
{
    let id = uuid_of(store, file.number);
    let uuid = format!(in alloc; "{id}")?;
    Ok(Taken {
        attributes: file.attributes.copy()?,
        uuid: Text::from(uuid),
        size: file.content.size,
        bytes: read,
    })
}
