//! How many bytes the records of files have.
ghost use Rattle.std.specs.Prelude.{◌≡◌, ◌<◌, ◌≤◌, ◌^◌, length, map, All};
ghost use Rattle.std.specs.List.{sum};
ghost use Rattle.record_codec.specs.ActiveFile.{IsActiveFile};
ghost use Rattle.record_codec.specs.FileEncoding.{flow_file};
ghost use Rattle.checkpoint_store.specs.Consistent.{record_size};
ghost use Rattle.kept_state.specs.Changes.{record_of};

use flowfile_record::{ActiveFile, ActiveList, FlowFile, Placed};

// What a flow file's record has beside the attributes and the digest, in bytes: six numbers and the slot.
const NUMBERS_SIZE: u64 = 52;

/// How many bytes a flow file's record has, whatever its numbers are.
#[tactic(auto, using(crate::proofs::Sizes::file_is))]
pub(crate) fn size_of(file: &FlowFile) -> u64
    ensures size { result ≡ length (flow_file file.now) }
    ensures most { result < 2 ^ 17 }
{
    let digest: &[u8] = &file.content.digest;
    file.attributes.size() + NUMBERS_SIZE + digest.len() as u64
}

/// How many bytes the records of these files have together.
pub(crate) fn bytes_of(files: &[ActiveFile]) -> u64
    requires { length files.now < 2 ^ 32 }
    ensures bytes { result ≡ sum (map record_size files.now) }
    ensures most { result < 2 ^ 49 }
{
    let mut bytes = 0;
    for active in files {
        bytes += size_of(&active.file);
    }
    bytes
}

/// How many bytes the records of these placed files have together.
#[tactic(auto, using(crate::proofs::Sizes::record_is))]
pub(crate) fn bytes_of_placed(placed: &[Placed]) -> u64
    requires { length placed.now < 2 ^ 32 }
    ensures bytes { result ≡ sum (map record_size (map record_of placed.now)) }
    ensures most { result < 2 ^ 49 }
{
    let mut bytes = 0;
    for one in placed {
        bytes += size_of(&one.file);
    }
    bytes
}

/// How many bytes the records of all these files have together.
pub(crate) fn bytes_of_files(files: &ActiveList) -> u64
    requires { sum (map record_size files.now.items) < 2 ^ 64 }
    ensures { result ≡ sum (map record_size files.now.items) }
{
    let mut bytes = 0;
    for active in files.iter() {
        bytes += size_of(&active.file);
    }
    bytes
}
