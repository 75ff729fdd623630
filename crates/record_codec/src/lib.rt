//! How what a store keeps is encoded in its files: blocks, flow files, the log's entries and a snapshot's blocks.
//!
//! A reader takes exactly the encodings; where bytes are none, it tells the offset of the first field that can't be
//! read, or of what is left over.
#![tactic(auto)]

mod active_file;
mod attributes;
mod block;
mod block_entries;
mod content;
mod entry;
mod flow_file;
mod group;
mod head;
mod law;
mod log;
mod snapshot;
mod texts;
mod version;

pub use active_file::{
    active_file_size, active_files_have_one_encoding, read_active_file, write_active_file,
};
pub use block::{
    BLOCK_OVERHEAD, Block, BlockEnd, HEADER_SIZE, PAYLOAD_MAX, append_block, append_parts,
    block_size, blocks_have_one_encoding, read_block, size_by_header,
};
pub use block_entries::{blocks_hold_their_entries, read_entries};
pub use content::SLOT_LIMIT;
pub use entry::{
    ExpireEntry, LogEntry, NO_GENERATOR, SessionEntry, SwapOutEntry, entries_have_one_encoding,
    entry_size, read_entry, sizes_ignore_slots_and_offsets, write_entry,
};
pub use flow_file::{file_size, flow_files_have_one_encoding, read_file, write_file};
pub use flowfile_record::CodecError;
pub use group::{
    GROUP_KIND, Item, Items, group_size, groups_have_one_encoding, read_group, write_group,
};
pub use head::{
    Head, head_size, head_size_of, heads_have_one_encoding, read_head, write_head, write_head_of,
};
pub use law::numbers_of_the_format;
pub use log::{
    CLOSED_GATE, OPEN_GATE, an_open_gate_adds_entries, last_gates_end_a_log,
    the_first_damage_is_told,
};
pub use snapshot::{
    SNAPSHOT_END_SIZE, SWAP_BATCH_SIZE, SnapshotKind, batches_have_one_encoding,
    ends_have_one_encoding, read_snapshot_end, read_swap_batch, sizes_of_batches_and_ends,
    write_snapshot_end, write_swap_batch,
};

/// The first version of the format. A head has no ids of processors and the line 0, and no events age out.
pub const FIRST_VERSION: u8 = 1;

/// The second version. A head has the ids of the processors and the line of the events, and a log may have agings.
pub const SECOND_VERSION: u8 = 2;

/// The version that counts: a log or a snapshot of another one is damage.
pub const FORMAT_VERSION: u8 = FIRST_VERSION;
