//! What a processor and a connection of a flow's text have where the text doesn't say.

/// How long a penalised file waits, in milliseconds.
pub const PENALTY: u64 = 30_000;

/// How many files a MergeContent joins at least and at most, where it doesn't defragment.
pub const MINIMUM_ENTRIES: u32 = 1;

pub const MAXIMUM_ENTRIES: u32 = 1_000;

/// After how many milliseconds a file of a queue expires: never.
pub const EXPIRATION: u64 = 0;

/// With how many files, and with contents of how many bytes, a queue is full.
pub const OBJECTS: u64 = 10_000;

pub const BYTES: u64 = 1_073_741_824;

/// Past how many active files a queue's files are swapped out.
pub const SWAP: u32 = 20_000;
