//! The limits of numbers, and how much a session and a state may hold.

/// Past the numbers of files, arrivals, events, batches and logs, past the counters of these, and past counts: 2^62.
pub const NUMBER_LIMIT: u64 = 1 << 62;

/// Past the ids of stores: 2^60.
pub const STORE_LIMIT: u64 = 1 << 60;

/// The size of a SHA-256 digest, in bytes.
pub const DIGEST_SIZE: usize = 32;

/// The greatest number of files of a session, the taken ones and the removed ones too.
pub const FILES_MAX: u64 = 10_000;

/// The greatest number of files that a session takes.
pub const TAKEN_MAX: u64 = 1_000;

/// The greatest encoded size of the attributes of all files of a session together, in bytes: 64 MiB.
pub const SESSION_ATTRIBUTES_MAX: u64 = 67_108_864;

/// The greatest number of bytes that a session is handed as contents: 64 MiB.
pub const WRITTEN_MAX: u64 = 67_108_864;

/// What a made file without the attribute `filename` counts for the one that it is given later, in bytes: the encoded
/// size of a pair of `filename` and a uuid.
pub const FILENAME_SIZE: u64 = 50;

/// The greatest number of files that live, those that are swapped out too.
pub const LIVE_FILES_MAX: u64 = 1_048_576;

/// The greatest size of the encoded records of all files that live together, in bytes: 1 GiB.
pub const LIVE_BYTES_MAX: u64 = 1_073_741_824;

/// How many events a file of events has, at most. Events are forgotten by whole files.
pub const EVENTS_PER_FILE: u64 = 10_000;
