//! The limits of a flow.

/// The greatest number of processors.
pub const PROCESSORS_MAX: u64 = 256;

/// The greatest number of connections.
pub const CONNECTIONS_MAX: u64 = 1_024;

/// The greatest number of connections that one relationship of a processor leads to.
pub const FAN_OUT_MAX: u64 = 8;

/// The greatest size of an id of a processor or a connection, in bytes.
pub const ID_MAX: u64 = 64;

/// The greatest number of properties of a processor's own.
pub const OWN_PROPERTIES_MAX: u64 = 64;

/// The greatest size of the name of a property of a processor's own, in bytes.
pub const OWN_NAME_MAX: u64 = 255;

/// The greatest number of sessions of a processor at a time.
pub const TASKS_MAX: u64 = 16;

/// The longest penalty, in milliseconds: a day.
pub const PENALTY_MAX: u64 = 86_400_000;

/// The greatest expiration in milliseconds, number of files and number of bytes of a connection: 2^53.
pub const QUEUE_LIMIT_MAX: u64 = 1 << 53;

/// The least and the greatest number of active files of a connection past which files are swapped out.
pub const SWAP_MIN: u64 = 2;

pub const SWAP_MAX: u64 = 40_000;

/// The greatest number of files that a generator makes.
pub const GENERATED_MAX: u64 = 1_000_000;

/// The greatest number of copies of a file that are made at once.
pub const COPIES_MAX: u64 = 999;

/// The greatest number of lines of a part that a content is split into.
pub const LINES_MAX: u64 = 1_000_000_000;

/// The greatest size of a value that is extracted from a content, in bytes.
pub const EXTRACTED_MAX: u64 = 1_024;
