//! The statuses with which the program ends.

/// The status of a run that left nothing to do.
pub const DONE: u8 = 0;

/// The status of words that ask for nothing.
pub const USAGE: u8 = 2;

/// The status of a flow's text that breaks a rule, and of a store that was made for another flow.
pub const FLOW_REFUSED: u8 = 3;

/// The status of a store whose files stand for no state.
pub const DAMAGED: u8 = 4;

/// The status of a disk that failed.
pub const DISK_FAULT: u8 = 5;

/// The status of an inbox that failed.
pub const INBOX_FAULT: u8 = 6;

/// The status of an outbox that failed.
pub const OUTBOX_FAULT: u8 = 7;

/// The status of a source of the flow's text that failed.
pub const SOURCE_FAULT: u8 = 8;

/// The status of what is printed to, where that failed and all else was done.
pub const SINK_FAULT: u8 = 9;

/// The status of a run whose sessions were all held back by full connections.
pub const BLOCKED: u8 = 10;

/// The status of a run that a limit ended.
pub const LIMIT: u8 = 11;

/// The status of a want of memory.
pub const OUT_OF_MEMORY: u8 = 12;

/// The status of a query for something that the store doesn't have.
pub const ABSENT: u8 = 13;
