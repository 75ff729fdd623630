//! How a run of a flow ends.
use disk_trait::Damage;
use store_core::Limit;
use thiserror::Error;

/// Nothing is left to do; nothing can be done before room is made in a connection, which is told by its place; a limit
/// was met; or something failed.
#[derive(Clone, Copy, Debug, PartialEq, Eq)]
pub enum Ended {
    Quiet,
    Blocked(u16),
    Limit(Limit),
    Fault(Fault),
}

/// What failed: a device, what the store's files say, or memory was wanting.
#[derive(Clone, Copy, Debug, PartialEq, Eq, Error)]
pub enum Fault {
    #[error("the disk failed")]
    Disk,
    #[error("the inbox failed")]
    Inbox,
    #[error("the outbox failed")]
    Outbox,
    #[error("{0}")]
    Damaged(Damage),
    #[error("out of memory")]
    Memory,
}
