//! Sessions that may come next, and how it ends where none does.
use flowfile_record::{Name, Numbers};

/// What a session takes: files of a connection by their numbers, the index of a file that a generator makes, or a file
/// of the inbox.
#[derive(Debug, Drop)]
pub enum Taking {
    Files { connection: u16, numbers: Numbers },
    Generate { index: u64 },
    Receive { name: Name },
}

/// The session that comes next: the place of its processor, and what it takes.
#[derive(Debug, Drop)]
pub struct Choice {
    pub processor: u16,
    pub taking: Taking,
}

/// Why no session comes: the next penalty of a file ends only then, a full connection holds back what wants to work,
/// or nothing wants to.
#[derive(Clone, Copy, Debug, PartialEq, Eq)]
pub enum Ending {
    Rest { until: u64 },
    Blocked(u16),
    Quiet,
}
