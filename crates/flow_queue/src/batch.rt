//! A batch of a queue's files that are swapped out.
use flowfile_record::Numbered;

/// How many files a batch has, and how many bytes their contents have together.
#[derive(Debug, Drop)]
pub(crate) struct Batch {
    pub(crate) number: u64,
    pub(crate) files: u64,
    pub(crate) bytes: u128,
}

impl Numbered for Batch {
    ghost number = { λ batch. batch.number };

    fn number(&self) -> u64 {
        self.number
    }
}
