//! A case.
use anyhow::{Result, bail};

/// How many files the flow of a trial makes, how many workers run it, which call of the disk fails, from 1 on (none:
/// 0), and how many entries the journal may have.
#[derive(Clone, Copy)]
pub struct Case {
    pub files: u32,
    pub workers: u32,
    pub failing: u64,
    pub most: u32,
}

impl Case {
    /// Four numbers.
    pub fn read(line: &str) -> Result<Case> {
        let mut words = line.split_whitespace();
        let (Some(files), Some(workers), Some(failing), Some(most)) = (
            words.next(),
            words.next(),
            words.next(),
            words.next(),
        ) else {
            bail!("a case has four numbers");
        };
        Ok(Case {
            files: files.parse()?,
            workers: workers.parse()?,
            failing: failing.parse()?,
            most: most.parse()?,
        })
    }
}
