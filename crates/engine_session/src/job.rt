//! What a session is handed.
use crate::handing::ReadList;
use flowfile_record::{FileList, Numbers};
use machine_model::Given;

/// A session before its work: its number, its processor's place in the flow, the place of the connection that its files are taken
/// from, their numbers, the files as they stand in the queue, what was read of their contents, and what it is given
/// beside them.
#[derive(Drop)]
pub struct Job {
    pub session: u64,
    pub processor: u16,
    pub connection: u16,
    pub numbers: Numbers,
    pub files: FileList,
    pub contents: ReadList,
    pub given: Given,
}
