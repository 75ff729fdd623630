//! What a session is given beside its files.
use flowfile_record::{Bytes, Name};

/// What a session is given: its moment in milliseconds; for a generator the number of this file, counted from 1; for
/// a PutFile whether the outbox has the file's name; for a GetFile the name of the inbox's file and its bytes.
#[derive(Debug, Drop)]
pub struct Given {
    pub moment: u64,
    pub index: u64,
    pub there: bool,
    pub file: Option<Name>,
    pub bytes: Option<Bytes>,
}
